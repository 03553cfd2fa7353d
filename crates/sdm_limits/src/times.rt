//! The times of reaction, from the times of the train's brakes and of its traction cut-off.

ghost use Rattle.std.specs.Prelude.{◌≡◌, ◌%◌, ◌≤◌, ℕ, Bool};
ghost use Rattle.sdm_rules.specs.Reaction.{t_traction, times_of};
ghost use Rattle.sdm_limits.specs.Ranges.{AreTimes, most_time};

use sdm_rules::Times;

/// T_warning, in ds: how long before the service brake the driver is warned. (SUBSET-026-3 A.3.1; own value)
pub const T_WARNING: u32 = 20;

/// T_driver, in ds: how long the driver has from the permitted limit on. (SUBSET-026-3 A.3.1; own value)
pub(crate) const T_DRIVER: u32 = 40;

/// The least of T_indication before the driver's time, in ds. (SUBSET-026-3 3.13.9.3; own value)
const INDICATION_LEAST: u32 = 50;

/// What is found from the times of a train. A trait, since `Times` stands among the definitions, which have no code.
pub trait OfTrain {
    ghost of_gives: { ℕ → Bool → ℕ → ℕ → Bool → Self };

    /// The times of a train, all in ds and at most 300: of its traction cut-off, with whether it has an interface for
    /// that, and the build-up times of its emergency brake and its service brake, with whether the service brake is in
    /// use. The service brake's is in steps of 5 ds, so that 0.8 of it is whole. (ranges own)
    fn of(cut_off: u32, interface: bool, emergency: u32, service: u32, service_used: bool) -> Self
        requires cut_off { cut_off ≤ most_time }
        requires emergency { emergency ≤ most_time }
        requires service { service ≤ most_time }
        requires steps { service % 5 ≡ 0 }
        ensures value { result ≡ of_gives cut_off interface emergency service service_used };
}

impl OfTrain for Times {
    ghost of_gives = { times_of };

    fn of(cut_off: u32, interface: bool, emergency: u32, service: u32, service_used: bool) -> Times
        requires cut_off { cut_off ≤ most_time }
        requires emergency { emergency ≤ most_time }
        requires service { service ≤ most_time }
        requires steps { service % 5 ≡ 0 }
        ensures value { result ≡ times_of cut_off interface emergency service service_used }
        ensures range { AreTimes result }
    {
        let bs = if service_used { service } else { 0 };
        let traction = traction_time(cut_off, interface, bs);
        Times {
            traction,
            // T_berem = max(T_be - T_traction, 0) (SUBSET-026-3 3.13.9.3.2)
            berem: emergency.saturating_sub(traction),
            bs,
            // T_indication = max(0.8 * T_bs, 5 s) + T_driver (SUBSET-026-3 3.13.9.3.6; values own)
            indication: (4 * bs / 5).max(INDICATION_LEAST) + T_DRIVER,
        }
    }
}

/// T_traction: with an interface the traction is cut off from the warning on, max(T_traction_cut_off - (T_warning +
/// T_bs), 0); without one, T_traction_cut_off. (SUBSET-026-3 3.13.9.3.2)
fn traction_time(cut_off: u32, interface: bool, bs: u32) -> u32
    requires { bs ≤ most_time }
    ensures { result ≡ t_traction cut_off interface bs }
{
    if interface {
        cut_off.saturating_sub(T_WARNING + bs)
    } else {
        cut_off
    }
}

//! By how much the speed may exceed a limit before the driver is warned and the brakes are commanded. Each margin is
//! least at limits up to 110 km/h and rises evenly from there to a greatest value. At whole km/h each is a whole
//! number of notches, so nothing is rounded.
#![tactic(auto)]

ghost use Rattle.std.specs.Prelude.{◌≡◌, ◌≤◌};
ghost use Rattle.sdm_rules.specs.Margins.{ebi_margin, sbi_margin, warning_margin};
ghost use Rattle.sdm_rules.specs.Ranges.{top_kmh};

use sdm_num::Speed;

/// V_min: up to this limit, in km/h, each margin is its least value. (own)
const V_MIN_KMH: u16 = 110;

/// The margins over a limit. (SUBSET-026-3 3.13.9.2)
#[derive(Clone, Copy, Debug)]
pub struct Margins {
    /// dV_warning, above which the driver is warned.
    pub warning: Speed,
    /// dV_sbi, above which the service brake is commanded.
    pub sbi: Speed,
    /// dV_ebi, above which the emergency brake is commanded.
    pub ebi: Speed,
}

impl Margins {
    /// Those of a limit in km/h, at most 500. dV_warning is 4 km/h up to 110 km/h, then 1/30 km/h more for each km/h,
    /// up to 5 km/h at 140 km/h and above; dV_sbi is 5.5 km/h, then 0.045 km/h more, up to 10 km/h at 210 km/h and
    /// above; dV_ebi is 7.5 km/h, then 0.075 km/h more, up to 15 km/h at 210 km/h and above. (SUBSET-026-3 3.13.9.2;
    /// own values)
    pub fn of_kmh(kmh: u16) -> Margins
        requires { kmh ≤ top_kmh }
        ensures warning { result.warning ≡ warning_margin kmh }
        ensures sbi { result.sbi ≡ sbi_margin kmh }
        ensures ebi { result.ebi ≡ ebi_margin kmh }
    {
        let above = u32::from(kmh.saturating_sub(V_MIN_KMH));
        Margins {
            warning: Speed::new((60_000 + 500 * above).min(75_000)),
            sbi: Speed::new((82_500 + 675 * above).min(150_000)),
            ebi: Speed::new((112_500 + 1_125 * above).min(225_000)),
        }
    }
}

/// dV_ebi of a limit in km/h, at most 500. (SUBSET-026-3 3.13.9.2; own values)
pub fn dv_ebi(kmh: u16) -> Speed
    requires { kmh ≤ top_kmh }
    ensures { result ≡ ebi_margin kmh }
{
    Margins::of_kmh(kmh).ebi
}

/// dV_sbi of a limit in km/h, at most 500. (SUBSET-026-3 3.13.9.2; own values)
pub fn dv_sbi(kmh: u16) -> Speed
    requires { kmh ≤ top_kmh }
    ensures { result ≡ sbi_margin kmh }
{
    Margins::of_kmh(kmh).sbi
}

/// dV_warning of a limit in km/h, at most 500. (SUBSET-026-3 3.13.9.2; own values)
pub fn dv_warning(kmh: u16) -> Speed
    requires { kmh ≤ top_kmh }
    ensures { result ≡ warning_margin kmh }
{
    Margins::of_kmh(kmh).warning
}

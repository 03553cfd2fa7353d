//! What the train may do from the moment on that its emergency brake is commanded until it works.

ghost use Rattle.std.specs.Prelude.{◌≡◌, ◌+◌, ◌^◌, ◌<◌, ◌≤◌, ◌≤ℤ◌, pos, negsuc};
ghost use Rattle.sdm_num.specs.Units.{notches, notches_of_mm_s};
ghost use Rattle.sdm_rules.specs.Reaction.{build_up, d_bec, v_bec};
ghost use Rattle.sdm_rules.specs.Ranges.{top_kmh};
ghost use Rattle.sdm_limits.specs.Ranges.{AreTimes};

use sdm_num::Speed;
use sdm_rules::Times;
use std::marker::Model;

/// The most of A_est2, in cm/s². (SUBSET-026-3 3.13.9.3.2; own value)
const A_EST2_MOST: u32 = 40;

/// What the train may do from the emergency brake command on until the brake works. (SUBSET-026-3 3.13.9.3.2)
#[derive(Clone, Copy, Debug, PartialEq, Eq)]
pub struct Reaction {
    /// V_bec: the greatest speed when the emergency brake works, and at least that of the target.
    pub v_bec: Speed,
    /// D_bec: the greatest distance in grains until then.
    pub d_bec: u64,
}

/// How the train goes on from the emergency brake command until the brake works, whichever the target is: speeds in
/// notches, accelerations in cm/s², times in ds; 1 cm/s² gains 54 notches in a ds. (SUBSET-026-3 3.13.9.3.2)
#[derive(Debug, Drop)]
pub struct BuildUp {
    /// V_est + V_delta0.
    speed: u32,
    a_est1: u32,
    a_est2: u32,
    traction: u32,
    berem: u32,
    /// A_est1 * T_traction: how much the speed may rise until the traction is cut off.
    v_delta1: u32,
    /// A_est2 * T_berem: how much it may rise after that.
    v_delta2: u32,
}

impl Model for BuildUp {
    ghost use Rattle.sdm_rules.specs.Reaction.{BuildUp as BuildUpOf};
    ghost use Rattle.sdm_limits.specs.Ranges.{IsBuildUp};

    ghost Value = { BuildUpOf };

    ghost view = { λ b. record {
      speed = b.speed;
      accel1 = b.a_est1;
      accel2 = b.a_est2;
      traction = b.traction;
      berem = b.berem;
    } };

    ghost invariant = { λ b. IsBuildUp (record {
      speed = b.speed;
      accel1 = b.a_est1;
      accel2 = b.a_est2;
      traction = b.traction;
      berem = b.berem;
    })
        b.v_delta1 b.v_delta2 };
}

impl BuildUp {
    /// From the estimated speed `v` on; `under` is V_delta0, the under-reading amount where it is compensated, else 0.
    /// Each time is at most 300 ds, `v` at most 500 km/h, `under` at most 10,000 mm/s, and the estimated acceleration
    /// from −300 to 300 cm/s². (SUBSET-026-3 3.13.9.3.2; ranges own)
    pub fn of(times: &Times, v: Speed, under: Speed, accel: i16) -> BuildUp
        requires times { AreTimes times.now }
        requires speed { v ≤ notches top_kmh }
        requires under { under ≤ notches_of_mm_s 10_000 }
        requires slowing { negsuc 299 ≤ℤ accel }
        requires gaining { accel ≤ℤ pos 300 }
        ensures { result ≡ build_up times.now (v + under) accel }
    {
        // A_est1 is the estimated acceleration, 0 if it is negative; A_est2 is at most 0.4 m/s² (SUBSET-026-3
        // 3.13.9.3.2)
        let a_est1 = accel.max(0) as u32;
        let a_est2 = a_est1.min(A_EST2_MOST);
        BuildUp {
            speed: v.notches() + under.notches(),
            a_est1,
            a_est2,
            traction: times.traction,
            berem: times.berem,
            // V_delta1 = A_est1 * T_traction, V_delta2 = A_est2 * T_berem (SUBSET-026-3 3.13.9.3.2)
            v_delta1: 54 * a_est1 * times.traction,
            v_delta2: 54 * a_est2 * times.berem,
        }
    }

    /// V_bec and D_bec for a target with a speed of at most 500 km/h. (SUBSET-026-3 3.13.9.3.2)
    // In line: where V_bec alone is asked, D_bec isn't worked out.
    #[inline(always)]
    pub fn reaction(&self, target: Speed) -> Reaction
        requires { target ≤ notches top_kmh }
        ensures v_bec { result.v_bec ≡ v_bec self.now target }
        ensures d_bec { result.d_bec ≡ d_bec self.now target }
        ensures small { result.d_bec < 10 ^ 16 }
    {
        // the greatest speed at the end of T_traction, and at least that of the target
        let v_cut_off = (self.speed + self.v_delta1).max(target.notches());
        // the greatest mean speeds until then and after it
        let v_mean = Speed::new((self.speed + self.v_delta1 / 2).max(target.notches()));
        let v_after = Speed::new(v_cut_off + self.v_delta2 / 2);
        Reaction {
            // V_bec = max(V_est + V_delta0 + V_delta1, V_target) + V_delta2 (SUBSET-026-3 3.13.9.3.2)
            v_bec: Speed::new(v_cut_off + self.v_delta2),
            // D_bec = max(V_est + V_delta0 + V_delta1 / 2, V_target) * T_traction
            //     + (max(V_est + V_delta0 + V_delta1, V_target) + V_delta2 / 2) * T_berem (SUBSET-026-3 3.13.9.3.2)
            d_bec: v_mean.distance_at(self.traction) + v_after.distance_at(self.berem),
        }
    }
}

/// V_bec and D_bec from the estimated speed `v` on, for a target with a speed; `under` is V_delta0, the under-reading
/// amount where it is compensated, else 0. Each time is at most 300 ds, `v` and the target's speed at most 500 km/h,
/// `under` at most 10,000 mm/s, and the estimated acceleration from −300 to 300 cm/s². (SUBSET-026-3 3.13.9.3.2;
/// ranges own)
pub fn reaction_of(times: &Times, v: Speed, under: Speed, accel: i16, target: Speed) -> Reaction
    requires times { AreTimes times.now }
    requires speed { v ≤ notches top_kmh }
    requires under { under ≤ notches_of_mm_s 10_000 }
    requires slowing { negsuc 299 ≤ℤ accel }
    requires gaining { accel ≤ℤ pos 300 }
    requires target { target ≤ notches top_kmh }
    ensures v_bec { result.v_bec ≡ v_bec (build_up times.now (v + under) accel) target }
    ensures d_bec { result.d_bec ≡ d_bec (build_up times.now (v + under) accel) target }
    ensures small { result.d_bec < 10 ^ 16 }
{
    BuildUp::of(times, v, under, accel).reaction(target)
}

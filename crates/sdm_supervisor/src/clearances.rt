//! The first place that a reading is clear of. A later place is clear wherever an earlier one is, so it is found by
//! halving the millimetres of the track, in 27 turns.

ghost use Rattle.std.specs.Prelude.{◌≡◌, ◌≤◌, ◌^◌, false, MatchOption};
ghost use Rattle.sdm_rules.specs.declared.data.SlopeKind.TheVariants.{Expected};
ghost use Rattle.sdm_rules.specs.Decelerations.{slopes_of};
ghost use Rattle.sdm_rules.specs.Reaction.{build_up_of, d_bec, v_bec};
ghost use Rattle.sdm_rules.specs.Slopes.{IsUsable};
ghost use Rattle.sdm_row_laws.specs.Clearances.{start_with};
ghost use Rattle.sdm_supervisor.specs.Clearances.{IsFirstCleared, clears_mm};

use crate::allowances::Allowance;
use sdm_braking::Braking;
use sdm_curve::Curve;
use sdm_num::{MILLIMETRE, Place, Reading, Speed};

/// As often as the millimetres of the longest track, 100 km, are halved until one is left.
const HALVINGS: u32 = 27;

/// How a train runs until its service brake works: from a front end on so many grains, and then it has a speed. (own)
#[derive(Clone, Copy, Debug)]
pub struct RunUp {
    pub front: Place,
    pub way: u64,
    pub speed: Speed,
}

impl RunUp {
    /// How the train of a reading runs with an allowance until its service brake works, T_bs later. (own)
    pub fn of(braking: &Braking, reading: &Reading, allowance: Allowance) -> RunUp
        ensures front { result.front ≡ (start_with allowance braking.now reading.now).front }
        ensures way { result.way ≡ d_bec (build_up_of (start_with allowance braking.now reading.now)) 0 }
        ensures speed { result.speed ≡ v_bec (build_up_of (start_with allowance braking.now reading.now)) 0 }
        ensures small { result.way ≤ 10 ^ 16 }
    {
        // the time is told with it that the reading is in its ranges
        prove!(reading.time() <= 100_000_000);
        let bs = braking.times().bs;
        let begins = reading.speed_mm_s().plus(allowance.speed());
        let accel = u32::from(allowance.accel());
        // 1 cm/s² gains 54 notches in a ds, so 27 in the mean
        let mean = Speed::new(begins.notches() + 27 * accel * bs);
        RunUp {
            front: reading.est_mm().more(allowance.front()),
            way: mean.distance_at(bs),
            speed: Speed::new(begins.notches() + 54 * accel * bs),
        }
    }

    /// Whether the train then stops by a place in mm, at most 100 km on. (own)
    // Large, and called at two places.
    #[inline(never)]
    fn clears(&self, braking: &Braking, mm: u32) -> bool
        requires way { self.now.way ≤ 10 ^ 16 }
        requires place { mm ≤ 100_000_000 }
        ensures value { result ≡ clears_mm (slopes_of Expected braking.now) self.now.front self.now.way self.now.speed mm }
        ensures usable { IsUsable (slopes_of Expected braking.now) }
    {
        let expected = braking.expected();
        let foot = Place::new(MILLIMETRE * i64::from(mm));
        let curve = Curve::from_foot(expected, foot, Speed::new(0));
        let latest = curve.place(expected, self.speed).less(self.way);
        !latest.is_passed_by(self.front)
    }

    /// The first place in mm, from 0 to the last one, at most 100 km on, by which the train then stops. (own)
    pub fn first_clear(&self, braking: &Braking, last_mm: u32) -> Option<u32>
        requires way { self.now.way ≤ 10 ^ 16 }
        requires last { last_mm ≤ 100_000_000 }
        ensures found { MatchOption result
            (clears_mm (slopes_of Expected braking.now) self.now.front self.now.way self.now.speed last_mm ≡ false)
            (IsFirstCleared (slopes_of Expected braking.now) self.now.front self.now.way self.now.speed last_mm) }
    {
        if !self.clears(braking, last_mm) {
            return None;
        }
        let mut first = 0;
        let mut clear = last_mm;
        for _turn in (0..HALVINGS).rev() {
            if first < clear {
                let middle = first + (clear - first) / 2;
                if self.clears(braking, middle) {
                    clear = middle;
                } else {
                    first = middle + 1;
                }
            }
        }
        Some(clear)
    }
}

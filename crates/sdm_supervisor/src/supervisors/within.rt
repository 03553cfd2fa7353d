//! What a closed-loop drive and a stop certificate ask of a supervisor beside its rows: with which slopes and how late
//! the emergency brake works, and whether a reading is within the SvL.

ghost use Rattle.std.specs.Prelude.{◌≡◌, ℕ, false, IsTrue, MatchOption};
ghost use Rattle.sdm_rules.specs.declared.data.SlopeKind.TheVariants.{Safe};
ghost use Rattle.sdm_rules.specs.Decelerations.{slopes_of};
ghost use Rattle.sdm_rules.specs.Reaction.{reaction_times, v_delta0};
ghost use Rattle.sdm_rules.specs.Slopes.{meaning_of};
ghost use Rattle.sdm_rules.specs.Targets.{svl_target};
ghost use Rattle.sdm_rules.specs.Within.{StopsByItsSvl, is_before_svl, is_within_svl};
ghost use Rattle.sdm_decel.specs.StretchCells.{AreStretches};
ghost use Rattle.sdm_limits.specs.Ranges.{AreTimes};
ghost use Rattle.sdm_braking.specs.KeptCurves.{IsKeptAt, IsKeptTarget};
ghost use Rattle.sdm_supervisor.specs.Supervised.{IsClaimOf};

use super::Supervisor;
use sdm_braking::{Braking, KeptEnd, KeptTarget};
use sdm_curve::{BandMap, Curve};
use sdm_num::{Place, Reading, Speed};
use sdm_rules::Times;
use sdm_targets::Authority;

/// Whether the max safe front end is at or before the EBI of a kept SvL. (SUBSET-026-3 3.13.9.3.2; own)
fn is_before_svl(braking: &Braking, reading: &Reading, svl: &KeptTarget) -> bool
    requires { IsKeptTarget braking.now svl.now }
    ensures { (cm : ℕ) → IsKeptAt braking.now (svl_target cm) svl.now →
        result ≡ is_before_svl braking.now reading.now cm }
{
    let asked = braking.asked(reading.estimate());
    braking.is_before_ebi(&asked, svl, reading.max_mm())
}

impl Supervisor {
    /// The map of A_safe, with which the emergency brake works: at most 2,000 segments, none past cell 10,150,000.
    /// (SUBSET-026-3 3.13.6.2)
    pub fn safe_map(&self) -> &BandMap
        ensures slopes { meaning_of result.now ≡ slopes_of Safe self.now.train_and_track }
        ensures segments { AreStretches self.now.train_and_track.track self.now.train_and_track.train.length_cm
            result.now.starts }
    {
        self.braking.safe()
    }

    /// The times of reaction: T_traction, T_berem and the others, each at most 300 ds. (SUBSET-026-3 3.13.9.3)
    pub fn times(&self) -> &Times
        ensures value { result.now ≡ reaction_times self.now.train_and_track }
        ensures range { AreTimes result.now }
    {
        self.braking.times()
    }

    /// Whether the compensation of under-reading is inhibited (Q_NVINHSMICPERM). (SUBSET-026-3 3.13.9.3.2)
    pub fn inhibits_under_reading(&self) -> bool
        ensures { result ≡ self.now.train_and_track.national.inhibit_under_reading }
    {
        self.braking.inhibits_under_reading()
    }

    /// V_delta0 of a reading: by how much the true speed may be above the estimated one; 0 where the compensation is
    /// inhibited. No memory is taken. (SUBSET-026-3 3.13.9.3.2)
    pub fn under(&self, reading: &Reading) -> Speed
        ensures { result ≡ v_delta0 self.now.train_and_track reading.now.under }
    {
        self.braking.v_delta0(reading.under_mm_s())
    }

    /// Whether a reading is within the SvL: the authority is a stop, the train isn't in release speed monitoring, and
    /// its max safe front end is at or before the EBI of the SvL. Then every motion within the bounds of the reading
    /// stops at or before the SvL. No memory is taken. (own)
    pub fn within_svl(&self, reading: &Reading) -> bool
        ensures value { result ≡ is_within_svl self.now reading.now }
        ensures stops { IsTrue result → StopsByItsSvl self.now reading.now }
    {
        let KeptEnd::Stop { svl, .. } = &*self.kept.end else {
            return false;
        };
        if let Some(release) = self.kept.release {
            if release.start.is_passed_by(reading.max_mm()) {
                return false;
            }
        }
        // the length is told with it that the data are accepted
        prove!(1 <= self.braking.track_cm());
        is_before_svl(&self.braking, reading, svl)
    }

    /// The place of the SvL and its EBD, by which every motion within the bounds of the reading stops at or before it;
    /// none exactly where the reading isn't within the SvL. No memory is taken. (SUBSET-026-3 3.13.8.3; own)
    pub fn claim(&self, reading: &Reading) -> Option<(Place, Curve)>
        ensures { MatchOption result (is_within_svl self.now reading.now ≡ false)
            (λ claim. IsClaimOf self.now reading.now claim.0 claim.1) }
    {
        let svl = match self.authority {
            Authority::Stop { svl, .. } => svl,
            Authority::Limit { .. } => return None,
        };
        if !self.within_svl(reading) {
            return None;
        }
        // the length is told with it that the authority ends on the track
        prove!(1 <= self.braking.track_cm());
        Some((Place::of_cm_from_0(svl), *self.authority_curve()))
    }
}

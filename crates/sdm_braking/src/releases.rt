//! Release speed monitoring: where it begins for an authority, whether a front end is past that, and the release speed
//! that is calculated. The start follows from the data and the authority alone, so it is found once, when the authority
//! is taken.

ghost use Rattle.std.specs.Prelude.{◌≡◌, ◌≤◌, ◌≤ℤ◌, ℕ, None, pos};
ghost use Rattle.sdm_rules.specs.declared.data.SlopeKind.TheVariants.{Expected, Safe};
ghost use Rattle.sdm_rules.specs.Cells.{place_of_cell};
ghost use Rattle.sdm_rules.specs.Decelerations.{slopes_of};
ghost use Rattle.sdm_rules.specs.Limits.{computed, release_start};
ghost use Rattle.sdm_rules.specs.Records.{authority_fault};
ghost use Rattle.sdm_rules.specs.Release.{calculated};
ghost use Rattle.sdm_rules.specs.Ranges.{top_kmh};
ghost use Rattle.sdm_curve.specs.Made.{IsMadeFrom};
ghost use Rattle.sdm_limits.specs.Sides.{place_of};
ghost use Rattle.sdm_braking.specs.Braking.{IsSupervisable};
ghost use Rattle.sdm_braking.specs.Releases.{IsReleaseOf};
ghost use Rattle.sdm_braking.specs.KeptCurves.{IsCurveOn, IsKeptEnd};

use crate::braking::Braking;
use crate::kept_ends::KeptEnd;
use sdm_curve::Curve;
use sdm_num::{Early, Place, Speed};
use sdm_release::{release_speed, release_start};
use sdm_targets::Authority;

/// The release speed of an authority with the start of its monitoring, as a supervisor keeps it. (SUBSET-026-3
/// 3.13.9.4; own)
#[derive(Clone, Copy, Debug, PartialEq, Eq)]
pub struct Release {
    /// The max safe front end past which the release speed is monitored.
    pub start: Early,
    /// The release speed, 1 to 500 km/h.
    pub speed_kmh: u16,
}

impl Braking {
    /// Where release speed monitoring starts, by the EBD of the SvL, the SBD of the EOA and a release speed of at most
    /// 500 km/h. (SUBSET-026-3 3.13.9.4; own form)
    fn release_start(&self, ebd: &Curve, sbd: &Curve, release_kmh: u16) -> Early
        requires ebd { IsMadeFrom (slopes_of Safe self.now) ebd.now }
        requires sbd { IsMadeFrom (slopes_of Expected self.now) sbd.now }
        requires release { release_kmh ≤ top_kmh }
        ensures { (eoa svl : ℕ) →
            IsCurveOn (slopes_of Safe self.now) (place_of_cell (pos svl)) 0 ebd.now →
            IsCurveOn (slopes_of Expected self.now) (place_of_cell (pos eoa)) 0 sbd.now →
            place_of result ≡ release_start computed self.now eoa svl release_kmh }
    {
        release_start(
            self.safe(),
            ebd,
            self.expected(),
            sbd,
            self.times(),
            Speed::of_kmh(release_kmh),
        )
    }

    /// The calculated release speed in km/h of a stop with its SvL at `svl` cm on the track, for a train that is
    /// tripped at `trip` cm, at or before the SvL. No memory is taken. (SUBSET-026-3 3.13.9.4.8; form own)
    // Seldom called, and large, as `release`.
    #[inline(never)]
    pub fn calculated_release(&self, svl: u32, trip: u32) -> u16
        requires svl { pos svl ≤ℤ self.now.track.length_cm }
        requires trip { trip ≤ svl }
        ensures value { result ≡ calculated self.now svl trip }
        ensures range { result ≤ top_kmh }
        ensures accepted { IsSupervisable self.now }
    {
        prove!(svl <= self.track_cm());
        let ebd = Curve::from_foot(self.safe(), Place::of_cm_from_0(svl), Speed::new(0));
        release_speed(self.safe(), &ebd, self.t_be(), Place::of_cm_from_0(trip))
    }

    /// What is kept of an authority's release speed, by the curves that are kept of its end; none where it has no
    /// release speed. (SUBSET-026-3 3.13.9.4; own)
    // Seldom called, and large: inlined into the loop over records it would slow each reading.
    #[inline(never)]
    pub fn release(&self, authority: &Authority, end: &KeptEnd) -> Option<Release>
        requires authority { authority_fault self.now.track.length_cm authority.now ≡ None }
        requires end { IsKeptEnd self.now authority.now end.now }
        ensures { IsReleaseOf self.now authority.now result }
    {
        let Authority::Stop { release, .. } = *authority else {
            return None;
        };
        if release == 0 {
            return None;
        }
        match end {
            KeptEnd::Stop { eoa, svl } => Some(Release {
                start: self.release_start(&svl.brake, &eoa.brake, release),
                speed_kmh: release,
            }),
            KeptEnd::Limit { .. } => None,
        }
    }
}

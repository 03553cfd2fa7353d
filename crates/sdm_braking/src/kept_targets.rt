//! A target as a supervisor keeps it between records: with the speeds above which it is passed, and with its brake
//! curves. All follow from the train, the track and the target alone.

ghost use Rattle.std.specs.Prelude.{◌≡◌};
ghost use Rattle.sdm_rules.specs.Decelerations.{slopes_of};
ghost use Rattle.sdm_rules.specs.Slopes.{meaning_of};
ghost use Rattle.sdm_rules.specs.Targets.{foot_speed_of};
ghost use Rattle.sdm_targets.specs.Lists.{IsTarget};
ghost use Rattle.sdm_braking.specs.KeptCurves.{AreSpeedsOf, IsCurveOn, IsGuideOf, IsKeptTarget, brake_kind, is_guided};

use crate::braking::Braking;
use crate::speeds::SpeedLimits;
use sdm_curve::{BandMap, Curve};
use sdm_targets::{Target, TargetKind};

/// A target with its speeds and its curves. (SUBSET-026-3 3.13.8.3 to 3.13.8.5, 3.13.9.2; own)
#[derive(Clone, Copy, Debug)]
pub struct KeptTarget {
    pub target: Target,
    /// The speeds above which it is passed: the target speed, and with each of its margins.
    pub speeds: SpeedLimits,
    /// The EBD; of an EOA the SBD.
    pub brake: Curve,
    /// The guidance curve, where guidance is permitted; none of the SvL.
    pub guide: Option<Curve>,
}

impl Braking {
    /// The map on which the brake curve of a target of a kind stands: of the EOA the SBD's, else the EBD's.
    /// (SUBSET-026-3 3.13.8.3, 3.13.8.4)
    fn brake_map(&self, kind: TargetKind) -> &BandMap
        ensures { meaning_of result.now ≡ slopes_of (brake_kind kind) self.now }
    {
        match kind {
            TargetKind::Mrsp | TargetKind::Loa | TargetKind::Svl => self.safe(),
            TargetKind::Eoa => self.expected(),
        }
    }

    /// Whether a target has a guidance curve; the SvL has none of its own. (SUBSET-026-3 3.13.8.5; own)
    fn is_guided(&self, target: &Target) -> bool
        ensures { result ≡ is_guided self.now target.now.kind }
    {
        match target.kind {
            TargetKind::Mrsp | TargetKind::Loa | TargetKind::Eoa => self.has_guidance(),
            TargetKind::Svl => false,
        }
    }

    /// Puts the guidance curve of a target, where it has one, in the place of another one: its foot is at the target
    /// place, with the target speed. (SUBSET-026-3 3.13.8.5; own feet)
    fn guide_over(&self, target: &Target, speeds: &SpeedLimits, guide: &mut Option<Curve>)
        requires target { IsTarget target.now }
        requires speeds { AreSpeedsOf target.now speeds.now }
        ensures { IsGuideOf self.now target.now guide.new }
    {
        if self.is_guided(target) {
            *guide = Some(Curve::from_foot(self.normal(), target.place, speeds.permitted));
        } else if guide.is_some() {
            *guide = None;
        }
    }

    /// A target with its speeds and its curves.
    pub fn keep(&self, target: Target) -> KeptTarget
        requires { IsTarget target }
        ensures target { result.target ≡ target }
        ensures kept { IsKeptTarget self.now result }
    {
        let speeds = SpeedLimits::of_target(&target);
        let mut kept = KeptTarget {
            target,
            speeds,
            brake: Curve::from_foot(self.brake_map(target.kind), target.place, speeds.ebi),
            guide: None,
        };
        self.guide_over(&target, &speeds, &mut kept.guide);
        kept
    }

    /// Puts a target with its speeds and its curves in the place of another one, so that no curve is moved.
    pub fn keep_over(&self, target: Target, kept: &mut KeptTarget)
        requires { IsTarget target }
        ensures target { kept.new.target ≡ target }
        ensures kept { IsKeptTarget self.now kept.new }
    {
        let speeds = SpeedLimits::of_target(&target);
        kept.target = target;
        kept.speeds = speeds;
        kept.brake
            .take_foot(self.brake_map(target.kind), target.place, speeds.ebi);
        self.guide_over(&target, &speeds, &mut kept.guide);
    }
}

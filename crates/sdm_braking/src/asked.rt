//! An estimate with what every target's limits ask of it. For a target that is no faster than the train V_bec and
//! D_bec do not depend on the target, since the greater of both speeds is the train's: so they are worked out once a
//! reading.

ghost use Rattle.std.specs.Prelude.{◌≡◌};
ghost use Rattle.sdm_rules.specs.Data.{TrainAndTrack};
ghost use Rattle.sdm_rules.specs.Limits.{v_bec_for};
ghost use Rattle.sdm_rules.specs.Reaction.{v_delta0};
ghost use Rattle.sdm_rules.specs.Supervision.{is_met_by_speed};
ghost use Rattle.sdm_rules.specs.Targets.{foot_speed_of};
ghost use Rattle.sdm_targets.specs.Lists.{IsTarget};
ghost use Rattle.sdm_braking.specs.Asked.{IsAsked};
ghost use Rattle.sdm_braking.specs.KeptCurves.{AreSpeedsOf};

use crate::braking::Braking;
use crate::kept_targets::KeptTarget;
use sdm_curve::AskedSpeed;
use sdm_limits::BuildUp;
use sdm_num::{Estimate, Speed};
use sdm_targets::TargetKind;

/// An estimate with what the limits of targets ask of it. (SUBSET-026-3 3.13.9.3; own)
#[derive(Debug, Drop)]
pub struct AskedEstimate {
    pub estimate: Estimate,
    /// V_delta0: by how much the true speed may be above the estimated one. (SUBSET-026-3 3.13.9.3.2)
    pub v_delta0: Speed,
    /// What the train may do until its emergency brake works, whichever the target.
    pub build_up: BuildUp,
    /// V_bec on the map of A_safe, for every target that is no faster than the train.
    pub v_bec: AskedSpeed,
    /// D_bec in grains, for the same targets.
    pub d_bec: u64,
    /// V_est on the map of A_normal_service, where guidance curves are permitted.
    pub guided_v_est: Option<AskedSpeed>,
}

impl Braking {
    /// V_delta0: by how much the true speed may be above an estimated one that is read too low by so much; 0 where the
    /// compensation of under-reading is inhibited. (SUBSET-026-3 3.13.9.3.2)
    #[inline]
    pub fn v_delta0(&self, under: Speed) -> Speed
        ensures { result ≡ v_delta0 self.now under }
    {
        if self.inhibits_under_reading() {
            Speed::new(0)
        } else {
            under
        }
    }

    /// An estimate with what the limits of this journey ask of it.
    // In line, as the limits that ask by it.
    #[inline(always)]
    pub fn asked(&self, estimate: Estimate) -> AskedEstimate
        ensures estimate { result.estimate ≡ estimate }
        ensures asked { IsAsked self.now result }
    {
        let v_est = estimate.speed();
        let v_delta0 = self.v_delta0(estimate.under());
        let build_up = BuildUp::of(self.times(), v_est, v_delta0, estimate.accel());
        // the slowest of the targets stands for all that are no faster than the train
        let reaction = build_up.reaction(Speed::new(0));
        let mut asked = AskedEstimate {
            estimate,
            v_delta0,
            build_up,
            v_bec: self.safe().asked(reaction.v_bec),
            d_bec: reaction.d_bec,
            guided_v_est: None,
        };
        if self.has_guidance() {
            asked.guided_v_est = Some(self.normal().asked(v_est));
        }
        asked
    }
}

impl AskedEstimate {
    /// Whether the train needs no distance to brake for a target: it is one of speed, and V_bec is at most its foot
    /// speed. (own)
    pub fn is_met_by_speed(&self, kept: &KeptTarget) -> bool
        requires target { IsTarget kept.now.target }
        requires speeds { AreSpeedsOf kept.now.target kept.now.speeds }
        ensures { (d : TrainAndTrack) → IsAsked d self.now →
            result ≡ is_met_by_speed kept.now.target.kind
            (v_bec_for d self.now.estimate kept.now.target) (foot_speed_of kept.now.target) }
    {
        match kept.target.kind {
            TargetKind::Mrsp | TargetKind::Loa => {
                self.build_up.reaction(kept.speeds.permitted).v_bec <= kept.speeds.ebi
            }
            TargetKind::Eoa | TargetKind::Svl => false,
        }
    }
}

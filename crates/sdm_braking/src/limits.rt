//! The supervision limits of a target of a journey, by an estimate. A target is an EOA, which the service brake
//! supervises on an SBD, or one of the others, which the emergency brake supervises on an EBD. (SUBSET-026-3 3.13.9.3)

ghost use Rattle.std.specs.Prelude.{◌≡◌, ◌≤◌, not, true};
ghost use Rattle.std.specs.Option.{option_map_or};
ghost use Rattle.sdm_rules.specs.Limits.{computed, limits_of};
ghost use Rattle.sdm_rules.specs.Targets.{target_speed};
ghost use Rattle.sdm_rules.specs.Triggers.{is_past};
ghost use Rattle.sdm_limits.specs.Sides.{AreNear, places_of};
ghost use Rattle.sdm_braking.specs.Asked.{IsAsked};
ghost use Rattle.sdm_braking.specs.KeptCurves.{IsKeptTarget};

use crate::asked::AskedEstimate;
use crate::braking::Braking;
use crate::kept_targets::KeptTarget;
use sdm_limits::{Limits, limits_at};
use sdm_num::Place;
use sdm_targets::TargetKind;

impl Braking {
    /// The limits of a target that is no faster than the train. (SUBSET-026-3 3.13.9.3; own)
    // In line in each walk over targets: a reading would pay for a call at each of them.
    #[inline(always)]
    #[tactic(auto, using(crate::proofs::EbdLaws::ebd_of), unfolding(sdm_rules::specs::Limits::limits_of))]
    pub fn limits(&self, asked: &AskedEstimate, kept: &KeptTarget) -> Limits
        requires asked { IsAsked self.now asked.now }
        requires kept { IsKeptTarget self.now kept.now }
        requires no_faster { target_speed kept.now.target ≤ asked.now.estimate.speed }
        ensures places { places_of result ≡ limits_of computed self.now asked.now.estimate kept.now.target }
        ensures near { AreNear result }
    {
        let v_est = asked.estimate.speed();
        // the guidance curve's place at V_est, where there is a guidance curve (SUBSET-026-3 3.13.8.5)
        let guide = match (&kept.guide, &asked.guided_v_est) {
            (Some(curve), Some(v_est)) => Some(curve.place_asked(self.normal(), v_est)),
            _ => None,
        };
        match kept.target.kind {
            TargetKind::Mrsp | TargetKind::Loa | TargetKind::Svl => {
                let place = kept.brake.place_asked(self.safe(), &asked.v_bec);
                limits_at(place, Some(asked.d_bec), guide, self.times(), v_est)
            }
            TargetKind::Eoa => {
                let expected = self.expected();
                let place = kept.brake.place_asked(expected, &expected.asked(v_est));
                limits_at(place, None, guide, self.times(), v_est)
            }
        }
    }

    /// Whether a front end is at or before the EBI of a target by V_bec and D_bec for it, which may be faster than the
    /// train: on its EBI no guidance curve bears. An EOA has none, and no front end is past it. (SUBSET-026-3
    /// 3.13.9.3.2)
    #[tactic(auto, unfolding(sdm_rules::specs::Limits::limits_of))]
    pub fn is_before_ebi(&self, asked: &AskedEstimate, kept: &KeptTarget, front: Place) -> bool
        requires asked { IsAsked self.now asked.now }
        requires kept { IsKeptTarget self.now kept.now }
        ensures { result ≡ option_map_or (λ ebi. not (is_past 0 front ebi))
            (limits_of computed self.now asked.now.estimate kept.now.target).ebi true }
    {
        match kept.target.kind {
            TargetKind::Mrsp | TargetKind::Loa | TargetKind::Svl => {
                let reaction = asked.build_up.reaction(kept.speeds.permitted);
                let safe = self.safe();
                let place = kept.brake.place_asked(safe, &safe.asked(reaction.v_bec));
                !place.less(reaction.d_bec).is_passed_by(front)
            }
            TargetKind::Eoa => true,
        }
    }
}

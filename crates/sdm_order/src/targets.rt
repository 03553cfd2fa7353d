//! The laws of targets that are asked, for any limits of targets.

ghost use Rattle.sdm_order.specs.AskedTargets.{LawOfCoveredTargets, LawOfFasterTargets, LawOfPassedTargets};
ghost use Rattle.sdm_order.specs.AskedTargets.{LawOfShownTargets};
ghost use Rattle.sdm_order.specs.EnoughTargets.{LawOfEnoughTargets};
ghost use Rattle.sdm_order.specs.LimitsInOrder.{LawOfLimitOrder};

/// The targets that are asked trigger what all of them trigger.
#[tactic(auto, using(crate::proofs::Asked::same_passed))]
pub fn law_of_passed_targets()
    ensures { LawOfPassedTargets }
{}

/// They print what all of them print.
#[tactic(auto, using(crate::proofs::Asked::same_shown))]
pub fn law_of_shown_targets()
    ensures { LawOfShownTargets }
{}

/// All are covered where those are.
#[tactic(auto, using(crate::proofs::Asked::same_all))]
pub fn law_of_covered_targets()
    ensures { LawOfCoveredTargets }
{}

/// Up to a gain of 7.5 km/h the faster targets are met by speed.
#[tactic(auto, using(crate::proofs::Faster::met_by_speed))]
pub fn law_of_faster_targets()
    ensures { LawOfFasterTargets }
{}

/// Each limit of a fall has one that is no later, of the fall whose EBD is no later or of that whose guidance curve is.
#[tactic(auto, using(crate::proofs::Limits::limit_order))]
pub fn law_of_limit_order()
    ensures { LawOfLimitOrder }
{}

/// Targets that are enough say what all of them say.
#[tactic(auto, using(crate::proofs::Enough::enough))]
pub fn law_of_enough_targets()
    ensures { LawOfEnoughTargets }
{}

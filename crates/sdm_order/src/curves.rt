//! The laws of the order of curves, for any usable slopes, every foot and every foot speed.

ghost use Rattle.sdm_order.specs.CurvesInOrder.{LawOfEarlierCurves, LawOfFeet, LawOfLaterCurves, LawOfPassedCurves};
ghost use Rattle.sdm_order.specs.CurvesInOrder.{LawOfSteps};

/// A curve whose foot is at or before another curve is at or before it at every speed.
#[tactic(auto, using(crate::proofs::Feet::later_curves))]
pub fn law_of_later_curves()
    ensures { LawOfLaterCurves }
{}

/// A slower curve that is before the foot of a faster one at its foot speed is at or before it at every greater speed.
#[tactic(auto, using(crate::proofs::Feet::earlier_curves))]
pub fn law_of_earlier_curves()
    ensures { LawOfEarlierCurves }
{}

/// A curve whose foot is no later, and no faster, is no later at any speed.
#[tactic(auto, using(crate::proofs::Feet::feet_in_order))]
pub fn law_of_feet()
    ensures { LawOfFeet }
{}

/// A curve that begins further on and doesn't hide another one is at or past it.
#[tactic(auto, using(crate::proofs::Feet::passed_curves))]
pub fn law_of_passed_curves()
    ensures { LawOfPassedCurves }
{}

/// What hides no curve of a row of curves doesn't hide the first of them.
#[tactic(auto, using(crate::proofs::Feet::steps))]
pub fn law_of_steps()
    ensures { LawOfSteps }
{}

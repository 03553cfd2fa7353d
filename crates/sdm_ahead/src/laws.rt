//! The laws of what-if readings: proofs about definitions alone. Each function makes no call and only states its law.

ghost use Rattle.sdm_ahead.specs.WhatIfs.{LawOfAskedGaps, LawOfAskedRows, LawOfLessAsked};
ghost use Rattle.sdm_ahead.specs.WhatIfs.{LawOfOwnFront, LawOfTwoColumns};
ghost use Rattle.sdm_ahead.specs.CutOffs.{LawOfCutOffs, LawOfTimedCutOffs};

/// LESS ASKED: where the targets past a place are covered for what a what-if reading asks, each reading whose max safe
/// front end lies from that place to its own, and which asks no more, is covered or in release speed monitoring.
#[tactic(auto, using(crate::proofs::LessAsked::less_asked))]
pub fn law_of_less_asked()
    ensures { LawOfLessAsked }
{}

/// Asked at its own front end this is the column `covered` outside release speed monitoring.
#[tactic(auto, using(crate::proofs::LessAsked::own_front))]
pub fn law_of_own_front()
    ensures { LawOfOwnFront }
{}

/// Where the row of a what-if reading is covered and the speed profile falls nowhere between the front ends, the row of
/// each reading that asks no more is covered.
#[tactic(auto, using(crate::proofs::LessAsked::asked_rows))]
pub fn law_of_asked_rows()
    ensures { LawOfAskedRows }
{}

/// THE RULE: a computer that cuts the traction wherever a driven train may not be covered later has an uncovered row,
/// outside release speed monitoring, only of a train whose traction is off and which may not be covered coasting either.
#[tactic(auto, using(crate::proofs::CutOffs::cut_offs))]
pub fn law_of_cut_offs()
    ensures { LawOfCutOffs }
{}

/// The same by the clock: what is asked of a driven train has to hold for p + c + K, until an order of the next turn has
/// cut the traction off.
#[tactic(auto, using(crate::proofs::CutOffs::timed_cut_offs))]
pub fn law_of_timed_cut_offs()
    ensures { LawOfTimedCutOffs }
{}

/// What is left where no emergency brake is commanded is a gap at which even what was asked gives a V_bec above the foot
/// speed.
#[tactic(auto, using(crate::proofs::LessAsked::asked_gaps))]
pub fn law_of_asked_gaps()
    ensures { LawOfAskedGaps }
{}

/// Where the rows of two what-if readings of one estimate are covered, whose front ends lie less than D_bec apart, each
/// reading between them that asks no more is covered.
pub fn law_of_two_columns()
    ensures { LawOfTwoColumns }
{}

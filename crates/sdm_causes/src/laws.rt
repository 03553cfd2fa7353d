//! The laws of causes: proofs about the definitions alone. Each function makes no call and only states its law.

ghost use Rattle.sdm_causes.specs.CauseLaws.{LawOfCauses, LawOfStanding};

/// A trigger holds exactly where it has a cause, whatever the limits.
pub fn law_of_causes()
    ensures { LawOfCauses }
{}

/// After a reading each command is commanded exactly where it is set or held: set where a cause of it stands, and held
/// where none does, it was commanded before, and what releases it isn't so.
#[tactic(auto, using(crate::proofs::Explained::explained))]
pub fn law_of_standing()
    ensures { LawOfStanding }
{}

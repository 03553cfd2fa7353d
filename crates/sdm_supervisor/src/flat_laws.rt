//! The laws of the flat supervisor. Each function makes no call and only states its clause.

ghost use Rattle.sdm_supervisor.specs.FlatLaws.{LawOfFlatMachines, LawOfFlatSlopes, LawOfFlatStop};

/// The slopes of a level track are usable.
#[tactic(auto, using(crate::proofs::FlatFacts::flat_usable))]
pub fn law_of_flat_slopes()
    ensures { LawOfFlatSlopes }
{}

/// Over each line the three commands stay in order.
#[tactic(auto, using(crate::proofs::FlatFacts::flat_machines))]
pub fn law_of_flat_machines()
    ensures { LawOfFlatMachines }
{}

/// From each covered line every motion stops by the end.
pub fn law_of_flat_stop()
    ensures { LawOfFlatStop }
{}

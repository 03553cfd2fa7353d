//! The laws of changes of data: proofs about definitions alone. Each function makes no call and only states its law.

ghost use Rattle.sdm_change.specs.KeptLaws.{LawOfKept, LawOfRenewal};
ghost use Rattle.sdm_change.specs.PartLaws.{LawOfChange, LawOfParts, LawOfSameData};

/// A change of data keeps a state open and the commands of the three machines in order.
#[tactic(auto, using(crate::proofs::PartsSafe::change_is_safe))]
pub fn law_of_change()
    ensures { LawOfChange }
{}

/// THE HEADLINE over every journey of several data parts: each turn is safe, over every change of data.
pub fn law_of_parts<Record>()
    ensures { LawOfParts Record }
{}

/// Over the same data and authority a change of data changes nothing.
#[tactic(auto, using(crate::proofs::PartsSafe::same_data))]
pub fn law_of_same_data()
    ensures { LawOfSameData }
{}

/// Two supervisors that command the same over a record that both accept go on to have the same of what is kept.
pub fn law_of_kept()
    ensures { LawOfKept }
{}

/// Then the one that changes to the data and the authority of the other is the other.
pub fn law_of_renewal()
    ensures { LawOfRenewal }
{}

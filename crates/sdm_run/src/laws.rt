//! The law of runs. The function makes no call and only states its clause.

ghost use Rattle.sdm_run.specs.RunLaws.{LawOfOneRun};

/// An input has one meaning, whatever its bytes and by whatever its parts are read.
pub fn law_of_one_run<Table, Fields>()
    ensures { LawOfOneRun Table Fields }
{}

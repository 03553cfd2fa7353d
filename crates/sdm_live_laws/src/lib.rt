//! The laws of live runs: proofs about definitions alone. Each function makes no call and only states its law.
#![tactic(auto)]

ghost use Rattle.sdm_live_laws.specs.SameRows.{LawOfLineRecords, LawOfSameRows, LawOfSameText};
ghost use Rattle.sdm_live_laws.specs.Turns.{LawOfLiveRows, LawOfLiveText};

/// The whole text of a live run is one answer to each line, in order: the row of a reading that is taken, `taken` for
/// another record that is, why it is refused for one that isn't, and that a line is too long.
#[tactic(auto, using(crate::proofs::TakenTurns::live_text))]
pub fn law_of_live_text()
    ensures { LawOfLiveText }
{}

/// What `run` says of its rows holds of each turn of a live run, whatever was refused between them.
pub fn law_of_live_rows()
    ensures { LawOfLiveRows }
{}

/// The records that `csv` reads of bytes are the fields of the lines after a byte order mark that begins them, unless a
/// line ends within quotes.
pub fn law_of_line_records()
    ensures { LawOfLineRecords }
{}

/// Where `run` accepts the bytes of the records, the live run takes the same turns, so it writes the rows of `run`: each
/// record that is accepted stands on a line of its own, which isn't too long.
pub fn law_of_same_rows()
    ensures { LawOfSameRows }
{}

/// Then the text of `run` is that of the rows in the answers of the live run.
#[tactic(auto, using(crate::proofs::SameText::same_text))]
pub fn law_of_same_text()
    ensures { LawOfSameText }
{}

//! The commands `run`, `display` and `certify`: about the dividing line the data part, which opens a supervisor, and
//! the records. They differ in what is told of the data and of a reading.

ghost use Rattle.std.specs.Prelude.{◌≡◌, ◌⊎◌, ◌≤◌, [], length, false};
ghost use Rattle.sdm_formats.specs.Flat.{Output};
ghost use Rattle.sdm_formats.specs.Input.{most_bytes};
ghost use Rattle.sdm_io.specs.Causes.{Rose};
ghost use Rattle.sdm_run.specs.Answers.{ComesOfReadingAlone, LeavesOutUntouched, IsAnswer, IsEndOfRecords};
ghost use Rattle.sdm_run.specs.RunParts.{IsHeldRun, IsToldOutput};
ghost use Rattle.sdm_run.specs.Shapes.{IsOutcomeIn, run_shape};

use crate::endings::Ended;
use crate::journey_openings::opened;
use crate::journey_records::run_records;
use crate::tellers::Teller;
use sdm_data::split;
use sdm_io::Sink;
use sdm_report::{InputFault, Outcome};
use std::alloc::Global;

/// Answers an input by what is told of it and of each turn, which is written before the next record is taken.
/// WriteFault comes only where out failed; Memory may come at any time, and leaves whole lines written. (own)
pub fn run_journey<O: Sink>(alloc: Global, teller: Teller, bytes: &[u8], out: &mut O) -> Ended
    requires short { length bytes.now ≤ most_bytes }
    ensures answer { (output : Output) → IsToldOutput teller bytes.now output
        → IsAnswer output (O.taken out.old) (O.taken out.new) result.outcome }
    ensures held { IsEndOfRecords result.outcome → IsHeldRun teller bytes.now }
    ensures possible { IsOutcomeIn run_shape result.outcome }
    ensures not_before { ComesOfReadingAlone result.outcome → ⊥ }
    ensures first { LeavesOutUntouched result.outcome → (result.is_flush_due ≡ false) × (out.new ≡ out.old) }
    ensures due { result.is_flush_due ≡ false → (out.new ≡ out.old) ⊎ (result.outcome ≡ Outcome.WriteFault) }
    ensures untouched { (output : Output) → IsToldOutput teller bytes.now output → output.text ≡ []
        → (result.is_flush_due ≡ false) × (out.new ≡ out.old) }
    ensures later { O.faults out.old ≤ O.faults out.new }
    ensures write { result.outcome ≡ Outcome.WriteFault → Rose (O.faults out.old) (O.faults out.new) }
{
    let Some((data_end, records_start)) = split(bytes) else {
        return Ended::new(Outcome::BadData(InputFault::NoSplit), false);
    };
    let mut supervisor = match opened(alloc, &bytes[..data_end]) {
        Ok(supervisor) => supervisor,
        Err(outcome) => return Ended::new(outcome, false),
    };
    let is_flush_due = match teller.begin(&supervisor, out) {
        Ok(is_flush_due) => is_flush_due,
        Err(_) => return Ended::new(Outcome::WriteFault, false),
    };
    run_records(
        alloc,
        teller,
        is_flush_due,
        &mut supervisor,
        &bytes[records_start..],
        out,
    )
}

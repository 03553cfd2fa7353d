//! The command `check`: an answer for each claim of a certificate text, written before the next claim is read.

ghost use Rattle.std.specs.Prelude.{◌≡◌, ◌⊎◌, ◌≤◌, [], length, false};
ghost use Rattle.sdm_formats.specs.Flat.{Output};
ghost use Rattle.sdm_formats.specs.Input.{most_bytes};
ghost use Rattle.sdm_io.specs.Causes.{Rose};
ghost use Rattle.sdm_run.specs.Answers.{IsAnswer, LeavesOutUntouched};
ghost use Rattle.sdm_run.specs.Checks.{IsCheckOf};
ghost use Rattle.sdm_run.specs.Shapes.{IsOutcomeIn, check_shape};

use crate::endings::Ended;
use sdm_certify::{BadLine, CheckFault, Checker, answer_line};
use sdm_io::{Sink, write_piece};
use sdm_report::{EventCause, Outcome};
use sdm_text::RowBuf;
use std::alloc::Global;

/// The end at a line that isn't of the form due at its place, or is wanting.
fn refused(bad: BadLine, is_flush_due: bool) -> Ended
    ensures { result ≡ record { outcome = Outcome.BadEvent bad.number EventCause.Line; is_flush_due = is_flush_due } }
{
    let number = bad.number;
    let cause = EventCause::Line;
    Ended::new(Outcome::BadEvent { number, cause }, is_flush_due)
}

/// Answers the claims of a certificate text. Memory comes only before out was handed anything; WriteFault only where
/// out failed. (own)
pub fn run_check<O: Sink>(alloc: Global, bytes: &[u8], out: &mut O) -> Ended
    requires short { length bytes.now ≤ most_bytes }
    ensures answer { (output : Output) → IsCheckOf bytes.now output
        → IsAnswer output (O.taken out.old) (O.taken out.new) result.outcome }
    ensures possible { IsOutcomeIn check_shape result.outcome }
    ensures not_first { LeavesOutUntouched result.outcome → ⊥ }
    ensures memory { result.outcome ≡ Outcome.Memory → (result.is_flush_due ≡ false) × (out.new ≡ out.old) }
    ensures due { result.is_flush_due ≡ false → (out.new ≡ out.old) ⊎ (result.outcome ≡ Outcome.WriteFault) }
    ensures untouched { (output : Output) → IsCheckOf bytes.now output → output.text ≡ []
        → (result.is_flush_due ≡ false) × (out.new ≡ out.old) }
    ensures later { O.faults out.old ≤ O.faults out.new }
    ensures write { result.outcome ≡ Outcome.WriteFault → Rose (O.faults out.old) (O.faults out.new) }
{
    let mut checker = match Checker::begin(alloc, bytes) {
        Ok(checker) => checker,
        Err(CheckFault::Line(bad)) => return refused(bad, false),
        Err(CheckFault::Memory) => return Ended::new(Outcome::Memory, false),
    };
    let mut text = RowBuf::new();
    let mut is_flush_due = false;
    'claims: loop {
        let answer = match checker.claim() {
            Ok(Some(answer)) => answer,
            Ok(None) => return Ended::new(Outcome::Done, is_flush_due),
            Err(bad) => return refused(bad, is_flush_due),
        };
        text.clear();
        answer_line(&answer, &mut text);
        let Ok(()) = write_piece(out, text.bytes()) else {
            return Ended::new(Outcome::WriteFault, false);
        };
        is_flush_due = true;
    }
}

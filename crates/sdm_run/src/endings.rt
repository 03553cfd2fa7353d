//! The end of a command: where out was handed a byte, it gives on what it holds back before the outcome stands.

ghost use Rattle.std.specs.Prelude.{◌≡◌, ◌≢◌, ◌⊎◌, ◌≤◌, List, [], ℕ, Option, false, IsTrue};
ghost use Rattle.sdm_formats.specs.Input as ends;
ghost use Rattle.sdm_formats.specs.Flat.{Output};
ghost use Rattle.sdm_io.specs.Causes.{Rose};
ghost use Rattle.sdm_io.specs.Told.{HoldsNothing};
ghost use Rattle.sdm_run.specs.Answers.{ComesOfReadingAlone, IsAnswer, LeavesOutUntouched};
ghost use Rattle.sdm_run.specs.Shapes.{IsOutcomeIn, Shape};

use sdm_io::{Sink, write_piece};
use sdm_report::Outcome;

/// How a command ended: its outcome, and whether out is to be flushed, which is so where it was handed a byte and did
/// not fail. (own)
#[derive(Clone, Copy)]
pub struct Ended {
    pub outcome: Outcome,
    pub is_flush_due: bool,
}

impl Ended {
    /// An end with this outcome.
    pub fn new(outcome: Outcome, is_flush_due: bool) -> Ended
        ensures { result ≡ record { outcome = outcome; is_flush_due = is_flush_due } }
    {
        Ended {
            outcome,
            is_flush_due,
        }
    }

    /// The end of a command whose whole text is written in one piece: WriteFault where out failed, else Done. Out isn't
    /// called for an empty text. (own)
    #[tactic(auto, using(crate::proofs::Texts::written_whole, crate::proofs::Texts::written_in_part))]
    pub fn written<O: Sink>(text: &[u8], out: &mut O) -> Ended
        ensures answer { (output : Output) → output.text ≡ text.now → output.end ≡ ends.Done
            → IsAnswer output (O.taken out.old) (O.taken out.new) result.outcome }
        ensures possible { (shape : Shape) → IsOutcomeIn shape result.outcome }
        ensures not_before { ComesOfReadingAlone result.outcome → ⊥ }
        ensures not_first { LeavesOutUntouched result.outcome → ⊥ }
        ensures not_memory { result.outcome ≢ Outcome.Memory }
        ensures due { result.is_flush_due ≡ false → (out.new ≡ out.old) ⊎ (result.outcome ≡ Outcome.WriteFault) }
        ensures untouched { text.now ≡ [] → (result.is_flush_due ≡ false) × (out.new ≡ out.old) }
        ensures later { O.faults out.old ≤ O.faults out.new }
        ensures write { result.outcome ≡ Outcome.WriteFault → Rose (O.faults out.old) (O.faults out.new) }
    {
        if text.is_empty() {
            return Ended::new(Outcome::Done, false);
        }
        match write_piece(out, text) {
            Ok(()) => Ended::new(Outcome::Done, true),
            Err(_) => Ended::new(Outcome::WriteFault, false),
        }
    }

    /// The outcome, once out gave on what it was handed. A flush that fails is a write fault in place of it.
    pub fn flushed<O: Sink>(self, out: &mut O) -> Outcome
        ensures answer { (output : Output) (before : Option (List ℕ))
            → IsAnswer output before (O.taken out.old) self.outcome
            → IsAnswer output before (O.taken out.new) result }
        ensures outcome { (result ≡ self.outcome)
            ⊎ ((result ≡ Outcome.WriteFault) × Rose (O.faults out.old) (O.faults out.new)) }
        ensures unflushed { self.is_flush_due ≡ false → (result ≡ self.outcome) × (out.new ≡ out.old) }
        ensures given_on { IsTrue self.is_flush_due → result ≢ Outcome.WriteFault → HoldsNothing (O.held out.new) }
        ensures later { O.faults out.old ≤ O.faults out.new }
    {
        if !self.is_flush_due {
            return self.outcome;
        }
        match out.flush() {
            Ok(()) => self.outcome,
            Err(_) => Outcome::WriteFault,
        }
    }
}

//! The top call: from the words and the bytes of an input to the bytes of out and of the fault stream, and an outcome.

ghost use Rattle.std.specs.Prelude.{◌≡◌, ◌≢◌, ◌⊎◌, ◌↔◌, ◌+◌, ◌<◌, ◌≤◌, ℕ, List, [], length, false, Some, Err, IsNone};
ghost use Rattle.std.specs.Prelude.{IsTrue, IfSome, IfOk, OnOk, OnErr};
ghost use Rattle.std.specs.Io.KnownBytes.{Appends, IsAtEnd};
ghost use Rattle.sdm_formats.specs.Flat.{Output};
ghost use Rattle.sdm_formats.specs.Input.{most_bytes};
ghost use Rattle.sdm_io.specs.Causes.{Rose};
ghost use Rattle.sdm_io.specs.Told.{AppendsPart, HoldsNothing, ReadsExactly, ReadsWithin, Told};
ghost use Rattle.sdm_report.specs.OutcomeLines.{outcome_line};
ghost use Rattle.sdm_run.specs.declared.words.Command.{Command};
ghost use Rattle.sdm_run.specs.Answers.{ComesOfReadingAlone, LeavesOutUntouched, NeedsTheWholeInput, IsAnswer};
ghost use Rattle.sdm_run.specs.Answers.{IsComplete, IsEndOfRecords, told_end};
ghost use Rattle.sdm_run.specs.Certifying.{AreCertificatesHeld};
ghost use Rattle.sdm_run.specs.Commands.{AreRowsSafe, HasOneOutput, HasSafeRows, IsOutputOf, OfOutput, ReadsNothing};
ghost use Rattle.sdm_run.specs.Shapes.{IsOutcomeIn, OfInput, shape_of};
ghost use Rattle.sdm_run.specs.Upgrades.{IsReadBack};
ghost use Rattle.sdm_run.specs.Words.{IsCommandInRange, asked_by};

use crate::check_run::run_check;
use crate::drive_run::run_drive;
use crate::endings::Ended;
use crate::flat_run::run_flat;
use crate::journey_run::run_journey;
use crate::tellers::Teller;
use crate::trial_run::run_trial;
use crate::upgrade_run::run_upgrade;
use crate::words::{Command, command_of};
use sdm_io::{FixedSource, NullSink, Sink, Source, Unread, read_to_end, write_piece};
use sdm_report::{Outcome, outcome_bytes};
use sdm_text::RowBuf;
use std::alloc::Global;

/// The most bytes of an input. (own)
const MOST_BYTES: usize = 16_777_216;

/// The program. Each command writes what it defines for the bytes of the input, which `trial` leaves unread, and out
/// is flushed exactly where it was handed a byte; then, for each outcome but Done, its line goes to the fault stream, whose
/// faults change no outcome. (own)
pub fn sdm_main<I: Source, O: Sink, E: Sink>(
    alloc: Global,
    words: &[String],
    input: &mut I,
    out: &mut O,
    err: &mut E,
) -> Outcome
    ensures usage { (result ≡ Outcome.Usage) ↔ IsNone (asked_by words.now) }

    // the one output that the command defines for the bytes of the input, and what out took of it
    ensures answer { IfSome (asked_by words.now) (λ command. OfInput (shape_of command) (I.left input.old) (λ bytes.
        OfOutput command bytes (λ output. IsAnswer output (O.taken out.old) (O.taken out.new) result))) }
    ensures rows { IfSome (asked_by words.now)
        (λ command. OfInput (shape_of command) (I.left input.old) (HasSafeRows command)) }
    ensures possible { IfSome (asked_by words.now) (λ command. IsOutcomeIn (shape_of command) result) }
    ensures complete { IfSome (asked_by words.now) (λ command. OfInput (shape_of command) (I.left input.old) (λ bytes.
        (output : Output) → IsOutputOf command bytes output
        → (Rose (I.faults input.old) (I.faults input.new) → ⊥) → (Rose (O.faults out.old) (O.faults out.new) → ⊥)
        → IsComplete output (O.taken out.old) (O.taken out.new) result)) }

    // the text of `upgrade` is the table of the data
    ensures read_back { asked_by words.now ≡ Some Command.Upgrade → NeedsTheWholeInput result
        → Told (I.left input.old) IsReadBack }

    // the text of `certify` is that of certificates which hold on the map above them
    ensures held { (count : ℕ) → asked_by words.now ≡ Some (Command.Certify count) → IsEndOfRecords result
        → Told (I.left input.old) (AreCertificatesHeld count) }

    // what comes before any row leaves out as it is; else out gave on all that it took, unless it failed
    ensures first { LeavesOutUntouched result → out.new ≡ out.old }
    ensures memory { IfSome (asked_by words.now) (λ command.
        IsTrue (shape_of command).takes_memory_first → result ≡ Outcome.Memory → out.new ≡ out.old) }
    ensures given_on { result ≢ Outcome.WriteFault → (out.new ≡ out.old) ⊎ HoldsNothing (O.held out.new) }

    // out isn't called for an empty text
    ensures untouched { IfSome (asked_by words.now) (λ command. OfInput (shape_of command) (I.left input.old) (λ bytes.
        (output : Output) → IsOutputOf command bytes output → output.text ≡ [] → out.new ≡ out.old)) }

    // how much of the input was read
    ensures within { ReadsWithin (I.left input.old) (I.left input.new) (most_bytes + 1) }
    ensures too_long { result ≡ Outcome.TooLong → ReadsExactly (I.left input.old) (I.left input.new) (most_bytes + 1) }
    ensures to_end { IfSome (asked_by words.now)
        (λ command. IsTrue (shape_of command).reads_input → NeedsTheWholeInput result → IsAtEnd (I.left input.new)) }
    ensures unread { ReadsNothing (asked_by words.now) → input.new ≡ input.old }

    // a fault is answered only where it was counted
    ensures read { result ≡ Outcome.ReadFault → Rose (I.faults input.old) (I.faults input.new) }
    ensures write { result ≡ Outcome.WriteFault → Rose (O.faults out.old) (O.faults out.new) }

    // the line of the outcome
    ensures line { AppendsPart (E.taken err.old) (E.taken err.new) (outcome_line result) }
    ensures whole_line { Rose (E.faults err.old) (E.faults err.new)
        ⊎ Appends (E.taken err.old) (E.taken err.new) (outcome_line result) }
{
    let Some(command) = command_of(words) else {
        return told(Outcome::Usage, err);
    };
    match bytes_for(alloc, command, input) {
        Ok(bytes) => told(outcome_to(alloc, command, &bytes, out), err),
        Err(Unread::Fault) => told(Outcome::ReadFault, err),
        Err(Unread::TooLong) => told(Outcome::TooLong, err),
        Err(Unread::Memory) => told(Outcome::Memory, err),
    }
}

/// The bytes that a command answers: those of the whole input, or none where it reads nothing.
fn bytes_for<I: Source>(alloc: Global, command: Command, input: &mut I) -> Result<Vec<u8>, Unread>
    ensures whole { IfOk result
        (λ v. IsTrue (shape_of command).reads_input → Told (I.left input.old) (λ bytes. v.items ≡ bytes)) }
    ensures end { OnOk result (IsTrue (shape_of command).reads_input → IsAtEnd (I.left input.new)) }
    ensures short { IfOk result (λ v. length v.items ≤ most_bytes) }
    ensures reads { OnErr result (IsTrue (shape_of command).reads_input) }
    ensures unread { ReadsNothing (Some command) → input.new ≡ input.old }
    ensures within { ReadsWithin (I.left input.old) (I.left input.new) (most_bytes + 1) }
    ensures one_above { result ≡ Err Unread.TooLong
        → ReadsExactly (I.left input.old) (I.left input.new) (most_bytes + 1) }
    ensures too_long { result ≡ Err Unread.TooLong → Told (I.left input.old) (λ bytes. most_bytes < length bytes) }
    ensures fault { result ≡ Err Unread.Fault → Rose (I.faults input.old) (I.faults input.new) }
{
    if command.reads_input() {
        read_to_end(alloc, input, MOST_BYTES)
    } else {
        Ok(Vec::new(alloc))
    }
}

/// Answers the bytes of an input that is not too long.
#[tactic(auto, using(crate::proofs::CommandFacts::rows_safe))]
fn run_command<O: Sink>(alloc: Global, command: Command, bytes: &[u8], out: &mut O) -> Ended
    requires short { length bytes.now ≤ most_bytes }
    requires range { IsCommandInRange command }
    ensures answer { (output : Output) → IsOutputOf command bytes.now output
        → IsAnswer output (O.taken out.old) (O.taken out.new) result.outcome }
    ensures rows { AreRowsSafe command bytes.now }
    ensures read_back { command ≡ Command.Upgrade → NeedsTheWholeInput result.outcome → IsReadBack bytes.now }
    ensures held { (count : ℕ) → command ≡ Command.Certify count → IsEndOfRecords result.outcome
        → AreCertificatesHeld count bytes.now }
    ensures possible { IsOutcomeIn (shape_of command) result.outcome }
    ensures not_before { ComesOfReadingAlone result.outcome → ⊥ }
    ensures first { LeavesOutUntouched result.outcome → (result.is_flush_due ≡ false) × (out.new ≡ out.old) }
    ensures memory { IsTrue (shape_of command).takes_memory_first → result.outcome ≡ Outcome.Memory
        → (result.is_flush_due ≡ false) × (out.new ≡ out.old) }
    ensures due { result.is_flush_due ≡ false → (out.new ≡ out.old) ⊎ (result.outcome ≡ Outcome.WriteFault) }
    ensures untouched { (output : Output) → IsOutputOf command bytes.now output → output.text ≡ []
        → (result.is_flush_due ≡ false) × (out.new ≡ out.old) }
    ensures later { O.faults out.old ≤ O.faults out.new }
    ensures write { result.outcome ≡ Outcome.WriteFault → Rose (O.faults out.old) (O.faults out.new) }
{
    match command {
        Command::Flat { decel, end_cm } => run_flat(alloc, decel, end_cm, bytes, out),
        Command::Run => run_journey(alloc, Teller::Rows, bytes, out),
        Command::Display => run_journey(alloc, Teller::Displays, bytes, out),
        Command::Why => run_journey(alloc, Teller::Causes, bytes, out),
        Command::Trial { seed, cycles } => run_trial(alloc, seed, cycles, out),
        Command::Upgrade => run_upgrade(alloc, bytes, out),
        Command::Drive { seed, cycles } => run_drive(alloc, seed, cycles, bytes, out),
        Command::Certify { count } => {
            run_journey(alloc, Teller::Certificates { left: count }, bytes, out)
        }
        Command::Check => run_check(alloc, bytes, out),
    }
}

/// The outcome of a command, once out gave on what it was handed.
fn outcome_to<O: Sink>(alloc: Global, command: Command, bytes: &[u8], out: &mut O) -> Outcome
    requires short { length bytes.now ≤ most_bytes }
    requires range { IsCommandInRange command }
    ensures answer { (output : Output) → IsOutputOf command bytes.now output
        → IsAnswer output (O.taken out.old) (O.taken out.new) result }
    ensures rows { AreRowsSafe command bytes.now }
    ensures read_back { command ≡ Command.Upgrade → NeedsTheWholeInput result → IsReadBack bytes.now }
    ensures held { (count : ℕ) → command ≡ Command.Certify count → IsEndOfRecords result
        → AreCertificatesHeld count bytes.now }
    ensures possible { IsOutcomeIn (shape_of command) result }
    ensures not_before { ComesOfReadingAlone result → ⊥ }
    ensures first { LeavesOutUntouched result → out.new ≡ out.old }
    ensures memory { IsTrue (shape_of command).takes_memory_first → result ≡ Outcome.Memory → out.new ≡ out.old }
    ensures given_on { result ≢ Outcome.WriteFault → (out.new ≡ out.old) ⊎ HoldsNothing (O.held out.new) }
    ensures untouched { (output : Output) → IsOutputOf command bytes.now output → output.text ≡ []
        → out.new ≡ out.old }
    ensures write { result ≡ Outcome.WriteFault → Rose (O.faults out.old) (O.faults out.new) }
{
    let ended = run_command(alloc, command, bytes, out);
    ended.flushed(out)
}

/// The outcome, once its line is written to the fault stream, whose faults change nothing. (own)
pub fn told<E: Sink>(outcome: Outcome, err: &mut E) -> Outcome
    ensures same { result ≡ outcome }
    ensures line { AppendsPart (E.taken err.old) (E.taken err.new) (outcome_line outcome) }
    ensures whole_line { Rose (E.faults err.old) (E.faults err.new)
        ⊎ Appends (E.taken err.old) (E.taken err.new) (outcome_line outcome) }
{
    let mut line = RowBuf::new();
    outcome_bytes(&outcome, &mut line);
    let _ = write_piece(err, line.bytes());
    outcome
}

/// Each command defines one output for all bytes: a text and an end. (own)
#[tactic(auto, using(crate::proofs::OutputLaws::one_output))]
pub fn law_of_outputs()
    ensures { (command : Command) (bytes : List ℕ) → HasOneOutput command bytes }
{}

/// The outcome over bytes and sinks that never fail: exactly that of the defined end, unless memory is wanting. (own)
pub fn outcome_of(alloc: Global, words: &[String], bytes: &[u8]) -> Outcome
    ensures usage { (result ≡ Outcome.Usage) ↔ IsNone (asked_by words.now) }
    ensures complete { IfSome (asked_by words.now)
        (λ command. (output : Output) → IsOutputOf command bytes.now output
        → (told_end result ≡ Some output.end) ⊎ (result ≡ Outcome.Memory)) }
{
    let mut input = FixedSource::new(bytes);
    sdm_main(
        alloc,
        words,
        &mut input,
        &mut NullSink::new(),
        &mut NullSink::new(),
    )
}

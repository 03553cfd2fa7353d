//! The command `drive`: a train that a number drives over the data part that the input is, and the summary of its rows.

ghost use Rattle.std.specs.Prelude.{◌≡◌, ◌⊎◌, ◌≤◌, ℕ, List, [], false, IfErr, IfOk};
ghost use Rattle.sdm_io.specs.Causes.{Rose};
ghost use Rattle.sdm_rules.specs.declared.authorities.Authority.{Authority};
ghost use Rattle.sdm_rules.specs.Data.{TrainAndTrack};
ghost use Rattle.sdm_rules.specs.Records.{most_records};
ghost use Rattle.sdm_formats.specs.Flat.{Output};
ghost use Rattle.sdm_data.specs.Document.{document_of};
ghost use Rattle.sdm_drive.specs.Faults.{IsDriveRefusal};
ghost use Rattle.sdm_opening.specs.Openings.{IsDataOf};
ghost use Rattle.sdm_run.specs.Answers.{ComesOfReadingAlone, IsAnswer, LeavesOutUntouched};
ghost use Rattle.sdm_run.specs.Drives.{IsDriveOfDocument, IsSummaryOf, IsUndrivenBy};
ghost use Rattle.sdm_run.specs.Shapes.{IsOutcomeIn, drive_shape};

use crate::endings::Ended;
use crate::journey_openings::data_in;
use sdm_braking::TrainAndTrack;
use sdm_drive::{DriveFault, Summary, driven};
use sdm_formats::DriveCause;
use sdm_io::Sink;
use sdm_report::Outcome;
use sdm_text::RowBuf;
use std::alloc::Global;

/// Answers a data part: the summary of a drive over its data, in one piece. Memory comes only before out is called;
/// WriteFault only where out failed. (own)
#[tactic(auto, using(crate::proofs::DriveTexts::refusal, crate::proofs::DriveTexts::drive_written))]
pub fn run_drive<O: Sink>(alloc: Global, seed: u16, cycles: u32, bytes: &[u8], out: &mut O) -> Ended
    requires { cycles ≤ most_records }
    ensures answer { (output : Output) → IsDriveOfDocument seed cycles (document_of bytes.now) output
        → IsAnswer output (O.taken out.old) (O.taken out.new) result.outcome }
    ensures possible { IsOutcomeIn drive_shape result.outcome }
    ensures not_before { ComesOfReadingAlone result.outcome → ⊥ }
    ensures first { LeavesOutUntouched result.outcome → (result.is_flush_due ≡ false) × (out.new ≡ out.old) }
    ensures memory { result.outcome ≡ Outcome.Memory → (result.is_flush_due ≡ false) × (out.new ≡ out.old) }
    ensures due { result.is_flush_due ≡ false → (out.new ≡ out.old) ⊎ (result.outcome ≡ Outcome.WriteFault) }
    ensures untouched { (output : Output) → IsDriveOfDocument seed cycles (document_of bytes.now) output → output.text ≡ []
        → (result.is_flush_due ≡ false) × (out.new ≡ out.old) }
    ensures later { O.faults out.old ≤ O.faults out.new }
    ensures write { result.outcome ≡ Outcome.WriteFault → Rose (O.faults out.old) (O.faults out.new) }
{
    match summed_up(alloc, seed, cycles, bytes) {
        Ok(summary) => {
            let mut text = RowBuf::new();
            summary.put(&mut text);
            Ended::written(text.bytes(), out)
        }
        Err(outcome) => Ended::new(outcome, false),
    }
}

/// The summary of the drive; else the outcome, which is that of the first rule that the data break, of the first cause
/// for which they can't be driven, or of the first fault of the opening, unless memory was refused first.
#[tactic(auto, using(crate::proofs::DriveTexts::of_data_part, crate::proofs::DriveTexts::summary_of_data))]
fn summed_up(alloc: Global, seed: u16, cycles: u32, bytes: &[u8]) -> Result<Summary, Outcome>
    requires { cycles ≤ most_records }
    ensures summary { IfOk result (IsSummaryOf seed cycles bytes.now) }
    ensures refused { IfErr result (IsUndrivenBy bytes.now) }
{
    let journey = data_in(alloc, bytes)?;
    let driven = driven(
        alloc,
        TrainAndTrack {
            train: journey.train,
            national: journey.national,
            track: journey.track,
        },
        journey.authority,
        seed,
        cycles,
    );
    match driven {
        Ok(summary) => Ok(summary),
        Err(fault) => Err(undriven(fault)),
    }
}

/// The outcome that tells why a train isn't driven.
#[tactic(auto, using(crate::proofs::DriveTexts::no_build_up))]
fn undriven(fault: DriveFault) -> Outcome
    ensures { (bytes : List ℕ) (d : TrainAndTrack) (a : Authority) → IsDataOf bytes d a → IsDriveRefusal d a fault
        → IsUndrivenBy bytes result }
{
    match fault {
        DriveFault::NoStop => Outcome::Undrivable(DriveCause::NoStop),
        DriveFault::HasRelease { .. } => Outcome::Undrivable(DriveCause::HasRelease),
        DriveFault::ShortBuild { .. } => Outcome::Undrivable(DriveCause::ShortBuild),
        DriveFault::Open(fault) => Outcome::Refused(fault),
        DriveFault::Memory => Outcome::Memory,
    }
}

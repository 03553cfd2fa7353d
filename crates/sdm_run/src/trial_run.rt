//! The command `trial`: a supervisor over made readings, and the summary of its rows. It reads no input, and nothing
//! of it is refused.

ghost use Rattle.std.specs.Prelude.{◌≡◌, ◌⊎◌, ◌≤◌, [], false, IfOk};
ghost use Rattle.sdm_io.specs.Causes.{Rose};
ghost use Rattle.sdm_rules.specs.Supervision.{opening};
ghost use Rattle.sdm_rules.specs.Records.{most_records, rows_of};
ghost use Rattle.sdm_formats.specs.Trial.{trial_authority, trial_journey, trial_train_and_track, trial_output};
ghost use Rattle.sdm_trial.specs.Summaries.{counts_of};
ghost use Rattle.sdm_run.specs.Answers.{LeavesOutUntouched, IsAnswer};
ghost use Rattle.sdm_run.specs.Shapes.{IsOutcomeIn, trial_shape};

use crate::endings::Ended;
use sdm_io::Sink;
use sdm_num::NoMemory;
use sdm_report::Outcome;
use sdm_rules::OpenFault;
use sdm_supervisor::{CycleFault, Supervisor};
use sdm_text::RowBuf;
use sdm_trial::{Readings, Summary, trial_data};
use std::alloc::Global;

/// The supervisor of the data of every trial, which are accepted.
#[tactic(auto, using(crate::proofs::TrialRuns::only_memory))]
fn begin(alloc: Global) -> Result<Supervisor, NoMemory>
    ensures { IfOk result (λ supervisor. supervisor ≡ opening trial_train_and_track trial_authority) }
{
    let journey = trial_data(alloc)?;
    let begun = Supervisor::begin(
        alloc,
        journey.train,
        journey.national,
        journey.track,
        journey.authority,
    );
    match begun {
        Ok(supervisor) => Ok(supervisor),
        Err(OpenFault::Memory) => Err(NoMemory),
        Err(OpenFault::TooWeak { .. } | OpenFault::TooVaried { .. } | OpenFault::BadAuthority(_)) =>
            unreachable!(),
    }
}

/// The summary of the rows of all cycles.
fn summary_of(supervisor: &mut Supervisor, seed: u16, cycles: u32) -> Summary
    requires opening { supervisor.old ≡ opening trial_train_and_track trial_authority }
    requires cycles { cycles ≤ most_records }
    ensures { result ≡ counts_of (rows_of (trial_journey seed cycles).turns) }
{
    let mut readings = Readings::begin(seed, cycles);
    let mut summary = Summary::new();
    'cycles: while let Some(reading) = readings.next() {
        match supervisor.cycle(&reading) {
            Ok(row) => summary.add(&row),
            Err(CycleFault::TimeBack { .. }) => unreachable!(),
        }
    }
    summary
}

/// Answers a number and a count of cycles: the summary, in one piece. Memory comes only before out was handed
/// anything; WriteFault only where out failed. (own)
pub fn run_trial<O: Sink>(alloc: Global, seed: u16, cycles: u32, out: &mut O) -> Ended
    requires { cycles ≤ most_records }
    ensures answer { IsAnswer (trial_output seed cycles) (O.taken out.old) (O.taken out.new) result.outcome }
    ensures possible { IsOutcomeIn trial_shape result.outcome }
    ensures not_first { LeavesOutUntouched result.outcome → ⊥ }
    ensures memory { result.outcome ≡ Outcome.Memory → (result.is_flush_due ≡ false) × (out.new ≡ out.old) }
    ensures due { result.is_flush_due ≡ false → (out.new ≡ out.old) ⊎ (result.outcome ≡ Outcome.WriteFault) }
    ensures untouched { (trial_output seed cycles).text ≡ [] → (result.is_flush_due ≡ false) × (out.new ≡ out.old) }
    ensures later { O.faults out.old ≤ O.faults out.new }
    ensures write { result.outcome ≡ Outcome.WriteFault → Rose (O.faults out.old) (O.faults out.new) }
{
    let Ok(mut supervisor) = begin(alloc) else {
        return Ended::new(Outcome::Memory, false);
    };
    let mut text = RowBuf::new();
    summary_of(&mut supervisor, seed, cycles).put(&mut text);
    Ended::written(text.bytes(), out)
}

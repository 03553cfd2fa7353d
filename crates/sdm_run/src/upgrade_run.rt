//! The command `upgrade`: the data part that the input is, as a text of version 2 of the same data.

ghost use Rattle.std.specs.Prelude.{◌≡◌, ◌⊎◌, ◌≤◌, [], false, IfErr, IfOk, string_bytes};
ghost use Rattle.sdm_io.specs.Causes.{Rose};
ghost use Rattle.sdm_run.specs.Answers.{ComesOfReadingAlone, IsAnswer, LeavesOutUntouched, NeedsTheWholeInput};
ghost use Rattle.sdm_run.specs.RunParts.{IsRefusedByData};
ghost use Rattle.sdm_run.specs.Shapes.{IsOutcomeIn, upgrade_shape};
ghost use Rattle.sdm_run.specs.Upgrades.{IsReadBack, IsUpgradedTo, upgrade_output};

use crate::endings::Ended;
use crate::journey_openings::data_in;
use sdm_data::text_of;
use sdm_io::Sink;
use sdm_report::Outcome;
use std::alloc::Global;

/// Answers a data part: the text of version 2 of its data, which is printed whole before out is called. Memory comes
/// only before that; WriteFault only where out failed. (own)
#[tactic(auto, using(crate::proofs::UpgradeTexts::refusal, crate::proofs::UpgradeTexts::text_written))]
pub fn run_upgrade<O: Sink>(alloc: Global, bytes: &[u8], out: &mut O) -> Ended
    ensures answer { IsAnswer (upgrade_output bytes.now) (O.taken out.old) (O.taken out.new) result.outcome }
    ensures read_back { NeedsTheWholeInput result.outcome → IsReadBack bytes.now }
    ensures possible { IsOutcomeIn upgrade_shape result.outcome }
    ensures not_before { ComesOfReadingAlone result.outcome → ⊥ }
    ensures first { LeavesOutUntouched result.outcome → (result.is_flush_due ≡ false) × (out.new ≡ out.old) }
    ensures memory { result.outcome ≡ Outcome.Memory → (result.is_flush_due ≡ false) × (out.new ≡ out.old) }
    ensures due { result.is_flush_due ≡ false → (out.new ≡ out.old) ⊎ (result.outcome ≡ Outcome.WriteFault) }
    ensures untouched { (upgrade_output bytes.now).text ≡ [] → (result.is_flush_due ≡ false) × (out.new ≡ out.old) }
    ensures later { O.faults out.old ≤ O.faults out.new }
    ensures write { result.outcome ≡ Outcome.WriteFault → Rose (O.faults out.old) (O.faults out.new) }
{
    match upgraded(alloc, bytes) {
        Ok(text) => Ended::written(text.as_str().as_bytes(), out),
        Err(outcome) => Ended::new(outcome, false),
    }
}

/// The text of version 2 of the data; else the outcome, which is that of the first rule that they break, unless memory
/// was refused first.
#[tactic(auto, using(crate::proofs::UpgradeTexts::upgraded_to))]
fn upgraded(alloc: Global, bytes: &[u8]) -> Result<String, Outcome>
    ensures text { IfOk result (λ text. IsUpgradedTo bytes.now (string_bytes text)) }
    ensures refused { IfErr result (IsRefusedByData bytes.now) }
{
    let journey = data_in(alloc, bytes)?;
    match text_of(alloc, &journey) {
        Ok(text) => Ok(text),
        Err(_) => Err(Outcome::Memory),
    }
}

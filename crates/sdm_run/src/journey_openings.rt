//! The data part: its data, and for `run` the supervisor that it opens, or the outcome that says why there is none.

ghost use Rattle.std.specs.Prelude.{ℕ, List, IfOk, IfErr};
ghost use Rattle.sdm_opening.specs.Openings.{IsDataOf, IsNoDataOf, IsOpeningOf, IsReasonOf};
ghost use Rattle.sdm_run.specs.RunParts.{IsRefusedBy, IsRefusedByData};

use sdm_data::JourneyData;
use sdm_opening::NoOpening;
use sdm_report::Outcome;
use sdm_supervisor::Supervisor;
use std::alloc::Global;

/// The outcome that tells why a data part opens no supervisor.
fn outcome_of(reason: NoOpening) -> Outcome
    ensures no_data { (bytes : List ℕ) → IsNoDataOf bytes reason → IsRefusedByData bytes result }
    ensures refused { (bytes : List ℕ) → IsReasonOf bytes reason → IsRefusedBy bytes result }
{
    match reason {
        NoOpening::Memory => Outcome::Memory,
        NoOpening::BadData(fault) => Outcome::BadData(fault),
        NoOpening::Refused(fault) => Outcome::Refused(fault),
    }
}

/// The data that a data part holds; else the outcome, which is that of the first rule that they break, unless memory
/// was refused first. (own)
pub fn data_in(alloc: Global, bytes: &[u8]) -> Result<JourneyData, Outcome>
    ensures data { IfOk result (λ j. IsDataOf bytes.now j.0 j.1) }
    ensures refused { IfErr result (IsRefusedByData bytes.now) }
{
    match sdm_opening::data_in(alloc, bytes) {
        Ok(journey) => Ok(journey),
        Err(reason) => Err(outcome_of(reason)),
    }
}

/// The supervisor that a data part opens; else the outcome, which is that of the first rule that the data break, or of
/// the first fault of the opening, unless memory was refused first. (own)
pub fn opened(alloc: Global, bytes: &[u8]) -> Result<Supervisor, Outcome>
    ensures opened { IfOk result (IsOpeningOf bytes.now) }
    ensures refused { IfErr result (IsRefusedBy bytes.now) }
{
    match sdm_opening::opened(alloc, bytes) {
        Ok(supervisor) => Ok(supervisor),
        Err(reason) => Err(outcome_of(reason)),
    }
}

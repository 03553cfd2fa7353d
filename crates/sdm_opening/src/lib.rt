//! What a data part opens: from its bytes to its data, and from these to a supervisor; else why there is none. The
//! program and the library for C open by it, and each tells the reason in its own way.
#![tactic(auto)]

ghost use Rattle.std.specs.Prelude.{◌≡◌, ℕ, List, Some, Ok, IfOk, IfErr};
ghost use Rattle.toml.specs.View.{table_view};
ghost use Rattle.sdm_rules.specs.declared.authorities.Authority.{Authority};
ghost use Rattle.sdm_rules.specs.Data.{TrainAndTrack};
ghost use Rattle.sdm_rules.specs.Opening.{IsAccepted};
ghost use Rattle.sdm_rules.specs.Supervision.{opening};
ghost use Rattle.sdm_braking.specs.Braking.{IsRefusal};
ghost use Rattle.sdm_data.specs.Document.{document_of};
ghost use Rattle.sdm_data.specs.Journey.{data_of};
ghost use Rattle.sdm_opening.specs.Openings.{LawOfAnswers, IsDataOf, IsNoDataOf, IsOpeningOf, IsReasonOf};

use sdm_data::{DocumentFault, JourneyData, data_of, read_document};
use sdm_formats::DataFault;
use sdm_report::InputFault;
use sdm_rules::OpenFault;
use sdm_supervisor::Supervisor;
use std::alloc::Global;
use thiserror::Error;
use toml::Table;

/// Why a data part opens no supervisor. (own)
#[derive(Clone, Copy, Debug, PartialEq, Eq, Error)]
pub enum NoOpening {
    /// Memory was refused.
    #[error("no memory")]
    Memory,
    /// The data part is no TOML document, or it breaks a rule; this is the first.
    #[error("{0}")]
    BadData(InputFault),
    /// The slopes of the data or the first authority are refused; this is the first fault.
    #[error("{0}")]
    Refused(OpenFault),
}

/// The TOML document of a data part.
fn document_in(alloc: Global, bytes: &[u8]) -> Result<Table, NoOpening>
    ensures document { IfOk result (λ table. document_of bytes.now ≡ Some (table_view table)) }
    ensures refused { IfErr result (IsNoDataOf bytes.now) }
{
    match read_document(alloc, bytes) {
        Ok(table) => Ok(table),
        Err(DocumentFault::NotToml) => Err(NoOpening::BadData(InputFault::Toml)),
        Err(DocumentFault::Memory) => Err(NoOpening::Memory),
    }
}

/// The data of a document.
fn journey_in(alloc: Global, table: &Table) -> Result<JourneyData, NoOpening>
    ensures data { IfOk result (λ j. data_of (table_view table.now) ≡ Ok j) }
    ensures refused { IfErr result
        (λ reason. (bytes : List ℕ) → document_of bytes ≡ Some (table_view table.now) → IsNoDataOf bytes reason) }
{
    match data_of(alloc, table) {
        Ok(journey) => Ok(journey),
        Err(DataFault::Memory) => Err(NoOpening::Memory),
        Err(fault) => Err(NoOpening::BadData(InputFault::Data(fault))),
    }
}

/// The data that a data part holds; else the first rule that they break, unless memory was refused first. (own)
pub fn data_in(alloc: Global, bytes: &[u8]) -> Result<JourneyData, NoOpening>
    ensures data { IfOk result (λ j. IsDataOf bytes.now j.0 j.1) }
    ensures refused { IfErr result (IsNoDataOf bytes.now) }
{
    let table = document_in(alloc, bytes)?;
    journey_in(alloc, &table)
}

/// Why data open no supervisor.
fn of_opening(fault: OpenFault) -> NoOpening
    ensures { (bytes : List ℕ) (d : TrainAndTrack) (a : Authority) → IsDataOf bytes d a → IsRefusal d a fault →
        IsReasonOf bytes result }
{
    match fault {
        OpenFault::Memory => NoOpening::Memory,
        OpenFault::TooWeak { .. } | OpenFault::TooVaried { .. } | OpenFault::BadAuthority(_) => {
            NoOpening::Refused(fault)
        }
    }
}

/// The supervisor of data.
fn begin(alloc: Global, journey: JourneyData) -> Result<Supervisor, NoOpening>
    ensures state { IfOk result (λ s. s ≡ opening journey.0 journey.1) }
    ensures accepted { IfOk result (λ _. IsAccepted journey.0 journey.1) }
    ensures refused { IfErr result
        (λ reason. (bytes : List ℕ) → IsDataOf bytes journey.0 journey.1 → IsReasonOf bytes reason) }
{
    match Supervisor::begin(
        alloc,
        journey.train,
        journey.national,
        journey.track,
        journey.authority,
    ) {
        Ok(supervisor) => Ok(supervisor),
        Err(fault) => Err(of_opening(fault)),
    }
}

/// The supervisor that a data part opens; else the first rule that the data break, or the first fault of the opening,
/// unless memory was refused first. (own)
#[tactic(auto, using(crate::proofs::Answered::of_no_data))]
pub fn opened(alloc: Global, bytes: &[u8]) -> Result<Supervisor, NoOpening>
    ensures opened { IfOk result (IsOpeningOf bytes.now) }
    ensures refused { IfErr result (IsReasonOf bytes.now) }
{
    let journey = data_in(alloc, bytes)?;
    begin(alloc, journey)
}

/// Each data part opens one supervisor, or none for one reason, want of memory aside. (own)
#[tactic(auto, using(crate::proofs::Answered::one_answer))]
pub fn law_of_answers()
    ensures { LawOfAnswers }
{}

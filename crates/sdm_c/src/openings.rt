//! The supervisor that a data part opens, on the heap, where a handle keeps it.

ghost use Rattle.std.specs.Prelude.{IfOk, IfErr};
ghost use Rattle.sdm_opening.specs.Openings.{IsOpeningOf, IsReasonOf};

use sdm_opening::{NoOpening, opened};
use sdm_supervisor::Supervisor;
use std::alloc::Global;

/// The supervisor that a data part opens, on the heap; else the first rule that the data break, or the first fault of
/// the opening, unless memory was refused first. (own)
pub fn opened_on_heap(alloc: Global, given: &[u8]) -> Result<Box<Supervisor>, NoOpening>
    ensures opened { IfOk result (λ b. IsOpeningOf given.now b.value) }
    ensures refused { IfErr result (IsReasonOf given.now) }
{
    let supervisor = opened(alloc, given)?;
    match Box::new(alloc, supervisor) {
        Ok(supervisor) => Ok(supervisor),
        Err(_) => Err(NoOpening::Memory),
    }
}

//! The one answer of a source or a sink that failed. It carries nothing: the count of faults is the witness.

use thiserror::Error;

/// The answer of a source or a sink that failed. (own)
#[derive(Clone, Copy, Debug, PartialEq, Eq, Error)]
#[error("failed")]
pub struct Failed;

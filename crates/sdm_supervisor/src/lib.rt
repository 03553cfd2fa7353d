//! The supervisor: from the data of a journey and its first authority on, every record changes the supervision state
//! as the definitions say, and every reading gives its row. Above this crate only stop certificates and the true trains
//! of drives work with slope maps or curves. No code here reads or writes text.
#![tactic(auto)]

mod allowances;
mod causes;
mod clearances;
mod flat;
pub mod flat_laws;
mod nearest;
mod shown;
mod sight;
mod supervisors;
mod verdicts;
mod walks;

pub use allowances::Allowance;
pub use flat::Flat;
pub use sdm_formats::FlatRow;
pub use sdm_rules::{CycleFault, OpenFault, Row, SlopeKind};
pub use sight::Sight;
pub use supervisors::Supervisor;

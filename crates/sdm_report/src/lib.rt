//! How the program ends, and the texts that it writes: the row of a reading, and the line of the fault stream that
//! tells an outcome. Each is put into a row buffer, so that writing takes no memory and a sink gets it whole; each
//! piece has the most bytes that it takes in its contract, so that the whole fits the buffer.
#![tactic(auto)]

mod data_lines;
pub mod fields;
pub mod outcome;
mod outcome_lines;
mod paths;
mod refusal_lines;
mod row_lines;

pub use outcome::{InputFault, Outcome};
pub use outcome_lines::outcome_bytes;
pub use refusal_lines::put_cause;
pub use row_lines::row_bytes;
pub use sdm_formats::DriveCause;
pub use sdm_rules::EventCause;

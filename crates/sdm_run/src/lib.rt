//! The program from the bytes that come in to the bytes that go out: its words, its commands, the rows that they
//! write, and the outcome that it ends with.
#![tactic(auto)]

mod answers;
mod cause_texts;
mod certify_texts;
mod check_run;
mod drive_run;
mod endings;
mod flat_lines;
mod flat_run;
mod journey_openings;
mod journey_records;
mod journey_run;
pub mod laws;
mod tellers;
mod trial_run;
mod upgrade_run;
mod words;

pub use answers::{law_of_outputs, outcome_of, sdm_main, told};
pub use journey_openings::opened;
pub use sdm_report::{EventCause, InputFault, Outcome};
pub use sdm_supervisor::{CycleFault, Flat, FlatRow};
pub use words::Command;

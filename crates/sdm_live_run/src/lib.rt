//! The command `live`: the data part, which opens a supervisor, and then an answer to each record as soon as its line
//! has come.
#![tactic(auto)]

mod data_parts;
mod live_run;
mod memory;
mod records;
mod streams;

pub use live_run::sdm_live_main;
pub use memory::{Call, MemoryPeer, live_in_memory};
pub use streams::StreamPeer;

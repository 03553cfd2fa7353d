//! The data part of an input that comes piece by piece: it is read up to the line that divides it from the records,
//! and nothing is handed over meanwhile.
#![tactic(auto)]

mod data_parts;

pub use data_parts::{Division, gather};

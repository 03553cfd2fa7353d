//! Made journeys: fixed data, readings that follow from a number, and the summary of their rows. A run of them is the
//! same on every machine, and needs no input.
#![tactic(auto)]

mod journeys;
mod readings;
mod summaries;

pub use journeys::{law_of_trial, trial_data};
pub use readings::{Readings, trial_reading};
pub use sdm_data::JourneyData;
pub use summaries::Summary;

//! The train of a journey. A `Train` is made in one place, which tests every range, so no caller tests a number again.
#![tactic(auto)]

mod bands;
mod rules;
mod trains;

pub use sdm_rules::{Band, TrainFault, TrainFields};
pub use trains::Train;

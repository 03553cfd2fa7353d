//! The decelerations of a journey as slope maps: of the emergency brake, the service brake and the normal service
//! brake, for each speed band of the train and each stretch of track on which what lies under the train stays the
//! same.
#![tactic(auto)]

mod cells;
mod decelerations;
mod maps;
mod under;

pub use maps::{expected, normal, safe, slope_map};
pub use sdm_curve::{BandMap, CurveFault};

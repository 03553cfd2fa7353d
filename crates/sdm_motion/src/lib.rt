//! Whether slices and points are a motion of a train, and the laws of motions on slope maps. A motion is a list of
//! inequalities that know nothing of brake curves, so that a law of the stop says something of trains.
#![tactic(auto)]

pub mod laws;
mod motion;
mod slices;
pub mod slopes;
mod steps;

pub use motion::is_motion;
pub use sdm_rules::{Phase, Point, Slice, Start};

//! The track of a journey: its length, its gradients, its static speed profile, its areas of reduced adhesion and
//! those in which the special brake is not used, kept within their ranges; and what of them lies under a train.
#![tactic(auto)]

mod entries;
mod sweep;
mod tracks;
mod under_train;

pub use sdm_rules::{Area, Gradient, Section, SpeedStep, TrackFault};
pub use tracks::Track;
pub use under_train::Segments;

//! The most restrictive speed profile (MRSP, SUBSET-026-3 3.13.7): the maximum train speed, the static speed profile,
//! and the temporary restrictions, which come and go. All room is taken when a profile begins.
#![tactic(auto)]

mod ends;
mod lifts;
mod profiles;
mod removals;
mod steps;
mod zones;

pub use profiles::{MOST_RESTRICTIONS, Profile};
pub use sdm_rules::{Fall, RestrictFault, Restriction, RevokeFault};

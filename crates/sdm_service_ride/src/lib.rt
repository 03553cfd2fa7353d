//! Rides under the service brake: the train stops at or before its EOA, from reading to reading. The laws say what is
//! promised at every moment, and no code computes a ride.
#![tactic(auto)]

pub mod laws;

//! Rides: the readings of a supervised train, the orders that follow them, and whatever its driver does between them.
//! The laws say what is promised at every moment, and no code computes a ride.
#![tactic(auto)]

pub mod laws;

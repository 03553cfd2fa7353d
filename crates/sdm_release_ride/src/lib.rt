//! Rides in release speed monitoring: a train that is tripped in time stops at or before its SvL, from reading to reading.
//! The laws say what is promised at every moment, and no code computes a ride.
#![tactic(auto)]

pub mod laws;

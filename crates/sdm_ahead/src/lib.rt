//! What-if readings: a reading that asks no more than one that was asked before is covered, and the rule that cuts the
//! traction where a later reading may not be. No code here asks a reading.
#![tactic(auto)]

pub mod laws;

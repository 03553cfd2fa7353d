//! A search in a list in order, with as many turns as its length has binary digits, and these digits, which bound the
//! turns of other searches that halve.
#![tactic(auto)]

mod binary;
mod halving;

pub use binary::{digits, power_of_2};
pub use halving::parted;

//! The national values of a journey. A `National` is made in one place, which tests every range, so no caller tests a
//! number again.
#![tactic(auto)]

mod values;

pub use sdm_rules::{NationalFault, NationalFields};
pub use values::National;

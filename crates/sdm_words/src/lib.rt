//! Which part of the program the words ask for, and what the program says of itself: the texts of `version` and `help`.
#![tactic(auto)]

mod about;
mod asked;
mod texts;

pub use about::{About, tell_about};
pub use asked::{Asked, asked_of};

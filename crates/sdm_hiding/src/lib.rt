//! Which curves of a row of brake curves it is enough to ask at a reading. A curve further on hides another one where it
//! lies before that one's foot at that one's foot speed: then it is at or before it at every greater speed. A record
//! works out for each curve how many curves further on the first one stands that hides it; a reading walks from hider to
//! hider. The algorithms stand over any row of feet: those of EBDs and of guidance curves are two.
#![tactic(auto)]

mod asking;
mod hidden;
mod rows;

pub use asking::Asking;
pub use hidden::{hide, none_before_to};
pub use rows::{Feet, Foot};

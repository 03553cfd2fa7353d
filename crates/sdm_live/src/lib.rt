//! A program that answers each line as soon as it has come: a peer that tells what went to and fro, a step that takes
//! lines, and the loop between them. No line ends the loop: one that is too long has its answer too.
#![tactic(auto)]

mod coming;
mod laws;
mod lines;
mod live;
mod peers;

pub use coming::{LONGEST_LINE, Line};
pub use laws::law_of_due;
pub use lines::{Step, end_line, feed};
pub use live::{Ended, serve};
pub use peers::{Peer, hand_over};

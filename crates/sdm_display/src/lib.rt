//! What a driver sees of a reading: limits as speeds, the release speed and the target that counts, with their line of
//! text. A limit's speed is found by asking where a train as fast would pass it, so whoever can answer that is enough.
//! And the line of a reading's causes.
#![tactic(auto)]

mod cause_lines;
mod display_lines;
mod displays;
mod speeds;

pub use cause_lines::{put_brake_part, put_command_part, put_driver_part};
pub use display_lines::display_bytes;
pub use displays::{display_near, display_of};
pub use sdm_rules::{Display, LimitName, Shown, TargetKind};
pub use speeds::{Passed, greatest, greatest_near};

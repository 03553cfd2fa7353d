//! Bytes that come in and bytes that go out. A source and a sink count their faults, so that a caller's answer "it
//! failed" can be tied to a fault that happened; some tell their bytes, so that contracts can speak of them. Two loops
//! stand over these traits alone: one writes a whole piece, the other reads to the end within a limit.
#![tactic(auto)]

mod faults;
mod fixed;
mod memory;
mod plans;
mod reading;
mod sinks;
mod sources;
mod standard;
mod writing;

pub use faults::Failed;
pub use fixed::{FixedSource, NullSink};
pub use memory::{MemSink, MemSource};
pub use reading::{Unread, read_to_end};
pub use sinks::Sink;
pub use sources::Source;
pub use standard::{BlockSink, StdSink, StdSource};
pub use writing::write_piece;

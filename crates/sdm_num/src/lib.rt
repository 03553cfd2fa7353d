//! The quantities that every other crate speaks of: places, speeds, places that are known up to rounding, and odometer
//! readings. Each keeps its range in its type, so that no caller tests it again.
#![tactic(auto)]

mod bounds;
pub mod memory;
mod places;
mod readings;
mod speeds;

pub use bounds::{Early, Late};
pub use memory::NoMemory;
pub use places::{CELL, MILLIMETRE, Place};
pub use readings::{Estimate, Reading};
pub use speeds::{Speed, TOP_KMH};

//! A closed-loop drive: a train that a number drives, under the supervisor. Its true front end never passes the SvL.
#![tactic(auto)]

mod drives;
mod faults;
pub mod laws;
mod odometers;
mod orders;
pub mod rows;
mod summaries;
mod trains;
mod whole_drives;

pub use drives::Drive;
pub use faults::DriveFault;
pub use orders::Orders;
pub use rows::DriveRow;
pub use summaries::Summary;
pub use whole_drives::driven;

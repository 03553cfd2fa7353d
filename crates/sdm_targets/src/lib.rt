//! The targets that a reading supervises: the falls of the speed profile that lie ahead, and the end of the authority
//! (SUBSET-026-3 3.13.8.2). A list has the room for all that there may be, so a reading takes no memory.
#![tactic(auto)]

mod authorities;
mod foot_speeds;
mod lists;

pub use authorities::{check_authority, check_trip};
pub use foot_speeds::foot_speed;
pub use lists::{TargetList, end_of, targets_of};
pub use sdm_rules::{Authority, AuthorityFault, Shown, Target, TargetKind, TripFault};

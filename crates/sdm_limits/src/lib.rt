//! The supervision limits of a target: the times that they count with, V_bec and D_bec, up to which a train moves on
//! until its emergency brake works, and the limits that lie before the curve by what happens until then. Each limit is
//! a whole number of grains before a computed place, so it lies on the same side of the exact limit.
#![tactic(auto)]

pub mod limits;
mod reaction;
mod times;

pub use limits::{Limits, ebd_limits, limits_at, sbd_limits};
pub use reaction::{BuildUp, Reaction, reaction_of};
pub use sdm_rules::{LimitName, Times};
pub use times::{OfTrain, T_WARNING};

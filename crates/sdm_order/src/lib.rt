//! The order of brake curves over one slope map, and which targets of a reading it is enough to ask: laws over the
//! definitions of the profile. Each function makes no call and only states its law.
#![tactic(auto)]

pub mod curves;
pub mod targets;

//! Why a reading triggers, and why each command is as it is after it: the definitions of causes with their plain types
//! and the text of their line, and the laws that a trigger holds exactly where it has a cause, and a command exactly
//! where it is set by one or held. No code here finds a cause.
#![tactic(auto)]

mod causes;
pub mod laws;

pub use causes::{Cause, Causes, PassedTarget, Standing, Until};

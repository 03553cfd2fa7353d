//! Release speed monitoring: where it starts, and the release speed that is calculated where the authority gives none.
#![tactic(auto)]

mod speed;
mod start;

pub use speed::release_speed;
pub use start::release_start;

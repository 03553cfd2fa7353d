//! How the train of a journey is braked on its track: the slope maps and times that follow from the data, the targets
//! with their curves as they are kept between records, their limits at a reading, and where release speed monitoring
//! starts. Of a journey no crate above this one makes a brake curve.
#![tactic(auto)]

mod asked;
mod braking;
mod fall_feet;
mod falls_ahead;
pub mod kept;
mod kept_ends;
mod kept_falls;
mod kept_targets;
mod limits;
mod releases;
mod speeds;
mod train_and_track;
mod zones;

pub use asked::AskedEstimate;
pub use braking::Braking;
pub use fall_feet::{BrakeFeet, GuideFeet};
pub use falls_ahead::{Ahead, FallsAhead, KeptFall, KeptZone};
pub use kept::Kept;
pub use kept_ends::KeptEnd;
pub use kept_falls::KeptFalls;
pub use kept_targets::KeptTarget;
pub use releases::Release;
pub use speeds::SpeedLimits;
pub use train_and_track::TrainAndTrack;

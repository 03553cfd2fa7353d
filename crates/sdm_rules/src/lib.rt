//! The profile of SUBSET-026-3 section 3.13 and appendix A.3 that this program keeps: every definition of it that a
//! contract cites, in `specs/`, and the plain types that they speak of. There is no code here but the greatest numbers,
//! the numbers of keys and the tests of a range. What the program reads and writes stands in `sdm_formats`, and how it
//! is read in the crates that read it; `docs/ASSUMPTIONS.md` lists what an assessor must believe.
#![tactic(auto)]

pub mod authorities;
pub mod certificates;
pub mod commands;
pub mod data;
pub mod display;
pub mod faults;
pub mod keys;
pub mod limits;
pub mod motions;
mod ranges;
pub mod records;
pub mod restrictions;
pub mod rows;
pub mod targets;

pub use authorities::Authority;
pub use certificates::{Claim, Mark};
pub use commands::{Held, State, Status, Triggers};
pub use data::{
    Area, Band, Gradient, MOST_BANDS, NationalFields, SlopeKind, SpeedStep, Times, TrainFields,
};
pub use display::{Display, LimitName, Shown};
pub use faults::{
    AuthorityFault, CycleFault, EventCause, EventFault, FieldFault, NationalFault, OpenFault,
    RestrictFault, RevokeFault, Section, TakeOverFault, TrackFault, TrainFault, TripFault,
};
pub use limits::LimitKind;
pub use motions::{Phase, Point, Slice, Start};
pub use ranges::{
    LONGEST_TRACK_CM, LONGEST_TRAIN_CM, MOST_RECORDS, STEEPEST, TOP_KMH, first_refused, is_within,
    outside, outside_if_any, refused,
};
pub use records::Event;
pub use restrictions::Restriction;
pub use rows::Row;
pub use targets::{Fall, Target, TargetKind};

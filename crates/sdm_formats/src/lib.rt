//! The inputs and outputs of the program: numbers and lines, the forms of records, what an input means, the texts of
//! rows and the fault lines, and the two commands that have no journey of the user's, `flat` and `trial`. Their
//! definitions stand in `specs/`, above the profile of `sdm_rules`; `docs/FORMATS.md` tells them in prose. There is no
//! code here but the plain types that they speak of, the base of made data and the numbers of made journeys.
#![tactic(auto)]

mod base;
pub mod faults;
mod flat_rows;
mod generator;

pub use base::{BASE_BAND, BASE_NATIONAL, BASE_TRAIN};
pub use faults::{At, DataFault, DriveCause};
pub use flat_rows::FlatRow;
pub use generator::next_number;

//! The data part of a journey: where it ends in the input, the TOML document that it is, and the data that this
//! document holds or the first rule that it breaks; and the table of version 2 that holds given data.
#![tactic(auto)]

mod authorities;
mod base;
mod division;
mod documents;
mod entry_tables;
mod journeys;
mod lists;
mod national_values;
mod roots;
mod section_tables;
mod section_writers;
mod tables;
mod texts;
mod tracks;
mod trains;
mod versions;

pub use base::{BASE_PART, REALISTIC_PART};
pub use division::split;
pub use documents::{DocumentFault, read_document};
pub use journeys::{JourneyData, data_of};
pub use sdm_formats::{At, DataFault};
pub use tables::{law_of_tables, table_of};
pub use texts::text_of;

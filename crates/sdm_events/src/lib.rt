//! The records of a journey: taken one by one from bytes in memory, and each made the event that it writes.
#![tactic(auto)]

mod events;
mod record_fields;
mod stream;

pub use csv::ByteRecord;
pub use events::event_of;
pub use record_fields::RecordFields;
pub use sdm_rules::{Authority, Event, EventFault, FieldFault, Restriction};
pub use stream::Records;

//! Lines, fields, numbers, keys and rows as text: the lines of a text and their fields, what the fields of records and
//! the words of commands say, the names of the keys of the data part, and a buffer in which a row is put together.
//! Nothing here takes memory.
#![tactic(auto)]

mod digits;
mod keys;
mod lines;
mod numbers;
mod rows;
mod wide;

pub use keys::{key_name, key_names};
pub use lines::{split_field, split_line, without_lf};
pub use numbers::{natural_in, read_int, split_number};
pub use rows::{ROW_BYTES, RowBuf};
pub use sdm_rules::{FieldFault, Section};
pub use wide::read_wide;

//! What is told of a data part that is refused.

ghost use Rattle.std.specs.Prelude.{◌≡◌, ◌+◌, ◌≤◌, ◌++◌, length};
ghost use Rattle.sdm_formats.specs.FaultLines.{at_path, data_text, national_text, section_path, track_text, train_path};
ghost use Rattle.sdm_formats.specs.FaultLines.{train_text};

use crate::paths::{put_entry_path, put_key_path, put_list_path, put_section_path};
use sdm_formats::{At, DataFault};
use sdm_rules::{NationalFault, Section, TrackFault, TrainFault};
use sdm_text::{ROW_BYTES, RowBuf};

/// Puts the text of the first rule that the data part breaks; of want of memory its own: at most 80 bytes. (own)
#[tactic(auto, unfolding(sdm_formats::specs::FaultLines::data_text, sdm_formats::specs::FaultLines::memory_text))]
pub fn put_data_fault(fault: DataFault, into: &mut RowBuf)
    requires room { length into.old + 80 ≤ ROW_BYTES }
    ensures text { into.new ≡ into.old ++ data_text fault }
    ensures short { length into.new ≤ length into.old + 80 }
{
    match fault {
        DataFault::Missing(at) => put_key(b"bad data: missing ", at, into),
        DataFault::UnknownKey { section, index } => {
            put_section(b"bad data: unknown key in ", section, index, into)
        }
        DataFault::WrongKind(at) => put_key(b"bad data: wrong kind ", at, into),
        DataFault::Value(at) => put_key(b"bad data: value ", at, into),
        DataFault::Train(fault) => {
            into.text(b"bad data: ");
            put_train_fault(fault, into);
        }
        DataFault::National(fault) => {
            into.text(b"bad data: ");
            put_national_fault(fault, into);
        }
        DataFault::Track(fault) => {
            into.text(b"bad data: ");
            put_track_fault(fault, into);
        }
        DataFault::Memory => into.text(b"no memory"),
    }
}

/// Words, and the key of which they speak.
fn put_key(words: &[u8], at: At, into: &mut RowBuf)
    requires few { length words.now ≤ 25 }
    requires room { length into.old + 80 ≤ ROW_BYTES }
    ensures text { into.new ≡ into.old ++ (words.now ++ at_path at) }
    ensures short { length into.new ≤ length into.old + 80 }
{
    into.text(words);
    put_key_path(at.section, at.index, at.key, into);
}

/// Words, and the section of which they speak.
fn put_section(words: &[u8], section: Section, index: u32, into: &mut RowBuf)
    requires few { length words.now ≤ 25 }
    requires room { length into.old + 80 ≤ ROW_BYTES }
    ensures text { into.new ≡ into.old ++ (words.now ++ section_path section index) }
    ensures short { length into.new ≤ length into.old + 80 }
{
    into.text(words);
    put_section_path(section, index, into);
}

#[tactic(auto, unfolding(sdm_formats::specs::FaultLines::train_text))]
fn put_train_fault(fault: TrainFault, into: &mut RowBuf)
    requires room { length into.old + 60 ≤ ROW_BYTES }
    ensures text { into.new ≡ into.old ++ train_text fault }
    ensures short { length into.new ≤ length into.old + 60 }
{
    match fault {
        TrainFault::BandCount => into.text(b"band count"),
        TrainFault::BandOrder { band } => {
            into.text(b"band order ");
            put_entry_path(Section::Band, band, into);
        }
        TrainFault::Value { band, key } => {
            into.text(b"value ");
            put_train_path(band, key, into);
        }
    }
}

/// A key of a band, or one of the train's own where the band is 0.
fn put_train_path(band: u32, key: u8, into: &mut RowBuf)
    requires room { length into.old + 54 ≤ ROW_BYTES }
    ensures text { into.new ≡ into.old ++ train_path band key }
    ensures short { length into.new ≤ length into.old + 54 }
{
    match band {
        0 => put_key_path(Section::Train, 0, key, into),
        _ => put_key_path(Section::Band, band, key, into),
    }
}

#[tactic(auto, unfolding(sdm_formats::specs::FaultLines::national_text))]
fn put_national_fault(fault: NationalFault, into: &mut RowBuf)
    requires room { length into.old + 60 ≤ ROW_BYTES }
    ensures text { into.new ≡ into.old ++ national_text fault }
    ensures short { length into.new ≤ length into.old + 60 }
{
    let NationalFault::Value { key } = fault;
    into.text(b"value ");
    put_key_path(Section::National, 0, key, into);
}

#[tactic(auto, unfolding(sdm_formats::specs::FaultLines::track_text))]
fn put_track_fault(fault: TrackFault, into: &mut RowBuf)
    requires room { length into.old + 60 ≤ ROW_BYTES }
    ensures text { into.new ≡ into.old ++ track_text fault }
    ensures short { length into.new ≤ length into.old + 60 }
{
    match fault {
        TrackFault::Count { list } => {
            into.text(b"count ");
            put_list_path(list, into);
        }
        TrackFault::Order { list, index } => {
            into.text(b"order ");
            put_entry_path(list, index, into);
        }
        TrackFault::Value { list, index, key } => {
            into.text(b"value ");
            put_key_path(list, index, key, into);
        }
        TrackFault::Gap { list } => {
            into.text(b"gap ");
            put_list_path(list, into);
        }
    }
}

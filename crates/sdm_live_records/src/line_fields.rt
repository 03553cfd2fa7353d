//! The fields of a line, divided as `csv` divides them, in room that is taken once: a reader of `csv` made anew for
//! each line would take memory each time.

ghost use Rattle.std.specs.Prelude.{◌≡◌, ◌∷◌, ◌++◌, ◌+◌, ◌<◌, ◌≤◌, [], get_or, length, option_map};
ghost use Rattle.csv.specs.Reading.{strip_bom};
ghost use Rattle.csv.specs.Records.{field_at, fields_of, partial_of, prev};
ghost use Rattle.sdm_live.specs.Progress.{longest_line};
ghost use Rattle.sdm_live_records.specs.Fields.{line_fields, nothing_split, split_byte, split_fields, split_of};

use arrayvec::ArrayVec;
use sdm_events::RecordFields;
use sdm_live::LONGEST_LINE;
use std::marker::Model;

/// The most fields of a line: one more than it has bytes. (own)
const MOST_FIELDS: usize = 1_025;

/// Where a line stands within a field. (own)
#[derive(Clone, Copy, Debug, PartialEq, Eq)]
pub enum Within {
    /// A field begins.
    Start,
    /// In a field, or in what follows a quoted part of it.
    Plain,
    /// Within quotes.
    Quotes,
    /// After a quote that closes them, or is the first of two that stand for one.
    AfterQuote,
}

/// The fields of a line. (own)
#[derive(Drop)]
pub struct LineFields {
    /// The fields' bytes, one field after the other.
    bytes: ArrayVec<u8, LONGEST_LINE>,
    /// Where each field ends.
    ends: ArrayVec<usize, MOST_FIELDS>,
}

impl Model for LineFields {
    ghost use Rattle.csv.specs.Records.{IsRecord, Row};
    ghost use Rattle.sdm_live_records.specs.Fields.{row_from};

    ghost Value = { Row };

    ghost view = { λ f. row_from f.bytes.items f.ends.items };

    ghost invariant = { λ f. IsRecord (row_from f.bytes.items f.ends.items) };
}

impl LineFields {
    /// No fields.
    pub fn new() -> LineFields
        ensures { fields_of result ≡ [] }
    {
        LineFields {
            bytes: ArrayVec::new(),
            ends: ArrayVec::new(),
        }
    }

    /// Divides a line into its fields, after a byte order mark that begins it. (own)
    pub fn divide(&mut self, line: &[u8])
        requires { length line.now ≤ longest_line }
        ensures { fields_of self.new ≡ line_fields line.now }
    {
        self.split(without_mark(line));
    }

    /// Divides bytes into their fields, whatever they begin with.
    fn split(&mut self, bytes: &[u8])
        requires { length bytes.now ≤ longest_line }
        ensures { fields_of self.new ≡ split_fields bytes.now }
    {
        self.clear();
        let mut within = Within::Start;
        for byte in bytes {
            within = self.take(within, *byte);
        }
        self.end_field();
    }

    /// Takes every field away.
    fn clear(&mut self)
        ensures fields { split_of self.new Within.Start ≡ nothing_split }
        ensures bytes { self.new.bytes ≡ [] }
        ensures ends { self.new.ends ≡ [] }
    {
        self.bytes.clear();
        self.ends.clear();
    }

    /// Takes the next byte, and answers where the line then stands.
    fn take(&mut self, within: Within, byte: u8) -> Within
        requires bytes { length self.old.bytes < longest_line }
        requires ends { length self.old.ends < longest_line }
        ensures split { split_of self.new result ≡ split_byte (split_of self.old within) byte }
        ensures bytes { length self.new.bytes ≤ length self.old.bytes + 1 }
        ensures ends { length self.new.ends ≤ length self.old.ends + 1 }
    {
        match within {
            Within::Start if byte == b'"' => Within::Quotes,
            Within::Start | Within::Plain => self.plain(byte),
            Within::Quotes if byte == b'"' => Within::AfterQuote,
            Within::Quotes => {
                self.push(byte);
                Within::Quotes
            }
            Within::AfterQuote if byte == b'"' => {
                self.push(byte);
                Within::Quotes
            }
            Within::AfterQuote => self.plain(byte),
        }
    }

    /// Takes a byte that no quote governs: a comma ends the field.
    fn plain(&mut self, byte: u8) -> Within
        requires bytes { length self.old.bytes < longest_line }
        requires ends { length self.old.ends < longest_line }
        ensures comma { byte ≡ 44 → split_of self.new result
            ≡ record { fields = fields_of self.old ++ partial_of self.old ∷ []; field = []; within = Within.Start } }
        ensures other { (byte ≡ 44 → ⊥) → split_of self.new result
            ≡ record { fields = fields_of self.old; field = partial_of self.old ++ byte ∷ []; within = Within.Plain } }
        ensures bytes { length self.new.bytes ≤ length self.old.bytes + 1 }
        ensures ends { length self.new.ends ≤ length self.old.ends + 1 }
    {
        if byte == b',' {
            self.end_field();
            Within::Start
        } else {
            self.push(byte);
            Within::Plain
        }
    }

    /// One more byte of the field at hand.
    fn push(&mut self, byte: u8)
        requires { length self.old.bytes < longest_line }
        ensures fields { fields_of self.new ≡ fields_of self.old }
        ensures partial { partial_of self.new ≡ partial_of self.old ++ byte ∷ [] }
        ensures bytes { length self.new.bytes ≡ length self.old.bytes + 1 }
        ensures ends { self.new.ends ≡ self.old.ends }
    {
        self.bytes.push(byte);
    }

    /// The field at hand ends.
    fn end_field(&mut self)
        requires { length self.old.ends ≤ longest_line }
        ensures fields { fields_of self.new ≡ fields_of self.old ++ partial_of self.old ∷ [] }
        ensures partial { partial_of self.new ≡ [] }
        ensures bytes { self.new.bytes ≡ self.old.bytes }
        ensures ends { length self.new.ends ≡ length self.old.ends + 1 }
    {
        let end = self.bytes.len();
        self.ends.push(end);
    }
}

impl RecordFields for LineFields {
    ghost use Rattle.csv.specs.Records.{fields_of};

    ghost fields = { fields_of };

    fn len(&self) -> usize {
        self.ends.len()
    }

    fn get(&self, index: usize) -> Option<&[u8]> {
        if index >= self.ends.len() {
            return None;
        }
        let (start, end) = bounds(self.ends.as_slice(), index);
        Some(&self.bytes.as_slice()[start..end])
    }
}

/// The bytes of a line after a byte order mark that begins it.
#[tactic(auto, unfolding(csv::specs::Reading::strip_bom))]
fn without_mark(line: &[u8]) -> &[u8]
    ensures bytes { result.now ≡ strip_bom line.now }
    ensures fewer { length result.now ≤ length line.now }
{
    match line {
        [0xEF, 0xBB, 0xBF, rest @ ..] => rest,
        _ => line,
    }
}

/// Where the field of an index starts and ends.
fn bounds(ends: &[usize], index: usize) -> (usize, usize)
    requires { index < length ends.now }
    ensures start { result.0 ≡ prev 0 ends.now index }
    ensures end { result.1 ≡ get_or ends.now index 0 }
{
    let start = if index == 0 { 0 } else { ends[index - 1] };
    (start, ends[index])
}

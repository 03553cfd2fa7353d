//! The records of a journey, one by one from bytes in memory. `csv` decides what a record is, and its settings stand
//! here alone: comma separated, no header row, any count of fields.

ghost use Rattle.std.specs.Prelude.{◌≡◌, ◌∷◌, [], Ok, true, false, is_err};
ghost use Rattle.csv.specs.Records.{fields_of};
ghost use Rattle.sdm_events.specs.Journey.{records_of};

use csv::{ByteRecord, Reader, ReaderBuilder};
use sdm_num::NoMemory;
use std::alloc::Global;
use std::marker::Model;

/// The records that are left of bytes in memory. (own)
#[derive(Drop)]
pub struct Records<'a> {
    reader: Reader<&'a [u8]>,
    /// The last answer of `next`, and `Ok(true)` before the first. One that gave no record stays: the reader isn't
    /// asked again.
    last: Result<bool, NoMemory>,
}

impl<'a> Model for Records<'a> {
    ghost use Rattle.std.specs.Prelude.{◌≡◌, Ok, true, is_err};
    ghost use Rattle.sdm_events.specs.Left.{IsBetweenRecords, Rest, left_after};

    ghost Value = { Rest };

    ghost view = { λ r. record { left = left_after r.last r.reader; failed = is_err r.last } };

    ghost invariant = { λ r. r.last ≡ Ok true → IsBetweenRecords r.reader };
}

impl<'a> Records<'a> {
    /// All records of these bytes. No memory is taken.
    pub fn begin(alloc: Global, bytes: &'a [u8]) -> Records<'a>
        ensures all { result.left ≡ records_of bytes.now }
        ensures not_failed { result.failed ≡ false }
    {
        Records {
            reader: ReaderBuilder::new()
                .has_headers(false)
                .flexible(true)
                .from_reader(alloc, bytes),
            last: Ok(true),
        }
    }

    /// Takes the first of the records that are left into `into`; false where none is left. The only error is want of
    /// memory, since a reader of bytes in memory never fails; it is answered from then on. Only after true `into`
    /// holds a record.
    // In line, as `event_of`.
    #[inline(always)]
    pub fn next(&mut self, into: &mut ByteRecord) -> Result<bool, NoMemory>
        ensures found { result ≡ Ok true → self.old.left ≡ fields_of into.new ∷ self.new.left }
        ensures end { result ≡ Ok false → (self.old.left ≡ []) × (self.new.left ≡ []) }
        ensures failed { self.new.failed ≡ is_err result }
        ensures for_good { self.old.failed ≡ true → is_err result ≡ true }
    {
        let Ok(true) = self.last else {
            return self.last;
        };
        let Ok(found) = self.reader.read_byte_record(into) else {
            self.last = Err(NoMemory);
            return self.last;
        };
        self.last = Ok(found);
        self.last
    }
}

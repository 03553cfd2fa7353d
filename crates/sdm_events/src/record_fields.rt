//! The fields of a record, however they are kept: `run` has them from `csv`, `live` from a line that it divides.

ghost use Rattle.std.specs.Prelude.{◌≡◌, ℕ, List, length, option_map};
ghost use Rattle.csv.specs.Records.{field_at};

use csv::ByteRecord;

/// The fields of a record, of any bytes. (own)
pub trait RecordFields {
    /// The fields, in their order.
    ghost fields: { Self → List (List ℕ) };

    /// How many there are.
    fn len(&self) -> usize
        ensures { result ≡ length (fields self.now) };

    /// The field of an index, from 0; None where there is none.
    fn get(&self, index: usize) -> Option<&[u8]>
        ensures { option_map (λ s. s.now) result ≡ field_at (fields self.now) index };
}

impl RecordFields for ByteRecord {
    ghost use Rattle.csv.specs.Records.{fields_of};

    ghost fields = { fields_of };

    // In line, as `event_of`.
    #[inline(always)]
    fn len(&self) -> usize {
        ByteRecord::len(self)
    }

    // In line, as `event_of`.
    #[inline(always)]
    fn get(&self, index: usize) -> Option<&[u8]> {
        ByteRecord::get(self, index)
    }
}

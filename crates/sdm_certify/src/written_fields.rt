//! Fields of a line that is written, each with the comma before it and the most bytes that it takes.

ghost use Rattle.std.specs.Prelude.{◌≡◌, ◌∷◌, ◌++◌, ◌+◌, ◌^◌, ◌≤◌, length, decimal};
ghost use Rattle.std.specs.Fmt.{signed_decimal};

use sdm_report::fields::{put_count, put_number};
use sdm_text::{ROW_BYTES, RowBuf};

/// Puts a number of 32 bits: at most 11 bytes.
pub fn add_count(number: u32, into: &mut RowBuf)
    requires room { length into.old + 11 ≤ ROW_BYTES }
    ensures text { into.new ≡ into.old ++ 44 ∷ decimal number }
    ensures short { length into.new ≤ length into.old + 11 }
{
    into.byte(b',');
    put_count(number, into);
}

/// Puts a number of 64 bits: at most 21 bytes.
pub fn add_number(number: i64, into: &mut RowBuf)
    requires room { length into.old + 21 ≤ ROW_BYTES }
    ensures text { into.new ≡ into.old ++ 44 ∷ signed_decimal number }
    ensures short { length into.new ≤ length into.old + 21 }
{
    into.byte(b',');
    put_number(number, into);
}

/// Puts a slope: at most 17 bytes.
pub fn add_slope(slope: u64, into: &mut RowBuf)
    requires small { slope ≤ 10 ^ 15 }
    requires room { length into.old + 17 ≤ ROW_BYTES }
    ensures text { into.new ≡ into.old ++ 44 ∷ decimal slope }
    ensures short { length into.new ≤ length into.old + 17 }
{
    into.byte(b',');
    into.wide(u128::from(slope));
}

/// Puts a number of 128 bits: at most 40 bytes.
pub fn add_wide(number: u128, into: &mut RowBuf)
    requires room { length into.old + 40 ≤ ROW_BYTES }
    ensures text { into.new ≡ into.old ++ 44 ∷ decimal number }
    ensures short { length into.new ≤ length into.old + 40 }
{
    into.byte(b',');
    into.wide(number);
}

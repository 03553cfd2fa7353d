//! The pieces that rows and fault lines are made of, each with the most bytes that it takes.

ghost use Rattle.std.specs.Prelude.{◌≡◌, ◌+◌, ◌≤◌, ◌++◌, length, decimal};
ghost use Rattle.std.specs.Fmt.{signed_decimal};
ghost use Rattle.sdm_formats.specs.Text.{flag_text, place_text};
ghost use Rattle.sdm_formats.specs.Trial.{count_text};

use sdm_text::{ROW_BYTES, RowBuf};

/// Puts a number: at most 20 bytes. (own)
// Put in line, with `RowBuf::number`, wherever a number is put.
#[inline(always)]
#[tactic(auto, using(crate::proofs::Pieces::number_is_short))]
pub fn put_number(number: i64, into: &mut RowBuf)
    requires room { length into.old + 20 ≤ ROW_BYTES }
    ensures text { into.new ≡ into.old ++ signed_decimal number }
    ensures short { length into.new ≤ length into.old + 20 }
{
    into.number(number);
}

/// Puts a number of 32 bits: at most 10 bytes. (own)
#[inline(always)]
pub fn put_count(number: u32, into: &mut RowBuf)
    requires room { length into.old + 10 ≤ ROW_BYTES }
    ensures text { into.new ≡ into.old ++ decimal number }
    ensures short { length into.new ≤ length into.old + 10 }
{
    into.number(i64::from(number));
}

/// Puts a place in mm, `-` where there is none: at most 20 bytes. (own)
#[inline(always)]
#[tactic(auto, using(crate::proofs::Pieces::number_is_short))]
pub fn put_place(place: Option<i64>, into: &mut RowBuf)
    requires room { length into.old + 20 ≤ ROW_BYTES }
    ensures text { into.new ≡ into.old ++ place_text place }
    ensures short { length into.new ≤ length into.old + 20 }
{
    match place {
        Some(place) => into.number(place),
        None => into.byte(b'-'),
    }
}

/// Puts 1 or 0. (own)
pub fn put_flag(flag: bool, into: &mut RowBuf)
    requires room { length into.old + 1 ≤ ROW_BYTES }
    ensures text { into.new ≡ into.old ++ flag_text flag }
    ensures short { length into.new ≤ length into.old + 1 }
{
    into.byte(if flag { b'1' } else { b'0' });
}

/// Puts a word and a number as a line: at most 12 bytes more than the word. (own)
pub fn put_count_line(word: &[u8], number: u32, into: &mut RowBuf)
    requires room { length into.old + length word.now + 12 ≤ ROW_BYTES }
    ensures text { into.new ≡ into.old ++ count_text word.now number }
    ensures short { length into.new ≤ length into.old + length word.now + 12 }
{
    into.text(word);
    into.byte(b' ');
    put_count(number, into);
    into.byte(b'\n');
}

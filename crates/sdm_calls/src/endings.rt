//! What a call tells of its end: `struct sdm_ended`.

ghost use Rattle.std.specs.Prelude.{◌≡◌, length, take, drop};
ghost use Rattle.sdm_report.specs.OutcomeLines.{outcome_line};
ghost use Rattle.sdm_calls.specs.Lines.{HasLine};

use sdm_report::{Outcome, outcome_bytes};
use sdm_text::RowBuf;

/// The most bytes of a line.
pub const LINE_BYTES: usize = 192;

/// What a call tells of its end: `struct sdm_ended`.
#[repr(C)]
#[derive(Clone, Copy)]
pub struct EndedC {
    /// How many bytes the text has.
    pub text_bytes: u64,
    /// How many of the bytes of the line count.
    pub line_bytes: u32,
    /// The line, and after it bytes of no meaning.
    pub line: [u8; LINE_BYTES],
}

const _: () = prove!(size_of::<EndedC>() == 208);

/// Writes the line of an outcome, and nothing else.
pub fn tell(outcome: Outcome, ended: &mut EndedC)
    ensures line { HasLine ended.new (outcome_line outcome) }
    ensures same { ended.new.text_bytes ≡ ended.old.text_bytes }
{
    let mut text = RowBuf::new();
    outcome_bytes(&outcome, &mut text);
    let bytes = text.bytes();
    let count = bytes.len();
    ended.line[..count].copy_from_slice(bytes);
    ended.line_bytes = count as u32;
}

/// Puts as many bytes of a text into lent memory as there is room for, and says how many the text has.
pub fn put(text: &[u8], room: &mut [u8]) -> usize
    ensures count { result ≡ length text.now }
    ensures front { take (length text.now) room.new ≡ take (length room.old) text.now }
    ensures rest { drop (length text.now) room.new ≡ drop (length text.now) room.old }
{
    let n = text.len().min(room.len());
    room[..n].copy_from_slice(&text[..n]);
    text.len()
}

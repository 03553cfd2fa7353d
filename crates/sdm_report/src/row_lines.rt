//! The row of a reading as a line.

ghost use Rattle.std.specs.Prelude.{◌≡◌, []};
ghost use Rattle.sdm_formats.specs.Text.{row_text};

use crate::fields::put_place;
use sdm_rules::{Row, State, Status};
use sdm_text::RowBuf;

/// Puts a row: its fields with commas between them, and a line feed. (own)
#[tactic(auto, unfolding(sdm_formats::specs::Text::row_text))]
pub fn row_bytes(row: &Row, into: &mut RowBuf)
    requires { into.old ≡ [] }
    ensures { into.new ≡ row_text row.now }
{
    into.number(i64::from(row.time));
    into.byte(b',');
    into.byte(match row.state {
        State::C => b'C',
        State::T => b'T',
        State::R => b'R',
    });
    into.byte(b',');
    into.byte(match row.held.status {
        Status::N => b'N',
        Status::I => b'I',
        Status::O => b'O',
        Status::W => b'W',
        Status::X => b'X',
    });
    into.byte(b',');
    into.byte(b'0' + u8::from(row.held.tco));
    into.byte(b',');
    into.byte(b'0' + u8::from(row.held.sb));
    into.byte(b',');
    into.byte(b'0' + u8::from(row.held.eb));
    into.byte(b',');
    into.byte(b'0' + u8::from(row.covered));
    into.byte(b',');
    into.number(i64::from(row.ceiling));
    into.byte(b',');
    put_place(row.ebi, into);
    into.byte(b',');
    put_place(row.sbi, into);
    into.byte(b',');
    put_place(row.warning, into);
    into.byte(b',');
    put_place(row.permitted, into);
    into.byte(b',');
    put_place(row.indication, into);
    into.byte(b'\n');
}

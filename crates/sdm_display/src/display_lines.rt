//! What is shown of a reading as a line.

ghost use Rattle.std.specs.Prelude.{◌≡◌, ◌+◌, ◌≤◌, ◌∷◌, ◌++◌, [], length};
ghost use Rattle.std.specs.List.{join_with_byte};
ghost use Rattle.sdm_formats.specs.Text.{display_text, kind_text, shown_fields};

use sdm_report::fields::{put_count, put_number};
use sdm_rules::{Display, Shown, TargetKind};
use sdm_text::{ROW_BYTES, RowBuf};

/// Puts what is shown of a reading: its fields with commas between them, and a line feed. (own)
pub fn display_bytes(d: &Display, into: &mut RowBuf)
    requires { into.old ≡ [] }
    ensures { into.new ≡ display_text d.now }
{
    put_count(d.time, into);
    into.byte(b',');
    put_count(u32::from(d.permitted), into);
    into.byte(b',');
    put_count(u32::from(d.sbi), into);
    into.byte(b',');
    put_count(u32::from(d.ebi), into);
    into.byte(b',');
    put_count(u32::from(d.release), into);
    into.byte(b',');
    put_shown(d.shown, into);
    into.byte(b'\n');
}

/// Puts the kind of the target that counts and its distance, `-` and `-` where there is none: at most 22 bytes.
fn put_shown(shown: Option<Shown>, into: &mut RowBuf)
    requires room { length into.old + 22 ≤ ROW_BYTES }
    ensures text { into.new ≡ into.old ++ join_with_byte 44 (shown_fields shown) }
    ensures short { length into.new ≤ length into.old + 22 }
{
    let Some(shown) = shown else {
        into.text(b"-,-");
        return;
    };
    into.byte(letter_of(shown.kind));
    into.byte(b',');
    put_number(shown.distance, into);
}

/// The letter of a kind of target.
pub(crate) fn letter_of(kind: TargetKind) -> u8
    ensures { result ∷ [] ≡ kind_text kind }
{
    match kind {
        TargetKind::Mrsp => b'M',
        TargetKind::Loa => b'L',
        TargetKind::Eoa => b'E',
        TargetKind::Svl => b'S',
    }
}

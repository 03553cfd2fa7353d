//! What `why` writes of a reading: the line of its causes, part by part.

ghost use Rattle.std.specs.Prelude.{OnOk, OnErr};
ghost use Rattle.std.specs.Io.KnownBytes.{Appends};
ghost use Rattle.sdm_causes.specs.Text.{causes_text};
ghost use Rattle.sdm_io.specs.Causes.{HasCause};
ghost use Rattle.sdm_io.specs.Told.{AppendsPart};

use sdm_causes::Causes;
use sdm_display::{put_brake_part, put_command_part, put_driver_part};
use sdm_io::{Failed, Sink, write_piece};
use sdm_text::RowBuf;

/// Writes the line of causes. `text` is room for a part of it. (own)
pub fn write_causes<O: Sink>(causes: &Causes, text: &mut RowBuf, out: &mut O) -> Result<(), Failed>
    ensures ok { OnOk result (Appends (O.taken out.old) (O.taken out.new) (causes_text causes.now)) }
    ensures err { OnErr result (AppendsPart (O.taken out.old) (O.taken out.new) (causes_text causes.now)) }
    ensures cause { HasCause (O.faults out.old) (O.faults out.new) result }
{
    text.clear();
    put_driver_part(causes, text);
    write_piece(out, text.bytes())?;
    text.clear();
    put_brake_part(causes, text);
    write_piece(out, text.bytes())?;
    text.clear();
    put_command_part(causes, text);
    write_piece(out, text.bytes())
}

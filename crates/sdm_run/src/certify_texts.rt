//! What `certify` writes, line by line: the map of A_safe, and certificates.

ghost use Rattle.std.specs.Prelude.{pos, ◌≤◌, ◌≤ℤ◌, length, All, OnOk, OnErr};
ghost use Rattle.std.specs.Io.KnownBytes.{Appends};
ghost use Rattle.sdm_io.specs.Causes.{HasCause};
ghost use Rattle.sdm_io.specs.Told.{AppendsPart};
ghost use Rattle.sdm_rules.specs.Slopes.{meaning_of};
ghost use Rattle.sdm_certify.specs.ReadBack.{IsReadBack};
ghost use Rattle.sdm_certify.specs.WrittenLines.{last_start, marked_claim_text, text_of_lines, written_lines};

use sdm_certify::{Certificate, claim_line, map_line, map_lines, mark_line};
use sdm_curve::BandMap;
use sdm_io::{Failed, Sink, write_piece};
use sdm_text::RowBuf;

/// Writes the lines of a map, which a checker reads back. (own)
pub fn write_map<O: Sink>(map: &BandMap, out: &mut O) -> Result<(), Failed>
    requires segments { length map.now.starts ≤ 2_000 }
    ensures ok { OnOk result (Appends (O.taken out.old) (O.taken out.new) (text_of_lines (written_lines map.now))) }
    ensures err { OnErr result
        (AppendsPart (O.taken out.old) (O.taken out.new) (text_of_lines (written_lines map.now))) }
    ensures cause { HasCause (O.faults out.old) (O.faults out.new) result }
    ensures read_back { All (λ s. s ≤ℤ pos last_start) map.now.starts
        → IsReadBack (meaning_of map.now) (text_of_lines (written_lines map.now)) }
{
    let mut text = RowBuf::new();
    for i in 0..map_lines(map) {
        text.clear();
        map_line(map, i, &mut text);
        write_piece(out, text.bytes())?;
    }
    Ok(())
}

/// Writes a claim with its marks. (own)
pub fn write_certificate<O: Sink>(certificate: &Certificate, out: &mut O) -> Result<(), Failed>
    ensures ok { OnOk result (Appends (O.taken out.old) (O.taken out.new)
        (marked_claim_text certificate.now.claim certificate.now.marks)) }
    ensures err { OnErr result (AppendsPart (O.taken out.old) (O.taken out.new)
        (marked_claim_text certificate.now.claim certificate.now.marks)) }
    ensures cause { HasCause (O.faults out.old) (O.faults out.new) result }
{
    let marks = certificate.marks.get();
    let mut text = RowBuf::new();
    claim_line(&certificate.claim, marks.len() as u32, &mut text);
    write_piece(out, text.bytes())?;
    for mark in marks {
        text.clear();
        mark_line(mark, &mut text);
        write_piece(out, text.bytes())?;
    }
    Ok(())
}

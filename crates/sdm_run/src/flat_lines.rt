//! The lines that `flat` takes and the rows that it writes.

ghost use Rattle.std.specs.Prelude.{◌≡◌, [], IfSome, IfNone};
ghost use Rattle.sdm_formats.specs.Flat.{flat_text};
ghost use Rattle.sdm_run.specs.TakenLines.{IsAcceptedLine, IsRefusedLine};

use sdm_num::{Place, Speed};
use sdm_report::fields::{put_count, put_flag, put_number};
use sdm_supervisor::{Flat, FlatRow};
use sdm_text::{RowBuf, natural_in, split_number};

/// Takes a line, of a time in ds, a front end in mm and a speed in mm/s; none where it is refused. (own)
pub fn take_line(flat: &mut Flat, line: &[u8]) -> Option<FlatRow>
    ensures accepted { IfSome result (λ row. IsAcceptedLine flat.old flat.new line.now row) }
    ensures refused { IfNone result (IsRefusedLine flat.old line.now) }
{
    let (time, rest) = split_number(line, 0, 100_000_000)?;
    let (front, speed) = split_number(rest, -10_000_000, 110_000_000)?;
    let Ok(speed) = natural_in(speed, 0, 138_888) else {
        return None;
    };
    let (front, speed) = (Place::of_mm(front as i32), Speed::of_mm_s(speed));
    match flat.cycle(time as u32, front, speed) {
        Ok(row) => Some(row),
        Err(_) => None,
    }
}

/// Puts a row. (own)
#[tactic(auto, unfolding(sdm_formats::specs::Flat::flat_text))]
pub fn put_row(row: &FlatRow, into: &mut RowBuf)
    requires { into.old ≡ [] }
    ensures { into.new ≡ flat_text row.now }
{
    put_count(row.time, into);
    into.byte(b',');
    put_number(row.ebi, into);
    into.byte(b',');
    put_flag(row.covered, into);
    into.byte(b',');
    put_flag(row.eb, into);
    into.byte(b'\n');
}

//! The command `flat`: a row for each line, written before the next line is taken.

ghost use Rattle.std.specs.Prelude.{◌≡◌, ◌⊎◌, ◌≤◌, [], length, false};
ghost use Rattle.sdm_io.specs.Causes.{Rose};
ghost use Rattle.sdm_rules.specs.Ranges.{longest_track};
ghost use Rattle.sdm_formats.specs.Input.{most_bytes};
ghost use Rattle.sdm_formats.specs.Flat.{flat_output};
ghost use Rattle.sdm_run.specs.Answers.{LeavesOutUntouched, IsAnswer};
ghost use Rattle.sdm_run.specs.Shapes.{IsOutcomeIn, flat_shape};

use crate::endings::Ended;
use crate::flat_lines::{put_row, take_line};
use sdm_io::{Sink, write_piece};
use sdm_report::{EventCause, Outcome};
use sdm_supervisor::Flat;
use sdm_text::{RowBuf, split_line, without_lf};
use std::alloc::Global;

/// Answers the lines of an input. Memory comes only before out was handed anything; WriteFault only where out failed.
/// (own)
pub fn run_flat<O: Sink>(alloc: Global, decel: u16, end_cm: u32, bytes: &[u8], out: &mut O) -> Ended
    requires low { 5 ≤ decel }
    requires high { decel ≤ 400 }
    requires end { end_cm ≤ longest_track }
    requires short { length bytes.now ≤ most_bytes }
    ensures answer { IsAnswer (flat_output decel end_cm bytes.now) (O.taken out.old) (O.taken out.new) result.outcome }
    ensures possible { IsOutcomeIn flat_shape result.outcome }
    ensures not_first { LeavesOutUntouched result.outcome → ⊥ }
    ensures memory { result.outcome ≡ Outcome.Memory → (result.is_flush_due ≡ false) × (out.new ≡ out.old) }
    ensures due { result.is_flush_due ≡ false → (out.new ≡ out.old) ⊎ (result.outcome ≡ Outcome.WriteFault) }
    ensures untouched { (flat_output decel end_cm bytes.now).text ≡ []
        → (result.is_flush_due ≡ false) × (out.new ≡ out.old) }
    ensures later { O.faults out.old ≤ O.faults out.new }
    ensures write { result.outcome ≡ Outcome.WriteFault → Rose (O.faults out.old) (O.faults out.new) }
{
    let Ok(mut flat) = Flat::begin(alloc, decel, end_cm) else {
        return Ended {
            outcome: Outcome::Memory,
            is_flush_due: false,
        };
    };
    let mut row_text = RowBuf::new();
    let mut number = 0u32;
    let mut rest = bytes;
    let mut is_flush_due = false;
    'lines: while let Some((line, after)) = split_line(rest) {
        number += 1;
        let Some(row) = take_line(&mut flat, without_lf(line)) else {
            let cause = EventCause::Line;
            return Ended {
                outcome: Outcome::BadEvent { number, cause },
                is_flush_due,
            };
        };
        row_text.clear();
        put_row(&row, &mut row_text);
        let Ok(()) = write_piece(out, row_text.bytes()) else {
            return Ended {
                outcome: Outcome::WriteFault,
                is_flush_due: false,
            };
        };
        is_flush_due = true;
        rest = after;
    }
    Ended {
        outcome: Outcome::Done,
        is_flush_due,
    }
}

//! What the commands over a journey tell of a reading: `run` its row, `display` what is shown of it, `why` its causes,
//! `certify` its certificate.

ghost use Rattle.std.specs.Prelude.{◌≡◌, ◌≤◌, [], false, Ok, IfErr, IfOk, OnErr, OnOk};
ghost use Rattle.std.specs.Io.KnownBytes.{Appends};
ghost use Rattle.sdm_io.specs.Causes.{HasCause, Rose};
ghost use Rattle.sdm_io.specs.Told.{AppendsPart};
ghost use Rattle.sdm_rules.specs.Display.{display_of};
ghost use Rattle.sdm_formats.specs.Text.{display_text};
ghost use Rattle.sdm_rules.specs.declared.rows.Row.{Row};
ghost use Rattle.sdm_run.specs.declared.tellers.Teller.TheVariants.{Causes, Certificates};
ghost use Rattle.sdm_run.specs.RunParts.{IsHeadReadBack, IsToldReading, head_text};
ghost use Rattle.sdm_run.specs.Shapes.{IsOutcomeIn, records_shape};

use crate::cause_texts::write_causes;
use crate::certify_texts::{write_certificate, write_map};
use crate::endings::Ended;
use sdm_certify::certificate_of;
use sdm_display::{Display, display_bytes, display_near};
use sdm_io::{Failed, Sink, write_piece};
use sdm_num::{NoMemory, Reading};
use sdm_report::{Outcome, row_bytes};
use sdm_rules::Row;
use sdm_supervisor::Supervisor;
use sdm_text::RowBuf;
use std::alloc::Global;

/// What is told of each reading of a journey; of another record nothing is told. (own)
// A value and no type parameter, so that there is one loop over records: of two neither would have in line what each
// record calls, and a reading would cost some 150 instructions more.
#[derive(Clone, Copy)]
pub enum Teller {
    /// `run`: its row.
    Rows,
    /// `display`: what is shown of it.
    Displays,
    /// `why`: its causes.
    Causes,
    /// `certify`: its certificate, if it is covered under a stop, of so many readings that are left.
    Certificates { left: u16 },
}

impl Teller {
    /// Writes what stands before the records: of `certify` the map, which a checker reads back. Whether out was handed a
    /// byte. (own)
    pub fn begin<O: Sink>(self, supervisor: &Supervisor, out: &mut O) -> Result<bool, Failed>
        ensures ok { OnOk result (Appends (O.taken out.old) (O.taken out.new)
            (head_text self supervisor.now.train_and_track)) }
        ensures err { OnErr result (AppendsPart (O.taken out.old) (O.taken out.new)
            (head_text self supervisor.now.train_and_track)) }
        ensures read_back { IfOk result (λ handed. IsHeadReadBack self supervisor.now.train_and_track) }
        ensures unhanded { IfOk result (λ handed. handed ≡ false → out.new ≡ out.old) }
        ensures headless { head_text self supervisor.now.train_and_track ≡ [] → result ≡ Ok false }
        ensures cause { HasCause (O.faults out.old) (O.faults out.new) result }
    {
        match self {
            Teller::Rows | Teller::Displays | Teller::Causes => Ok(false),
            Teller::Certificates { .. } => match write_map(supervisor.safe_map(), out) {
                Ok(()) => Ok(true),
                Err(failed) => Err(failed),
            },
        }
    }

    /// Tells of a reading that was taken, with its row and the supervisor after it, and answers what tells of the
    /// next; else how the command ends: WriteFault, where out failed, or Memory. `text` is room for a line, and `last` what
    /// was shown last, if anything was. (own)
    // In line in the loop over records, its one caller.
    #[inline(always)]
    pub fn tell<O: Sink>(
        self,
        alloc: Global,
        reading: &Reading,
        row: &Row,
        after: &Supervisor,
        last: &mut Display,
        text: &mut RowBuf,
        out: &mut O,
    ) -> Result<Teller, Ended>
        ensures told { IsToldReading self reading.now row.now after.now (O.taken out.old) (O.taken out.new) result }
        ensures due { IfErr result (λ ended. ended.is_flush_due ≡ false → ended.outcome ≡ Outcome.WriteFault) }
        ensures later { O.faults out.old ≤ O.faults out.new }
        ensures write { IfErr result
            (λ ended. ended.outcome ≡ Outcome.WriteFault → Rose (O.faults out.old) (O.faults out.new)) }
        ensures possible { IfErr result (λ ended. IsOutcomeIn records_shape ended.outcome) }
    {
        text.clear();
        match self {
            Teller::Rows => row_bytes(row, text),
            Teller::Displays => put_shown(reading, after, last, text),
            Teller::Causes => return explain(reading, after, text, out),
            Teller::Certificates { left } => {
                return certify(alloc, left, reading, row, after, out);
            }
        }
        match write_piece(out, text.bytes()) {
            Ok(()) => Ok(self),
            Err(Failed) => Err(Ended::new(Outcome::WriteFault, false)),
        }
    }
}

/// Puts what is shown of a reading in the state after it. The speeds are near those that were shown last, as a rule.
// Out of line, as `certify`, so that the loop over records stays small enough to have in line what each record calls.
#[cold]
#[inline(never)]
fn put_shown(reading: &Reading, after: &Supervisor, last: &mut Display, text: &mut RowBuf)
    requires { text.old ≡ [] }
    ensures { text.new ≡ display_text (display_of after.now reading.now) }
{
    *last = display_near(after, reading, last);
    display_bytes(last, text);
}

/// Writes the causes of a reading in the state after it.
#[cold]
#[inline(never)]
fn explain<O: Sink>(
    reading: &Reading,
    after: &Supervisor,
    text: &mut RowBuf,
    out: &mut O,
) -> Result<Teller, Ended>
    ensures told { (row : Row) →
        IsToldReading Causes reading.now row after.now (O.taken out.old) (O.taken out.new) result }
    ensures due { IfErr result (λ ended. ended.is_flush_due ≡ false → ended.outcome ≡ Outcome.WriteFault) }
    ensures later { O.faults out.old ≤ O.faults out.new }
    ensures write { IfErr result
        (λ ended. ended.outcome ≡ Outcome.WriteFault → Rose (O.faults out.old) (O.faults out.new)) }
    ensures possible { IfErr result (λ ended. IsOutcomeIn records_shape ended.outcome) }
{
    match write_causes(&after.causes(reading), text, out) {
        Ok(()) => Ok(Teller::Causes),
        Err(Failed) => Err(Ended::new(Outcome::WriteFault, false)),
    }
}

/// Writes the certificate of a covered reading under a stop, where so many are left.
#[cold]
#[inline(never)]
fn certify<O: Sink>(
    alloc: Global,
    left: u16,
    reading: &Reading,
    row: &Row,
    after: &Supervisor,
    out: &mut O,
) -> Result<Teller, Ended>
    ensures told { IsToldReading (Certificates left) reading.now row.now after.now
        (O.taken out.old) (O.taken out.new) result }
    ensures due { IfErr result (λ ended. ended.is_flush_due ≡ false → ended.outcome ≡ Outcome.WriteFault) }
    ensures later { O.faults out.old ≤ O.faults out.new }
    ensures write { IfErr result
        (λ ended. ended.outcome ≡ Outcome.WriteFault → Rose (O.faults out.old) (O.faults out.new)) }
    ensures possible { IfErr result (λ ended. IsOutcomeIn records_shape ended.outcome) }
{
    if left == 0 || !row.covered {
        return Ok(Teller::Certificates { left });
    }
    match certificate_of(alloc, after, reading) {
        Ok(None) => Ok(Teller::Certificates { left }),
        Ok(Some(certificate)) => match write_certificate(&certificate, out) {
            Ok(()) => Ok(Teller::Certificates { left: left - 1 }),
            Err(_) => Err(Ended::new(Outcome::WriteFault, false)),
        },
        Err(NoMemory) => Err(Ended::new(Outcome::Memory, true)),
    }
}

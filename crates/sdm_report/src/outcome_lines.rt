//! The line of the fault stream that tells an outcome.

ghost use Rattle.std.specs.Prelude.{◌≡◌, []};
ghost use Rattle.sdm_formats.specs.FaultLines.{end_line};
ghost use Rattle.sdm_formats.specs.Input.{BadEvent, Refused, Undrivable};
ghost use Rattle.sdm_report.specs.OutcomeLines.{end_of_data, outcome_line};

use crate::data_lines::put_data_fault;
use crate::fields::put_count;
use crate::outcome::{InputFault, Outcome};
use crate::refusal_lines::{put_cause, put_open_fault};
use sdm_formats::DriveCause;
use sdm_rules::{EventCause, OpenFault};
use sdm_text::RowBuf;

/// Puts the line of an outcome; nothing where all was done. Want of memory inside a fault has the line of want of
/// memory. (own)
#[tactic(auto, unfolding(crate::specs::OutcomeLines::outcome_line, sdm_formats::specs::FaultLines::end_line, sdm_formats::specs::FaultLines::fault_line, sdm_formats::specs::FaultLines::memory_text))]
pub fn outcome_bytes(outcome: &Outcome, into: &mut RowBuf)
    requires { into.old ≡ [] }
    ensures { into.new ≡ outcome_line outcome.now }
{
    match outcome {
        Outcome::Done => {}
        Outcome::Usage => into.text(b"sdm: bad words\n"),
        Outcome::ReadFault => into.text(b"sdm: read fault\n"),
        Outcome::WriteFault => into.text(b"sdm: write fault\n"),
        Outcome::TooLong => into.text(b"sdm: input too long\n"),
        Outcome::BadData(fault) => put_bad_data(*fault, into),
        Outcome::Refused(fault) => put_refused(*fault, into),
        Outcome::BadEvent { number, cause } => put_bad_event(*number, *cause, into),
        Outcome::Memory => into.text(b"sdm: no memory\n"),
        Outcome::Undrivable(cause) => put_undrivable(*cause, into),
    }
}

#[tactic(auto, unfolding(sdm_formats::specs::FaultLines::end_line, sdm_formats::specs::FaultLines::fault_line))]
fn put_bad_data(fault: InputFault, into: &mut RowBuf)
    requires { into.old ≡ [] }
    ensures { into.new ≡ end_line (end_of_data fault) }
{
    match fault {
        InputFault::NoSplit => into.text(b"sdm: bad data: no %% line\n"),
        InputFault::Toml => into.text(b"sdm: bad data: not TOML\n"),
        InputFault::Data(fault) => {
            into.text(b"sdm: ");
            put_data_fault(fault, into);
            into.byte(b'\n');
        }
    }
}

#[tactic(auto, unfolding(sdm_formats::specs::FaultLines::end_line, sdm_formats::specs::FaultLines::fault_line))]
fn put_refused(fault: OpenFault, into: &mut RowBuf)
    requires { into.old ≡ [] }
    ensures { into.new ≡ end_line (Refused fault) }
{
    into.text(b"sdm: ");
    put_open_fault(fault, into);
    into.byte(b'\n');
}

#[tactic(auto, unfolding(sdm_formats::specs::FaultLines::end_line, sdm_formats::specs::FaultLines::fault_line))]
fn put_bad_event(number: u32, cause: EventCause, into: &mut RowBuf)
    requires { into.old ≡ [] }
    ensures { into.new ≡ end_line (BadEvent number cause) }
{
    into.text(b"sdm: bad event ");
    put_count(number, into);
    into.text(b": ");
    put_cause(cause, into);
    into.byte(b'\n');
}

#[tactic(auto, unfolding(sdm_formats::specs::FaultLines::end_line, sdm_formats::specs::FaultLines::fault_line))]
fn put_undrivable(cause: DriveCause, into: &mut RowBuf)
    requires { into.old ≡ [] }
    ensures { into.new ≡ end_line (Undrivable cause) }
{
    match cause {
        DriveCause::NoStop => into.text(b"sdm: not drivable: no stop\n"),
        DriveCause::HasRelease => into.text(b"sdm: not drivable: release speed\n"),
        DriveCause::ShortBuild => into.text(b"sdm: not drivable: emergency time\n"),
    }
}

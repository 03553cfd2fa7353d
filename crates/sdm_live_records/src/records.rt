//! The records of a journey as lines come, and the answer to each.

ghost use Rattle.std.specs.Prelude.{◌≡◌, ◌≤◌, [], Err, IfErr, IfOk, OnErr, length};
ghost use Rattle.csv.specs.Records.{fields_of};
ghost use Rattle.sdm_rules.specs.Records.{trip_cause, turn_of};
ghost use Rattle.sdm_formats.specs.Forms.{event_of};
ghost use Rattle.sdm_live.specs.Progress.{longest_line};
ghost use Rattle.sdm_live_records.specs.Live.{IsTakenRecord, answer_to, refused_text, state_after, too_long_text};

use crate::line_fields::LineFields;
use sdm_events::{Event, event_of};
use sdm_live::Step;
use sdm_report::{EventCause, put_cause, row_bytes};
use sdm_rules::{Row, TripFault};
use sdm_supervisor::{CycleFault, Supervisor};
use sdm_text::RowBuf;
use std::marker::Model;

/// A supervisor that takes the records of its journey line by line. (own)
#[derive(Drop)]
pub struct LiveRecords {
    supervisor: Supervisor,
    fields: LineFields,
    answer: RowBuf,
}

impl Model for LiveRecords {
    ghost use Rattle.std.specs.Coded.{codes};
    ghost use Rattle.sdm_speed.specs.Codes.{coded_restrictions};
    ghost use Rattle.sdm_live_records.specs.Live.{LiveState};

    ghost Value = { LiveState };

    ghost coded = { Prim.hlevel (codes, coded_restrictions) };

    ghost view = { λ r. record { supervision = r.supervisor; text = r.answer } };
}

impl LiveRecords {
    /// No line was taken. No memory is taken from here on.
    pub fn new(supervisor: Supervisor) -> LiveRecords
        ensures { result ≡ record { supervision = supervisor; text = [] } }
    {
        LiveRecords {
            supervisor,
            fields: LineFields::new(),
            answer: RowBuf::new(),
        }
    }
}

impl Step for LiveRecords {
    ghost use Rattle.sdm_live_records.specs.Live.{live_rules};

    ghost rules = { live_rules };

    #[tactic(auto, unfolding(crate::specs::Live::live_rules))]
    fn take(&mut self, line: &[u8]) {
        self.fields.divide(line);
        self.answer.clear();
        answer(&mut self.supervisor, &self.fields, &mut self.answer);
    }

    #[tactic(auto, unfolding(crate::specs::Live::live_rules))]
    fn told(&self) -> &[u8] {
        self.answer.bytes()
    }

    #[tactic(auto, unfolding(crate::specs::Live::live_rules))]
    fn too_long(&self) -> &[u8] {
        too_long_answer()
    }
}

/// The answer to a line that is too long.
#[tactic(auto, unfolding(crate::specs::Live::too_long_text))]
fn too_long_answer() -> &'static [u8]
    ensures { result.now ≡ too_long_text }
{
    b"refused: line too long\n"
}

/// Takes a record and puts the answer to it.
#[tactic(auto, unfolding(crate::specs::Live::refused_text), using(crate::proofs::Taken::answers))]
fn answer(supervisor: &mut Supervisor, fields: &LineFields, into: &mut RowBuf)
    requires { into.old ≡ [] }
    ensures state { supervisor.new ≡ state_after supervisor.old
        (turn_of supervisor.old (event_of (fields_of fields.now))) }
    ensures text { into.new ≡ answer_to (turn_of supervisor.old (event_of (fields_of fields.now))) }
{
    match take_record(supervisor, fields) {
        Ok(Some(row)) => row_bytes(&row, into),
        Ok(None) => into.text(b"taken\n"),
        Err(cause) => put_refused(cause, into),
    }
}

/// Puts the answer to a record that is refused.
#[tactic(auto, unfolding(crate::specs::Live::refused_text))]
fn put_refused(cause: EventCause, into: &mut RowBuf)
    requires { into.old ≡ [] }
    ensures { into.new ≡ refused_text cause }
{
    into.text(b"refused: ");
    put_cause(cause, into);
    into.byte(b'\n');
}

/// Takes a record: the row of a reading, or none of another that is taken; else why it is refused.
#[tactic(auto, unfolding(sdm_rules::specs::Records::step), using(crate::proofs::Taken::taken_records))]
fn take_record(supervisor: &mut Supervisor, fields: &LineFields) -> Result<Option<Row>, EventCause>
    ensures taken { IfOk result (IsTakenRecord supervisor.old supervisor.new (event_of (fields_of fields.now))) }
    ensures refused { IfErr result (λ cause. turn_of supervisor.old (event_of (fields_of fields.now)) ≡ Err cause) }
    ensures unchanged { OnErr result (supervisor.new ≡ supervisor.old) }
{
    match event_of(fields).map_err(EventCause::Form)? {
        Event::Read(reading) => match supervisor.cycle(&reading) {
            Ok(row) => return Ok(Some(row)),
            Err(CycleFault::TimeBack { last, time }) => {
                return Err(EventCause::TimeBack { last, time });
            }
        },
        Event::Authority(a) => supervisor.authority(a).map_err(EventCause::Authority)?,
        Event::Calculated { eoa, svl, trip } => supervisor
            .calculated_stop(eoa, svl, trip)
            .map_err(cause_of_trip)?,
        Event::Restrict(r) => supervisor.restrict(r).map_err(EventCause::Restrict)?,
        Event::Revoke { id } => supervisor.revoke(id).map_err(EventCause::Revoke)?,
    }
    Ok(None)
}

/// Why a record is refused that gives a stop with the place of a trip. (own)
fn cause_of_trip(fault: TripFault) -> EventCause
    ensures { result ≡ trip_cause fault }
{
    match fault {
        TripFault::Authority(fault) => EventCause::Authority(fault),
        TripFault::BadTrip => EventCause::BadTrip,
    }
}

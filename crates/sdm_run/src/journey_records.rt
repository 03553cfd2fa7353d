//! The records of a journey, from a record to what is written of it: each is taken, and what is told of its turn
//! written, before the next one is read. What is told of a reading is the one thing that differs from command
//! to command.

ghost use Rattle.std.specs.Prelude.{◌≡◌, ◌⊎◌, ◌≤◌, [], false, Err, IfErr, IfOk, OnOk};
ghost use Rattle.csv.specs.Records.{fields_of};
ghost use Rattle.sdm_io.specs.Causes.{Rose};
ghost use Rattle.sdm_rules.specs.Records.{event_at, journey_from, most_records, trip_cause, turn_of};
ghost use Rattle.sdm_formats.specs.Forms.{event_of};
ghost use Rattle.sdm_events.specs.Journey.{records_of};
ghost use Rattle.sdm_run.specs.Answers.{IsAnswer, IsEndOfRecords};
ghost use Rattle.sdm_run.specs.declared.endings.Ended.{Ended};
ghost use Rattle.sdm_run.specs.declared.journey_records.Taken.TheVariants.{Cut, Untold};
ghost use Rattle.sdm_run.specs.RunParts.{IsHeldBy, IsToldRecord, TellsEach, output_of_records};
ghost use Rattle.sdm_run.specs.Shapes.{IsOutcomeIn, records_shape};

use crate::endings::Ended;
use crate::tellers::Teller;
use sdm_display::Display;
use sdm_events::{ByteRecord, Event, EventFault, Records, event_of};
use sdm_io::Sink;
use sdm_num::NoMemory;
use sdm_report::{EventCause, Outcome};
use sdm_rules::{MOST_RECORDS, TripFault};
use sdm_supervisor::{CycleFault, Supervisor};
use sdm_text::RowBuf;
use std::alloc::Global;

// Near what the first display is sought.
const NOTHING_SHOWN: Display = Display {
    time: 0,
    permitted: 0,
    sbi: 0,
    ebi: 0,
    release: 0,
    shown: None,
};

/// What comes of a record that is taken. (own)
#[derive(Clone, Copy)]
pub enum Taken {
    /// Nothing is told of it.
    Untold,
    /// A reading was told of; this tells of the next one.
    Told(Teller),
    /// The command ends before all was told of a reading.
    Cut(Ended),
}

/// Answers the records of these bytes, from a supervision state on, by what is told of each turn. Whether a flush is
/// due from before is handed in. WriteFault comes only where out failed. (own)
// Out of line, so that what a record calls is in line in it.
#[inline(never)]
pub fn run_records<O: Sink>(
    alloc: Global,
    mut teller: Teller,
    mut is_flush_due: bool,
    supervisor: &mut Supervisor,
    bytes: &[u8],
    out: &mut O,
) -> Ended
    ensures answer { IsAnswer (output_of_records teller 1 supervisor.old (records_of bytes.now))
        (O.taken out.old) (O.taken out.new) result.outcome }
    ensures held { IsEndOfRecords result.outcome → IsHeldBy teller
        (journey_from (event_at event_of) 1 supervisor.old (records_of bytes.now)).turns }
    ensures due { result.is_flush_due ≡ false
        → ((is_flush_due ≡ false) × (out.new ≡ out.old)) ⊎ (result.outcome ≡ Outcome.WriteFault) }
    ensures untouched { is_flush_due ≡ false → TellsEach teller
        → (output_of_records teller 1 supervisor.old (records_of bytes.now)).text ≡ []
        → (result.is_flush_due ≡ false) × (out.new ≡ out.old) }
    ensures later { O.faults out.old ≤ O.faults out.new }
    ensures write { result.outcome ≡ Outcome.WriteFault → Rose (O.faults out.old) (O.faults out.new) }
    ensures possible { IsOutcomeIn records_shape result.outcome }
{
    let mut records = Records::begin(alloc, bytes);
    let mut record = ByteRecord::new(alloc);
    let mut last = NOTHING_SHOWN;
    let mut text = RowBuf::new();
    let mut number = 0u32;
    'records: loop {
        match records.next(&mut record) {
            Ok(true) => {}
            Ok(false) => return Ended::new(Outcome::Done, is_flush_due),
            Err(NoMemory) => return Ended::new(Outcome::Memory, is_flush_due),
        }
        number += 1;
        match take_record(
            alloc, teller, supervisor, number, &record, &mut last, &mut text, out,
        ) {
            Ok(Taken::Untold) => {}
            Ok(Taken::Told(after)) => {
                teller = after;
                is_flush_due = true;
            }
            Ok(Taken::Cut(ended)) => return ended,
            Err(cause) => return Ended::new(Outcome::BadEvent { number, cause }, is_flush_due),
        }
    }
}

/// Takes the record with these fields, whose number counts from 1, and tells of a reading.
#[tactic(auto, unfolding(sdm_rules::specs::Records::step), using(crate::proofs::RunTexts::taken_records))]
fn take_record<O: Sink>(
    alloc: Global,
    teller: Teller,
    supervisor: &mut Supervisor,
    number: u32,
    fields: &ByteRecord,
    last: &mut Display,
    text: &mut RowBuf,
    out: &mut O,
) -> Result<Taken, EventCause>
    ensures taken { IfOk result (IsToldRecord teller supervisor.old supervisor.new
        (event_at event_of number (fields_of fields.now)) (O.taken out.old) (O.taken out.new)) }
    ensures counted { OnOk result (number ≤ most_records) }
    ensures refused { IfErr result
        (λ cause. turn_of supervisor.old (event_at event_of number (fields_of fields.now)) ≡ Err cause) }
    ensures untold { IfErr result (λ cause. out.new ≡ out.old) }
    ensures silent { IfOk result (λ taken. taken ≡ Untold → out.new ≡ out.old) }
    ensures due { IfOk result (λ taken. (ended : Ended) → taken ≡ Cut ended →
        ended.is_flush_due ≡ false → ended.outcome ≡ Outcome.WriteFault) }
    ensures later { O.faults out.old ≤ O.faults out.new }
    ensures write { IfOk result (λ taken. (ended : Ended) → taken ≡ Cut ended →
        ended.outcome ≡ Outcome.WriteFault → Rose (O.faults out.old) (O.faults out.new)) }
    ensures possible { IfOk result (λ taken. (ended : Ended) → taken ≡ Cut ended →
        IsOutcomeIn records_shape ended.outcome) }
{
    if MOST_RECORDS < number {
        return Err(EventCause::Form(EventFault::TooMany));
    }
    match event_of(fields).map_err(EventCause::Form)? {
        Event::Read(reading) => match supervisor.cycle(&reading) {
            Ok(row) => {
                return Ok(
                    match teller.tell(alloc, &reading, &row, supervisor, last, text, out) {
                        Ok(after) => Taken::Told(after),
                        Err(ended) => Taken::Cut(ended),
                    },
                );
            }
            Err(CycleFault::TimeBack { last, time }) => {
                return Err(EventCause::TimeBack { last, time });
            }
        },
        Event::Authority(a) => supervisor.authority(a).map_err(EventCause::Authority)?,
        Event::Calculated { eoa, svl, trip } => supervisor
            .calculated_stop(eoa, svl, trip)
            .map_err(cause_of_trip)?,
        Event::Restrict(r) => supervisor.restrict(r).map_err(EventCause::Restrict)?,
        Event::Revoke { id } => supervisor.revoke(id).map_err(EventCause::Revoke)?,
    }
    Ok(Taken::Untold)
}

/// Why a record is refused that gives a stop with the place of a trip. (own)
fn cause_of_trip(fault: TripFault) -> EventCause
    ensures { result ≡ trip_cause fault }
{
    match fault {
        TripFault::Authority(fault) => EventCause::Authority(fault),
        TripFault::BadTrip => EventCause::BadTrip,
    }
}

//! The event of a record: its kind, then the count of its fields, then its columns in order. Each kind of record has a
//! function of its own. Columns count from 1, the kind being column 1.

ghost use Rattle.std.specs.Prelude.{◌≡◌, ◌<◌, ◌≤◌, ◌≤ℤ◌, pos, negsuc, drop, length, Ok, IfOk, IfErr};
ghost use Rattle.std.specs.Str.{bytes_eq};
ghost use Rattle.sdm_num.specs.Readings.{reading_of};
ghost use Rattle.sdm_formats.specs.Forms.{end_form, endcalc_form, event_of, limit_form, read_form, restrict_form};
ghost use Rattle.sdm_formats.specs.Forms.{revoke_form};
ghost use Rattle.sdm_formats.specs.Numbers.{read_int};
ghost use Rattle.sdm_events.specs.Columns.{IsColumnFault, column_of};
ghost use Rattle.sdm_events.specs.Journey.{IsInForm};

use crate::record_fields::RecordFields;
use sdm_num::Reading;
use sdm_rules::{Authority, Event, EventFault, LONGEST_TRACK_CM, Restriction, TOP_KMH};
use sdm_text::read_int;

/// The event that a record writes. It is refused by UnknownKind where its first field names no kind; else by
/// FieldCount where it has another count of fields than its kind; else by Field where a column is no number in its
/// range, with the first such column. TooMany is never answered here. No memory is taken. (own)
// In line in each loop over records: a call would cost a reading some 70 instructions. A kind is compared as an array,
// which takes a few compares, where `==` of slices calls a loop.
#[inline(always)]
#[tactic(auto, unfolding(sdm_formats::specs::Forms::event_of))]
pub fn event_of<F: RecordFields>(fields: &F) -> Result<Event, EventFault>
    ensures value { result ≡ event_of (F.fields fields.now) }
    ensures form { IfOk result IsInForm }
{
    let Some(kind) = fields.get(0) else {
        return Err(EventFault::UnknownKind);
    };
    if kind.as_array() == Some(b"read") {
        read_event(fields)
    } else if kind.as_array() == Some(b"end") {
        end_event(fields)
    } else if kind.as_array() == Some(b"endcalc") {
        endcalc_event(fields)
    } else if kind.as_array() == Some(b"limit") {
        limit_event(fields)
    } else if kind.as_array() == Some(b"restrict") {
        restrict_event(fields)
    } else if kind.as_array() == Some(b"revoke") {
        revoke_event(fields)
    } else {
        Err(EventFault::UnknownKind)
    }
}

/// The number of a column, from `least` to `greatest`, or the column's fault.
// A reading has seven, at each cycle: in line its number goes into the event by no result in memory.
#[inline(always)]
fn number<F: RecordFields>(
    fields: &F,
    column: u32,
    least: i32,
    greatest: i32,
) -> Result<i32, EventFault>
    requires first { 0 < column }
    requires last { column ≤ length (F.fields fields.now) }
    ensures value { IfOk result (λ n. read_int (column_of (F.fields fields.now) column) least greatest ≡ Ok n) }
    ensures range { IfOk result (λ n. (least ≤ℤ n) × (n ≤ℤ greatest)) }
    ensures fault { IfErr result
        (IsColumnFault column (read_int (column_of (F.fields fields.now) column) least greatest)) }
{
    let field = fields.get(column as usize - 1).unwrap();
    match read_int(field, i64::from(least), i64::from(greatest)) {
        Ok(number) => Ok(number as i32),
        Err(fault) => Err(EventFault::Field { column, fault }),
    }
}

/// `read`: an odometer reading.
// In line, as `event_of`.
#[inline(always)]
#[tactic(auto, unfolding(sdm_formats::specs::Forms::read_form))]
fn read_event<F: RecordFields>(fields: &F) -> Result<Event, EventFault>
    ensures value { result ≡ read_form (drop 1 (F.fields fields.now)) }
    ensures form { IfOk result IsInForm }
{
    if fields.len() != 8 {
        return Err(EventFault::FieldCount);
    }
    let time = number(fields, 2, 0, 100_000_000)?;
    let est = number(fields, 3, -10_000_000, 110_000_000)?;
    let min = number(fields, 4, -10_000_000, est)?;
    let max = number(fields, 5, est, 110_000_000)?;
    let speed = number(fields, 6, 0, 138_888)?;
    let accel = number(fields, 7, -300, 300)?;
    let under = number(fields, 8, 0, 10_000)?;
    let reading = Reading::new(
        time as u32,
        est,
        min,
        max,
        speed as u32,
        accel as i16,
        under as u32,
    );
    Ok(Event::Read(reading.unwrap()))
}

/// `end`: an authority that ends in a stop.
#[tactic(auto, unfolding(sdm_formats::specs::Forms::end_form))]
fn end_event<F: RecordFields>(fields: &F) -> Result<Event, EventFault>
    ensures value { result ≡ end_form (drop 1 (F.fields fields.now)) }
    ensures form { IfOk result IsInForm }
{
    if fields.len() != 4 {
        return Err(EventFault::FieldCount);
    }
    let eoa = number(fields, 2, 0, LONGEST_TRACK_CM as i32)? as u32;
    let svl = number(fields, 3, 0, LONGEST_TRACK_CM as i32)? as u32;
    let release = number(fields, 4, 0, TOP_KMH as i32)? as u16;
    Ok(Event::Authority(Authority::Stop { eoa, svl, release }))
}

/// `endcalc`: an authority that ends in a stop, whose release speed is calculated.
#[tactic(auto, unfolding(sdm_formats::specs::Forms::endcalc_form))]
fn endcalc_event<F: RecordFields>(fields: &F) -> Result<Event, EventFault>
    ensures value { result ≡ endcalc_form (drop 1 (F.fields fields.now)) }
    ensures form { IfOk result IsInForm }
{
    if fields.len() != 4 {
        return Err(EventFault::FieldCount);
    }
    let eoa = number(fields, 2, 0, LONGEST_TRACK_CM as i32)? as u32;
    let svl = number(fields, 3, 0, LONGEST_TRACK_CM as i32)? as u32;
    let trip = number(fields, 4, 0, LONGEST_TRACK_CM as i32)? as u32;
    Ok(Event::Calculated { eoa, svl, trip })
}

/// `limit`: an authority that ends at a speed.
#[tactic(auto, unfolding(sdm_formats::specs::Forms::limit_form))]
fn limit_event<F: RecordFields>(fields: &F) -> Result<Event, EventFault>
    ensures value { result ≡ limit_form (drop 1 (F.fields fields.now)) }
    ensures form { IfOk result IsInForm }
{
    if fields.len() != 3 {
        return Err(EventFault::FieldCount);
    }
    let loa = number(fields, 2, 0, LONGEST_TRACK_CM as i32)? as u32;
    let speed = number(fields, 3, 1, TOP_KMH as i32)? as u16;
    Ok(Event::Authority(Authority::Limit { loa, speed }))
}

/// `restrict`: a temporary speed restriction.
#[tactic(auto, unfolding(sdm_formats::specs::Forms::restrict_form))]
fn restrict_event<F: RecordFields>(fields: &F) -> Result<Event, EventFault>
    ensures value { result ≡ restrict_form (drop 1 (F.fields fields.now)) }
    ensures form { IfOk result IsInForm }
{
    if fields.len() != 6 {
        return Err(EventFault::FieldCount);
    }
    let id = number(fields, 2, 0, 65_535)? as u16;
    let start = number(fields, 3, 0, LONGEST_TRACK_CM as i32)? as u32;
    let end = number(fields, 4, 0, LONGEST_TRACK_CM as i32)? as u32;
    let speed = number(fields, 5, 1, TOP_KMH as i32)? as u16;
    let delayed = number(fields, 6, 0, 1)? as u8;
    Ok(Event::Restrict(Restriction {
        id,
        start,
        end,
        speed,
        delayed: delayed == 1,
    }))
}

/// `revoke`: the end of a temporary speed restriction.
#[tactic(auto, unfolding(sdm_formats::specs::Forms::revoke_form))]
fn revoke_event<F: RecordFields>(fields: &F) -> Result<Event, EventFault>
    ensures value { result ≡ revoke_form (drop 1 (F.fields fields.now)) }
    ensures form { IfOk result IsInForm }
{
    if fields.len() != 2 {
        return Err(EventFault::FieldCount);
    }
    let id = number(fields, 2, 0, 65_535)? as u16;
    Ok(Event::Revoke { id })
}

//! The supervisor for C: what `sdm.h` declares. A handle is opened once over the data of a journey, with all memory;
//! each call tests its handle and its numbers, answers a status, and changes nothing where that isn't DONE.
//!
//! No call has a condition, since none of C's would be checked; what C owes is told in docs/INTEGRATION.md.
#![tactic(auto)]

mod call_lists;
mod calls;
mod codes;
mod fields;
mod handle;
pub mod laws;
mod numbers;
mod openings;
mod raw_boxes;
mod statuses;
mod structs;

ghost use Rattle.std.specs.Prelude.{◌≡◌, ◌==◌, ◌↔◌, IsTrue};
ghost use Rattle.sdm_num.specs.Readings.{OdometerReading};
ghost use Rattle.sdm_num.specs.Units.{place_of_mm};
ghost use Rattle.sdm_rules.specs.declared.authorities.Authority.TheVariants.{Limit, Stop};
ghost use Rattle.sdm_rules.specs.declared.data.SlopeKind.TheVariants.{Expected};
ghost use Rattle.sdm_rules.specs.Decelerations.{slopes_of};
ghost use Rattle.sdm_rules.specs.Display.{display_of};
ghost use Rattle.sdm_rules.specs.Machines.{KeepsOrder};
ghost use Rattle.sdm_rules.specs.Promises.{BeginsReleaseMonitoring, HasOnlyGaps, IsWithinCeiling};
ghost use Rattle.sdm_rules.specs.Release.{IsReleaseSpeed, calculated};
ghost use Rattle.sdm_rules.specs.Stop.{IsSafe, StopsBy};
ghost use Rattle.sdm_rules.specs.Supervision.{after_authority, after_reading, after_restriction, after_revocation};
ghost use Rattle.sdm_rules.specs.Supervision.{row_of};
ghost use Rattle.sdm_laws.specs.Falls.{MeetsFalls};
ghost use Rattle.sdm_laws.specs.TripPlaces.{HasItsTrip, IsStopWithTrip, has_trip_place};
ghost use Rattle.sdm_row_laws.specs.AllCommands.{KeepsAllOrder};
ghost use Rattle.sdm_row_laws.specs.Clearances.{start_with};
ghost use Rattle.sdm_row_laws.specs.CoveredFalls.{MeetsEachFall};
ghost use Rattle.sdm_row_laws.specs.OpenTurns.{HasNearLimits};
ghost use Rattle.sdm_row_laws.specs.ServiceStop.{CommandsNoBrake, StopsByItsEoa};
ghost use Rattle.sdm_ahead.specs.WhatIfs.{AsksNoMoreFrom, IsCoveredOrReleased, would_cover_from};
ghost use Rattle.sdm_rules.specs.TakeOver.{taken_over};
ghost use Rattle.sdm_report.specs.OutcomeLines.{outcome_line};
ghost use Rattle.sdm_causes.specs.Causes.{causes_of};
ghost use Rattle.sdm_supervisor.specs.Supervised.{bounds_of};
ghost use Rattle.sdm_opening.specs.Openings.{IsOpeningOf};
ghost use Rattle.sdm_c.specs.Clearances.{IsClearPlace};
ghost use Rattle.sdm_c.specs.Codes.{IsLine, causes_in_c, display_in_c, flag, row_in_c};
ghost use Rattle.sdm_c.specs.Fields.{allowance_field, reading_field, restriction_field};
ghost use Rattle.sdm_c.specs.Lending.{IsInit, with_state};
ghost use Rattle.sdm_c.specs.Numbers.{allowance_from, is_allowance, is_reading, is_restriction};
ghost use Rattle.sdm_c.specs.Numbers.{reading_from, restriction_from};
ghost use Rattle.sdm_c.specs.Openings.{IsBadData, IsRefused};
ghost use Rattle.sdm_c.specs.Statuses.{IsOpen, clear_status, cycle_status, display_status, end_calculated_status};
ghost use Rattle.sdm_c.specs.Statuses.{end_status, trip_place_status};
ghost use Rattle.sdm_c.specs.Statuses.{limit_status, is_open_status, restriction_status, revocation_status};
ghost use Rattle.sdm_c.specs.Statuses.{take_over_status};

use codes::{flag, put_line, row_in_c};
use handle::Handle;
use numbers::reading_from;
use openings::opened_on_heap;
use raw_boxes::RawBox;
use sdm_opening::NoOpening;
use sdm_report::{Outcome, outcome_bytes};
use sdm_text::RowBuf;
use statuses::{BAD_DATA, CLOSED, DONE, IN_USE, NO_MEMORY, OUT_OF_RANGE, REFUSED, TIME_BACK};
use std::alloc::Global;
use structs::{AllowanceC, CausesC, DisplayC, LineC, PlaceC, ReadingC, RestrictionC, RowC};

/// The number of the layout of `sdm.h`.
pub const LAYOUT: u32 = 2;

/// The number of the layout of `sdm.h`, which a program compares with its own when it starts. (own)
#[unsafe(no_mangle)]
pub extern "C" fn sdm_layout() -> u32
    ensures { result ≡ 2 }
{
    LAYOUT
}

/// The version of the library: 1,000,000 for each first number of it, 1,000 for each second and 1 for each third.
pub const VERSION: u32 = 11_001;

/// The version of the library, as a number. (own)
#[unsafe(no_mangle)]
pub extern "C" fn sdm_version() -> u32
    ensures { result ≡ 11_001 }
{
    VERSION
}

/// Writes the line of an outcome.
fn tell(outcome: Outcome, line: &mut LineC)
    ensures { IsLine line.new (outcome_line outcome) }
{
    let mut text = RowBuf::new();
    outcome_bytes(&outcome, &mut text);
    put_line(&text, line);
}

/// Opens a supervisor over a data part; all memory is taken here. BAD_DATA and REFUSED write the line that the program
/// writes. (own)
#[unsafe(no_mangle)]
pub extern "C" fn sdm_open(alloc: Global, h: &mut Handle, given: &[u8], line: &mut LineC) -> u32
    ensures status { IsTrue (is_open_status result) }
    ensures in_use { result ≡ IN_USE ↔ IsOpen h.old }
    ensures open { result ≡ DONE → IsOpen h.new }
    ensures opening { result ≡ DONE → IsOpeningOf given.now h.new.state }
    ensures bad_data { result ≡ BAD_DATA → IsBadData given.now line.new }
    ensures refused { result ≡ REFUSED → IsRefused given.now line.new }
    ensures same_line { ¬ (result ≡ BAD_DATA) → ¬ (result ≡ REFUSED) → line.new ≡ line.old }
    ensures unchanged { ¬ (result ≡ DONE) → h.new ≡ h.old }
{
    if h.is_open() {
        return IN_USE;
    }
    match opened_on_heap(alloc, given) {
        Ok(supervisor) => {
            std::mem::replace(h, Handle::of(RawBox::of(supervisor))).discard();
            DONE
        }
        Err(NoOpening::Memory) => NO_MEMORY,
        Err(NoOpening::BadData(fault)) => {
            tell(Outcome::BadData(fault), line);
            BAD_DATA
        }
        Err(NoOpening::Refused(fault)) => {
            tell(Outcome::Refused(fault), line);
            REFUSED
        }
    }
}

/// Judges a reading and writes its row. Where the row is covered, every motion within the bounds of the reading stops
/// at or before the SvL, if there is one. Where it is of a moving train and commands no brake, outside release speed
/// monitoring, the service brake stops the train at or before the EOA, if there is one. (SUBSET-026-3 3.13.10;
/// statuses own)
#[unsafe(no_mangle)]
pub extern "C" fn sdm_cycle(h: &mut Handle, reading: &ReadingC, row: &mut RowC) -> u32
    ensures status { result ≡ cycle_status h.old reading.now }
    ensures row { result ≡ DONE → row.new ≡ row_in_c (row_of h.old.state (reading_from reading.now)) }
    ensures taken { result ≡ DONE → h.new ≡ with_state h.old (after_reading h.old.state (reading_from reading.now)) }
    ensures order { result ≡ DONE → KeepsOrder h.old.state (reading_from reading.now) (row.new.eb == 1) }
    ensures commands { result ≡ DONE →
        KeepsAllOrder h.old.state (reading_from reading.now) (row_of h.old.state (reading_from reading.now)) }
    ensures safe { result ≡ DONE → row.new.covered ≡ 1 → IsSafe h.old.state (reading_from reading.now) }
    ensures eoa { result ≡ DONE →
        CommandsNoBrake (reading_from reading.now) (row_of h.old.state (reading_from reading.now)) →
        StopsByItsEoa h.old.state (reading_from reading.now) }
    ensures falls { result ≡ DONE → row.new.covered ≡ 1 → row.new.eb ≡ 0 →
        MeetsFalls h.old.state (reading_from reading.now) }
    ensures each_fall { result ≡ DONE → row.new.covered ≡ 1 →
        MeetsEachFall h.old.state (reading_from reading.now) }
    ensures limits { result ≡ DONE → HasNearLimits h.old.state (reading_from reading.now) }
    ensures gaps { result ≡ DONE → row.new.eb ≡ 0 → HasOnlyGaps h.old.state (reading_from reading.now) }
    ensures ceiling { result ≡ DONE → row.new.eb ≡ 0 →
        IsWithinCeiling (reading_from reading.now) (row_of h.old.state (reading_from reading.now)) }
    ensures release { result ≡ DONE → BeginsReleaseMonitoring h.old.state (reading_from reading.now) }
    ensures same_row { ¬ (result ≡ DONE) → row.new ≡ row.old }
    ensures unchanged { ¬ (result ≡ DONE) → h.new ≡ h.old }
{
    if !h.is_open() {
        return CLOSED;
    }
    let Some(reading) = reading_from(*reading) else {
        return OUT_OF_RANGE;
    };
    match h.supervisor().cycle(&reading) {
        Ok(judged) => {
            *row = row_in_c(judged);
            DONE
        }
        Err(_) => TIME_BACK,
    }
}

/// Takes a movement authority to an end: places in cm, the release speed in km/h, 0 for none. (SUBSET-026-3 3.8;
/// statuses own)
#[unsafe(no_mangle)]
pub extern "C" fn sdm_end(h: &mut Handle, eoa_cm: u32, svl_cm: u32, release_kmh: u32) -> u32
    ensures status { result ≡ end_status h.old eoa_cm svl_cm release_kmh }
    ensures taken { result ≡ DONE →
        h.new ≡ with_state h.old (after_authority h.old.state (Stop eoa_cm svl_cm release_kmh)) }
    ensures unchanged { ¬ (result ≡ DONE) → h.new ≡ h.old }
{
    if !h.is_open() {
        return CLOSED;
    }
    calls::stop(h.supervisor(), eoa_cm, svl_cm, release_kmh)
}

/// Takes a movement authority to an end with the calculated release speed for a trip at a place; places in cm. A train
/// that is tripped there at this speed stops at or before the SvL; the next whole speed doesn't fit by limits one
/// millimetre earlier. (SUBSET-026-3 3.8, 3.13.9.4.8; statuses own)
#[unsafe(no_mangle)]
pub extern "C" fn sdm_end_calculated(h: &mut Handle, eoa_cm: u32, svl_cm: u32, trip_cm: u32) -> u32
    ensures status { result ≡ end_calculated_status h.old eoa_cm svl_cm trip_cm }
    ensures taken { result ≡ DONE → h.new ≡ with_state h.old (after_authority h.old.state
        (Stop eoa_cm svl_cm (calculated h.old.state.train_and_track svl_cm trip_cm))) }
    ensures stops { result ≡ DONE → IsReleaseSpeed h.old.state.train_and_track svl_cm trip_cm
        (calculated h.old.state.train_and_track svl_cm trip_cm) }
    ensures trip { result ≡ DONE → HasItsTrip h.old.state.train_and_track eoa_cm svl_cm trip_cm }
    ensures unchanged { ¬ (result ≡ DONE) → h.new ≡ h.old }
{
    if !h.is_open() {
        return CLOSED;
    }
    calls::calculated_stop(h.supervisor(), eoa_cm, svl_cm, trip_cm)
}

/// Takes a movement authority to a limit: its place in cm, its speed in km/h. (SUBSET-026-3 3.8; statuses own)
#[unsafe(no_mangle)]
pub extern "C" fn sdm_limit(h: &mut Handle, loa_cm: u32, speed_kmh: u32) -> u32
    ensures status { result ≡ limit_status h.old loa_cm speed_kmh }
    ensures taken { result ≡ DONE →
        h.new ≡ with_state h.old (after_authority h.old.state (Limit loa_cm speed_kmh)) }
    ensures unchanged { ¬ (result ≡ DONE) → h.new ≡ h.old }
{
    if !h.is_open() {
        return CLOSED;
    }
    calls::limit(h.supervisor(), loa_cm, speed_kmh)
}

/// Puts a temporary speed restriction into force. (SUBSET-026-3 3.11.5; statuses own)
#[unsafe(no_mangle)]
pub extern "C" fn sdm_restrict(h: &mut Handle, restriction: &RestrictionC) -> u32
    ensures status { result ≡ restriction_status h.old restriction.now }
    ensures taken { result ≡ DONE →
        h.new ≡ with_state h.old (after_restriction h.old.state (restriction_from restriction.now)) }
    ensures unchanged { ¬ (result ≡ DONE) → h.new ≡ h.old }
{
    if !h.is_open() {
        return CLOSED;
    }
    calls::restrict(h.supervisor(), *restriction)
}

/// Lifts the restriction with an identity. (own)
#[unsafe(no_mangle)]
pub extern "C" fn sdm_revoke(h: &mut Handle, id: u32) -> u32
    ensures status { result ≡ revocation_status h.old id }
    ensures taken { result ≡ DONE → h.new ≡ with_state h.old (after_revocation h.old.state id) }
    ensures unchanged { ¬ (result ≡ DONE) → h.new ≡ h.old }
{
    if !h.is_open() {
        return CLOSED;
    }
    calls::revoke(h.supervisor(), id)
}

/// Lets a supervisor that was opened over new data take over from the one that ran before: the restrictions in force,
/// the time of the last reading, and the commands with the status. (own)
#[unsafe(no_mangle)]
pub extern "C" fn sdm_take_over(next: &mut Handle, before: &mut Handle) -> u32
    ensures status { result ≡ take_over_status next.old before.old }
    ensures taken { result ≡ DONE → next.new ≡ with_state next.old (taken_over next.old.state before.old.state) }
    ensures unchanged { ¬ (result ≡ DONE) → next.new ≡ next.old }
    ensures before { before.new ≡ before.old }
{
    if !next.is_open() {
        return CLOSED;
    }
    if !before.is_open() {
        return CLOSED;
    }
    calls::take_over(next.supervisor(), before.supervisor())
}

/// Writes what the driver can be shown of a reading in what is in force. (own)
#[unsafe(no_mangle)]
pub extern "C" fn sdm_display(h: &mut Handle, reading: &ReadingC, display: &mut DisplayC) -> u32
    ensures status { result ≡ display_status h.old reading.now }
    ensures shown { result ≡ DONE → display.new ≡ display_in_c (display_of h.old.state (reading_from reading.now)) }
    ensures same_display { ¬ (result ≡ DONE) → display.new ≡ display.old }
    ensures unchanged { h.new ≡ h.old }
{
    if !h.is_open() {
        return CLOSED;
    }
    calls::display(h.supervisor(), *reading, display)
}

/// Writes why a reading triggers, and how each command stands after it, in the state after it. (own)
#[unsafe(no_mangle)]
pub extern "C" fn sdm_causes(h: &mut Handle, reading: &ReadingC, causes: &mut CausesC) -> u32
    ensures status { result ≡ display_status h.old reading.now }
    ensures told { result ≡ DONE → causes.new ≡ causes_in_c (causes_of h.old.state (reading_from reading.now)) }
    ensures same_causes { ¬ (result ≡ DONE) → causes.new ≡ causes.old }
    ensures unchanged { h.new ≡ h.old }
{
    if !h.is_open() {
        return CLOSED;
    }
    calls::causes(h.supervisor(), *reading, causes)
}

/// Writes whether the row of a reading would be covered, if it were the next one. Its time doesn't count but for its
/// range. (own)
#[unsafe(no_mangle)]
pub extern "C" fn sdm_would_cover(h: &mut Handle, reading: &ReadingC, is_covered: &mut u32) -> u32
    ensures status { result ≡ display_status h.old reading.now }
    ensures value { result ≡ DONE →
        is_covered.new ≡ flag (row_of h.old.state (reading_from reading.now)).covered }
    ensures same_flag { ¬ (result ≡ DONE) → is_covered.new ≡ is_covered.old }
    ensures unchanged { h.new ≡ h.old }
{
    if !h.is_open() {
        return CLOSED;
    }
    calls::would_cover(h.supervisor(), *reading, is_covered)
}

/// Writes whether a reading would cover each target past its min safe front end. Then every reading is covered, or in
/// release speed monitoring, whose max safe front end lies from there to that of this reading, and whose V_est +
/// V_delta0 and acceleration are at most those of this one. (own)
#[unsafe(no_mangle)]
pub extern "C" fn sdm_would_cover_up_to(
    h: &mut Handle,
    asked: &ReadingC,
    is_covered: &mut u32,
) -> u32
    ensures status { result ≡ display_status h.old asked.now }
    ensures value { result ≡ DONE → is_covered.new
        ≡ flag (would_cover_from h.old.state (reading_from asked.now).min (reading_from asked.now)) }
    ensures covers { result ≡ DONE → is_covered.new ≡ 1 → (r : OdometerReading) →
        AsksNoMoreFrom h.old.state.train_and_track (reading_from asked.now).min (reading_from asked.now) r →
        IsCoveredOrReleased h.old.state r }
    ensures same_flag { ¬ (result ≡ DONE) → is_covered.new ≡ is_covered.old }
    ensures unchanged { h.new ≡ h.old }
{
    if !h.is_open() {
        return CLOSED;
    }
    calls::would_cover_up_to(h.supervisor(), *asked, is_covered)
}

/// Writes whether the authority in force is a stop whose release speed has a trip place, for readings that keep two
/// bounds until the train is tripped. (own)
#[unsafe(no_mangle)]
pub extern "C" fn sdm_has_trip_place(
    h: &mut Handle,
    width_cm: u32,
    excess_mm_s: u32,
    has_place: &mut u32,
) -> u32
    ensures status { result ≡ trip_place_status h.old }
    ensures told { result ≡ DONE → has_place.new ≡ flag (has_trip_place (bounds_of width_cm excess_mm_s)
        h.old.state.train_and_track h.old.state.authority) }
    ensures trip { result ≡ DONE → (has_place.new ≡ 1 ↔ IsStopWithTrip (bounds_of width_cm excess_mm_s)
        h.old.state.train_and_track h.old.state.authority) }
    ensures same_flag { ¬ (result ≡ DONE) → has_place.new ≡ has_place.old }
    ensures unchanged { h.new ≡ h.old }
{
    if !h.is_open() {
        return CLOSED;
    }
    *has_place = flag(h.supervisor().has_trip_place(width_cm, excess_mm_s));
    DONE
}

/// Writes the first place of the track, in mm, that a reading is clear of with an allowance, or none: from there the
/// service brake stops the train at or before it. (SUBSET-026-3 3.13.9.3.3; own)
#[unsafe(no_mangle)]
pub extern "C" fn sdm_clear_of(
    h: &mut Handle,
    reading: &ReadingC,
    allowance: &AllowanceC,
    first: &mut PlaceC,
) -> u32
    ensures status { result ≡ clear_status h.old reading.now allowance.now }
    ensures first { result ≡ DONE →
        IsClearPlace h.old.state.train_and_track reading.now allowance.now first.new }
    ensures stops { result ≡ DONE → first.new.is_some ≡ 1 →
        StopsBy (slopes_of Expected h.old.state.train_and_track)
        (start_with (allowance_from allowance.now) h.old.state.train_and_track (reading_from reading.now))
        (place_of_mm first.new.mm) }
    ensures same_place { ¬ (result ≡ DONE) → first.new ≡ first.old }
    ensures unchanged { h.new ≡ h.old }
{
    if !h.is_open() {
        return CLOSED;
    }
    calls::clear_of(h.supervisor(), *reading, *allowance, first)
}

/// The first number of a reading that is out of its range, 0 for none: by which a call that asks for the reading returns
/// OUT_OF_RANGE. (own)
#[unsafe(no_mangle)]
pub extern "C" fn sdm_reading_field(reading: &ReadingC) -> u32
    ensures value { result ≡ reading_field reading.now }
    ensures in_range { result ≡ 0 ↔ IsTrue (is_reading reading.now) }
{
    fields::of_reading(*reading)
}

/// The first of a restriction's identity, speed and flag that is out of its range, 0 for none. (own)
#[unsafe(no_mangle)]
pub extern "C" fn sdm_restriction_field(restriction: &RestrictionC) -> u32
    ensures value { result ≡ restriction_field restriction.now }
    ensures in_range { result ≡ 0 ↔ IsTrue (is_restriction restriction.now) }
{
    fields::of_restriction(*restriction)
}

/// The first number of an allowance that is out of its range, 0 for none. (own)
#[unsafe(no_mangle)]
pub extern "C" fn sdm_allowance_field(allowance: &AllowanceC) -> u32
    ensures value { result ≡ allowance_field allowance.now }
    ensures in_range { result ≡ 0 ↔ IsTrue (is_allowance allowance.now) }
{
    fields::of_allowance(*allowance)
}

/// Gives the memory back; a handle without a supervisor stays as it is. (own)
#[unsafe(no_mangle)]
pub extern "C" fn sdm_close(alloc: Global, h: &mut Handle)
    ensures closed { ¬ IsOpen h.new }
    ensures init { IsOpen h.old → IsInit h.new }
    ensures unchanged { ¬ IsOpen h.old → h.new ≡ h.old }
{
    if h.is_open() {
        let _supervisor = std::mem::replace(h, Handle::closed())
            .into_raw()
            .into_box(alloc);
    }
}

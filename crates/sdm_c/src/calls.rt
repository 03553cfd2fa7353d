//! The calls with a supervisor at hand: C's numbers are tested, the supervisor answers, its answer becomes a status.

ghost use Rattle.std.specs.Prelude.{◌≡◌};
ghost use Rattle.sdm_num.specs.Readings.{OdometerReading};
ghost use Rattle.sdm_rules.specs.declared.authorities.Authority.TheVariants.{Limit, Stop};
ghost use Rattle.sdm_num.specs.Units.{place_of_mm};
ghost use Rattle.sdm_rules.specs.declared.data.SlopeKind.TheVariants.{Expected};
ghost use Rattle.sdm_rules.specs.Decelerations.{slopes_of};
ghost use Rattle.sdm_rules.specs.Display.{display_of};
ghost use Rattle.sdm_rules.specs.Release.{IsReleaseSpeed, calculated};
ghost use Rattle.sdm_rules.specs.Stop.{StopsBy};
ghost use Rattle.sdm_rules.specs.Supervision.{after_authority, after_restriction, after_revocation, row_of};
ghost use Rattle.sdm_rules.specs.TakeOver.{taken_over};
ghost use Rattle.sdm_laws.specs.TripPlaces.{HasItsTrip};
ghost use Rattle.sdm_row_laws.specs.Clearances.{start_with};
ghost use Rattle.sdm_ahead.specs.WhatIfs.{AsksNoMoreFrom, IsCoveredOrReleased, would_cover_from};
ghost use Rattle.sdm_causes.specs.Causes.{causes_of};
ghost use Rattle.sdm_c.specs.Clearances.{IsClearPlace};
ghost use Rattle.sdm_c.specs.Codes.{causes_in_c, display_in_c, flag};
ghost use Rattle.sdm_c.specs.Numbers.{allowance_from, reading_from, restriction_from};
ghost use Rattle.sdm_c.specs.Statuses.{authority_answer, calculated_answer, clear_answer, display_answer};
ghost use Rattle.sdm_c.specs.Statuses.{restrict_answer, revoke_answer, take_over_answer};

use crate::codes::{causes_in_c, display_in_c, flag, place};
use crate::numbers::{allowance_from, identity_from, kmh_taken, reading_from, restriction_from};
use crate::statuses::{
    DONE, NOT_FRESH, OUT_OF_RANGE, UNKNOWN_ID, of_authority, of_restriction, of_take_over, of_trip,
};
use crate::structs::{AllowanceC, CausesC, DisplayC, PlaceC, ReadingC, RestrictionC};
use sdm_display::display_of;
use sdm_rules::Authority;
use sdm_supervisor::Supervisor;

/// Takes an authority. (SUBSET-026-3 3.8; statuses own)
fn authority(supervisor: &mut Supervisor, a: Authority) -> u32
    ensures status { result ≡ authority_answer supervisor.old a }
    ensures taken { result ≡ DONE → supervisor.new ≡ after_authority supervisor.old a }
    ensures unchanged { ¬ (result ≡ DONE) → supervisor.new ≡ supervisor.old }
{
    match supervisor.authority(a) {
        Ok(()) => DONE,
        Err(fault) => of_authority(fault),
    }
}

/// Takes a stop: places in cm, the release speed in km/h. (SUBSET-026-3 3.8; statuses own)
pub fn stop(supervisor: &mut Supervisor, eoa: u32, svl: u32, release: u32) -> u32
    ensures status { result ≡ authority_answer supervisor.old (Stop eoa svl release) }
    ensures taken { result ≡ DONE → supervisor.new ≡ after_authority supervisor.old (Stop eoa svl release) }
    ensures unchanged { ¬ (result ≡ DONE) → supervisor.new ≡ supervisor.old }
{
    let release = kmh_taken(release);
    authority(supervisor, Authority::Stop { eoa, svl, release })
}

/// Takes a stop with the calculated release speed; places in cm. (SUBSET-026-3 3.8, 3.13.9.4.8; statuses own)
pub fn calculated_stop(supervisor: &mut Supervisor, eoa: u32, svl: u32, trip: u32) -> u32
    ensures status { result ≡ calculated_answer supervisor.old eoa svl trip }
    ensures taken { result ≡ DONE → supervisor.new
        ≡ after_authority supervisor.old (Stop eoa svl (calculated supervisor.old.train_and_track svl trip)) }
    ensures stops { result ≡ DONE → IsReleaseSpeed supervisor.old.train_and_track svl trip
        (calculated supervisor.old.train_and_track svl trip) }
    ensures trip { result ≡ DONE → HasItsTrip supervisor.old.train_and_track eoa svl trip }
    ensures unchanged { ¬ (result ≡ DONE) → supervisor.new ≡ supervisor.old }
{
    match supervisor.calculated_stop(eoa, svl, trip) {
        Ok(()) => DONE,
        Err(fault) => of_trip(fault),
    }
}

/// Takes a limit of authority: its place in cm, its speed in km/h. (SUBSET-026-3 3.8; statuses own)
pub fn limit(supervisor: &mut Supervisor, loa: u32, speed: u32) -> u32
    ensures status { result ≡ authority_answer supervisor.old (Limit loa speed) }
    ensures taken { result ≡ DONE → supervisor.new ≡ after_authority supervisor.old (Limit loa speed) }
    ensures unchanged { ¬ (result ≡ DONE) → supervisor.new ≡ supervisor.old }
{
    let speed = kmh_taken(speed);
    authority(supervisor, Authority::Limit { loa, speed })
}

/// Puts a restriction into force. (SUBSET-026-3 3.11.5; statuses own)
pub fn restrict(supervisor: &mut Supervisor, restriction: RestrictionC) -> u32
    ensures status { result ≡ restrict_answer supervisor.old restriction }
    ensures taken { result ≡ DONE →
        supervisor.new ≡ after_restriction supervisor.old (restriction_from restriction) }
    ensures unchanged { ¬ (result ≡ DONE) → supervisor.new ≡ supervisor.old }
{
    let Some(restriction) = restriction_from(restriction) else {
        return OUT_OF_RANGE;
    };
    match supervisor.restrict(restriction) {
        Ok(()) => DONE,
        Err(fault) => of_restriction(fault),
    }
}

/// Takes the restriction with an identity out of force. (own)
pub fn revoke(supervisor: &mut Supervisor, id: u32) -> u32
    ensures status { result ≡ revoke_answer supervisor.old id }
    ensures taken { result ≡ DONE → supervisor.new ≡ after_revocation supervisor.old id }
    ensures unchanged { ¬ (result ≡ DONE) → supervisor.new ≡ supervisor.old }
{
    let Some(id) = identity_from(id) else {
        return OUT_OF_RANGE;
    };
    match supervisor.revoke(id) {
        Ok(()) => DONE,
        Err(_) => UNKNOWN_ID,
    }
}

/// Takes over from the supervisor that ran before. (own)
pub fn take_over(next: &mut Supervisor, before: &Supervisor) -> u32
    ensures status { result ≡ take_over_answer next.old before.now }
    ensures taken { result ≡ DONE → next.new ≡ taken_over next.old before.now }
    ensures unchanged { ¬ (result ≡ DONE) → next.new ≡ next.old }
{
    if !next.is_fresh() {
        return NOT_FRESH;
    }
    match next.take_over(before) {
        Ok(()) => DONE,
        Err(fault) => of_take_over(fault),
    }
}

/// Writes what the driver can be shown of a reading. (own)
pub fn display(supervisor: &Supervisor, reading: ReadingC, display: &mut DisplayC) -> u32
    ensures status { result ≡ display_answer reading }
    ensures shown { result ≡ DONE → display.new ≡ display_in_c (display_of supervisor.now (reading_from reading)) }
    ensures same_display { ¬ (result ≡ DONE) → display.new ≡ display.old }
{
    let Some(reading) = reading_from(reading) else {
        return OUT_OF_RANGE;
    };
    *display = display_in_c(display_of(supervisor, &reading));
    DONE
}

/// Writes the causes of a reading. (own)
pub fn causes(supervisor: &Supervisor, reading: ReadingC, causes: &mut CausesC) -> u32
    ensures status { result ≡ display_answer reading }
    ensures told { result ≡ DONE → causes.new ≡ causes_in_c (causes_of supervisor.now (reading_from reading)) }
    ensures same_causes { ¬ (result ≡ DONE) → causes.new ≡ causes.old }
{
    let Some(reading) = reading_from(reading) else {
        return OUT_OF_RANGE;
    };
    *causes = causes_in_c(supervisor.causes(&reading));
    DONE
}

/// Writes whether the row of a reading would be covered. (own)
pub fn would_cover(supervisor: &Supervisor, reading: ReadingC, is_covered: &mut u32) -> u32
    ensures status { result ≡ display_answer reading }
    ensures value { result ≡ DONE →
        is_covered.new ≡ flag (row_of supervisor.now (reading_from reading)).covered }
    ensures same_flag { ¬ (result ≡ DONE) → is_covered.new ≡ is_covered.old }
{
    let Some(reading) = reading_from(reading) else {
        return OUT_OF_RANGE;
    };
    *is_covered = flag(supervisor.would_cover(&reading));
    DONE
}

/// Writes whether a reading would cover each target past its min safe front end. (own)
pub fn would_cover_up_to(supervisor: &Supervisor, asked: ReadingC, is_covered: &mut u32) -> u32
    ensures status { result ≡ display_answer asked }
    ensures value { result ≡ DONE → is_covered.new
        ≡ flag (would_cover_from supervisor.now (reading_from asked).min (reading_from asked)) }
    ensures covers { result ≡ DONE → is_covered.new ≡ 1 → (r : OdometerReading) →
        AsksNoMoreFrom supervisor.now.train_and_track (reading_from asked).min (reading_from asked) r →
        IsCoveredOrReleased supervisor.now r }
    ensures same_flag { ¬ (result ≡ DONE) → is_covered.new ≡ is_covered.old }
{
    let Some(asked) = reading_from(asked) else {
        return OUT_OF_RANGE;
    };
    *is_covered = flag(supervisor.would_cover_up_to(&asked));
    DONE
}

/// Writes the first place that a reading is clear of with an allowance. (own)
pub fn clear_of(
    supervisor: &Supervisor,
    reading: ReadingC,
    allowance: AllowanceC,
    first: &mut PlaceC,
) -> u32
    ensures status { result ≡ clear_answer reading allowance }
    ensures first { result ≡ DONE → IsClearPlace supervisor.now.train_and_track reading allowance first.new }
    ensures stops { result ≡ DONE → first.new.is_some ≡ 1 →
        StopsBy (slopes_of Expected supervisor.now.train_and_track)
        (start_with (allowance_from allowance) supervisor.now.train_and_track (reading_from reading))
        (place_of_mm first.new.mm) }
    ensures same_place { ¬ (result ≡ DONE) → first.new ≡ first.old }
{
    let Some(reading) = reading_from(reading) else {
        return OUT_OF_RANGE;
    };
    let Some(allowance) = allowance_from(allowance) else {
        return OUT_OF_RANGE;
    };
    *first = match supervisor.clear_of(&reading, allowance) {
        Some(mm) => place(Some(i64::from(mm))),
        None => place(None),
    };
    DONE
}

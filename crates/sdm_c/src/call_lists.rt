//! Calls as values, for the laws over lists of them. No call of C comes here, and the archive has nothing of it.

ghost use Rattle.std.specs.Prelude.{◌≡◌, ℕ, Result};
ghost use Rattle.sdm_rules.specs.Supervision.{Supervision};
ghost use Rattle.sdm_c.specs.CallLists.{IsMade, MayComeTo, supervisor_in};

use crate::handle::Handle;
use crate::statuses::DONE;
use crate::structs::{AllowanceC, CausesC, DisplayC, LineC, PlaceC, ReadingC, RestrictionC, RowC};
use crate::{
    sdm_causes, sdm_clear_of, sdm_close, sdm_cycle, sdm_display, sdm_end, sdm_end_calculated,
    sdm_has_trip_place, sdm_limit, sdm_open, sdm_restrict, sdm_revoke, sdm_take_over,
    sdm_would_cover, sdm_would_cover_up_to,
};
use std::alloc::Global;

/// A call on a handle with the numbers that it passes. (own)
#[derive(Clone, Copy)]
pub enum Call {
    Open,
    Cycle(ReadingC),
    End {
        eoa_cm: u32,
        svl_cm: u32,
        release_kmh: u32,
    },
    EndCalculated {
        eoa_cm: u32,
        svl_cm: u32,
        trip_cm: u32,
    },
    Limit {
        loa_cm: u32,
        speed_kmh: u32,
    },
    Restrict(RestrictionC),
    Revoke {
        id: u32,
    },
    TakeOver,
    Display(ReadingC),
    Causes(ReadingC),
    WouldCover(ReadingC),
    WouldCoverUpTo(ReadingC),
    HasTripPlace {
        width_cm: u32,
        excess_mm_s: u32,
    },
    ClearOf {
        reading: ReadingC,
        allowance: AllowanceC,
    },
    Close,
}

/// What calls wrote last: a row, a display, causes, whether readings would be covered, whether there is a trip place, a
/// first place. (own)
#[derive(Clone, Copy)]
pub struct Written {
    pub row: RowC,
    pub display: DisplayC,
    pub causes: CausesC,
    pub is_covered: u32,
    pub has_place: u32,
    pub first: PlaceC,
}

/// Makes a call on a handle. An opening reads a data part, and tells its line where it refuses that; a change of data
/// takes over from the handle before. By the clauses of the calls each does what the fold over lists of calls says.
pub fn make(
    alloc: Global,
    h: &mut Handle,
    call: Call,
    given: &[u8],
    before: &mut Handle,
    written: &mut Written,
    line: &mut LineC,
) -> u32
    ensures made { (opening : Result Supervision ℕ) × MayComeTo given.now opening × IsMade h.old written.old
        (record {
          asked = record { call = call; opening = opening; before = supervisor_in before.old };
          status = result;
          handle = h.new;
          written = written.new;
        }) }
    ensures before { before.new ≡ before.old }
{
    match call {
        Call::Open => sdm_open(alloc, h, given, line),
        Call::Cycle(reading) => sdm_cycle(h, &reading, &mut written.row),
        Call::End {
            eoa_cm,
            svl_cm,
            release_kmh,
        } => sdm_end(h, eoa_cm, svl_cm, release_kmh),
        Call::EndCalculated {
            eoa_cm,
            svl_cm,
            trip_cm,
        } => sdm_end_calculated(h, eoa_cm, svl_cm, trip_cm),
        Call::Limit { loa_cm, speed_kmh } => sdm_limit(h, loa_cm, speed_kmh),
        Call::Restrict(restriction) => sdm_restrict(h, &restriction),
        Call::Revoke { id } => sdm_revoke(h, id),
        Call::TakeOver => sdm_take_over(h, before),
        Call::Display(reading) => sdm_display(h, &reading, &mut written.display),
        Call::Causes(reading) => sdm_causes(h, &reading, &mut written.causes),
        Call::WouldCover(reading) => sdm_would_cover(h, &reading, &mut written.is_covered),
        Call::WouldCoverUpTo(asked) => sdm_would_cover_up_to(h, &asked, &mut written.is_covered),
        Call::HasTripPlace {
            width_cm,
            excess_mm_s,
        } => sdm_has_trip_place(h, width_cm, excess_mm_s, &mut written.has_place),
        Call::ClearOf { reading, allowance } => {
            sdm_clear_of(h, &reading, &allowance, &mut written.first)
        }
        Call::Close => {
            sdm_close(alloc, h);
            DONE
        }
    }
}

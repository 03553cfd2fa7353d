//! What is told to C, in its structs and codes.

ghost use Rattle.std.specs.Prelude.{◌≡◌};
ghost use Rattle.sdm_c.specs.Codes.{IsLine, cause_in_c, causes_in_c, display_in_c, distance_in_c, flag, kind_code};
ghost use Rattle.sdm_c.specs.Codes.{place_in_c, row_in_c, rule_code, standing_code, state_code, status_code};
ghost use Rattle.sdm_c.specs.Codes.{target_code, target_kmh_in_c, until_code};

use crate::structs::{CauseC, CausesC, DisplayC, LineC, PlaceC, RowC};
use sdm_causes::{Cause, Causes, Standing, Until};
use sdm_rules::{Display, Row, Shown, State, Status, TargetKind};
use sdm_text::RowBuf;

/// A flag: 1 for true. (own)
pub fn flag(b: bool) -> u32
    ensures { result ≡ flag b }
{
    if b { 1 } else { 0 }
}

/// A place in mm, or none. (own)
pub fn place(place: Option<i64>) -> PlaceC
    ensures { result ≡ place_in_c place }
{
    match place {
        Some(mm) => PlaceC { mm, is_some: 1 },
        None => PlaceC { mm: 0, is_some: 0 },
    }
}

/// The code of the type of speed and distance monitoring: `enum sdm_state`. (own)
fn state_code(state: State) -> u32
    ensures { result ≡ state_code state }
{
    match state {
        State::C => 0,
        State::T => 1,
        State::R => 2,
    }
}

/// The code of the supervision status: `enum sdm_supervision`. (own)
fn status_code(status: Status) -> u32
    ensures { result ≡ status_code status }
{
    match status {
        Status::N => 0,
        Status::I => 1,
        Status::O => 2,
        Status::W => 3,
        Status::X => 4,
    }
}

/// The row of a reading in C's codes. (own)
pub fn row_in_c(row: Row) -> RowC
    ensures { result ≡ row_in_c row }
{
    RowC {
        time_ds: row.time,
        state: state_code(row.state),
        status: status_code(row.held.status),
        tco: flag(row.held.tco),
        sb: flag(row.held.sb),
        eb: flag(row.held.eb),
        covered: flag(row.covered),
        ceiling_kmh: u32::from(row.ceiling),
        ebi: place(row.ebi),
        sbi: place(row.sbi),
        warning: place(row.warning),
        permitted: place(row.permitted),
        indication: place(row.indication),
    }
}

/// The code of the target that counts: `enum sdm_target`. (own)
fn target_code(shown: Option<Shown>) -> u32
    ensures { result ≡ target_code shown }
{
    match shown {
        Some(shown) => kind_code(shown.kind),
        None => 0,
    }
}

/// The code of a kind of target: `enum sdm_target`. (own)
fn kind_code(kind: TargetKind) -> u32
    ensures { result ≡ kind_code kind }
{
    match kind {
        TargetKind::Mrsp => 1,
        TargetKind::Eoa => 2,
        TargetKind::Svl => 3,
        TargetKind::Loa => 4,
    }
}

/// The speed of the target that counts, in km/h; 0 where there is none. (own)
fn target_kmh(shown: Option<Shown>) -> u32
    ensures { result ≡ target_kmh_in_c shown }
{
    match shown {
        Some(shown) => u32::from(shown.speed),
        None => 0,
    }
}

/// The distance to the target that counts, in mm; 0 where there is none. (own)
fn distance(shown: Option<Shown>) -> i64
    ensures { result ≡ distance_in_c shown }
{
    match shown {
        Some(shown) => shown.distance,
        None => 0,
    }
}

/// What is shown of a reading in C's codes. (own)
pub fn display_in_c(display: Display) -> DisplayC
    ensures { result ≡ display_in_c display }
{
    DisplayC {
        time_ds: display.time,
        permitted_kmh: u32::from(display.permitted),
        sbi_kmh: u32::from(display.sbi),
        ebi_kmh: u32::from(display.ebi),
        release_kmh: u32::from(display.release),
        target: target_code(display.shown),
        target_kmh: target_kmh(display.shown),
        distance_mm: distance(display.shown),
    }
}

/// The code of the rule of a cause: `enum sdm_rule`. (own)
fn rule_code(cause: Cause) -> u32
    ensures { result ≡ rule_code cause }
{
    match cause {
        Cause::Ceiling => 1,
        Cause::Passed(_) => 2,
        Cause::EndOfAuthority => 3,
        Cause::ReleaseSpeed => 4,
        Cause::NoServiceBrake => 5,
    }
}

/// No cause, and no target. (own)
const NO_CAUSE: CauseC = CauseC {
    rule: 0,
    target: 0,
    target_kmh: 0,
    target_mm: 0,
    limit_mm: 0,
};

/// A cause in C's codes. (own)
fn cause_in_c(cause: Option<Cause>) -> CauseC
    ensures { result ≡ cause_in_c cause }
{
    let Some(cause) = cause else { return NO_CAUSE };
    let rule = rule_code(cause);
    match cause {
        Cause::Passed(target) => CauseC {
            rule,
            target: kind_code(target.kind),
            target_kmh: u32::from(target.speed),
            target_mm: target.place,
            limit_mm: target.limit,
        },
        Cause::Ceiling | Cause::EndOfAuthority | Cause::ReleaseSpeed | Cause::NoServiceBrake => {
            CauseC { rule, ..NO_CAUSE }
        }
    }
}

/// The code of how a command is held: `enum sdm_standing`. (own)
fn until_code(until: Until) -> u32
    ensures { result ≡ until_code until }
{
    match until {
        Until::PermittedSpeed => 2,
        Until::Standstill => 3,
        Until::StandstillOrPermittedSpeed => 4,
    }
}

/// The code of how a command stands: `enum sdm_standing`. (own)
fn standing_code(standing: Standing) -> u32
    ensures { result ≡ standing_code standing }
{
    match standing {
        Standing::Off => 0,
        Standing::Set => 1,
        Standing::Held(until) => until_code(until),
    }
}

/// The causes of a reading in C's codes. (own)
#[tactic(auto, unfolding(crate::specs::Codes::causes_in_c))]
pub fn causes_in_c(causes: Causes) -> CausesC
    ensures { result ≡ causes_in_c causes }
{
    CausesC {
        time_ds: causes.time,
        tco: standing_code(causes.tco),
        sb: standing_code(causes.sb),
        eb: standing_code(causes.eb),
        over: cause_in_c(causes.over),
        warn: cause_in_c(causes.warn),
        serv: cause_in_c(causes.serv),
        emer: cause_in_c(causes.emer),
    }
}

/// Writes a line. (own)
pub fn put_line(text: &RowBuf, line: &mut LineC)
    ensures { IsLine line.new text.now }
{
    let bytes = text.bytes();
    let count = bytes.len();
    line.bytes[..count].copy_from_slice(bytes);
    line.count = count as u32;
}

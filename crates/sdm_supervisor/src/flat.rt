//! The supervisor of one brake curve on a level track. All its memory is taken by `begin`; a cycle takes none.

ghost use Rattle.std.specs.Prelude.{◌≡◌, ◌≤◌, ℕ, None, Some, ◌||◌, ◌&&◌, nat_lt, int_lt, IsTrue, IfOk, IfErr, OnErr};
ghost use Rattle.sdm_num.specs.Units.{notches_of_mm_s};
ghost use Rattle.sdm_rules.specs.Records.{time_fault};
ghost use Rattle.sdm_rules.specs.Ranges.{longest_track};
ghost use Rattle.sdm_formats.specs.Flat.{KeepsFlatOrder, StopsByFlatEnd, after_flat_line, flat_opening, flat_row};
ghost use Rattle.sdm_supervisor.specs.Flats.{ebi_mm, flat_map};
ghost use Rattle.sdm_supervisor.specs.FlatLines.{IsFlatLine, line_at};

use sdm_curve::{BandMap, Curve, CurveFault};
use sdm_formats::FlatRow;
use sdm_num::{Early, NoMemory, Place, Speed};
use sdm_rules::CycleFault;
use std::alloc::Global;
use std::marker::Model;

/// The supervisor of a brake curve of one deceleration, which ends at a place. (own)
#[derive(Drop)]
pub struct Flat {
    decel: u16,
    end_cm: u32,
    map: BandMap,
    curve: Curve,
    last_time: Option<u32>,
    eb: bool,
}

impl Model for Flat {
    ghost use Rattle.sdm_formats.specs.Flat.{FlatSupervision};
    ghost use Rattle.sdm_supervisor.specs.Flats.{IsFlatCurve};

    ghost Value = { FlatSupervision };

    ghost view = { λ f. record { decel = f.decel; end = f.end_cm; last_time = f.last_time; eb = f.eb } };

    ghost invariant = { λ f. IsFlatCurve f.decel f.end_cm f.map f.curve };
}

/// The slope map of a deceleration in cm/s². It is never refused: 5 cm/s² is the least that a curve may have.
fn map_of(alloc: Global, decel: u16) -> Result<BandMap, NoMemory>
    requires low { 5 ≤ decel }
    requires high { decel ≤ 400 }
    ensures { IfOk result (λ m. m ≡ flat_map decel) }
{
    match BandMap::new(alloc, 100, &[], &[0], &[2_000_000_000 * i64::from(decel)]) {
        Ok(map) => Ok(map),
        Err(CurveFault::Memory) => Err(NoMemory),
        Err(CurveFault::TooWeak { .. }) => unreachable!(),
        Err(CurveFault::TooVaried { .. }) => unreachable!(),
    }
}

/// Whether a line is an emergency, by the computed place of the curve at its speed.
fn is_emergency(limit: Early, end: Place, front: Place, speed: Speed) -> bool
    ensures { result ≡ ((nat_lt 0 speed && int_lt limit.at front) || int_lt end front) }
{
    speed.notches() > 0 && limit.is_passed_by(front) || end.grains() < front.grains()
}

/// The command that is held after a line: it is released at standstill.
fn held_after(emergency: bool, held: bool, speed: Speed) -> bool
    ensures { result ≡ (emergency || (held && nat_lt 0 speed)) }
{
    emergency || held && speed.notches() > 0
}

impl Flat {
    /// The supervisor of a deceleration in cm/s² and an end in cm: no time is accepted and no command held. (own)
    pub fn begin(alloc: Global, decel: u16, end_cm: u32) -> Result<Flat, NoMemory>
        requires low { 5 ≤ decel }
        requires high { decel ≤ 400 }
        requires near { end_cm ≤ longest_track }
        ensures { IfOk result (λ f. f ≡ flat_opening decel end_cm) }
    {
        let map = map_of(alloc, decel)?;
        let curve = Curve::from_foot(&map, Place::of_cm_from_0(end_cm), Speed::new(0));
        Ok(Flat {
            decel,
            end_cm,
            map,
            curve,
            last_time: None,
            eb: false,
        })
    }

    /// Takes a line: time in ds, front end and speed. TimeBack comes exactly where the time is before the last
    /// accepted one, and changes nothing. From a covered row every motion that brakes at least at the deceleration
    /// stops by the end. (own)
    pub fn cycle(&mut self, time: u32, front: Place, speed: Speed) -> Result<FlatRow, CycleFault>
        requires { IsFlatLine (line_at time front speed) }
        ensures row { IfOk result (λ row. row ≡ flat_row self.old (line_at time front speed)) }
        ensures after { IfOk result (λ _. self.new ≡ after_flat_line self.old (line_at time front speed)) }
        ensures ebi { IfOk result
            (λ row. (v : ℕ) → speed ≡ notches_of_mm_s v → row.ebi ≡ ebi_mm self.old.decel self.old.end v) }
        ensures order { IfOk result (λ row. KeepsFlatOrder self.old (line_at time front speed) row.eb) }
        ensures stop { IfOk result (λ row. IsTrue row.covered → StopsByFlatEnd self.old (line_at time front speed)) }

        ensures in_time { IfOk result (λ _. time_fault self.old.last_time time ≡ None) }
        ensures time_back { IfErr result (λ fault. time_fault self.old.last_time time ≡ Some fault) }
        ensures refused { OnErr result (self.new ≡ self.old) }
    {
        if let Some(last) = self.last_time {
            if time < last {
                return Err(CycleFault::TimeBack { last, time });
            }
        }
        let limit = self.curve.place(&self.map, speed);
        let end = Place::of_cm_from_0(self.end_cm);
        let eb = held_after(is_emergency(limit, end, front, speed), self.eb, speed);
        self.last_time = Some(time);
        self.eb = eb;
        Ok(FlatRow {
            time,
            ebi: limit.whole_mm(),
            covered: !limit.is_passed_by(front),
            eb,
        })
    }
}

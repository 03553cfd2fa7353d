//! The rules that the lists of a track keep. They are tested list by list, each rule over the whole list before the
//! next: count, values, start of the first entry, order; the first that is broken is answered.

ghost use Rattle.std.specs.Prelude.{◌≡◌, ℕ, ℤ, pos, neg_ℤ, ◌+◌, ◌^◌, ◌+ℤ◌, ◌-ℤ◌, ◌<◌, ◌≤◌, Option, Bool, int_lt};
ghost use Rattle.std.specs.Prelude.{length};
ghost use Rattle.std.specs.Result.{result_err};
ghost use Rattle.sdm_rules.specs.Ranges.{gradient_refused, speed_refused, area_refused, or_else};
ghost use Rattle.sdm_rules.specs.Ranges.{count_fault, value_fault, gap_fault, order_fault};
ghost use Rattle.sdm_rules.specs.Ranges.{gradients_fault, speeds_fault, areas_fault};

use sdm_rules::{
    Area, Gradient, STEEPEST, Section, SpeedStep, TOP_KMH, TrackFault, first_refused, is_within,
    keys, outside,
};

/// The most gradients of a track. (own)
const MOST_GRADIENTS: usize = 512;
/// The most entries of a static speed profile. (own)
const MOST_SPEEDS: usize = 128;
/// The most areas of a list. (own)
const MOST_AREAS: usize = 64;

/// An entry of one of the lists.
trait Listed {
    ghost start: { Self → ℤ };

    /// The first cell in which the next entry may start.
    ghost past: { Self → ℤ };

    ghost refused_key: { ℤ → Self → Option ℕ };

    /// Where the entry starts, in cm.
    fn start(&self) -> i64
        ensures { result ≡ start self.now };

    /// The number of the first key whose value is refused, on a track of this length.
    fn refused_key(&self, length_cm: u32) -> Option<u8>
        ensures { result ≡ refused_key (pos length_cm) self.now };

    /// Whether the next entry starts too early.
    fn overlaps(&self, next: &Self) -> bool
        ensures { result ≡ int_lt (start next.now) (past self.now) };
}

impl Listed for Gradient {
    ghost start = { λ e. e.start };

    ghost past = { λ e. e.start +ℤ pos 1 };

    ghost refused_key = { gradient_refused };

    fn start(&self) -> i64 {
        self.start
    }

    fn refused_key(&self, length_cm: u32) -> Option<u8> {
        first_refused(&[
            outside(
                keys::GRADIENT_START,
                self.start,
                0,
                i64::from(length_cm) - 1,
            ),
            outside(keys::GRADIENT_GRAD, self.grad, -STEEPEST, STEEPEST),
        ])
    }

    fn overlaps(&self, next: &Gradient) -> bool {
        next.start <= self.start
    }
}

impl Listed for SpeedStep {
    ghost start = { λ e. e.start };

    ghost past = { λ e. e.start +ℤ pos 1 };

    ghost refused_key = { speed_refused };

    fn start(&self) -> i64 {
        self.start
    }

    fn refused_key(&self, length_cm: u32) -> Option<u8> {
        first_refused(&[
            outside(keys::SPEED_START, self.start, 0, i64::from(length_cm) - 1),
            outside(keys::SPEED_SPEED, self.speed, 1, i64::from(TOP_KMH)),
        ])
    }

    fn overlaps(&self, next: &SpeedStep) -> bool {
        next.start <= self.start
    }
}

impl Listed for Area {
    ghost start = { λ e. e.start };

    ghost past = { λ e. e.end };

    ghost refused_key = { area_refused };

    fn start(&self) -> i64 {
        self.start
    }

    fn refused_key(&self, length_cm: u32) -> Option<u8> {
        let length = i64::from(length_cm);
        if !is_within(0, length - 1, self.start) {
            return Some(keys::AREA_START);
        }
        if !is_within(self.start + 1, length, self.end) {
            return Some(keys::AREA_END);
        }
        None
    }

    fn overlaps(&self, next: &Area) -> bool {
        next.start < self.end
    }
}

/// Refuses a list that has fewer than `least` or more than `most` entries.
fn check_count<E>(list: Section, least: usize, most: usize, entries: &[E]) -> Result<(), TrackFault>
    ensures { result_err result ≡ count_fault list least most entries.now }
{
    let count = entries.len();
    if count < least || most < count {
        return Err(TrackFault::Count { list });
    }
    Ok(())
}

/// Refuses the first number of the entries that is out of its range.
fn check_values<E: Listed>(list: Section, length_cm: u32, entries: &[E]) -> Result<(), TrackFault>
    requires { length entries.now < 2 ^ 32 }
    ensures { result_err result ≡ value_fault list (E.refused_key (pos length_cm)) 1 entries.now }
{
    for (i, entry) in entries.iter().enumerate() {
        if let Some(key) = entry.refused_key(length_cm) {
            let index = i as u32 + 1;
            return Err(TrackFault::Value { list, index, key });
        }
    }
    Ok(())
}

/// Refuses a list whose first entry starts past 0.
fn check_gap<E: Listed>(list: Section, entries: &[E]) -> Result<(), TrackFault>
    ensures { result_err result ≡ gap_fault list E.start entries.now }
{
    match entries.first() {
        Some(first) if 0 < first.start() => Err(TrackFault::Gap { list }),
        _ => Ok(()),
    }
}

/// Refuses the first entry that starts too early after the one before it.
fn check_order<E: Listed>(list: Section, entries: &[E]) -> Result<(), TrackFault>
    requires { length entries.now < 2 ^ 32 }
    ensures { result_err result ≡ order_fault list E.start E.past 1 entries.now }
{
    for i in 1..entries.len() {
        if entries[i - 1].overlaps(&entries[i]) {
            let index = i as u32 + 1;
            return Err(TrackFault::Order { list, index });
        }
    }
    Ok(())
}

/// Refuses the first rule that a list of steps breaks, which begins at 0 and has from `least` to `most` entries.
fn check_steps<E: Listed>(
    list: Section,
    least: usize,
    most: usize,
    length_cm: u32,
    entries: &[E],
) -> Result<(), TrackFault>
    requires { most < 2 ^ 32 }
    ensures { result_err result ≡ or_else (count_fault list least most entries.now)
        (or_else (value_fault list (E.refused_key (pos length_cm)) 1 entries.now)
        (or_else (gap_fault list E.start entries.now) (order_fault list E.start E.past 1 entries.now))) }
{
    check_count(list, least, most, entries)?;
    check_values(list, length_cm, entries)?;
    check_gap(list, entries)?;
    check_order(list, entries)
}

/// Refuses the first rule that the gradients break.
#[tactic(auto, unfolding(sdm_rules::specs::Ranges::gradients_fault))]
pub fn check_gradients(length_cm: u32, entries: &[Gradient]) -> Result<(), TrackFault>
    ensures { result_err result ≡ gradients_fault (pos length_cm) entries.now }
{
    check_steps(Section::Gradient, 0, MOST_GRADIENTS, length_cm, entries)
}

/// Refuses the first rule that the static speed profile breaks.
#[tactic(auto, unfolding(sdm_rules::specs::Ranges::speeds_fault))]
pub fn check_speeds(length_cm: u32, entries: &[SpeedStep]) -> Result<(), TrackFault>
    ensures { result_err result ≡ speeds_fault (pos length_cm) entries.now }
{
    check_steps(Section::Speed, 1, MOST_SPEEDS, length_cm, entries)
}

/// Refuses the first rule that a list of areas breaks. It need not begin at 0.
#[tactic(auto, unfolding(sdm_rules::specs::Ranges::areas_fault))]
pub fn check_areas(list: Section, length_cm: u32, areas: &[Area]) -> Result<(), TrackFault>
    ensures { result_err result ≡ areas_fault list (pos length_cm) areas.now }
{
    check_count(list, 0, MOST_AREAS, areas)?;
    check_values(list, length_cm, areas)?;
    check_order(list, areas)
}

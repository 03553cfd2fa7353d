//! Slices: what a train does before its brakes work.

ghost use Rattle.std.specs.Prelude.{◌≡◌, ◌↔◌, ◌*◌, ◌≤◌, IsTrue, length};
ghost use Rattle.sdm_rules.specs.Motion.{accel_in, AreSlices, IsIn, IsReaction, IsSlice, time_of};
ghost use Rattle.sdm_motion.specs.Slices.{IsCut, length_of, speed_after};

use sdm_rules::{Phase, Slice, Start};

/// Notches of 1 mm/s, which 1 cm/s² gains in a ds.
const MM_S: u128 = 54;

/// Grains of a notch in a ds.
const NOTCH_DS: u128 = 1_000_000;

/// The greatest acceleration of a phase, in cm/s².
fn accel_in(start: &Start, phase: Phase) -> u16
    ensures { result ≡ accel_in start.now phase }
{
    match phase {
        Phase::Traction => start.accel1,
        Phase::Build => start.accel2,
    }
}

/// Whether a slice gains and moves no more than its acceleration allows, from a speed on.
fn is_slice(accel: u16, speed: u64, slice: &Slice) -> bool
    ensures { IsTrue result ↔ IsSlice accel speed slice.now }
{
    let time = u128::from(slice.time);
    let from = u128::from(speed);
    let to = u128::from(slice.to);
    if from + MM_S * u128::from(accel) * time < to {
        return false;
    }
    2 * u128::from(slice.length) <= NOTCH_DS * (from + to) * time
}

/// Whether each slice does so from the end of the one before it.
fn are_slices(start: &Start, speed: u64, slices: &[Slice]) -> bool
    ensures { IsTrue result ↔ AreSlices start.now speed slices.now }
{
    let mut at = speed;
    for x in slices {
        if !is_slice(accel_in(start, x.phase), at, x) {
            return false;
        }
        at = x.to;
    }
    true
}

/// How many slices of traction come first.
fn traction_count(slices: &[Slice]) -> usize
    ensures { IsCut slices.now result }
{
    for (i, x) in slices.iter().enumerate() {
        match x.phase {
            Phase::Traction => {}
            Phase::Build => return i,
        }
    }
    slices.len()
}

/// Whether all slices are of the build-up.
fn are_build(slices: &[Slice]) -> bool
    ensures { IsTrue result ↔ IsIn Phase.Build slices.now }
{
    for x in slices {
        match x.phase {
            Phase::Traction => return false,
            Phase::Build => {}
        }
    }
    true
}

/// The times of slices together.
fn time_of(slices: &[Slice]) -> u128
    ensures { result ≡ time_of slices.now }
{
    let mut time = 0;
    for x in slices {
        time += u128::from(x.time);
    }
    time
}

/// Whether the slices are what a train may do before its brakes work: first all slices of traction and then those of
/// the build-up, each with its time.
pub fn is_reaction(scale: u32, slices: &[Slice], start: &Start, speed: u64) -> bool
    ensures { IsTrue result ↔ IsReaction scale start.now speed slices.now }
{
    let (traction, build) = slices.split_at(traction_count(slices));
    if !are_build(build) {
        return false;
    }
    if time_of(traction) != u128::from(scale) * u128::from(start.traction) {
        return false;
    }
    if time_of(build) != u128::from(scale) * u128::from(start.berem) {
        return false;
    }
    are_slices(start, speed, slices)
}

/// The distance of all slices.
pub fn length_of(slices: &[Slice]) -> u128
    ensures { result ≡ length_of slices.now }
{
    let mut length = 0;
    for x in slices {
        length += u128::from(x.length);
    }
    length
}

/// The speed after all slices.
pub fn speed_after(speed: u64, slices: &[Slice]) -> u64
    ensures { result ≡ speed_after speed slices.now }
{
    match slices.last() {
        Some(x) => x.to,
        None => speed,
    }
}

//! The odometer of a drive: it reads the true train with errors that follow from a number. The true front end lies
//! between the min and the max safe one, and the true speed is at most the one that is read with the under-reading.

ghost use Rattle.std.specs.Prelude.{◌≡◌, pos, ◌*◌, ◌%◌, ◌^◌, ◌≤◌, ◌+ℤ◌, ◌≤ℤ◌, if◌then◌else◌};
ghost use Rattle.sdm_num.specs.Bounds.{mm_above};
ghost use Rattle.sdm_drive.specs.Drive.{read_speed, reading_by};

use crate::trains::TrueTrain;
use sdm_num::{Late, MILLIMETRE, Place, Reading, Speed};

/// The speed that is read, in mm/s.
fn read_speed(inhibited: bool, number: u16, speed: Speed) -> u32
    ensures { result ≡ read_speed inhibited number speed }
{
    let v = speed.notches();
    if v == 0 {
        return 0;
    }
    if inhibited {
        return (v + 53) / 54;
    }
    (v / 54).saturating_sub(u32::from(number) % 500).max(1)
}

/// The max safe front end that is read, in mm.
fn read_front(number: u16, place: Place) -> i64
    requires low { pos 0 ≤ℤ place }
    requires high { place ≤ℤ pos (54 * 10 ^ 15) }
    ensures value { result ≡ mm_above place +ℤ pos (number % 5_001) }
    ensures from { pos 0 ≤ℤ result }
    ensures to { result ≤ℤ pos 100_005_000 }
{
    let error = u64::from(number) % 5_001;
    Late::exact(place)
        .more(MILLIMETRE as u64 * error)
        .whole_mm()
}

/// The under-reading amount, in mm/s.
fn under_reading(inhibited: bool) -> u32
    ensures { result ≡ (if inhibited then 0 else 500) }
{
    if inhibited { 0 } else { 500 }
}

/// What is read of a train at a time by a number, where the compensation of under-reading is inhibited or not.
pub fn reading_by(inhibited: bool, time: u32, number: u16, train: TrueTrain) -> Reading
    requires time { time ≤ 100_000_000 }
    requires place { train.place ≤ℤ pos (54 * 10 ^ 15) }
    ensures { result ≡ reading_by inhibited time number train }
{
    let max_mm = read_front(number, train.place) as i32;
    let found = Reading::new(
        time,
        max_mm - 5_000,
        max_mm - 10_000,
        max_mm,
        read_speed(inhibited, number, train.speed),
        (number % 61) as i16 - 20,
        under_reading(inhibited),
    );
    match found {
        Some(reading) => reading,
        None => unreachable!(),
    }
}

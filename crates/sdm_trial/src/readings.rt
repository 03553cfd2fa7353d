//! The readings of a trial. Each cycle has a number, which follows from that of the cycle before; its reading follows
//! from both.

ghost use Rattle.std.specs.Prelude.{◌≡◌, ◌≤◌, suc, IfSome, IfNone, OnSome};
ghost use Rattle.sdm_rules.specs.Records.{most_records};
ghost use Rattle.sdm_formats.specs.Trial.{next_number, reading_by, reading_in_cycle};
ghost use Rattle.sdm_trial.specs.Made.{TakesCycle};

use sdm_formats::next_number;
use sdm_num::Reading;
use std::marker::Model;

/// The readings of a trial, one after the other.
#[derive(Drop)]
pub struct Readings {
    /// The number of cycle 0.
    seed: u16,
    made: u32,
    left: u32,
    /// The number of the cycle that was made last.
    number: u16,
}

impl Model for Readings {
    ghost use Rattle.std.specs.Prelude.{◌≡◌, ◌≤◌, ◌+◌};
    ghost use Rattle.sdm_rules.specs.Records.{most_records};
    ghost use Rattle.sdm_formats.specs.Trial.{number_at};
    ghost use Rattle.sdm_trial.specs.Made.{MadeReadings};

    ghost Value = { MadeReadings };

    ghost view = { λ r. record { seed = r.seed; made = r.made; left = r.left } };

    ghost invariant = { λ r. (r.number ≡ number_at r.seed r.made) × (r.made + r.left ≤ most_records) };
}

/// The reading of a cycle by its number.
fn reading_by(cycle: u32, number: u16) -> Reading
    requires { cycle ≤ most_records }
    ensures { result ≡ reading_by cycle number }
{
    let number = u32::from(number);
    let est_mm = (3_000_000 + 20 * number) as i32;
    let speed_mm_s = number % 44_001;
    let accel = (number % 101) as i16 - 50;
    let found = Reading::new(
        5 * cycle,
        est_mm,
        est_mm - 5_000,
        est_mm + 5_000,
        speed_mm_s,
        accel,
        500,
    );
    match found {
        Some(reading) => reading,
        None => unreachable!(),
    }
}

impl Readings {
    /// The readings from a seed on, of at most 100,000 cycles; cycles count from 1. (own)
    pub fn begin(seed: u16, cycles: u32) -> Readings
        requires { cycles ≤ most_records }
        ensures { result ≡ record { seed = seed; made = 0; left = cycles } }
    {
        Readings {
            seed,
            made: 0,
            left: cycles,
            number: seed,
        }
    }

    /// The reading of the next cycle; None exactly where none is left.
    pub fn next(&mut self) -> Option<Reading>
        ensures reading { IfSome result (λ reading. reading ≡ reading_in_cycle self.old.seed (suc self.old.made)) }
        ensures taken { OnSome result (TakesCycle self.old self.new) }
        ensures end { IfNone result (self.old.left ≡ 0) }
        ensures unchanged { IfNone result (self.new ≡ self.old) }
    {
        if self.left == 0 {
            return None;
        }
        self.left -= 1;
        self.made += 1;
        self.number = next_number(self.number);
        Some(reading_by(self.made, self.number))
    }
}

/// The reading of a cycle of the trial from a seed; cycles count from 1, and there are at most 100,000. It steps
/// through the numbers of the cycles before: who wants all readings asks `Readings`. (own)
pub fn trial_reading(seed: u16, cycle: u32) -> Reading
    requires first { 1 ≤ cycle }
    requires last { cycle ≤ most_records }
    ensures { result ≡ reading_in_cycle seed cycle }
{
    let mut number = seed;
    for _ in 0..cycle {
        number = next_number(number);
    }
    reading_by(cycle, number)
}

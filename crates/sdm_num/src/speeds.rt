//! Speeds of the train, of targets and of curves.

ghost use Rattle.std.specs.Prelude.{◌≡◌, ℕ, ◌+◌, ◌*◌, ◌≤◌};
ghost use Rattle.sdm_num.specs.Units.{notches, notches_of_mm_s, top_speed, distance_at};

use std::marker::Model;

/// The greatest speed of a train, a target or a speed profile, in km/h. (own range)
pub const TOP_KMH: u32 = 500;

/// A speed in notches, of which 54 make 1 mm/s and 15,000 make 1 km/h; at most 20,000,000. (own)
#[derive(Clone, Copy, Debug, PartialEq, Eq, PartialOrd, Ord)]
pub struct Speed {
    notches: u32,
}

impl Model for Speed {
    ghost Value = { ℕ };

    ghost view = { λ v. v.notches };

    ghost invariant = { λ v. v.notches ≤ top_speed };

    ghost inverse = { λ n. record { notches = n } };
}

impl Speed {
    /// The speed of so many notches.
    pub fn new(notches: u32) -> Speed
        requires { notches ≤ top_speed }
        ensures { result ≡ notches }
    {
        Speed { notches }
    }

    /// A whole speed in km/h.
    pub fn of_kmh(kmh: u16) -> Speed
        requires { kmh ≤ 600 }
        ensures { result ≡ notches kmh }
    {
        Speed {
            notches: 15_000 * u32::from(kmh),
        }
    }

    /// A whole speed in mm/s.
    pub fn of_mm_s(v: u32) -> Speed
        requires { v ≤ 370_000 }
        ensures { result ≡ notches_of_mm_s v }
    {
        Speed { notches: 54 * v }
    }

    /// The speed and a margin of it.
    pub fn plus(self, margin: Speed) -> Speed
        requires { self + margin ≤ top_speed }
        ensures { result ≡ self + margin }
    {
        Speed {
            notches: self.notches + margin.notches,
        }
    }

    /// The distance in grains at this speed within a time of at most 90 s.
    pub fn distance_at(self, time_ds: u32) -> u64
        requires { time_ds ≤ 900 }
        ensures value { result ≡ distance_at self time_ds }
        ensures small { result ≤ 900_000_000 * self }
    {
        1_000_000 * u64::from(self.notches) * u64::from(time_ds)
    }

    /// The number of notches.
    pub fn notches(self) -> u32
        ensures value { result ≡ self }
        ensures range { self ≤ top_speed }
    {
        self.notches
    }
}

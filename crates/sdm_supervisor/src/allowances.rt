//! What a train may be beyond its estimate at a reading, and gain after it.

ghost use Rattle.std.specs.Prelude.{◌≡◌};
ghost use Rattle.std.specs.Option.{SomeIff};
ghost use Rattle.sdm_supervisor.specs.Clearances.{IsAllowance, allowance_of};

use sdm_num::{MILLIMETRE, Speed};
use std::marker::Model;

/// How far and how much faster the train may be than its estimate at a reading, and with which acceleration it may gain
/// speed after it: up to 10 km, 10,000 mm/s and 300 cm/s². (own)
#[derive(Clone, Copy, Debug, PartialEq, Eq)]
pub struct Allowance {
    /// In grains.
    front: u64,
    speed: Speed,
    /// In cm/s².
    accel: u16,
}

impl Model for Allowance {
    ghost use Rattle.sdm_row_laws.specs.Clearances.{Allowance as AllowanceOf};
    ghost use Rattle.sdm_supervisor.specs.Clearances.{IsAllowance};

    ghost Value = { AllowanceOf };

    ghost view = { λ a. record { front = a.front; speed = a.speed; accel = a.accel } };

    ghost invariant = { λ a. IsAllowance (record { front = a.front; speed = a.speed; accel = a.accel }) };

    ghost inverse = { λ a. record { front = a.front; speed = a.speed; accel = a.accel } };
}

impl Allowance {
    /// The allowance of these numbers; None exactly where one of them is out of its range.
    pub fn new(front_mm: u32, speed_mm_s: u32, accel_cm_s2: u16) -> Option<Allowance>
        ensures { let allowance = allowance_of front_mm speed_mm_s accel_cm_s2 in
            SomeIff result (IsAllowance allowance) allowance }
    {
        if front_mm > 10_000_000 || speed_mm_s > 10_000 || accel_cm_s2 > 300 {
            return None;
        }
        Some(Allowance {
            front: MILLIMETRE as u64 * u64::from(front_mm),
            speed: Speed::of_mm_s(speed_mm_s),
            accel: accel_cm_s2,
        })
    }

    /// How far the train may be past its estimated front end, in grains.
    pub fn front(self) -> u64
        ensures value { result ≡ self.front }
        ensures range { IsAllowance self }
    {
        self.front
    }

    /// How much faster it may be than estimated.
    pub fn speed(self) -> Speed
        ensures { result ≡ self.speed }
    {
        self.speed
    }

    /// With which acceleration it may gain speed, in cm/s².
    pub fn accel(self) -> u16
        ensures { result ≡ self.accel }
    {
        self.accel
    }
}

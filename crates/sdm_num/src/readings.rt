//! Odometer readings, and what is estimated of the train's motion in them.

ghost use Rattle.std.specs.Prelude.{◌≡◌, ◌≤◌, ◌≤ℤ◌, ◌↔◌, IsTrue, pos, negsuc};
ghost use Rattle.std.specs.Option.{SomeIff};
ghost use Rattle.sdm_num.specs.Readings.{Estimate as EstimateOf, IsEstimate, IsReading, OdometerReading, estimate_of};
ghost use Rattle.sdm_num.specs.Readings.{reading_of};
ghost use Rattle.sdm_num.specs.Units.{notches, top_kmh};

use crate::places::Place;
use crate::speeds::{Speed, TOP_KMH};
use std::marker::Model;

/// The most by which the true speed may be above the estimated one, in mm/s. (own range)
const MOST_UNDER_MM_S: u32 = 10_000;

/// An odometer reading, within its ranges: time 0 to 100,000,000 ds; the front ends from −10 km to 110 km with
/// min ≤ est ≤ max; speed up to 138,888 mm/s; acceleration −300 to 300 cm/s²; under-reading up to 10,000 mm/s.
/// (SUBSET-026-3 3.6.4, 3.13.2.2; ranges own)
#[derive(Clone, Copy, Debug, PartialEq, Eq)]
pub struct Reading {
    time: u32,
    est: Place,
    min: Place,
    max: Place,
    speed: Speed,
    accel: i16,
    under: Speed,
}

impl Model for Reading {
    ghost Value = { OdometerReading };

    ghost view = { λ r. record {
      time = r.time;
      est = r.est;
      min = r.min;
      max = r.max;
      speed = r.speed;
      accel =
          r.accel;
      under = r.under;
    } };

    ghost invariant = { λ r. IsReading (record {
      time = r.time;
      est = r.est;
      min = r.min;
      max = r.max;
      speed =
          r.speed;
      accel = r.accel;
      under = r.under;
    }) };

    ghost inverse = { λ r. record {
      time = r.time;
      est = r.est;
      min = r.min;
      max = r.max;
      speed = r.speed;
      accel =
          r.accel;
      under = r.under;
    } };
}

/// What is estimated of the train's motion: its speed, up to 500 km/h, the acceleration from −300 to 300 cm/s², and
/// how far the true speed may be above the estimated one, up to 10,000 mm/s. The speed may be one that no reading has.
/// (SUBSET-026-3 3.13.2.2; ranges own)
#[derive(Clone, Copy, Debug, PartialEq, Eq)]
pub struct Estimate {
    speed: Speed,
    accel: i16,
    under: Speed,
}

impl Model for Estimate {
    ghost Value = { EstimateOf };

    ghost view = { λ e. record { speed = e.speed; accel = e.accel; under = e.under } };

    ghost invariant = { λ e. IsEstimate (record { speed = e.speed; accel = e.accel; under = e.under }) };

    ghost inverse = { λ e. record { speed = e.speed; accel = e.accel; under = e.under } };
}

impl Estimate {
    /// The estimate of these numbers; None exactly where one of them is out of its range.
    pub fn new(speed: Speed, accel: i16, under: Speed) -> Option<Estimate>
        ensures { let estimate : EstimateOf = record { speed = speed; accel = accel; under = under } in
            SomeIff result (IsEstimate estimate) estimate }
    {
        if speed > Speed::of_kmh(TOP_KMH as u16) || under > Speed::of_mm_s(MOST_UNDER_MM_S) {
            return None;
        }
        if accel < -300 || accel > 300 {
            return None;
        }
        Some(Estimate {
            speed,
            accel,
            under,
        })
    }

    /// The same estimate with another speed, of at most 500 km/h.
    pub fn with_speed(self, speed: Speed) -> Estimate
        requires { speed ≤ notches top_kmh }
        ensures { result ≡ record self { speed = speed } }
    {
        Estimate { speed, ..self }
    }

    /// The estimated speed.
    pub fn speed(self) -> Speed
        ensures value { result ≡ self.speed }
        ensures range { IsEstimate self }
    {
        self.speed
    }

    /// The estimated acceleration, in cm/s².
    pub fn accel(self) -> i16
        ensures { result ≡ self.accel }
    {
        self.accel
    }

    /// How far the true speed may be above the estimated one.
    pub fn under(self) -> Speed
        ensures { result ≡ self.under }
    {
        self.under
    }
}

impl Reading {
    /// The reading of these numbers; None exactly where one of them is out of its range.
    // In line a caller's own tests of the ranges serve, and the reading is written once, where it is wanted.
    #[inline(always)]
    pub fn new(
        time: u32,
        est_mm: i32,
        min_mm: i32,
        max_mm: i32,
        speed_mm_s: u32,
        accel: i16,
        under_mm_s: u32,
    ) -> Option<Reading>
        ensures { let reading = reading_of time est_mm min_mm max_mm speed_mm_s accel under_mm_s in
            SomeIff result (IsReading reading) reading }
    {
        if time > 100_000_000 || speed_mm_s > 138_888 || under_mm_s > MOST_UNDER_MM_S {
            return None;
        }
        if min_mm < -10_000_000 || est_mm < min_mm || max_mm < est_mm || max_mm > 110_000_000 {
            return None;
        }
        if accel < -300 || accel > 300 {
            return None;
        }
        Some(Reading {
            time,
            est: Place::of_mm(est_mm),
            min: Place::of_mm(min_mm),
            max: Place::of_mm(max_mm),
            speed: Speed::of_mm_s(speed_mm_s),
            accel,
            under: Speed::of_mm_s(under_mm_s),
        })
    }

    /// The time, in ds.
    pub fn time(self) -> u32
        ensures value { result ≡ self.time }
        ensures range { IsReading self }
    {
        self.time
    }

    /// The estimated front end.
    pub fn est_mm(self) -> Place
        ensures { result ≡ self.est }
    {
        self.est
    }

    /// The min safe front end.
    pub fn min_mm(self) -> Place
        ensures { result ≡ self.min }
    {
        self.min
    }

    /// The max safe front end.
    pub fn max_mm(self) -> Place
        ensures { result ≡ self.max }
    {
        self.max
    }

    /// The estimated speed.
    pub fn speed_mm_s(self) -> Speed
        ensures { result ≡ self.speed }
    {
        self.speed
    }

    /// The estimated acceleration, in cm/s².
    pub fn accel(self) -> i16
        ensures { result ≡ self.accel }
    {
        self.accel
    }

    /// How far the true speed may be above the estimated one.
    pub fn under_mm_s(self) -> Speed
        ensures { result ≡ self.under }
    {
        self.under
    }

    /// What is estimated of the train's motion.
    pub fn estimate(self) -> Estimate
        ensures { result ≡ estimate_of self }
    {
        Estimate {
            speed: self.speed,
            accel: self.accel,
            under: self.under,
        }
    }
}

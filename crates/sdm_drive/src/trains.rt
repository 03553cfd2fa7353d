//! The true train of a drive, from ds to ds. Places are in grains and speeds in notches, so that a ds of a uniform
//! acceleration is one of whole numbers.

ghost use Rattle.std.specs.Prelude.{◌≡◌, pos, ◌*◌, ◌^◌, ◌<◌, ◌≤◌, ◌≤ℤ◌};
ghost use Rattle.sdm_rules.specs.Slopes.{IsUsable, meaning_of};
ghost use Rattle.sdm_drive.specs.Drive.{accelerated, after_braking, after_coasting, after_driving, after_ds};
ghost use Rattle.sdm_drive.specs.Drive.{after_several_ds, slope_ahead, speed_loss, step_time, stop_between};
ghost use Rattle.sdm_drive.specs.Drive.{stopping_distance, stops_in};

use crate::orders::Orders;
use sdm_curve::BandMap;
use sdm_num::{Place, Speed};
use std::marker::Model;

/// 138,888 mm/s, in notches. (own)
const GREATEST_DRIVEN: u32 = 7_499_952;

/// From a reading to the next, in ds. (own)
pub const STEP_TIME: u32 = 5;

/// The true front end, at or past the place 0, and the true speed, at most 138,888 mm/s. (own)
#[derive(Clone, Copy, Debug, PartialEq, Eq)]
pub struct TrueTrain {
    pub place: Place,
    pub speed: Speed,
}

impl Model for TrueTrain {
    ghost use Rattle.sdm_drive.specs.Drive.{TrueTrain};
    ghost use Rattle.sdm_drive.specs.Trains.{IsOnWay};

    ghost Value = { TrueTrain };

    ghost view = { λ t. record { place = t.place; speed = t.speed } };

    ghost invariant = { λ t. IsOnWay (record { place = t.place; speed = t.speed }) };

    ghost inverse = { λ t. record { place = t.place; speed = t.speed } };
}

/// How much speed a slope takes in a ds, in notches.
#[tactic(auto, unfolding(crate::specs::Drive::speed_loss))]
fn speed_loss(q: u32, slope: u64) -> u64
    requires unit { 0 < q }
    requires small { slope ≤ 10 ^ 15 }
    ensures { result ≡ speed_loss q slope }
{
    let unit = 10_000_000 * u64::from(q);
    (27 * slope + (unit - 1)) / unit
}

/// How far a train goes until a slope has stopped it within a ds, in grains.
#[tactic(auto, unfolding(crate::specs::Drive::stopping_distance))]
fn stopping_distance(q: u32, slope: u64, speed: Speed) -> u64
    requires unit { 0 < q }
    requires some { 0 < slope }
    requires stops { speed < speed_loss q slope }
    ensures value { result ≡ stopping_distance q slope speed }
    ensures near { result ≤ 500_000 * speed }
{
    let v = u128::from(speed.notches());
    let distance = 5_000_000_000_000 * u128::from(q) * (v * v) / (27 * u128::from(slope));
    distance as u64
}

/// A speed with the change of a ds of acceleration, not below 0, in notches.
fn accelerated(speed: Speed, accel: i16) -> u32
    ensures value { result ≡ accelerated accel speed }
    ensures small { result ≤ 30_000_000 }
{
    let change = 54 * u32::from(accel.unsigned_abs());
    if accel < 0 {
        speed.notches().saturating_sub(change)
    } else {
        speed.notches() + change
    }
}

/// 1 where a speed above 0 becomes 0, else 0.
fn stop_between(before: Speed, after: Speed) -> u32
    ensures value { result ≡ stop_between before after }
    ensures small { result ≤ 1 }
{
    if before.notches() != 0 && after.notches() == 0 {
        1
    } else {
        0
    }
}

impl TrueTrain {
    /// After a ds of coasting.
    fn after_coasting(self) -> TrueTrain
        requires { self.place ≤ℤ pos (10 ^ 17) }
        ensures { result ≡ after_coasting self }
    {
        TrueTrain {
            place: self.place.more(1_000_000 * u64::from(self.speed.notches())),
            speed: self.speed,
        }
    }

    /// After a ds of driving with an acceleration.
    #[tactic(auto, unfolding(crate::specs::Drive::after_driving))]
    fn after_driving(self, accel: i16) -> TrueTrain
        requires { self.place ≤ℤ pos (10 ^ 17) }
        ensures { result ≡ after_driving accel self }
    {
        let speed = accelerated(self.speed, accel).min(GREATEST_DRIVEN);
        let sum = u64::from(self.speed.notches()) + u64::from(speed);
        TrueTrain {
            place: self.place.more(500_000 * sum),
            speed: Speed::new(speed),
        }
    }

    /// The greatest slope of the cells that the train can come to in a ds.
    fn slope_ahead(self, map: &BandMap) -> u64
        requires { self.place ≤ℤ pos (10 ^ 17) }
        ensures value { result ≡ slope_ahead (meaning_of map.now) self }
        ensures some { 0 < result }
        ensures small { result ≤ 10 ^ 15 }
    {
        let end = self.after_coasting().place;
        map.greatest(self.place.cell(), end.cell()).unsigned_abs()
    }

    /// After a ds of braking with the greatest slope ahead. A train that stands stays, and no slope is looked for.
    #[tactic(auto, unfolding(crate::specs::Drive::after_braking))]
    fn after_braking(self, map: &BandMap) -> TrueTrain
        requires { self.place ≤ℤ pos (10 ^ 17) }
        ensures { result ≡ after_braking (meaning_of map.now) self }
    {
        let v = u64::from(self.speed.notches());
        if v == 0 {
            return self;
        }
        let slope = self.slope_ahead(map);
        let loss = speed_loss(map.q(), slope);
        if loss <= v {
            return TrueTrain {
                place: self.place.more(500_000 * (2 * v - loss)),
                speed: Speed::new((v - loss) as u32),
            };
        }
        TrueTrain {
            place: self
                .place
                .more(stopping_distance(map.q(), slope, self.speed)),
            speed: Speed::new(0),
        }
    }

    /// After the ds that begins at a time.
    #[tactic(auto, unfolding(crate::specs::Drive::after_ds))]
    fn after_ds(self, map: &BandMap, orders: Orders, time: u32) -> TrueTrain
        requires { self.place ≤ℤ pos (10 ^ 17) }
        ensures { result ≡ after_ds (meaning_of map.now) orders time self }
    {
        if orders.is_braked(time) {
            self.after_braking(map)
        } else if orders.eb || !orders.within {
            self.after_coasting()
        } else {
            self.after_driving(orders.accel)
        }
    }

    /// After the ds from a reading at a time to the next one, with the stops in them.
    pub fn moved(self, map: &BandMap, orders: Orders, time: u32) -> Moved
        requires place { self.place ≤ℤ pos (9 * 10 ^ 16) }
        requires time { time ≤ 1_000_000 }
        ensures train { result.train ≡ after_several_ds (meaning_of map.now) orders time step_time self }
        ensures stops { result.stops ≡ stops_in (meaning_of map.now) orders time step_time self }
        ensures few { result.stops ≤ step_time }
    {
        // `q` says that the slopes of the map are usable
        prove!(0 < map.q());
        let mut train = self;
        let mut stops = 0;
        for k in 0..STEP_TIME {
            let next = train.after_ds(map, orders, time + k);
            stops += stop_between(train.speed, next.speed);
            train = next;
        }
        Moved { train, stops }
    }
}

/// The true train after a step, and how often it stopped in it. (own)
#[derive(Clone, Copy, Debug, PartialEq, Eq)]
pub struct Moved {
    pub train: TrueTrain,
    pub stops: u32,
}

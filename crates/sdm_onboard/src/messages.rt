//! What comes in: the odometer's readings, and what the radio and the balises bring. The lists are a journey in which
//! each call of the supervisor is made and refused; of three readings that aren't judged one comes again, one has a
//! clock that goes back, and one a speed out of range.

ghost use Rattle.std.specs.Option.{SomeIff};
ghost use Rattle.sdm_num.specs.Readings.{IsReading};
ghost use Rattle.sdm_onboard.specs.Messages.{reading_in};

use sdm_num::Reading;
use sdm_rules::{Authority, Restriction};
use std::fmt;

/// The odometer knows the front end to 5 m, in mm.
const FRONT_BOUND_MM: i32 = 5_000;

/// The true speed is at most 0.2 m/s above the measured one, in mm/s.
const UNDER_READING_MM_S: u32 = 200;

/// What the odometer tells: time in ds, estimated front end in mm, speed in mm/s, and in cm/s² what the train may
/// gain.
#[derive(Clone, Copy, Debug)]
pub struct Odometry {
    pub time: u32,
    pub est: i32,
    pub speed: u32,
    pub accel: i16,
}

impl Odometry {
    /// The reading with its bounds; none where a number is out of its range.
    pub fn reading(&self) -> Option<Reading>
        ensures { SomeIff result (IsReading (reading_in self.now)) (reading_in self.now) }
    {
        let min = self.est.checked_sub(FRONT_BOUND_MM)?;
        let max = self.est.checked_add(FRONT_BOUND_MM)?;
        Reading::new(
            self.time,
            self.est,
            min,
            max,
            self.speed,
            self.accel,
            UNDER_READING_MM_S,
        )
    }
}

/// A message.
#[derive(Clone, Copy, Debug)]
pub enum Message {
    Odometry(Odometry),
    /// The time in which the next row was due has run out.
    Overdue,
    Authority(Authority),
    Restriction(Restriction),
    Revocation(u16),
}

impl fmt::Display for Message {
    fn fmt<W: fmt::Write>(&self, f: &mut fmt::Formatter<W>) -> fmt::Result {
        match self {
            Message::Odometry(odometry) => write!(f, "reading {}", odometry.time),
            Message::Overdue => write!(f, "no reading"),
            Message::Authority(Authority::Stop { eoa, .. }) => write!(f, "authority to {eoa}"),
            Message::Authority(Authority::Limit { loa, .. }) => write!(f, "authority to {loa}"),
            Message::Restriction(restriction) => write!(f, "restriction {}", restriction.id),
            Message::Revocation(id) => write!(f, "revocation {id}"),
        }
    }
}

fn read(time: u32, est: i32, speed: u32, accel: i16) -> Message {
    Message::Odometry(Odometry {
        time,
        est,
        speed,
        accel,
    })
}

/// To an end in cm, with its supervised location and no release speed.
fn stop(eoa: u32, svl: u32) -> Message {
    Message::Authority(Authority::Stop {
        eoa,
        svl,
        release: 0,
    })
}

/// To 36 km/h, from and to places in cm.
fn slow(id: u16, start: u32, end: u32) -> Message {
    Message::Restriction(Restriction {
        id,
        start,
        end,
        speed: 36,
        delayed: true,
    })
}

/// The journey up to the change of data.
pub fn beginning() -> [Message; 2] {
    [read(0, 1_000_000, 20_000, 0), slow(7, 140_000, 160_000)]
}

/// The journey from there on.
pub fn journey() -> [Message; 20] {
    [
        read(5, 1_010_000, 20_000, 0),
        Message::Revocation(7),
        Message::Revocation(7),
        read(10, 1_020_000, 20_000, 0),
        // The odometer sends the same again, which tells nothing new.
        read(10, 1_020_000, 20_000, 0),
        // The authority is shortened, and then one comes that can't be taken.
        stop(130_000, 135_000),
        read(15, 1_030_000, 20_000, 0),
        stop(200_000, 350_000),
        read(20, 1_039_900, 19_600, -100),
        stop(200_000, 205_000),
        read(25, 1_049_600, 19_100, -100),
        // The odometer is silent for eight seconds; then the train is below the margin of a restriction, and may gain
        // speed.
        Message::Overdue,
        slow(8, 121_000, 140_000),
        read(110, 1_170_000, 11_000, 40),
        read(115, 1_175_400, 10_500, -100),
        // A clock that goes back, and a speed that no train has.
        read(110, 1_180_500, 10_000, -100),
        read(125, 1_185_200, 140_000, -100),
        read(230, 1_230_000, 0, 0),
        // A restriction that ends past the track isn't supervised: the train stands.
        slow(9, 290_000, 310_000),
        read(235, 1_230_000, 0, 0),
    ]
}

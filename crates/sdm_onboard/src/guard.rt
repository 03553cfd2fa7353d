//! The guard of release speed monitoring. No row in state R promises a stop, but a reading that finds an untripped train
//! does where it keeps two bounds and the release speed has a trip place for them. Where it doesn't the computer brakes.

ghost use Rattle.std.specs.Prelude.{◌≡◌, ◌&&◌};
ghost use Rattle.sdm_onboard.specs.Guard.{bounds, is_bounded};
ghost use Rattle.sdm_release_ride.specs.TripPlaces.{excess_of, is_within_bounds};
ghost use Rattle.sdm_ride.specs.Moments.{is_release};

use sdm_limits::BuildUp;
use sdm_num::{Reading, Speed};
use sdm_rules::{Row, State};
use sdm_supervisor::Supervisor;

/// W: from the min to the max safe front end, in cm. The odometer knows the front end to 5 m.
const WIDTH_CM: u32 = 1_000;

/// U: by how much the train may get faster than the measured speed until its brake works, in mm/s. It holds the
/// odometer's 0.2 m/s and a gain of 0.8 m/s.
const EXCESS_MM_S: u32 = 1_000;

/// W in grains: 5,400,000,000 are a centimetre.
const WIDTH: i64 = WIDTH_CM as i64 * 5_400_000_000;

/// Whether the computer relies on a reading in release speed monitoring, if it finds an untripped train.
pub fn is_relied_on(supervisor: &Supervisor, row: &Row, reading: &Reading) -> bool
    ensures { result ≡ (is_release row.now.state && is_bounded supervisor.now reading.now) }
{
    row.state == State::R && has_bounds(supervisor, reading)
}

fn has_bounds(supervisor: &Supervisor, reading: &Reading) -> bool
    ensures { result ≡ is_bounded supervisor.now reading.now }
{
    keeps_bounds(supervisor, reading) && supervisor.has_trip_place(WIDTH_CM, EXCESS_MM_S)
}

fn keeps_bounds(supervisor: &Supervisor, reading: &Reading) -> bool
    ensures { result ≡ is_within_bounds bounds supervisor.now.train_and_track reading.now }
{
    let latest = reading.min_mm().grains() + WIDTH;
    reading.max_mm().grains() <= latest
        && excess(supervisor, reading) <= Speed::of_mm_s(EXCESS_MM_S).notches()
}

/// By how much the train of a reading may get faster than the measured speed until its emergency brake works, in
/// notches. (SUBSET-026-3 3.13.9.3.2)
fn excess(supervisor: &Supervisor, reading: &Reading) -> u32
    ensures { result ≡ excess_of supervisor.now.train_and_track reading.now }
{
    let estimate = reading.estimate();
    let v_est = estimate.speed();
    let build_up = BuildUp::of(
        supervisor.times(),
        v_est,
        supervisor.under(reading),
        estimate.accel(),
    );
    build_up.reaction(Speed::new(0)).v_bec.notches() - v_est.notches()
}

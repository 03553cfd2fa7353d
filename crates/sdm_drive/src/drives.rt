//! The drive: in each step the odometer reads the true train, the supervisor judges the reading, and the train moves on
//! as this orders. Between two steps the drive keeps what makes its law hold: all that the train can reach until its
//! brakes work is within the curve of the SvL.

ghost use Rattle.std.specs.Prelude.{◌≡◌, ℕ, ◌+◌, ◌*◌, ◌<◌, ◌≤◌, ◌≤ℤ◌, pos, OnOk, IfOk, IfErr, IfSome};
ghost use Rattle.sdm_rules.specs.declared.authorities.Authority.{Authority};
ghost use Rattle.sdm_rules.specs.declared.authorities.Authority.TheVariants.{Stop};
ghost use Rattle.sdm_rules.specs.Cells.{place_of_cell};
ghost use Rattle.sdm_rules.specs.Data.{TrainAndTrack};
ghost use Rattle.sdm_braking.specs.Braking.{IsRefusal};
ghost use Rattle.sdm_drive.specs.Drive.{after_step, brake_delay, drive_row, drive_start, last_within};
ghost use Rattle.sdm_drive.specs.Drive.{onset_after, step_time};
ghost use Rattle.sdm_drive.specs.DriveLaws.{most_steps};
ghost use Rattle.sdm_drive.specs.Faults.{HasBuildUp, IsDriveRefusal, IsPlainStop, MayBeDriven};

use crate::faults::DriveFault;
use crate::odometers::reading_by;
use crate::orders::Orders;
use crate::rows::DriveRow;
use crate::trains::{STEP_TIME, TrueTrain};
use sdm_braking::TrainAndTrack;
use sdm_formats::next_number;
use sdm_national::National;
use sdm_num::{Place, Speed};
use sdm_rules::OpenFault;
use sdm_supervisor::Supervisor;
use sdm_targets::Authority;
use sdm_track::Track;
use sdm_train::Train;
use std::alloc::Global;
use std::marker::Model;

/// A train that a number drives under a supervisor. (own)
#[derive(Drop)]
pub struct Drive {
    supervisor: Supervisor,
    train: TrueTrain,
    /// The last number of the generator.
    number: u16,
    steps: u32,
    /// The time of the last reading within the SvL, in ds.
    last: Option<u32>,
    /// From when on the emergency brake works, in ds, where it is commanded.
    onset: Option<u32>,
}

impl Model for Drive {
    ghost use Rattle.std.specs.Coded.{codes};
    ghost use Rattle.sdm_speed.specs.Codes.{coded_restrictions};
    ghost use Rattle.sdm_drive.specs.Drive.{Drive};
    ghost use Rattle.sdm_drive.specs.Kept.{IsKeptDrive};

    ghost Value = { Drive };

    ghost coded = { Prim.hlevel (codes, coded_restrictions) };

    ghost view = { λ d. record {
      supervision = d.supervisor;
      train = d.train;
      number = d.number;
      steps = d.steps;
      last = d.last;
      onset = d.onset;
    } };

    ghost invariant = { λ d. IsKeptDrive (record {
      supervision = d.supervisor;
      train = d.train;
      number = d.number;
      steps = d.steps;
      last = d.last;
      onset = d.onset;
    }) };
}

/// Whether a train may be driven under an authority, but for what the opening of a supervisor refuses.
fn check(train_and_track: &TrainAndTrack, authority: &Authority) -> Result<(), DriveFault>
    ensures stop { OnOk result (IsPlainStop authority.now) }
    ensures build_up { OnOk result (HasBuildUp train_and_track.now) }
    ensures refused { IfErr result (IsDriveRefusal train_and_track.now authority.now) }
{
    let Authority::Stop { release, .. } = *authority else {
        return Err(DriveFault::NoStop);
    };
    if release > 0 {
        return Err(DriveFault::HasRelease { speed: release });
    }
    let time = train_and_track.train.emergency_time() as u32;
    if time < STEP_TIME {
        return Err(DriveFault::ShortBuild { time });
    }
    Ok(())
}

/// What a drive says of a supervisor that can't be opened.
fn of_opening(fault: OpenFault) -> DriveFault
    ensures { (d : TrainAndTrack) (a : Authority) → IsPlainStop a → HasBuildUp d → IsRefusal d a fault →
        IsDriveRefusal d a result }
{
    match fault {
        OpenFault::Memory => DriveFault::Memory,
        OpenFault::TooWeak { .. } | OpenFault::TooVaried { .. } | OpenFault::BadAuthority(_) => {
            DriveFault::Open(fault)
        }
    }
}

/// How long after its command the emergency brake works, in ds: T_traction + T_berem. (SUBSET-026-3 3.13.9.3.2)
#[tactic(auto, unfolding(crate::specs::Drive::brake_delay))]
fn brake_delay(supervisor: &Supervisor) -> u32
    ensures value { result ≡ brake_delay supervisor.now.train_and_track }
    ensures small { result ≤ 600 }
{
    let times = supervisor.times();
    times.traction + times.berem
}

/// The time of the last reading within the SvL, after a reading.
fn last_within(within: bool, time: u32, last: Option<u32>) -> Option<u32>
    ensures { result ≡ last_within within time last }
{
    if within { Some(time) } else { last }
}

/// From when on the emergency brake works after a reading, in ds.
fn onset_after(
    eb: bool,
    onset: Option<u32>,
    last: Option<u32>,
    time: u32,
    delay: u32,
) -> Option<u32>
    requires last { IfSome last (λ t. t ≤ 1_000_000) }
    requires time { time ≤ 1_000_000 }
    requires delay { delay ≤ 600 }
    ensures { result ≡ onset_after eb onset last time delay }
{
    if !eb {
        return None;
    }
    match (onset, last) {
        (Some(onset), _) => Some(onset),
        (None, Some(last)) => Some(last + delay),
        (None, None) => Some(time + delay),
    }
}

impl Drive {
    /// The start of a drive: the train stands at the place 0. It is refused by the first of these: NoStop exactly where
    /// the authority is a limit; HasRelease exactly where its release speed is above 0; ShortBuild exactly where the
    /// emergency brake's build-up time is below 5 ds; Open exactly where `Supervisor::begin` refuses for another cause
    /// than memory. Memory may come in place of each. The memory is that of the supervisor. (own)
    pub fn begin(
        alloc: Global,
        train: Train,
        national: National,
        track: Track,
        authority: Authority,
        seed: u16,
    ) -> Result<Drive, DriveFault>
        ensures start { IfOk result (λ drive.
            drive ≡ drive_start (record { train = train; national = national; track = track }) authority seed) }
        ensures accepted { OnOk result
            (MayBeDriven (record { train = train; national = national; track = track }) authority) }
        ensures refused { IfErr result
            (IsDriveRefusal (record { train = train; national = national; track = track }) authority) }
    {
        let train_and_track = TrainAndTrack {
            train,
            national,
            track,
        };
        Drive::open(alloc, train_and_track, authority, seed)
    }

    /// The start of a drive of a train on its track, as `begin` says.
    pub fn open(
        alloc: Global,
        train_and_track: TrainAndTrack,
        authority: Authority,
        seed: u16,
    ) -> Result<Drive, DriveFault>
        ensures start { IfOk result (λ drive. drive ≡ drive_start train_and_track authority seed) }
        ensures accepted { OnOk result (MayBeDriven train_and_track authority) }
        ensures refused { IfErr result (IsDriveRefusal train_and_track authority) }
    {
        check(&train_and_track, &authority)?;
        // with these it is told that the train and the track are in their ranges
        prove!(1 <= train_and_track.train.band_count());
        prove!(1 <= train_and_track.track.length_cm());
        let supervisor = match Supervisor::open(alloc, train_and_track, authority) {
            Ok(supervisor) => supervisor,
            Err(fault) => return Err(of_opening(fault)),
        };
        Ok(Drive {
            supervisor,
            train: TrueTrain {
                place: Place::new(0),
                speed: Speed::new(0),
            },
            number: seed,
            steps: 0,
            last: None,
            onset: None,
        })
    }

    /// How many steps were made.
    pub fn steps(&self) -> u32
        ensures { result ≡ self.now.steps }
    {
        self.steps
    }

    /// One step, of at most 100,000: a reading, and the 5 ds until the next one. The true front end is at or before the
    /// SvL after it, whatever the number. No memory is taken. (own)
    pub fn step(&mut self) -> DriveRow
        requires { self.old.steps < most_steps }
        ensures row { result ≡ drive_row self.old }
        ensures stepped { self.new ≡ after_step self.old }
        ensures by_svl { (eoa svl : ℕ) → self.old.supervision.authority ≡ Stop eoa svl 0 →
            result.front ≤ℤ place_of_cell (pos svl) }
        ensures from_start { pos 0 ≤ℤ result.front }
        ensures stops { result.stops ≤ step_time }
    {
        let time = STEP_TIME * (self.steps + 1);
        let number = next_number(self.number);
        let inhibited = self.supervisor.inhibits_under_reading();
        let reading = reading_by(inhibited, time, number, self.train);
        let delay = brake_delay(&self.supervisor);
        let within = self.supervisor.within_svl(&reading);
        let Ok(row) = self.supervisor.cycle(&reading) else {
            unreachable!()
        };
        let last = last_within(within, time, self.last);
        let orders = Orders {
            eb: row.held.eb,
            onset: onset_after(row.held.eb, self.onset, last, time, delay),
            within,
            accel: reading.accel(),
        };
        let moved = self.train.moved(self.supervisor.safe_map(), orders, time);
        self.train = moved.train;
        self.number = number;
        self.steps += 1;
        self.last = last;
        self.onset = orders.onset;
        DriveRow {
            row,
            front: moved.train.place,
            speed: moved.train.speed,
            stops: moved.stops,
        }
    }
}

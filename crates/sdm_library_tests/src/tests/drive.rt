//! Drives whose rows were worked by hand, and others whose summaries were worked out in exact fractions by a program
//! apart from this one. A test owns its data and drives in one function and judges them in another, which takes them
//! by reference: the proof of a function counts what each of its exits drops.

ghost use Rattle.std.specs.Prelude.{◌≤◌};

use crate::tests::plain::{parts_of, stop};
use sdm_braking::TrainAndTrack;
use sdm_drive::{Drive, DriveFault, Summary, driven};
use sdm_formats::{BASE_NATIONAL, BASE_TRAIN};
use sdm_rules::{Authority, TrainFields};
use sdm_text::RowBuf;
use std::alloc::Global;

/// The plain data with a build-up time of the emergency brake, in ds.
fn built_up(alloc: Global, emergency_time: i64) -> Option<TrainAndTrack> {
    let train = TrainFields {
        emergency_time,
        ..BASE_TRAIN
    };
    parts_of(alloc, train, BASE_NATIONAL)
}

/// The drive of number 7 over data, or why it is refused; none where there are no data.
fn begin(
    alloc: Global,
    data: Option<TrainAndTrack>,
    authority: Authority,
) -> Option<Result<Drive, DriveFault>> {
    let data = data?;
    Some(Drive::begin(alloc, data.train, data.national, data.track, authority, 7))
}

// ---- rows

/// The front end in grains and the speed in notches after each of the first steps from 7. Their accelerations are −19,
/// 39 and 30 cm/s²: the train stands, goes 48.75 mm to 195 mm/s, and 135 mm more to 345 mm/s.
const STEPS: [(i64, u32); 3] = [(0, 0), (26_325_000_000, 10_530), (99_225_000_000, 18_630)];

/// Whether the next steps leave the train so, with no command and no stop.
fn steps_so(drive: &mut Drive) -> bool {
    for (front, speed) in STEPS {
        if drive.steps() >= 100_000 {
            return false;
        }
        let row = drive.step();
        let is_there = row.front.grains() == front && row.speed.notches() == speed;
        if !is_there || row.stops != 0 || row.row.held.eb {
            return false;
        }
    }
    drive.steps() == 3
}

#[test]
fn a_train_is_driven_by_its_numbers(rt: HostRuntime) {
    let data = built_up(rt.alloc(), 20);
    let driven = match begin(rt.alloc(), data, stop(100_000, 100_000)) {
        Some(Ok(mut drive)) => steps_so(&mut drive),
        _ => false,
    };
    assert!(rt; driven);
}

// ---- summaries

/// Whether the summary of so many steps from 7 over data is a text.
fn is_summed_up(alloc: Global, data: Option<TrainAndTrack>, cycles: u32, text: &str) -> bool
    requires { cycles ≤ 100_000 }
{
    let Some(data) = data else {
        return false;
    };
    let end = stop(100_000, 100_000);
    match driven(alloc, data, end, 7, cycles) {
        Ok(summary) => is_said(&summary, text),
        Err(_) => false,
    }
}

fn is_said(summary: &Summary, text: &str) -> bool {
    let mut said = RowBuf::new();
    summary.put(&mut said);
    said.bytes() == text.as_bytes()
}

#[test]
fn no_step_and_three_have_their_summaries(rt: HostRuntime) {
    let alloc = rt.alloc();
    let text = "cycles 0\nemergency 0\nstops 0\nfront 0\nleast 1000000\n";
    assert!(rt; is_summed_up(alloc, built_up(alloc, 20), 0, text));
    let text = "cycles 3\nemergency 0\nstops 0\nfront 184\nleast 999816\n";
    assert!(rt; is_summed_up(alloc, built_up(alloc, 20), 3, text));
}

// ---- refusals

/// Whether a drive with a build-up time of the emergency brake, in ds, is begun under an authority, or refused by this
/// fault with its text.
fn begins_as(alloc: Global, authority: Authority, emergency_time: i64, answer: &str) -> bool {
    let told = match begin(alloc, built_up(alloc, emergency_time), authority) {
        Some(Ok(_)) => return answer == "begun",
        Some(Err(fault)) => format!(in alloc; "{fault:?}: {fault}"),
        None => return false,
    };
    match told {
        Ok(told) => told.as_str() == answer,
        Err(_) => false,
    }
}

#[test]
fn a_drive_is_refused_by_its_first_fault(rt: HostRuntime) {
    let limit = Authority::Limit {
        loa: 100_000,
        speed: 40,
    };
    let release = Authority::Stop {
        eoa: 100_000,
        svl: 100_000,
        release: 40,
    };
    let beyond = stop(100_000, 200_001);
    let open = stop(100_000, 100_000);
    let rows: [(Authority, i64, &str); 5] = [
        (limit, 0, "NoStop: no stop"),
        (release, 0, "HasRelease { speed: 40 }: release speed 40"),
        (beyond, 4, "ShortBuild { time: 4 }: emergency time 4"),
        (beyond, 5, "Open(BadAuthority(BeyondTrack)): beyond track"),
        (open, 5, "begun"),
    ];
    for (authority, emergency_time, answer) in rows {
        assert!(rt;
            begins_as(rt.alloc(), authority, emergency_time, answer),
            "{answer}"
        );
    }
}

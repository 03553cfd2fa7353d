//! Readings, data and summaries of generated journeys, worked by hand.

use sdm_data::JourneyData;
use sdm_num::Reading;
use sdm_rules::{Authority, Gradient, Held, Row, State, Status};
use sdm_text::RowBuf;
use sdm_trial::{Readings, Summary, trial_data, trial_reading};

/// What the first readings after the number 7 hold: time in ds, est, min and max in mm, speed in mm/s, acceleration in
/// cm/s². Their numbers are 58,988, 4,085 and 19,570.
const READINGS_AFTER_7: [(u32, i32, i32, i32, u32, i16); 3] = [
    (5, 4_179_760, 4_174_760, 4_184_760, 14_987, -46),
    (10, 3_081_700, 3_076_700, 3_086_700, 4_085, -5),
    (15, 3_391_400, 3_386_400, 3_396_400, 19_570, 27),
];

#[test]
fn readings_of_cycles_after_7(rt: HostRuntime) {
    let mut readings = Readings::begin(7, 3);
    for cycle in 1..=3u32 {
        let (time, est, min, max, speed, accel) = READINGS_AFTER_7[cycle as usize - 1];
        let wanted = Reading::new(time, est, min, max, speed, accel, 500);
        assert!(rt; readings.next() == wanted, "at {time}");
        assert!(rt; Some(trial_reading(7, cycle)) == wanted, "at {time}");
    }
    assert!(rt; readings.next().is_none());
    assert!(rt; trial_reading(7, 100_000).time() == 500_000);
}

/// The data of the trial: 5 ‰ down from 2 km on, with the EOA at 5000 m.
fn are_of_the_trial(data: &JourneyData) -> bool {
    let falling = Gradient {
        start: 200_000,
        grad: -50,
    };
    let end = Authority::Stop {
        eoa: 500_000,
        svl: 505_000,
        release: 0,
    };
    data.train.length() == 20_000
        && data.train.band_count() == 2
        && data.national.adhesion_max() == 70
        && data.track.gradient_count() == 3
        && *data.track.gradient(1) == falling
        && data.authority == end
}

#[test]
fn data_with_ample_memory(rt: HostRuntime) {
    let found = match trial_data(rt.alloc()) {
        Ok(data) => are_of_the_trial(&data),
        Err(_) => false,
    };
    assert!(rt; found);
}

/// A row with these flags and this EBI place.
fn row(covered: bool, eb: bool, sb: bool, ebi: Option<i64>) -> Row {
    Row {
        time: 0,
        state: State::C,
        held: Held {
            tco: true,
            sb,
            eb,
            status: Status::N,
        },
        covered,
        ceiling: 160,
        ebi,
        sbi: Some(1),
        warning: None,
        permitted: Some(2),
        indication: None,
    }
}

#[test]
fn summaries_of_six_rows_and_of_one_before_the_origin(rt: HostRuntime) {
    let mut summary = Summary::new();
    summary.add(&row(true, false, false, Some(999_999_999)));
    summary.add(&row(false, true, true, Some(5)));
    summary.add(&row(true, true, true, Some(-10)));
    summary.add(&row(true, false, true, None));
    summary.add(&row(false, true, true, Some(2_000_000_100)));
    summary.add(&row(false, true, false, Some(-200)));
    let mut text = RowBuf::new();
    summary.put(&mut text);
    // 999,999,999 + 5 - 10 + 2,000,000,100 - 200 = 2,999,999,894
    let wanted = b"rows 6\ncovered 3\nemergency 4\nservice 4\nebi 999999894\n";
    assert!(rt; text.bytes() == wanted.as_slice());
    let mut summary = Summary::new();
    summary.add(&row(false, false, false, Some(-1)));
    text.clear();
    summary.put(&mut text);
    // a sum below 0 is brought up
    let wanted = b"rows 1\ncovered 0\nemergency 0\nservice 0\nebi 999999999\n";
    assert!(rt; text.bytes() == wanted.as_slice());
}

//! The clauses say of all data what the maps stand for. Here the formulas stand as rows worked by hand, so that the
//! definitions are tested too.

use crate::tests::setters::SetByKey;
use sdm_decel::{BandMap, CurveFault, expected, normal, safe};
use sdm_formats::{BASE_NATIONAL, BASE_TRAIN};
use sdm_national::{National, NationalFields};
use sdm_track::{Area, Gradient, SpeedStep, Track};
use sdm_train::{Train, TrainFields};
use std::alloc::{AllocError, Global};
use std::test::Fail;

/// The data of a case: a train of 100 m that brakes with 1 m/s², on a level track of 2 km, but for what a row changes.
#[derive(Drop)]
struct Case {
    train: TrainFields,
    national: NationalFields,
    gradients: Vec<Gradient>,
    adhesion: Vec<Area>,
    no_special: Vec<Area>,
}

fn base(alloc: Global) -> Case {
    Case {
        train: BASE_TRAIN,
        national: BASE_NATIONAL,
        gradients: Vec::new(alloc),
        adhesion: Vec::new(alloc),
        no_special: Vec::new(alloc),
    }
}

/// Sets a number by its key in the data, or the count of bands.
fn set(case: &mut Case, key: &str, number: i64) -> Result<(), &'static str> {
    match key {
        "no_mass" => case.train.rotating_mass = None,
        "bands" => case.train.band_count = u32::try_from(number).map_err(|_| "no count")?,
        _ if case.train.set(key, number) || case.national.set(key, number) => {}
        _ => return Err("no such key"),
    }
    Ok(())
}

fn number_of(word: Option<&str>) -> Result<i64, &'static str> {
    let word = word.ok_or("no number")?;
    word.parse::<i64>().map_err(|_| "no number")
}

fn set_numbers(case: &mut Case, numbers: &str) -> Result<(), &'static str> {
    let mut words = numbers.split_whitespace();
    while let Some(key) = words.next() {
        let number = number_of(words.next())?;
        set(case, key, number)?;
    }
    Ok(())
}

/// Starts and gradients in turn.
fn set_gradients(case: &mut Case, gradients: &str) -> Result<(), &'static str> {
    let mut words = gradients.split_whitespace();
    while let Some(word) = words.next() {
        let start = number_of(Some(word))?;
        let grad = number_of(words.next())?;
        let entry = Gradient { start, grad };
        case.gradients.push(entry).map_err(|_| "memory")?;
    }
    Ok(())
}

/// Starts and ends in turn.
fn areas(alloc: Global, text: &str) -> Result<Vec<Area>, &'static str> {
    let mut found = Vec::new(alloc);
    let mut words = text.split_whitespace();
    while let Some(word) = words.next() {
        let start = number_of(Some(word))?;
        let end = number_of(words.next())?;
        found.push(Area { start, end }).map_err(|_| "memory")?;
    }
    Ok(found)
}

/// The data of a row: the numbers that differ, each after its key; the gradients; the areas of reduced adhesion; those
/// without the special brake.
fn case_of(alloc: Global, row: &str) -> Result<Case, &'static str> {
    let mut columns = row.split(';');
    let mut case = base(alloc);
    set_numbers(&mut case, columns.next().ok_or("no numbers")?)?;
    set_gradients(&mut case, columns.next().ok_or("no gradients")?)?;
    case.adhesion = areas(alloc, columns.next().ok_or("no areas of adhesion")?)?;
    case.no_special = areas(alloc, columns.next().ok_or("no areas of no_special")?)?;
    Ok(case)
}

/// The map of a kind.
fn map_of(
    alloc: Global,
    kind: &str,
    case: Case,
) -> Result<Result<BandMap, CurveFault>, &'static str> {
    let mut speeds = Vec::new(alloc);
    let step = SpeedStep {
        start: 0,
        speed: 160,
        delayed: true,
    };
    speeds.push(step).map_err(|_| "memory")?;
    let train = Train::new(case.train).map_err(|_| "no train")?;
    let national = National::new(case.national).map_err(|_| "no national values")?;
    let track = Track::new(
        200_000,
        case.gradients,
        speeds,
        case.adhesion,
        case.no_special,
    )
    .map_err(|_| "no track")?;
    match kind {
        "safe" => Ok(safe(alloc, &train, &national, &track)),
        "expected" => Ok(expected(alloc, &train, &national, &track)),
        "normal" => Ok(normal(alloc, &train, &national, &track)),
        _ => Err("no such kind"),
    }
}

/// The slope of a band in a cell: of the last segment that starts at most there, else of the first.
fn slope_in(map: &BandMap, band: usize, cell: i64) -> Option<i64> {
    let segments = map.segments();
    if map.bands() <= band {
        return None;
    }
    let mut slope = map.slope(band, 0);
    for i in 1..segments {
        if i64::from(map.start(i)) <= cell {
            slope = map.slope(band, i);
        }
    }
    Some(slope)
}

/// What a row asks for, as text: the slope of a kind in a band, counted from 1, and in a cell; or the fault.
fn outcome(alloc: Global, asked: &str, case: Case) -> Result<String, &'static str> {
    let mut words = asked.split_whitespace();
    let kind = words.next().ok_or("no kind")?;
    let band = number_of(words.next())?.unsigned_abs() as usize;
    let cell = number_of(words.next())?;
    let text = match map_of(alloc, kind, case)? {
        Ok(map) => {
            let slope = slope_in(&map, band.saturating_sub(1), cell).ok_or("no such band")?;
            format!(in alloc; "{slope}")
        }
        Err(fault) => format!(in alloc; "{fault}"),
    };
    text.map_err(|_| "memory")
}

const OUTCOMES: &str = "\
200000000000: safe 1 0; ; ;;
200000000000: expected 1 0; emergency 50; ;;
200000000000: normal 1 0; emergency 50 service 50; ;;
100000000000: expected 1 0; service 50; ;;
100000000000: normal 1 0; normal 50; ;;
160000000000: safe 1 0; kdry 800; ;;
150000000000: safe 1 0; kwet 500 avadh 10; ;;
200000000000: safe 2 0; bands 2 upper 36 emergency 50; ;;
180380000000: safe 1 0; rotating_mass 0; 0 -100;;
198380000000: safe 1 0; rotating_mass 9; 0 -100;;
199361000000: safe 1 0; rotating_mass 9; 0 -95; ;
199803800000: safe 1 0; ; 0 -1; ;
23480012400000: expected 1 0; no_mass 0; 0 1; ;
23437437000000: expected 1 0; no_mass 0; 0 -1; ;
200194200000: normal 1 0; kn_up 10 kn_down 20; 0 1; ;
199807800000: normal 1 0; kn_up 10 kn_down 20; 0 -1; ;
25461240000000: safe 1 0; no_mass 0; 0 100;;
21203700000000: safe 1 0; no_mass 0; 0 -100;;
22732740000000: safe 1 0; no_mass 0 emergency 120 kdry 850 kwet 950 avadh 0; ;;
21604590000000: safe 1 0; no_mass 0 emergency 120 kdry 850 kwet 950 avadh 0; 0 -50;;
21114000000000: expected 1 0; no_mass 0 service 90; ;;
219420000000: normal 1 0; kn_up 10 kn_down 20; 0 100;;
180780000000: normal 1 0; kn_up 10 kn_down 20; 0 -100;;
200560000000: normal 1 0; rotating_mass 9 kn_down 100; 0 -100;;
198380000000: safe 1 0; rotating_mass 9 kn_down 100; 0 -100;;
198380000000: safe 1 69999; rotating_mass 9 length 20000; 0 -100 50000 0;;
218000000000: safe 1 70000; rotating_mass 9 length 20000; 0 -100 50000 0;;
209810000000: safe 1 -1; ; 0 50 1000 -50 2000 30;;
209810000000: safe 1 999; ; 0 50 1000 -50 2000 30;;
190190000000: safe 1 1000; ; 0 50 1000 -50 2000 30;;
190190000000: safe 1 11999; ; 0 50 1000 -50 2000 30;;
205886000000: safe 1 12000; ; 0 50 1000 -50 2000 30;;
200000000000: safe 1 49999; ; 0 0 50000 -100 50001 0;;
180380000000: safe 1 50000; ; 0 0 50000 -100 50001 0;;
180380000000: safe 1 60000; ; 0 0 50000 -100 50001 0;;
200000000000: safe 1 60001; ; 0 0 50000 -100 50001 0;;
200000000000: safe 1 89999; ; ; 90000 100000;
140000000000: safe 1 90000; ; ; 90000 100000;
140000000000: safe 1 109999; ; ; 90000 100000;
200000000000: safe 1 110000; ; ; 90000 100000;
200000000000: expected 1 90000; ; ; 90000 100000;
200000000000: normal 1 90000; ; ; 90000 100000;
120000000000: safe 1 90000; emergency 60; ; 90000 100000;
140000000000: safe 1 -1; ; ; 0 100;
140000000000: safe 1 10099; ; ; 0 100;
200000000000: safe 1 10100; ; ; 0 100;
200000000000: safe 1 999; ; ; 1000 2000 2000 3000;
140000000000: safe 1 12000; ; ; 1000 2000 2000 3000;
200000000000: safe 1 13000; ; ; 1000 2000 2000 3000;
200000000000: safe 1 89999; emergency_reduced 80; ; ; 90000 100000
160000000000: safe 1 90000; emergency_reduced 80; ; ; 90000 100000
160000000000: safe 1 109999; emergency_reduced 80; ; ; 90000 100000
200000000000: safe 1 110000; emergency_reduced 80; ; ; 90000 100000
160000000000: safe 1 209999; emergency_reduced 80; ; ; 199999 200000
200000000000: safe 1 210000; emergency_reduced 80; ; ; 199999 200000
200000000000: safe 1 90000; ; ; ; 90000 100000
200000000000: safe 1 90000; emergency_reduced 100; ; ; 90000 100000
200000000000: expected 1 90000; emergency_reduced 80; ; ; 90000 100000
200000000000: normal 1 90000; emergency_reduced 80; ; ; 90000 100000
96000000000: safe 1 90000; kdry 800 kwet 500 avadh 10 emergency_reduced 80; ; ; 90000 100000
155761000000: safe 1 90000; rotating_mass 9 emergency_reduced 80; 0 -95; ; 90000 100000
80000000000: safe 1 90000; bands 2 upper 36 emergency 50 emergency_reduced 40; ; ; 90000 100000
200000000000: safe 2 90000; bands 2 upper 36 emergency 50 emergency_reduced 40; ; ; 90000 100000
160000000000: safe 1 -1; emergency_reduced 80; ; ; 0 100
160000000000: safe 1 10099; emergency_reduced 80; ; ; 0 100
200000000000: safe 1 10100; emergency_reduced 80; ; ; 0 100
140000000000: safe 1 90000; emergency_reduced 80; ; 90000 100000; 90000 100000
120000000000: safe 1 90000; emergency_reduced 60; ; 90000 100000; 90000 100000
140000000000: safe 1 94999; emergency_reduced 60; ; 90000 100000; 95000 105000
120000000000: safe 1 95000; emergency_reduced 60; ; 90000 100000; 95000 105000
120000000000: safe 1 114999; emergency_reduced 60; ; 90000 100000; 95000 105000
200000000000: safe 1 115000; emergency_reduced 60; ; 90000 100000; 95000 105000
160000000000: safe 1 94999; emergency_reduced 80; ; 95000 105000; 90000 100000
140000000000: safe 1 95000; emergency_reduced 80; ; 95000 105000; 90000 100000
slope 8000000000 too weak in band 1, cell 90000: safe 1 0; adhesion_max 4; ; 90000 100000;
slope 8000000000 too weak in band 1, cell 0: expected 1 0; service 4; ;;
10000000000: safe 1 90000; emergency 80 service 80 normal 80 adhesion_max 5; ; 90000 100000;
slopes from 10000000000 to 162000000000 too varied in band 1: safe 1 0; emergency 81 service 80 normal 80 adhesion_max 5; ; 90000 100000;
slope 8000000000 too weak in band 1, cell 90000: safe 1 0; emergency_reduced 4; ; ; 90000 100000
10000000000: safe 1 90000; emergency 80 service 80 normal 80 emergency_reduced 5; ; ; 90000 100000
slopes from 10000000000 to 162000000000 too varied in band 1: safe 1 0; emergency 81 emergency_reduced 5; ; ; 90000 100000";

/// The first row whose outcome is another one.
fn first_other(alloc: Global) -> Result<Option<&'static str>, &'static str> {
    for row in OUTCOMES.lines() {
        let (wanted, rest) = row.split_once(':').ok_or("no colon")?;
        let (asked, data) = rest.split_once(';').ok_or("no semicolon")?;
        let case = case_of(alloc, data)?;
        if outcome(alloc, asked, case)?.as_str() != wanted {
            return Ok(Some(row));
        }
    }
    Ok(None)
}

#[test]
fn slopes_and_faults_are_those_worked_by_hand(rt: HostRuntime) {
    assert!(rt; first_other(rt.alloc()) == Ok(None));
}

/// Gradients of 0 and -5 per mille in turn every 3 m, and every 20 m an area of reduced adhesion that ends 5 m after
/// its start, and one without the special brake that ends 4 m after its start.
fn greatest_lists(alloc: Global) -> Result<Case, AllocError> {
    let mut case = base(alloc);
    case.train.length = 1;
    for i in 0..512u32 {
        let start = i64::from(300 * i);
        let grad = if i % 2 == 0 { 0 } else { -50 };
        case.gradients.push(Gradient { start, grad })?;
    }
    for i in 0..64u32 {
        let start = i64::from(2000 * i + 37);
        case.adhesion.push(Area {
            start,
            end: start + 500,
        })?;
        case.no_special.push(Area {
            start: start + 1200,
            end: start + 1600,
        })?;
    }
    Ok(case)
}

fn segments_of(alloc: Global, kind: &str) -> Result<usize, &'static str> {
    let case = greatest_lists(alloc).map_err(|_| "memory")?;
    match map_of(alloc, kind, case)? {
        Ok(map) => Ok(map.segments()),
        Err(_) => Err("refused"),
    }
}

/// The gradient under the train falls at each of 256 entries and rises a cell after 255; each area adds two cells.
#[test]
fn the_longest_lists_make_a_segment_at_each_change(rt: HostRuntime) {
    assert!(rt; segments_of(rt.alloc(), "safe") == Ok(768));
    assert!(rt; segments_of(rt.alloc(), "normal") == Ok(768));
}

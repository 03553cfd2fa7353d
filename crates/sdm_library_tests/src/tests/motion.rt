//! Motions worked by hand. At q = 100 a slope of 200,000,000,000 is 1 m/s², a metre is 540,000,000,000 grains and 1
//! m/s is 54,000 notches; the distance between two speeds is the difference of their squares by twice the
//! deceleration.

use sdm_curve::{BandMap, is_map_data};
use sdm_motion::{Phase, Point, Slice, Start, is_motion};
use sdm_num::{Place, Speed};
use std::alloc::Global;
use std::test::Fail;

// ---- maps

fn map_of(
    alloc: Global,
    uppers: &[Speed],
    starts: &[i32],
    slopes: &[i64],
) -> Result<BandMap, Fail> {
    if !is_map_data(100, uppers, starts, slopes) {
        return Err("no slope map")?;
    }
    match BandMap::new(alloc, 100, uppers, starts, slopes) {
        Ok(map) => Ok(map),
        Err(_) => Err("no map")?,
    }
}

/// `level`: 1 m/s². `parts`: up to 36 km/h 1 m/s² and from 100 m on 0.5 m/s², above it 0.5 m/s² and from 100 m on 1
/// m/s²; at 200 m a segment begins with the slopes of the one before it.
fn map_named(alloc: Global, name: &str) -> Result<BandMap, Fail> {
    if name == "level" {
        return map_of(alloc, &[], &[0], &[200_000_000_000]);
    }
    let slopes = [
        200_000_000_000,
        100_000_000_000,
        100_000_000_000,
        100_000_000_000,
        200_000_000_000,
        200_000_000_000,
    ];
    map_of(alloc, &[Speed::of_kmh(36)], &[0, 10_000, 20_000], &slopes)
}

// ---- a line of a table

fn natural(word: Option<&str>) -> Result<u32, Fail> {
    Ok(word.ok_or("a number")?.parse::<u32>()?)
}

fn accel(word: Option<&str>) -> Result<u16, Fail> {
    Ok(word.ok_or("an acceleration")?.parse::<u16>()?)
}

fn long(word: Option<&str>) -> Result<u64, Fail> {
    Ok(word.ok_or("a long number")?.parse::<u64>()?)
}

fn place(word: Option<&str>) -> Result<Place, Fail> {
    let grains = word.ok_or("a place")?.parse::<i64>()?;
    if grains.unsigned_abs() > 4_000_000_000_000_000_000 {
        return Err("no place")?;
    }
    Ok(Place::new(grains))
}

fn speed(word: Option<&str>) -> Result<Speed, Fail> {
    let notches = natural(word)?;
    if notches > 20_000_000 {
        return Err("no speed")?;
    }
    Ok(Speed::new(notches))
}

fn start(text: &str) -> Result<Start, Fail> {
    let mut words = text.split_whitespace();
    Ok(Start {
        front: place(words.next())?,
        speed: speed(words.next())?,
        accel1: accel(words.next())?,
        accel2: accel(words.next())?,
        traction: natural(words.next())?,
        berem: natural(words.next())?,
    })
}

fn slices(alloc: Global, text: &str) -> Result<Vec<Slice>, Fail> {
    let mut found = Vec::new(alloc);
    for entry in text.split(',') {
        let mut words = entry.split_whitespace();
        if let Some(word) = words.next() {
            let phase = if word == "t" {
                Phase::Traction
            } else {
                Phase::Build
            };
            found.push(Slice {
                phase,
                time: natural(words.next())?,
                to: long(words.next())?,
                length: long(words.next())?,
            })?;
        }
    }
    Ok(found)
}

fn points(alloc: Global, text: &str) -> Result<Vec<Point>, Fail> {
    let mut found = Vec::new(alloc);
    for entry in text.split(',') {
        let mut words = entry.split_whitespace();
        if let Some(word) = words.next() {
            found.push(Point {
                place: word.parse::<i128>()?,
                square: words.next().ok_or("a square")?.parse::<u128>()?,
            })?;
        }
    }
    Ok(found)
}

/// The answer to a line.
fn answer_to(alloc: Global, line: &str) -> Result<bool, Fail> {
    let mut columns = line.split('|');
    let map = map_named(alloc, columns.next().ok_or("a map")?.trim())?;
    let scale = natural(columns.next().map(|word| word.trim()))?;
    let from = start(columns.next().ok_or("a start")?)?;
    let found_slices = slices(alloc, columns.next().ok_or("slices")?)?;
    let found_points = points(alloc, columns.next().ok_or("points")?)?;
    if scale < 1 || 16 < scale {
        return Err("no scale")?;
    }
    Ok(is_motion(scale, &found_slices, &found_points, &from, &map))
}

/// The lines of a table whose answer is not the one that the table gives.
fn wrong_lines(alloc: Global, table: &str, want: bool) -> Result<Vec<usize>, Fail> {
    let mut wrong = Vec::new(alloc);
    for (i, line) in table.lines().enumerate() {
        if answer_to(alloc, line)? != want {
            wrong.push(i)?;
        }
    }
    Ok(wrong)
}

// In each table: map | scale | front, speed, accelerations, times of the start | phase, time, speed, distance of
// slices | place, square of points.
//
/// A train of 20 m/s at 760 m whose brake takes 2 s to build up: for an SvL at 1000 m it is at its EBI, and still
/// covered. It makes full use of the 2 s, brakes no more than it must, and comes to stand exactly at the SvL: no limit
/// could lie later. At scale 1 and at scale 16.
const FROM_THE_EBI: &str = "\
level | 1 | 410400000000000 1080000 0 0 0 20 | b 10 1080000 10800000000000, b 5 1080000 5400000000000, b 5 1080000 5400000000000 | 432000000000000 1166400000000, 459000000000000 874800000000, 486000000000000 583200000000, 540000000000000 0
level | 16 | 410400000000000 1080000 0 0 0 20 | b 160 17280000 2764800000000000, b 80 17280000 1382400000000000, b 80 17280000 1382400000000000 | 110592000000000000 298598400000000, 117504000000000000 223948800000000, 124416000000000000 149299200000000, 138240000000000000 0";

/// It can't come to stand a grain past the SvL.
const PAST_THE_SVL: &str = "\
level | 1 | 410400000000000 1080000 0 0 0 20 | b 10 1080000 10800000000000, b 5 1080000 5400000000000, b 5 1080000 5400000000000 | 432000000000000 1166400000000, 459000000000000 874800000000, 486000000000000 583200000000, 540000000000001 0";

/// From row to row: slices that gain 1 cm/s² for 1 s; steps to and over starts of segments, and from band to band;
/// places below 0; the ends of the ranges.
const MOTIONS: &str = "\
level | 1 | 0 0 1 0 10 10 | t 10 540 2700000000, b 10 540 5400000000 | 8100000000 291600, 8100000000 0
level | 1 | 0 0 1 0 10 10 | t 4 216 432000000, t 6 540 2268000000, b 10 540 5400000000 | 8100000000 291600, 8100000000 0
level | 1 | 0 0 1 0 10 10 | t 10 0 0, b 10 0 0 | 0 0
parts | 1 | 53460000000000 108000 0 0 0 0 |  | 53460000000000 11664000000, 54000000000000 5832000000, 55080000000000 0
parts | 1 | 53460000000000 108000 0 0 0 0 |  | 53460000000000 11664000000, 54000000000000 0
parts | 1 | 107460000000000 108000 0 0 0 0 |  | 107460000000000 11664000000, 109620000000000 0
parts | 16 | 53460000000000 108000 0 0 0 0 |  | 13685760000000000 2985984000000, 13824000000000000 0
parts | 1 | 0 594000 0 0 0 0 |  | 0 352836000000, 11340000000000 291600000000, 38340000000000 0
parts | 1 | 0 594000 0 0 0 0 |  | 0 352836000000, 11340000000000 291600000000, 11340000000000 291600000000, 38340000000000 0
parts | 1 | 0 594000 0 0 0 0 |  | 0 352836000000, 0 291600000000, 0 0
parts | 16 | 0 594000 0 0 0 0 |  | 0 90326016000000, 2903040000000000 74649600000000, 9815040000000000 0
parts | 1 | -540000000000 54000 0 0 0 0 |  | -540000000000 2916000000, -270000000000 0
parts | 1 | -135000000000 54000 0 0 0 0 |  | -135000000000 2916000000, 135000000000 0
level | 16 | 3906249999999999999 1 0 0 0 1 | b 16 0 256 | 1000000000000000000000 0
level | 16 | -3906250000000000001 1 0 0 0 1 | b 16 0 256 | -1000000000000000000000 0
level | 16 | 0 19764235 1 0 1 0 | t 16 316227766 0 | 0 99999999989350756, 0 0";

/// The same with one thing wrong.
const NO_MOTIONS: &str = "\
level | 1 | 410400000000000 1080000 0 0 0 20 | b 10 1080000 10800000000000, b 5 1080000 5400000000000, b 5 1080000 5400000000000 | 432000000000000 1166400000000, 459000000000001 874800000000, 486000000000000 583200000000, 540000000000000 0
level | 1 | 410400000000000 1080000 0 0 0 20 | b 10 1080000 10800000000000, b 5 1080000 5400000000000, b 5 1080000 5400000000000 | 431999999999999 1166400000000, 459000000000000 874800000000, 486000000000000 583200000000, 540000000000000 0
level | 1 | 410400000000000 1080000 0 0 0 20 | b 10 1080000 10800000000000, b 5 1080000 5400000000000, b 5 1080000 5400000000000 | 432000000000001 1166400000000, 459000000000000 874800000000, 486000000000000 583200000000, 540000000000000 0
level | 1 | 410400000000000 1080000 0 0 0 20 | b 10 1080000 10800000000000, b 5 1080000 5400000000000, b 5 1080000 5400000000000 | 432000000000000 1166399999999, 459000000000000 874800000000, 486000000000000 583200000000, 540000000000000 0
level | 1 | 410400000000000 1080000 0 0 0 20 | b 10 1080000 10800000000000, b 5 1080000 5400000000000, b 5 1080000 5400000000000 | 432000000000000 1166400000000, 459000000000000 874800000000, 486000000000000 583200000000, 539999999000000 1
level | 1 | 410400000000000 1080000 0 0 0 20 | b 10 1080000 10800000000000, b 5 1080000 5400000000000, b 5 1080000 5400000000000 | 432000000000000 1166400000000, 459000000000000 874800000000, 486000000000000 583200000000
level | 1 | 410400000000000 1080000 0 0 0 20 | b 10 1080000 10800000000000, b 5 1080000 5400000000000, b 5 1080000 5400000000000 | 
level | 1 | 410400000000000 1080000 0 0 0 20 | b 10 1080000 10800000000000, b 5 1080000 5400000000000, b 5 1080000 5400000000000 | 432000000000000 1166400000000, 486000000000000 583200000000, 459000000000000 874800000000, 540000000000000 0
level | 1 | 410400000000000 1080000 0 0 0 20 | b 10 1080000 10800000000000, b 5 1080000 5400000000000, b 5 1080000 5400000000000 | 432000000000000 1166400000000, 432000000000000 874800000001, 432000000000000 874800000002, 432000000000000 0
level | 1 | 410400000000000 1080000 0 0 0 20 | b 10 1080000 10800000000000, b 5 1080000 5400000000000, b 5 1080000 5400000000000 | 432000000000000 1166400000000, 459000000000000 874800000000, 458999999999999 874800000000, 540000000000000 0
level | 16 | 410400000000000 1080000 0 0 0 20 | b 160 17280000 2764800000000000, b 80 17280000 1382400000000000, b 80 17280000 1382400000000000 | 110592000000000000 298598400000000, 117504000000000001 223948800000000, 124416000000000000 149299200000000, 138240000000000000 0
level | 8 | 410400000000000 1080000 0 0 0 20 | b 160 17280000 2764800000000000, b 80 17280000 1382400000000000, b 80 17280000 1382400000000000 | 110592000000000000 298598400000000, 117504000000000000 223948800000000, 124416000000000000 149299200000000, 138240000000000000 0
level | 1 | 0 0 1 0 10 10 | b 10 0 0, t 10 0 0 | 0 0
level | 1 | 0 0 1 0 10 10 | t 5 0 0, b 10 0 0, t 5 0 0 | 0 0
level | 1 | 0 0 1 0 10 10 | t 9 0 0, b 10 0 0 | 0 0
level | 1 | 0 0 1 0 10 10 | t 10 0 0, b 9 0 0 | 0 0
level | 1 | 0 0 1 0 10 10 | t 10 0 0, b 11 0 0 | 0 0
level | 1 | 0 0 1 0 10 10 | b 10 0 0 | 0 0
level | 1 | 0 0 1 0 10 10 | t 10 541 2700000000, b 10 541 5400000000 | 8100000000 292681, 8100000000 0
level | 1 | 0 0 1 0 10 10 | t 10 540 2700000000, b 10 541 5400000000 | 8100000000 292681, 8100000000 0
level | 1 | 0 0 1 0 10 10 | t 10 540 2700000001, b 10 540 5400000000 | 8100000001 291600, 8100000001 0
level | 1 | 0 0 1 0 10 10 | t 10 540 2700000000, b 10 540 5400000001 | 8100000001 291600, 8100000001 0
parts | 1 | 53460000000000 108000 0 0 0 0 |  | 53460000000000 11664000000, 54000000000000 5832000000, 55080000000001 0
parts | 1 | 53460000000000 108000 0 0 0 0 |  | 53460000000000 11664000000, 54000000000001 0
parts | 1 | 107460000000000 108000 0 0 0 0 |  | 107460000000000 11664000000, 109620000000001 0
parts | 16 | 53460000000000 108000 0 0 0 0 |  | 13685760000000000 2985984000000, 13824000000000001 0
parts | 1 | 0 594000 0 0 0 0 |  | 0 352836000000, 11340000000000 291600000000, 11340000000001 291600000000, 38340000000000 0
parts | 1 | 0 594000 0 0 0 0 |  | 0 352836000000, 11340000000001 291600000000, 38340000000000 0
parts | 1 | 0 594000 0 0 0 0 |  | 0 352836000000, 11340000000000 291600000000, 38340000000001 0
parts | 1 | 0 594000 0 0 0 0 |  | 0 352836000000, 0 0
parts | 1 | 0 594000 0 0 0 0 |  | 0 352836000000, 0 291599999999, 0 0
parts | 16 | 0 594000 0 0 0 0 |  | 0 90326016000000, 2903040000000000 74649599999999, 9815040000000000 0
parts | 1 | -540000000000 54000 0 0 0 0 |  | -540000000000 2916000000, -269999999999 0
parts | 1 | -135000000000 54000 0 0 0 0 |  | -135000000000 2916000000, 135000000001 0
level | 16 | 3906249999999999999 1 0 0 0 1 | b 16 0 257 | 1000000000000000000001 0
level | 16 | -3906250000000000001 1 0 0 0 1 | b 16 0 255 | -1000000000000000000001 0
level | 16 | 0 19764235 1 0 1 0 | t 16 316227767 0 | 0 100000000621806289, 0 0";

#[test]
fn motions_are_told_from_what_no_train_does(rt: HostRuntime) -> Result<(), Fail> {
    let wrong = wrong_lines(rt.alloc(), MOTIONS, true)?;
    assert!(rt; wrong.len() == 0);
    let wrong = wrong_lines(rt.alloc(), NO_MOTIONS, false)?;
    assert!(rt; wrong.len() == 0);
    Ok(())
}

#[test]
fn a_train_at_its_ebi_may_stop_exactly_at_the_svl(rt: HostRuntime) -> Result<(), Fail> {
    let wrong = wrong_lines(rt.alloc(), FROM_THE_EBI, true)?;
    assert!(rt; wrong.len() == 0);
    let wrong = wrong_lines(rt.alloc(), PAST_THE_SVL, false)?;
    assert!(rt; wrong.len() == 0);
    Ok(())
}

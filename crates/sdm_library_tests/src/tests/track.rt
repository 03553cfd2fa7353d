//! Worked tracks: which are refused and why, and what lies under a train.

use crate::tests::words::{fields, natural};
use sdm_rules::LONGEST_TRAIN_CM;
use sdm_track::{Area, Gradient, Segments, SpeedStep, Track, TrackFault};
use std::alloc::Global;

/// The pair of numbers in a text such as `100 -3`.
fn pair_of(text: &str) -> Option<(i64, i64)> {
    let mut words = text.split_whitespace();
    let first = words.next()?.parse::<i64>().ok()?;
    let second = words.next()?.parse::<i64>().ok()?;
    Some((first, second))
}

/// Pairs of numbers, as `0 5, 100 -3`; none where one is no pair, or for want of memory.
fn pairs(alloc: Global, text: &str) -> Option<Vec<(i64, i64)>> {
    let mut found = Vec::new(alloc);
    if text.is_empty() {
        return Some(found);
    }
    for pair in text.split(',') {
        found.push(pair_of(pair)?).ok()?;
    }
    Some(found)
}

/// Pairs whose first numbers rise from 0 by `step` and whose second ones rise from `second` by `rise`.
fn rising<const COUNT: usize>(step: i64, second: i64, rise: i64) -> [(i64, i64); COUNT] {
    let mut found = [(0, second); COUNT];
    let mut next = (0i64, second);
    for pair in found.iter_mut() {
        *pair = next;
        next = (next.0.saturating_add(step), next.1.saturating_add(rise));
    }
    found
}

fn gradients(alloc: Global, entries: &[(i64, i64)]) -> Option<Vec<Gradient>> {
    let mut list = Vec::new(alloc);
    for &(start, grad) in entries {
        list.push(Gradient { start, grad }).ok()?;
    }
    Some(list)
}

fn speeds(alloc: Global, entries: &[(i64, i64)]) -> Option<Vec<SpeedStep>> {
    let mut list = Vec::new(alloc);
    for &(start, speed) in entries {
        let delayed = true;
        list.push(SpeedStep {
            start,
            speed,
            delayed,
        })
        .ok()?;
    }
    Some(list)
}

fn areas(alloc: Global, entries: &[(i64, i64)]) -> Option<Vec<Area>> {
    let mut list = Vec::new(alloc);
    for &(start, end) in entries {
        list.push(Area { start, end }).ok()?;
    }
    Some(list)
}

/// The track of these pairs; none for want of memory.
fn track(
    alloc: Global,
    length_cm: u32,
    gradient_pairs: &[(i64, i64)],
    speed_pairs: &[(i64, i64)],
    adhesion_pairs: &[(i64, i64)],
    no_special_pairs: &[(i64, i64)],
) -> Option<Result<Track, TrackFault>> {
    let gradient_list = gradients(alloc, gradient_pairs)?;
    let speed_list = speeds(alloc, speed_pairs)?;
    let adhesion = areas(alloc, adhesion_pairs)?;
    let no_special = areas(alloc, no_special_pairs)?;
    Some(Track::new(length_cm, gradient_list, speed_list, adhesion, no_special))
}

/// The text of the fault, or `accepted`.
fn answer(alloc: Global, made: Result<Track, TrackFault>) -> Option<String> {
    match made {
        Ok(_) => String::from_str(alloc, "accepted").ok(),
        Err(fault) => format!(in alloc; "{fault}").ok(),
    }
}

/// The answer to the columns of a line of the table of tracks, of which the first is the length.
fn answer_to(alloc: Global, length_cm: u32, lists: [&str; 4]) -> Option<String> {
    let [gradients, speeds, adhesion, no_special] = lists;
    let gradients = pairs(alloc, gradients)?;
    let speeds = pairs(alloc, speeds)?;
    let adhesion = pairs(alloc, adhesion)?;
    let no_special = pairs(alloc, no_special)?;
    answer(
        alloc,
        track(
            alloc,
            length_cm,
            &gradients,
            &speeds,
            &adhesion,
            &no_special,
        )?,
    )
}

/// Length in cm | gradients | speeds | areas of reduced adhesion | areas without the special brake | the text of the
/// fault, or `accepted`. The ranges and the order of all rules are runs of the built program, in
/// worked/journeys/ranges.txt.
const TRACKS: &str = "\
1 | | 0 160 | | | accepted
10000001 | | 0 160 | | | value of key 1 in Track 0
1000 | 1 0 | 0 160 | | | gap before Gradient
1000 | | | | | count of Speed
1000 | | 0 160, 5 160, 5 100 | | | order of Speed 3
1000 | | 0 160 | 20 20 | | value of key 2 in Adhesion 1
1000 | | 0 160 | | 0 20, 19 30 | order of NoSpecial 2
";

#[test]
fn the_first_rule_that_a_track_breaks_is_named(rt: HostRuntime) -> Result<(), &'static str> {
    for line in TRACKS.lines() {
        let [length, gradients, speeds, adhesion, no_special, wanted, ..] = fields(line);
        let lists = [gradients, speeds, adhesion, no_special];
        let Some(found) = answer_to(rt.alloc(), natural(length)?, lists) else {
            return Err("no answer");
        };
        assert!(rt; found.as_str() == wanted, "{found} for {line}");
    }
    Ok(())
}

fn keeps_what_was_handed_in(track: &Track) -> bool {
    track.length_cm() == 1000
        && track.gradient_count() == 2
        && track.gradient(1).grad == -5
        && track.speed_count() == 3
        && track.speed(2).start == 600
        && track.area_count() == 1
        && track.area(0).end == 20
        && track.no_special_count() == 2
        && track.no_special(1).start == 50
        && track.areas().len() == 1
        && track.no_special_areas().len() == 2
}

#[test]
fn a_track_keeps_what_was_handed_in(rt: HostRuntime) -> Result<(), &'static str> {
    let Some(Ok(track)) = track(
        rt.alloc(),
        1000,
        &[(0, 5), (300, -5)],
        &[(0, 160), (400, 120), (600, 80)],
        &[(10, 20)],
        &[(30, 40), (50, 60)],
    ) else {
        return Err("no track");
    };
    assert!(rt; keeps_what_was_handed_in(&track));
    Ok(())
}

/// The gradients under a train of so many cm on a track of 10 km.
fn segments_of(alloc: Global, gradient_pairs: &[(i64, i64)], length_cm: u32) -> Option<Segments> {
    if length_cm < 1 || LONGEST_TRAIN_CM < length_cm {
        return None;
    }
    match track(alloc, 1_000_000, gradient_pairs, &[(0, 160)], &[], &[])? {
        Ok(track) => track.compensated(alloc, length_cm).ok(),
        Err(_) => None,
    }
}

/// Train length in cm | gradients | the segments by start and value | some cells and their gradients
const GRADIENTS: &str = "\
150 | | 0 0 | -1 0, 0 0, 10149999 0
20000 | 0 -100, 50000 0 | 0 -100, 70000 0 | -2147483648 -100, 69999 -100, 70000 0, 2147483647 0
1000 | 0 5, 100 -3, 200 7, 300 2 | 0 5, 100 -3, 1200 2 | 99 5, 100 -3, 1199 -3, 1200 2
10 | 0 4, 100 -6, 101 4 | 0 4, 100 -6, 111 4 | 99 4, 100 -6, 110 -6, 111 4
100 | 0 3, 200 1, 300 2 | 0 3, 200 1, 400 2 | 199 3, 200 1, 399 1, 400 2
50 | 0 3, 200 3, 300 4 | 0 3, 350 4 | 249 3, 349 3, 350 4
1 | 0 0, 1 1, 2 2, 3 1 | 0 0, 2 1 | 1 0, 2 1, 4 1
100 | 0 -5, 100 0, 200 7 | 0 -5, 200 0, 300 7 | 199 -5, 200 0, 299 0, 300 7
";

/// The segments of a line's gradients under a train.
fn segments_of_text(alloc: Global, gradients: &str, length_cm: u32) -> Option<Segments> {
    segments_of(alloc, &pairs(alloc, gradients)?, length_cm)
}

/// Whether the segments have these starts and values.
fn has_segments(segments: &Segments, wanted: &str) -> bool {
    let mut wanted = wanted.split(',');
    for i in 0..segments.count() {
        let found = (i64::from(segments.start(i)), i64::from(segments.value(i)));
        let Some(pair) = wanted.next() else {
            return false;
        };
        if pair_of(pair) != Some(found) {
            return false;
        }
    }
    wanted.next().is_none()
}

/// Whether the gradients at these cells are these.
fn has_gradients(segments: &Segments, wanted: &str) -> bool {
    for pair in wanted.split(',') {
        let Some((cell, grad)) = pair_of(pair) else {
            return false;
        };
        let Ok(cell) = i32::try_from(cell) else {
            return false;
        };
        if i64::from(segments.at(cell)) != grad {
            return false;
        }
    }
    true
}

#[test]
fn the_gradient_is_the_lowest_under_the_train(rt: HostRuntime) -> Result<(), &'static str> {
    for line in GRADIENTS.lines() {
        let [length, gradients, wanted, cells, ..] = fields(line);
        let Some(segments) = segments_of_text(rt.alloc(), gradients, natural(length)?) else {
            return Err("no segments");
        };
        assert!(rt; has_segments(&segments, wanted), "{line}");
        assert!(rt; has_gradients(&segments, cells), "{line}");
    }
    Ok(())
}

/// 30 entries, each 10 m long and a per mille above the one before, under a train of 150 m.
#[test]
fn a_rising_gradient_counts_from_its_foot(rt: HostRuntime) -> Result<(), &'static str> {
    let Some(segments) = segments_of(rt.alloc(), &rising::<30>(1000, 0, 10), 15_000) else {
        return Err("no segments");
    };
    assert!(rt; has_gradients(&segments, "100 0, 15999 0, 16000 10, 40000 250, 50000 290"));
    Ok(())
}

/// 512 entries of 1 m, level and downhill by turns, under a train of 10 cm: each downhill one counts for 10 cells
/// more.
#[test]
fn the_most_gradients_make_segments(rt: HostRuntime) -> Result<(), &'static str> {
    let mut turns = rising::<512>(100, 0, 0);
    for (i, pair) in turns.iter_mut().enumerate() {
        pair.1 = if i % 2 == 0 { 0 } else { -5 };
    }
    let Some(segments) = segments_of(rt.alloc(), &turns, 10) else {
        return Err("no segments");
    };
    assert!(rt; segments.count() == 512);
    assert!(rt; has_gradients(&segments, "50899 0, 50900 -5, 51009 -5"));
    assert!(rt; has_gradients(&segments, "51010 0, 51100 -5, 60000 -5"));
    Ok(())
}

/// A cell, the train's length, and whether the areas are in force.
const CELLS: [(i32, u32, bool); 13] = [
    (-1, 50, false),
    (0, 50, true),
    (59, 50, true),
    (60, 50, false),
    (99, 50, false),
    (100, 50, true),
    (249, 1, true),
    (349, 50, true),
    (350, 50, false),
    (1_000_000, 1, true),
    (1_000_001, 1, false),
    (1_149_999, 150_000, true),
    (1_150_000, 150_000, false),
];

/// The first cell at which a track says something else of its areas, if any.
fn cell_in_doubt(adhesion: &Track, no_special: &Track) -> Option<i32> {
    for (cell, length, in_force) in CELLS {
        let is_right = adhesion.reduced(cell, length) == in_force
            && !adhesion.unaided(cell, length)
            && no_special.unaided(cell, length) == in_force
            && !no_special.reduced(cell, length);
        if !is_right {
            return Some(cell);
        }
    }
    None
}

#[test]
fn an_area_is_in_force_until_the_rear_end_has_left_it(rt: HostRuntime) -> Result<(), &'static str> {
    let pairs = [(0, 10), (100, 200), (200, 300), (999_900, 1_000_000)];
    let adhesion = track(rt.alloc(), 1_000_000, &[], &[(0, 160)], &pairs, &[]);
    let no_special = track(rt.alloc(), 1_000_000, &[], &[(0, 160)], &[], &pairs);
    let (Some(Ok(adhesion)), Some(Ok(no_special))) = (adhesion, no_special) else {
        return Err("no track");
    };
    assert_eq!(rt; cell_in_doubt(&adhesion, &no_special), None);
    Ok(())
}

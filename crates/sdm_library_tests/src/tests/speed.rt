//! Profiles worked by hand: each line asks the profile that the lines before it have made.

use sdm_speed::{Profile, Restriction};
use sdm_track::{SpeedStep, Track};
use std::alloc::Global;
use std::process::Abort;
use std::str::SplitWhitespace;
use std::test::Fail;

/// What is asked, and the answer.
///
/// - `track`: a new profile, of the length of a track and of a train, a maximum speed, and the static profile as
///   `start:speed:delayed` of each entry
/// - `set`: identity, start, end, speed, whether the end is delayed
/// - `fill`: sets restrictions of the identities 1 to 32
/// - `revoke`: identity
/// - `lowest`: first and last cell
/// - `end`: the length of the track
/// - `fall`: the cell after which the next fall is looked for
/// - `near`: the same, and how many steps start at the cell or before it, as a rule; that of the fall too
const CASES: &str = "\
track 200000 10000 160 0:160:1
end = 200000
lowest -5 250000 = 160
fall -2147483648 = none
set 1 50000 60000 80 1 = set
lowest 49999 49999 = 160
lowest 50000 50000 = 80
lowest 69999 69999 = 80
lowest 70000 70000 = 160
lowest 0 49999 = 160
lowest 0 50000 = 80
lowest 69999 90000 = 80
lowest 70000 90000 = 160
fall 0 = 50000 80
fall 49999 = 50000 80
fall 50000 = none
revoke 2 = identity 2 unknown
revoke 1 = revoked
lowest 0 90000 = 160
fall 0 = none
set 1 50000 60000 80 0 = set
lowest 59999 59999 = 80
lowest 60000 60000 = 160
set 1 1000 2000 80 0 = identity 1 in use
set 2 1000 1000 80 0 = restriction value
set 2 1001 1000 80 0 = restriction value
set 2 1000 200001 80 0 = restriction value
set 2 190000 200000 40 1 = set
lowest 209999 209999 = 40
lowest 210000 210000 = 160
fall 60000 = 190000 40
fall 190000 = none
track 200000 10000 160 0:160:1
set 1 0 600 80 0 = set
lowest -1 -1 = 160
lowest 0 0 = 80
lowest -1 0 = 80
fall -1 = 0 80
fall 0 = none
track 200000 10000 160 0:160:0
set 1 1000 3000 100 0 = set
set 2 2000 4000 60 0 = set
set 3 2000 4000 60 0 = set
lowest 1999 1999 = 100
lowest 2000 2999 = 60
lowest 3999 3999 = 60
lowest 0 5000 = 60
fall 0 = 1000 100
fall 1000 = 2000 60
fall 2000 = none
revoke 2 = revoked
fall 1000 = 2000 60
revoke 3 = revoked
fall 1000 = none
lowest 2000 2999 = 100
lowest 3000 3000 = 160
set 2 1500 2500 120 0 = set
fall 0 = 1000 100
fall 1000 = none
track 200000 10000 160 0:160:0
set 1 1000 3000 100 0 = set
set 2 3000 5000 80 0 = set
lowest 2999 2999 = 100
lowest 3000 3000 = 80
lowest 4999 5000 = 80
lowest 5000 5000 = 160
fall 1000 = 3000 80
set 3 2000 4000 120 0 = set
lowest 2000 2999 = 100
lowest 3000 3999 = 80
fall 1000 = 3000 80
set 4 1500 4500 60 0 = set
fall 1000 = 1500 60
fall 1500 = none
lowest 4499 4499 = 60
lowest 4500 4500 = 80
revoke 2 = revoked
lowest 4500 4500 = 160
lowest 3000 3999 = 60
revoke 4 = revoked
lowest 3000 3999 = 120
fall 0 = 1000 100
fall 1000 = none
lowest 1000 1999 = 100
lowest 4000 4000 = 160
track 200000 10000 500 0:120:1,1000:160:0,2000:100:0,9000:110:1
lowest -100000 -1 = 120
lowest 999 999 = 120
lowest 1000 1999 = 120
lowest 2000 8999 = 100
lowest 9000 10999 = 110
lowest 11000 2147483647 = 110
fall -7 = 2000 100
fall 2000 = none
fall 2147483647 = none
track 200000 10000 90 0:160:0,1000:100:0,2000:80:0
lowest 0 1999 = 90
fall 0 = 2000 80
track 200000 10000 160 0:160:0
fill = set
set 33 3000 4000 40 0 = too many restrictions
set 7 4000 3000 40 0 = too many restrictions
lowest 0 5000 = 80
revoke 33 = identity 33 unknown
revoke 7 = revoked
set 8 4000 3000 40 0 = identity 8 in use
set 7 4000 3000 40 0 = restriction value
set 7 3000 4000 40 0 = set
lowest 0 5000 = 40
set 33 3000 4000 40 0 = too many restrictions";

/// The same, of restrictions that overlap and go again, and of ends that are delayed by a train's length.
const OVERLAPS: &str = "\
track 200000 10000 160 0:160:1
set 1 50000 60000 80 1 = set
set 2 50000 60000 80 0 = set
set 3 0 200000 200 1 = set
set 4 199999 200000 40 0 = set
set 4 0 200000 60 0 = identity 4 in use
set 5 60000 60000 60 0 = restriction value
lowest 199999 199999 = 40
fall 0 = 50000 80
fall 50000 = 199999 40
revoke 5 = identity 5 unknown
revoke 2 = revoked
lowest 50000 59999 = 80
revoke 1 = revoked
lowest 50000 59999 = 160
fall 0 = 199999 40
revoke 1 = identity 1 unknown
revoke 4 = revoked
fall 0 = none
revoke 3 = revoked
track 10000000 150000 500 0:500:1
set 9 9999999 10000000 5 1 = set
lowest 9999998 9999998 = 500
lowest 9999999 9999999 = 5
lowest 10149999 10149999 = 5
lowest 10150000 10150000 = 500
revoke 9 = revoked
lowest 9999999 10149999 = 500
fill = set
set 33 3000 4000 40 0 = too many restrictions
revoke 32 = revoked
track 10000000 10000 500 0:500:1,1000:400:0,2000:450:0,3000:300:0,4000:200:0
near 0 -2147483648 = 1000 400 1
near 1 1000 = 3000 300 3
near 3 3000 = 4000 200 4
near 4 4000 = none 4
near 4 3000 = 4000 200 4
near 2 3000 = 4000 200 4
near 99 1000 = 3000 300 3
near 3 999 = 1000 400 1
near 1 2147483647 = none 1";

fn length(word: Option<&str>) -> Result<u32, Fail> {
    Ok(word.ok_or("a length is wanting")?.parse::<u32>()?)
}

fn cell(word: Option<&str>) -> Result<i32, Fail> {
    Ok(word.ok_or("a cell is wanting")?.parse::<i32>()?)
}

fn identity(word: Option<&str>) -> Result<u16, Fail> {
    Ok(word.ok_or("an identity is wanting")?.parse::<u16>()?)
}

fn count(word: Option<&str>) -> Result<usize, Fail> {
    Ok(word.ok_or("a count is wanting")?.parse::<usize>()?)
}

fn delayed(word: Option<&str>) -> Result<bool, Fail> {
    Ok(word.ok_or("a flag is wanting")? == "1")
}

/// The entries of a static profile.
fn steps(alloc: Global, text: &str) -> Result<Vec<SpeedStep>, Fail> {
    let mut steps = Vec::new(alloc);
    for entry in text.split(',') {
        let mut parts = entry.split(':');
        steps.push(SpeedStep {
            start: i64::from(cell(parts.next())?),
            speed: i64::from(cell(parts.next())?),
            delayed: delayed(parts.next())?,
        })?;
    }
    Ok(steps)
}

/// A new profile.
fn begun(alloc: Global, text: &str) -> Result<Profile, Fail> {
    let mut words = text.split_whitespace();
    let track_cm = length(words.next())?;
    let length_cm = length(words.next())?;
    let max_speed = identity(words.next())?;
    let speeds = steps(alloc, words.next().ok_or("no static profile")?)?;
    let made = Track::new(
        track_cm,
        Vec::new(alloc),
        speeds,
        Vec::new(alloc),
        Vec::new(alloc),
    );
    let Ok(track) = made else {
        return Err("no track")?;
    };
    if length_cm < 1 || 150_000 < length_cm || max_speed < 1 || 500 < max_speed {
        return Err("no train")?;
    }
    Ok(Profile::begin(alloc, &track, max_speed, length_cm)?)
}

/// A restriction as it is given.
fn restriction(words: &mut SplitWhitespace<'_>) -> Result<Restriction, Fail> {
    Ok(Restriction {
        id: identity(words.next())?,
        start: length(words.next())?,
        end: length(words.next())?,
        speed: identity(words.next())?,
        delayed: delayed(words.next())?,
    })
}

/// The text of the fault, or `set`.
fn set(alloc: Global, profile: &mut Profile, r: Restriction) -> Result<String, Fail> {
    if r.speed < 1 || 500 < r.speed {
        return Err("no speed")?;
    }
    match profile.set(r) {
        Ok(()) => Ok(format!(in alloc; "set")?),
        Err(fault) => Ok(format!(in alloc; "{fault}")?),
    }
}

/// The answer to what is asked.
fn answer(alloc: Global, profile: &mut Profile, asked: &str) -> Result<String, Fail> {
    let mut words = asked.split_whitespace();
    match words.next() {
        Some("set") => set(alloc, profile, restriction(&mut words)?),
        Some("fill") => {
            for id in 1..32 {
                set(alloc, profile, at(id))?;
            }
            set(alloc, profile, at(32))
        }
        Some("revoke") => match profile.revoke(identity(words.next())?) {
            Ok(()) => Ok(format!(in alloc; "revoked")?),
            Err(fault) => Ok(format!(in alloc; "{fault}")?),
        },
        Some("lowest") => {
            let from = cell(words.next())?;
            let to = cell(words.next())?;
            if to < from {
                return Err("no cells")?;
            }
            Ok(format!(in alloc; "{}", profile.lowest(from, to))?)
        }
        Some("end") => Ok(format!(in alloc; "{}", profile.track_cm())?),
        Some("fall") => match profile.next_fall(cell(words.next())?) {
            Some(fall) => Ok(format!(in alloc; "{} {}", fall.cell, fall.speed)?),
            None => Ok(format!(in alloc; "none")?),
        },
        Some("near") => {
            let mut near = count(words.next())?;
            match profile.next_fall_near(cell(words.next())?, &mut near) {
                Some(fall) => Ok(format!(in alloc; "{} {} {near}", fall.cell, fall.speed)?),
                None => Ok(format!(in alloc; "none {near}")?),
            }
        }
        _ => Err("nothing that can be asked")?,
    }
}

fn at(id: u16) -> Restriction {
    Restriction {
        id,
        start: 1000,
        end: 2000,
        speed: 80,
        delayed: false,
    }
}

/// Each line of a table, asked of the profile that the lines before it have made.
fn ask(rt: &impl Abort, alloc: Global, table: &str) -> Result<(), Fail> {
    let mut profile = begun(alloc, "200000 10000 160 0:160:0")?;
    for line in table.lines() {
        match line.strip_prefix("track ") {
            Some(text) => profile = begun(alloc, text)?,
            None => {
                let (asked, expected) = line.split_once(" = ").ok_or("no answer")?;
                let found = answer(alloc, &mut profile, asked)?;
                assert!(rt; found.as_str() == expected, "{line}");
            }
        }
    }
    Ok(())
}

#[test]
fn the_lowest_restriction_counts(rt: HostRuntime) -> Result<(), Fail> {
    ask(&rt, rt.alloc(), CASES)
}

#[test]
fn restrictions_overlap_and_go_again(rt: HostRuntime) -> Result<(), Fail> {
    ask(&rt, rt.alloc(), OVERLAPS)
}

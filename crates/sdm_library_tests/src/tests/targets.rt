//! Authorities, foot speeds and lists of targets, worked by hand.

use sdm_num::Place;
use sdm_speed::{Profile, Restriction};
use sdm_targets::{
    Authority, Target, TargetKind, TargetList, check_authority, check_trip, foot_speed, targets_of,
};
use sdm_track::{SpeedStep, Track};
use std::alloc::Global;
use std::test::Fail;

fn number(word: Option<&str>) -> Result<u32, Fail> {
    Ok(word.ok_or("a number is wanting")?.parse::<u32>()?)
}

fn speed(word: Option<&str>) -> Result<u16, Fail> {
    Ok(word.ok_or("a speed is wanting")?.parse::<u16>()?)
}

/// `stop`, EOA, SvL and release speed; or `limit`, LOA and speed.
fn authority(text: &str) -> Result<Authority, Fail> {
    let mut words = text.split_whitespace();
    match words.next() {
        Some("stop") => Ok(Authority::Stop {
            eoa: number(words.next())?,
            svl: number(words.next())?,
            release: speed(words.next())?,
        }),
        Some("limit") => Ok(Authority::Limit {
            loa: number(words.next())?,
            speed: speed(words.next())?,
        }),
        _ => Err("no authority")?,
    }
}

/// Authorities on a track of 100,000 cm, and what is answered.
const AUTHORITIES: &str = "\
stop 0 0 0 = accepted
stop 100000 100000 500 = accepted
stop 99999 100000 0 = accepted
stop 100000 99999 0 = supervised location before end
stop 100001 100000 501 = supervised location before end
stop 100000 100001 0 = beyond track
stop 100000 100001 501 = beyond track
stop 100000 100000 501 = bad speed
limit 0 1 = accepted
limit 100000 500 = accepted
limit 100001 500 = beyond track
limit 100001 0 = beyond track
limit 100000 0 = bad speed
limit 100000 501 = bad speed";

#[test]
fn the_first_fault_of_an_authority_is_named(rt: HostRuntime) -> Result<(), Fail> {
    for line in AUTHORITIES.lines() {
        let (text, expected) = line.split_once(" = ").ok_or("no answer")?;
        let found = match check_authority(&authority(text)?, 100_000) {
            Ok(()) => format!(in rt.alloc(); "accepted")?,
            Err(fault) => format!(in rt.alloc(); "{fault}")?,
        };
        assert!(rt; found.as_str() == expected, "{line}");
    }
    Ok(())
}

/// EOA, SvL and the place of a trip on a track of 100,000 cm, and what is answered.
const TRIPS: &str = "\
0 0 0 = accepted
99999 100000 99999 = accepted
99999 100000 100000 = accepted
100000 99999 0 = supervised location before end
100001 100000 0 = supervised location before end
100000 100001 0 = beyond track
90000 99999 89999 = bad trip place
90000 99999 100000 = bad trip place";

#[test]
fn a_trip_lies_from_the_eoa_to_the_svl(rt: HostRuntime) -> Result<(), Fail> {
    for line in TRIPS.lines() {
        let (text, expected) = line.split_once(" = ").ok_or("no answer")?;
        let mut words = text.split(' ');
        let eoa = number(words.next())?;
        let svl = number(words.next())?;
        let trip = number(words.next())?;
        let found = match check_trip(eoa, svl, trip, 100_000) {
            Ok(()) => format!(in rt.alloc(); "accepted")?,
            Err(fault) => format!(in rt.alloc(); "{fault}")?,
        };
        assert!(rt; found.as_str() == expected, "{line}");
    }
    Ok(())
}

fn kind(word: Option<&str>) -> Result<TargetKind, Fail> {
    match word {
        Some("Mrsp") => Ok(TargetKind::Mrsp),
        Some("Loa") => Ok(TargetKind::Loa),
        Some("Eoa") => Ok(TargetKind::Eoa),
        Some("Svl") => Ok(TargetKind::Svl),
        _ => Err("no kind")?,
    }
}

/// A kind, a target speed in km/h, and the foot speed in notches, 15,000 to a km/h.
const FEET: &str = "\
Mrsp 80 1312500
Mrsp 1 127500
Mrsp 110 1762500
Loa 160 2568750
Mrsp 210 3375000
Loa 500 7725000
Eoa 0 0
Svl 0 0";

#[test]
fn the_foot_lies_a_margin_above_the_target_speed(rt: HostRuntime) -> Result<(), Fail> {
    for line in FEET.lines() {
        let mut words = line.split(' ');
        let target = Target {
            kind: kind(words.next())?,
            place: Place::of_mm(0),
            speed: speed(words.next())?,
        };
        assert!(rt; target.speed <= 500);
        assert!(rt;
            foot_speed(&target).notches() == number(words.next())?,
            "{line}"
        );
    }
    Ok(())
}

/// Restrictions (start, end, speed, whether the end is delayed) on a track of 2 km at 160 km/h; the authority; the
/// front end in mm; whether the release speed is supervised; and the targets, their places in mm.
const LISTS: &str = "\
50000 60000 80 1; stop 200000 200000 0; 460000; 0 = Mrsp 500000 80, Eoa 2000000 0, Svl 2000000 0
50000 60000 80 1; stop 200000 200000 0; 500000; 0 = Eoa 2000000 0, Svl 2000000 0
50000 60000 80 1; stop 200000 200000 0; 499999; 0 = Mrsp 500000 80, Eoa 2000000 0, Svl 2000000 0
50000 60000 80 1; stop 50000 70000 0; 100000; 0 = Mrsp 500000 80, Eoa 500000 0, Svl 700000 0
50000 60000 80 1; stop 49999 70000 0; 100000; 0 = Eoa 499990 0, Svl 700000 0
50000 60000 80 1; stop 200000 200000 20; 460000; 1 = Mrsp 500000 80
50000 60000 80 1; stop 200000 200000 20; 500000; 1 = none
50000 60000 80 1; limit 200000 60; 460000; 0 = Mrsp 500000 80, Loa 2000000 60
50000 60000 80 1; limit 200000 60; 460000; 1 = Mrsp 500000 80, Loa 2000000 60
50000 60000 80 1; limit 40000 60; 450000; 0 = Loa 400000 60
; stop 100000 110000 0; 1000001; 0 = Eoa 1000000 0, Svl 1100000 0
; stop 100000 110000 0; 1100001; 0 = Eoa 1000000 0, Svl 1100000 0
0 60000 80 0; stop 200000 200000 0; -1; 0 = Mrsp 0 80, Eoa 2000000 0, Svl 2000000 0
0 60000 80 0; stop 200000 200000 0; 0; 0 = Eoa 2000000 0, Svl 2000000 0
1000 3000 100 0, 2000 4000 60 0, 5000 6000 40 0; limit 4500 20; -50000; 0 = Mrsp 10000 100, Mrsp 20000 60, Loa 45000 20";

/// A profile with these restrictions.
fn profile(alloc: Global, text: &str) -> Result<Profile, Fail> {
    let mut speeds = Vec::new(alloc);
    speeds.push(SpeedStep {
        start: 0,
        speed: 160,
        delayed: false,
    })?;
    let made = Track::new(
        200_000,
        Vec::new(alloc),
        speeds,
        Vec::new(alloc),
        Vec::new(alloc),
    );
    let Ok(track) = made else {
        return Err("no track")?;
    };
    let mut profile = Profile::begin(alloc, &track, 160, 10_000)?;
    for (id, restriction) in text.split(',').enumerate() {
        let mut words = restriction.split_whitespace();
        if let Some(start) = words.next() {
            let r = Restriction {
                id: id.min(100) as u16,
                start: start.parse::<u32>()?,
                end: number(words.next())?,
                speed: speed(words.next())?.clamp(1, 500),
                delayed: words.next() == Some("1"),
            };
            if profile.set(r).is_err() {
                return Err("no restriction")?;
            }
        }
    }
    Ok(profile)
}

/// Fills the list with the targets of a line.
fn fill(alloc: Global, text: &str, into: &mut TargetList) -> Result<(), Fail> {
    let mut columns = text.split(';');
    let profile = profile(alloc, columns.next().ok_or("no restrictions")?)?;
    let authority = authority(columns.next().ok_or("no authority")?)?;
    let front = columns.next().ok_or("no front end")?.trim().parse::<i32>()?;
    let in_release_monitoring = columns.next().ok_or("no flag")?.trim() == "1";
    match check_authority(&authority, profile.track_cm()) {
        Ok(()) => targets_of(
            &profile,
            &authority,
            Place::of_mm(front),
            in_release_monitoring,
            into,
        ),
        Err(_) => return Err("no authority")?,
    }
    Ok(())
}

/// The targets as text.
fn told(alloc: Global, targets: &[Target]) -> Result<String, Fail> {
    let mut text = String::new(alloc);
    for target in targets {
        if !text.is_empty() {
            text.push_str(", ")?;
        }
        let place = target.place.mm_below();
        let next = format!(in alloc; "{:?} {} {}", target.kind, place, target.speed)?;
        text.push_str(next.as_str())?;
    }
    if text.is_empty() {
        text.push_str("none")?;
    }
    Ok(text)
}

#[test]
fn targets_are_the_falls_ahead_and_the_end(rt: HostRuntime) -> Result<(), Fail> {
    let mut list = TargetList::begin(rt.alloc())?;
    assert!(rt; list.get().is_empty());
    for line in LISTS.lines() {
        let (text, expected) = line.split_once(" = ").ok_or("no targets")?;
        fill(rt.alloc(), text, &mut list)?;
        let found = told(rt.alloc(), list.get())?;
        assert!(rt; found.as_str() == expected, "{line}");
    }
    Ok(())
}

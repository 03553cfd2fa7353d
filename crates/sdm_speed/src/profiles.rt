//! The speed profile of a train on a track. Its speeds are kept as steps: a restriction that comes lowers those in its
//! zone, and one that goes leaves them to what is left.

ghost use Rattle.std.specs.Prelude.{◌≡◌, ℤ, pos, ◌*◌, ◌≤◌, ◌≤ℤ◌, All, Some, None, IfOk, IfErr, IfSome, MatchOption};
ghost use Rattle.std.specs.Prelude.{OnOk, OnErr, length, min, position, vec_len};
ghost use Rattle.std.specs.FinMap as finite;
ghost use Rattle.std.specs.Int.{int_gap};
ghost use Rattle.std.specs.Result.{result_err};
ghost use Rattle.sdm_rules.specs.Cells.{lowest};
ghost use Rattle.sdm_rules.specs.Profile.{zones_of_track};
ghost use Rattle.sdm_rules.specs.Records.{restrict_fault, revoke_fault};
ghost use Rattle.sdm_rules.specs.TakeOver.{first_beyond, with_beyond};
ghost use Rattle.sdm_rules.specs.Targets.{IsNextFall, HasNoFall};
ghost use Rattle.sdm_rules.specs.Ranges.{longest_track, longest_train, most_speeds, top_kmh};
ghost use Rattle.sdm_track.specs.Ranges.{AreSpeeds};
ghost use Rattle.sdm_speed.specs.Zones.{IsLimit, IsZone, IsFallInRange, zone_limits};
ghost use Rattle.sdm_speed.specs.Speeds.{speeds_in};
ghost use Rattle.sdm_speed.specs.Held.{by_identity, has_id, AreDistinct, IsHeldRestriction};
ghost use Rattle.sdm_speed.specs.Profiles.{mrsp_of, new_profile, IsProfile};
ghost use Rattle.sdm_speed.specs.ZoneStarts.{IsZoneStart};

use crate::ends::{end_for, zone_of};
use crate::lifts::raise;
use crate::removals::remove_at;
use crate::steps::Steps;
use crate::zones::Zone;
use sdm_num::NoMemory;
use sdm_rules::{Fall, RestrictFault, Restriction, RevokeFault, SpeedStep};
use sdm_search::parted;
use sdm_track::Track;
use std::alloc::Global;
use std::marker::Model;

/// The most restrictions that are held. (own)
pub const MOST_RESTRICTIONS: usize = 32;

/// The MRSP of a train on a track, with at most 32 temporary restrictions by identity. (SUBSET-026-3 3.13.7)
#[derive(Debug, Drop)]
pub struct Profile {
    max_speed: u16,
    length_cm: u32,
    track_cm: u32,
    speeds: Vec<SpeedStep>,
    held: Vec<Restriction>,
    /// The speeds without restrictions.
    statics: Steps,
    /// The speeds under the restrictions held.
    steps: Steps,
}

impl Model for Profile {
    ghost use Rattle.sdm_speed.specs.Profiles.{ProfileData, coded_profile};

    ghost Value = { ProfileData };

    ghost coded = { coded_profile };

    ghost use Rattle.sdm_speed.specs.ProfileFields.{profile_data_of, IsKeptProfile};

    ghost view = { profile_data_of };

    ghost invariant = { IsKeptProfile };
}

/// The static speed profile of a track.
fn speeds_of(alloc: Global, track: &Track) -> Result<Vec<SpeedStep>, NoMemory>
    ensures { IfOk result (λ speeds. speeds.items ≡ track.now.speeds) }
{
    let mut speeds = Vec::new(alloc);
    for i in 0..track.speed_count() {
        speeds.push(*track.speed(i))?;
    }
    Ok(speeds)
}

/// The zones of the static speed profile. Each start closes a zone and opens the next.
fn static_zones(alloc: Global, speeds: &[SpeedStep], length_cm: u32) -> Result<Vec<Zone>, NoMemory>
    requires speeds { AreSpeeds (pos longest_track) speeds.now }
    requires train { length_cm ≤ longest_train }
    ensures value { IfOk result (λ zones. zones.items ≡ zones_of_track (pos length_cm) speeds.now) }
    ensures in_range { IfOk result (λ zones. All IsZone zones.items) }
    ensures many { IfOk result (λ zones. vec_len zones ≡ length speeds.now) }
{
    let mut zones = Vec::with_capacity(alloc, speeds.len())?;
    let mut first = None;
    for i in 1..speeds.len() {
        let step = speeds[i - 1];
        let start = speeds[i].start;
        zones.push_reserved(Zone {
            first,
            past: Some(end_for(length_cm, step.delayed, start)),
            limit: step.speed as u16,
        });
        first = Some(start as i32);
    }
    zones.push_reserved(Zone {
        first,
        past: None,
        limit: speeds[speeds.len() - 1].speed as u16,
    });
    Ok(zones)
}

/// The speeds of zones, and at most `top`.
fn steps_of(alloc: Global, zones: &[Zone], top: u16) -> Result<Steps, NoMemory>
    requires { length zones.now ≤ most_speeds }
    ensures speeds { IfOk result (λ steps. (c : ℤ) → speeds_in steps c ≡ zone_limits top zones.now c) }
    ensures few { IfOk result (λ steps. vec_len steps.list ≤ 2 * length zones.now) }
{
    let mut steps = Steps::begin(alloc, top, 2 * zones.len())?;
    for zone in zones {
        steps.lower(*zone);
    }
    Ok(steps)
}

/// At which index the restriction with this identity stands.
fn index_of(held: &[Restriction], id: u16) -> Option<usize>
    ensures { result ≡ position (has_id id) held.now }
{
    held.iter().position(|held| held.id == id)
}

/// The identity of a restriction beside that of others, where it ends past the end of a track of a length in cm.
fn with_beyond(length_cm: u32, r: Restriction, rest: Option<u16>) -> Option<u16>
    ensures { result ≡ with_beyond (pos length_cm) r rest }
{
    if length_cm < r.end {
        Some(match rest {
            Some(id) => r.id.min(id),
            None => r.id,
        })
    } else {
        rest
    }
}

/// The least identity of the restrictions that end past the end of a track of a length in cm.
fn first_beyond(length_cm: u32, held: &[Restriction]) -> Option<u16>
    ensures { result ≡ first_beyond (pos length_cm) held.now }
{
    let mut found = None;
    for i in 0..held.len() {
        found = with_beyond(length_cm, held[i], found);
    }
    found
}

impl Profile {
    ghost use Rattle.sdm_speed.specs.Profiles.{ProfileData};

    /// The profile of a track for a train: maximum speed in km/h, 1 to 500, and length in cm, 1 to 150,000. No
    /// restriction is held. Takes the room for 32.
    pub fn begin(
        alloc: Global,
        track: &Track,
        max_speed: u16,
        length_cm: u32,
    ) -> Result<Profile, NoMemory>
        requires slowest { 1 ≤ max_speed }
        requires fastest { max_speed ≤ top_kmh }
        requires shortest { 1 ≤ length_cm }
        requires longest { length_cm ≤ longest_train }
        ensures { IfOk result (λ profile. profile ≡ new_profile track.now max_speed length_cm) }
    {
        let track_cm = track.length_cm();
        let speeds = speeds_of(alloc, track)?;
        let zones = static_zones(alloc, &speeds, length_cm)?;
        let statics = steps_of(alloc, &zones, max_speed)?;
        let held = Vec::with_capacity(alloc, MOST_RESTRICTIONS)?;
        let mut steps = Steps::begin(alloc, max_speed, 2 * (zones.len() + MOST_RESTRICTIONS))?;
        steps.reset(&statics);
        Ok(Profile {
            max_speed,
            length_cm,
            track_cm,
            speeds,
            held,
            statics,
            steps,
        })
    }

    /// The length of the track in cm.
    pub fn track_cm(&self) -> u32
        ensures value { pos result ≡ self.now.track_cm }
        ensures in_range { IsProfile self.now }
    {
        self.track_cm
    }

    /// How many entries the static speed profile has: 1 to 128.
    pub fn speed_count(&self) -> usize
        ensures value { result ≡ length self.now.speeds }
        ensures in_range { IsProfile self.now }
    {
        self.speeds.len()
    }

    /// How many restrictions are held: at most 32.
    pub fn held_count(&self) -> usize
        ensures { result ≡ finite.len self.now.restrictions }
    {
        self.held.len()
    }

    /// Whether a restriction with this identity is held.
    fn is_held(&self, id: u16) -> bool
        ensures { result ≡ finite.contains_key self.now.restrictions id }
    {
        index_of(&self.held, id).is_some()
    }

    /// Refuses a restriction by its first fault.
    fn check(&self, r: Restriction) -> Result<(), RestrictFault>
        ensures { result_err result ≡ restrict_fault self.now.track_cm self.now.restrictions r }
    {
        let full = self.held.len() >= MOST_RESTRICTIONS;
        if full {
            return Err(RestrictFault::Full);
        }
        if self.is_held(r.id) {
            return Err(RestrictFault::IdInUse { id: r.id });
        }
        if r.end <= r.start || self.track_cm < r.end {
            return Err(RestrictFault::Value);
        }
        Ok(())
    }

    /// Puts a restriction into force; its speed is 1 to 500 km/h. Refused where 32 are held, where one with its
    /// identity is held, and where it ends at or before its start or past the track's end; the profile is then as it
    /// was. (SUBSET-026-3 3.11.5; refusals own)
    pub fn set(&mut self, r: Restriction) -> Result<(), RestrictFault>
        requires slowest { 1 ≤ r.speed }
        requires fastest { r.speed ≤ top_kmh }
        ensures accepted { OnOk result (restrict_fault self.old.track_cm self.old.restrictions r ≡ None) }
        ensures added { OnOk result
            (self.new ≡ record self.old { restrictions = finite.insert self.old.restrictions r.id r }) }
        ensures held { OnOk result (IsHeldRestriction r) }
        ensures refused { IfErr result
            (λ fault. restrict_fault self.old.track_cm self.old.restrictions r ≡ Some fault) }
        ensures unchanged { OnErr result (self.new ≡ self.old) }
    {
        self.check(r)?;
        self.held.push_reserved(r);
        self.steps.lower(zone_of(r, self.length_cm));
        Ok(())
    }

    /// The least identity of the restrictions in force that end past the end of a track of a length in cm.
    pub fn first_beyond(&self, length_cm: u32) -> Option<u16>
        ensures value { result ≡ first_beyond (pos length_cm) (finite.values self.now.restrictions) }
        ensures in_range { IsProfile self.now }
    {
        first_beyond(length_cm, &self.held)
    }

    /// The restrictions in force, in the order in which they came.
    pub fn held(&self) -> &[Restriction]
        ensures all { by_identity result.now ≡ self.now.restrictions }
        ensures distinct { AreDistinct result.now }
        ensures each { All IsHeldRestriction result.now }
        ensures in_range { IsProfile self.now }
    {
        &self.held
    }

    /// Puts the restrictions of another profile into force. None is in force before, and none of the other's ends past
    /// the track's end. (own)
    pub fn take_restrictions(&mut self, before: &Profile)
        requires fresh { self.old.restrictions ≡ finite.empty }
        requires fitting { first_beyond self.old.track_cm (finite.values before.now.restrictions) ≡ None }
        ensures taken { self.new ≡ record self.old { restrictions = before.now.restrictions } }
    {
        for i in 0..before.held.len() {
            self.set(before.held[i]).unwrap();
        }
    }

    /// Takes a restriction out of force. Refused where none with this identity is held; the profile is then as it was.
    /// (own)
    pub fn revoke(&mut self, id: u16) -> Result<(), RevokeFault>
        ensures accepted { OnOk result (revoke_fault self.old.restrictions id ≡ None) }
        ensures removed { OnOk result
            (self.new ≡ record self.old { restrictions = finite.remove self.old.restrictions id }) }
        ensures refused { IfErr result (λ fault. revoke_fault self.old.restrictions id ≡ Some fault) }
        ensures unchanged { OnErr result (self.new ≡ self.old) }
    {
        let Some(index) = index_of(&self.held, id) else {
            return Err(RevokeFault::Unknown { id });
        };
        let lifted = remove_at(&mut self.held, index);
        raise(
            &mut self.steps,
            lifted,
            &self.statics,
            &self.held,
            self.length_cm,
        );
        Ok(())
    }

    /// The lowest MRSP in km/h over the cells from `from` to `to`. (SUBSET-026-3 3.13.7; own cell form)
    pub fn lowest(&self, from: i32, to: i32) -> u16
        requires { from ≤ℤ to }
        ensures value { result ≡ lowest min (mrsp_of self.now) from (int_gap from to) }
        ensures in_range { IsLimit result }
    {
        // the speed of the first cell, and of each step past its start that begins at or before the last
        let steps = &self.steps.list;
        let before = self.steps.before;
        let begun = parted(steps, |step| step.start <= from);
        let mut lowest = match begun {
            0 => before,
            _ => steps[begun - 1].speed,
        };
        for step in &steps[begun..] {
            if to < step.start {
                return lowest;
            }
            lowest = lowest.min(step.speed);
        }
        lowest
    }

    /// The first fall of the MRSP past the start of the cell `after`, with the lower speed in km/h.
    /// (SUBSET-026-3 3.13.8.2; own cell form)
    pub fn next_fall(&self, after: i32) -> Option<Fall>
        ensures value { MatchOption result (HasNoFall (mrsp_of self.now) after) (IsNextFall (mrsp_of self.now) after) }
        ensures in_range { IfSome result IsFallInRange }
        ensures profile_in_range { IsProfile self.now }
    {
        let mut near = 0;
        self.next_fall_near(after, &mut near)
    }

    /// As `next_fall`, for falls that are asked for one after another. `near` tells where the last one was found, and
    /// at first is 0, so that all are found in one pass; where it tells anything else the fall is only sought longer.
    pub fn next_fall_near(&self, after: i32, near: &mut usize) -> Option<Fall>
        ensures value { MatchOption result (HasNoFall (mrsp_of self.now) after) (IsNextFall (mrsp_of self.now) after) }
        ensures zone { IfSome result (IsZoneStart self.now) }
        ensures in_range { IfSome result IsFallInRange }
        ensures profile_in_range { IsProfile self.now }
    {
        self.steps.next_fall(after, near)
    }
}

//! The falls of the speed profile with their curves, as a supervisor keeps them between records. A profile falls where
//! a zone begins, to the speed of that zone: where the static profile falls, or where a restriction begins. So the
//! curves of each such zone are made once, at the opening or when the restriction comes, and a record that changes the
//! profile only finds again which of the zones are falls.

ghost use Rattle.std.specs.Prelude.{◌≡◌, ◌+◌, ◌^◌, ◌<◌, ◌≤◌, ◌≤ℤ◌, ◌<ℤ◌, ◌++◌, ◌∷◌, ℕ, ℤ, List, map, All, [], Some, None};
ghost use Rattle.std.specs.Prelude.{pos, IfOk, IfSome, MatchOption, true, false, length, slice_index_or};
ghost use Rattle.std.specs.List.{list_any};
ghost use Rattle.std.specs.FinMap as finite;
ghost use Rattle.sdm_rules.specs.Data.{TrainAndTrack};
ghost use Rattle.sdm_rules.specs.declared.data.SlopeKind.TheVariants.{Normal, Safe};
ghost use Rattle.sdm_rules.specs.Decelerations.{slopes_of};
ghost use Rattle.sdm_rules.specs.Records.{most_restrictions};
ghost use Rattle.sdm_rules.specs.Targets.{is_fall};
ghost use Rattle.sdm_speed.specs.Falls.{AreAtFalls};
ghost use Rattle.sdm_speed.specs.Held.{IsHeldRestriction};
ghost use Rattle.sdm_speed.specs.Profiles.{mrsp_of};
ghost use Rattle.sdm_speed.specs.Zones.{IsFallInRange};
ghost use Rattle.sdm_targets.specs.Lists.{falls_past, most_falls};
ghost use Rattle.sdm_hiding.specs.Hiding.{AreHiddenFrom, AreInOrder};
ghost use Rattle.sdm_braking.specs.FallFeet.{AreHidden, brake_foot, guide_foot};
ghost use Rattle.sdm_braking.specs.KeptFalls.{at_fall, AreKeptFalls, ArePartedPast, AreZonesOf, IsRestricted};
ghost use Rattle.sdm_braking.specs.KeptFalls.{IsFallAt, IsKeptFall, IsKeptZone, IsRevoked, IsZoneAt, IsZoneLess};
ghost use Rattle.sdm_braking.specs.KeptFalls.{IsZoneMore, KeptFallData, data_of, fall_of, first_cell};
ghost use Rattle.sdm_braking.specs.KeptFalls.{has_id, is_at, kept_at, target_of};

use crate::braking::Braking;
use crate::falls_ahead::{Ahead, FallsAhead, KeptFall, KeptZone, PlacedFall};
use crate::zones::{fall_by, is_zone_at, older_place, remove_held, target_at, zone_at};
use sdm_hiding::hide;
use sdm_num::NoMemory;
use sdm_rules::{Fall, Restriction};
use sdm_search::parted;
use sdm_speed::{MOST_RESTRICTIONS, Profile};
use std::alloc::Global;
use std::marker::Model;
use std::mem::swap;

/// The falls of a profile with their curves, in order. (own)
#[derive(Drop)]
pub struct KeptFalls {
    list: Vec<PlacedFall>,
    /// The list before it, where most falls have the places that they have now. As much room as for falls.
    older: Vec<PlacedFall>,
    /// The zones that may be falls: the falls of the static profile, in order, and then the restrictions.
    zones: Vec<KeptZone>,
    /// How many of these are falls of the static profile.
    statics: usize,
    /// For each fall how many falls further on the first one stands whose EBD hides this one's. No less room than for
    /// falls.
    brake_steps: Vec<usize>,
    /// The same of guidance curves, where guidance is permitted.
    guide_steps: Vec<usize>,
}

impl Model for KeptFalls {
    ghost use Rattle.std.specs.Prelude.{length, vec_capacity, ◌≤◌};
    ghost use Rattle.sdm_braking.specs.KeptFalls.{AreFewPlaced, AreStaticsFirst, KeptFallsData, kept_in, ArePlacedIn};

    ghost Value = { KeptFallsData };

    ghost view = { λ k. record {
      list = kept_in k.zones.items k.list.items;
      zones = k.zones.items;
      statics = k.statics;
      room = vec_capacity k.zones;
      brake_steps = k.brake_steps.items;
      guide_steps = k.guide_steps.items;
    } };

    ghost invariant = { λ k. ArePlacedIn k.zones.items k.list.items
        × (vec_capacity k.zones ≤ vec_capacity k.list)
        × (vec_capacity k.zones ≤ vec_capacity k.older)
        × (length k.list.items ≤ vec_capacity k.zones)
        × (vec_capacity k.zones ≤ length k.brake_steps.items)
        × (vec_capacity k.zones ≤ length k.guide_steps.items)
        × AreStaticsFirst k.statics k.zones.items
        × AreFewPlaced k.list.items k.older.items };
}

impl KeptFalls {
    /// What is kept of the falls of a profile under no restriction. Takes the places for as many zones as there may be
    /// on its track.
    pub fn begin(alloc: Global, braking: &Braking, profile: &Profile) -> Result<KeptFalls, NoMemory>
        requires { profile.now.restrictions ≡ finite.empty }
        ensures { IfOk result (AreKeptFalls braking.now profile.now) }
    {
        let room = profile.speed_count() + MOST_RESTRICTIONS;
        let mut falls = KeptFalls {
            list: Vec::with_capacity(alloc, room)?,
            older: Vec::with_capacity(alloc, room)?,
            zones: Vec::with_capacity(alloc, room)?,
            statics: 0,
            brake_steps: vec![in alloc; 0; room]?,
            guide_steps: vec![in alloc; 0; room]?,
        };
        falls.keep_statics(braking, profile);
        falls.keep_falls(braking, profile);
        Ok(falls)
    }

    /// Keeps a zone for each fall of the static profile.
    fn keep_statics(&mut self, braking: &Braking, profile: &Profile)
        requires bare { profile.now.restrictions ≡ finite.empty }
        requires empty { self.old.zones ≡ [] }
        requires room { length profile.now.speeds + most_restrictions ≤ self.old.room }
        ensures zones { AreZonesOf profile.now self.new }
        ensures curves { All (IsKeptZone braking.now) self.new.zones }
    {
        let mut at = i32::MIN;
        while let Some(fall) = profile.next_fall(at) {
            self.keep_zone(braking, None, fall);
            at = fall.cell;
        }
        self.statics = self.zones.len();
    }

    /// Keeps a zone behind the others. No fall has a place then.
    fn keep_zone(&mut self, braking: &Braking, id: Option<u16>, fall: Fall)
        requires fall { IsFallInRange fall }
        requires room { length self.old.zones < self.old.room }
        ensures zone { IsZoneMore braking.now id fall self.old.zones self.new.zones }
        ensures statics { self.new.statics ≡ self.old.statics }
        ensures room { self.new.room ≡ self.old.room }
    {
        let kept = braking.keep(target_at(fall));
        // The check of moves reads the type of this field from here.
        let _guide = kept.guide;
        self.clear();
        self.zones.push_reserved(KeptZone { id, fall, kept });
    }

    /// Sets the falls aside, so that none has a place.
    fn clear(&mut self)
        ensures list { self.new.list ≡ [] }
        ensures zones { self.new.zones ≡ self.old.zones }
        ensures statics { self.new.statics ≡ self.old.statics }
        ensures room { self.new.room ≡ self.old.room }
    {
        if !self.list.is_empty() {
            swap(&mut self.list, &mut self.older);
            self.list.clear();
        }
    }

    /// A fall comes to the end of the list, with the place of its zone.
    fn push(&mut self, fall: Fall, place: usize)
        requires zone { IsZoneAt fall self.old.zones place }
        requires room { length self.old.list < self.old.room }
        requires few { length self.old.list < most_falls }
        ensures list { self.new.list ≡
            self.old.list ++ kept_at self.old.zones (record { fall = fall; place = place }) ∷ [] }
        ensures zones { self.new.zones ≡ self.old.zones }
        ensures statics { self.new.statics ≡ self.old.statics }
        ensures room { self.new.room ≡ self.old.room }
    {
        self.list.push_reserved(PlacedFall { fall, place });
    }

    /// The index of a zone that begins at a fall with its speed: as a rule `older` or `next`, else the first one of the
    /// static profile that doesn't begin before the fall, or one of a restriction.
    fn zone_of(&self, older: usize, next: usize, fall: Fall) -> usize
        requires { list_any (is_at fall) self.now.zones ≡ true }
        ensures { IsZoneAt fall self.now.zones result }
    {
        if is_zone_at(&self.zones, older, fall) {
            return older;
        }
        if is_zone_at(&self.zones, next, fall) {
            return next;
        }
        let first = parted(
            &self.zones[..self.statics],
            |zone| zone.fall.cell < fall.cell,
        );
        if is_zone_at(&self.zones, first, fall) {
            return first;
        }
        let Some(held) = zone_at(&self.zones[self.statics..], fall) else {
            unreachable!()
        };
        self.statics + held
    }

    /// Finds which zones are falls of a profile, in one pass over its steps. Most were falls before, and have the
    /// places that they had then, so these are looked at first. Those that a restriction covered are mostly falls one
    /// after another, so the zone behind the last one of the static profile that was found is looked at next.
    fn fill(&mut self, profile: &Profile)
        requires { AreZonesOf profile.now self.old }
        ensures falls { AreAtFalls fall_of (mrsp_of profile.now) first_cell self.new.list }
        ensures each { (d : TrainAndTrack) → All (IsKeptZone d) self.old.zones → All (IsKeptFall d) self.new.list }
        ensures few { length self.new.list ≤ most_falls }
        ensures zones { self.new.zones ≡ self.old.zones }
        ensures statics { self.new.statics ≡ self.old.statics }
        ensures room { self.new.room ≡ self.old.room }
    {
        self.clear();
        let mut at = i32::MIN;
        let mut near = 0;
        let mut from = 0;
        let mut next = 0;
        while let Some(fall) = profile.next_fall_near(at, &mut near) {
            let older = older_place(&self.older, &mut from, fall.cell);
            let place = self.zone_of(older, next, fall);
            if place < self.statics {
                next = place + 1;
            }
            self.push(fall, place);
            at = fall.cell;
        }
    }

    /// Works out how far on the EBD of each fall is hidden.
    fn hide_brakes(&mut self, braking: &Braking)
        requires kept { All (IsKeptFall braking.now) self.old.list }
        requires order { AreInOrder (map brake_foot (map target_of self.old.list)) }
        ensures hidden { AreHiddenFrom (slopes_of Safe braking.now) (map brake_foot (map target_of self.new.list))
            self.new.brake_steps 0 }
        ensures list { self.new.list ≡ self.old.list }
        ensures zones { self.new.zones ≡ self.old.zones }
        ensures statics { self.new.statics ≡ self.old.statics }
        ensures room { self.new.room ≡ self.old.room }
    {
        let falls = FallsAhead {
            list: &self.list,
            zones: &self.zones,
        };
        hide(&falls.brakes(braking), &mut self.brake_steps);
    }

    /// Works out how far on the guidance curve of each fall is hidden, where guidance is permitted.
    fn hide_guides(&mut self, braking: &Braking)
        requires kept { All (IsKeptFall braking.now) self.old.list }
        requires order { AreInOrder (map guide_foot (map target_of self.old.list)) }
        ensures hidden { braking.now.national.guidance ≡ true → AreHiddenFrom (slopes_of Normal braking.now)
            (map guide_foot (map target_of self.new.list)) self.new.guide_steps 0 }
        ensures list { self.new.list ≡ self.old.list }
        ensures zones { self.new.zones ≡ self.old.zones }
        ensures statics { self.new.statics ≡ self.old.statics }
        ensures room { self.new.room ≡ self.old.room }
        ensures brakes { self.new.brake_steps ≡ self.old.brake_steps }
    {
        if !braking.has_guidance() {
            return;
        }
        let falls = FallsAhead {
            list: &self.list,
            zones: &self.zones,
        };
        hide(&falls.guides(braking), &mut self.guide_steps);
    }

    /// Keeps the falls of a profile whose zones are kept.
    fn keep_falls(&mut self, braking: &Braking, profile: &Profile)
        requires zones { AreZonesOf profile.now self.old }
        requires curves { All (IsKeptZone braking.now) self.old.zones }
        ensures { AreKeptFalls braking.now profile.now self.new }
    {
        self.fill(profile);
        self.hide_brakes(braking);
        self.hide_guides(braking);
    }

    /// Keeps the falls of a profile that a restriction has come to.
    pub fn restrict(&mut self, braking: &Braking, profile: &Profile, r: Restriction)
        requires before { IsRestricted profile.now r self.old }
        requires held { IsHeldRestriction r }
        requires curves { All (IsKeptZone braking.now) self.old.zones }
        ensures { AreKeptFalls braking.now profile.now self.new }
    {
        self.keep_zone(braking, Some(r.id), fall_by(r));
        self.keep_falls(braking, profile);
    }

    /// Keeps the falls of a profile that restrictions have come to, where none was in force before.
    pub fn take_restrictions(&mut self, braking: &Braking, profile: &Profile)
        requires before { AreZonesOf (record profile.now { restrictions = finite.empty }) self.old }
        requires curves { All (IsKeptZone braking.now) self.old.zones }
        ensures { AreKeptFalls braking.now profile.now self.new }
    {
        let held = profile.held();
        for i in 0..held.len() {
            self.keep_zone(braking, Some(held[i].id), fall_by(held[i]));
        }
        self.keep_falls(braking, profile);
    }

    /// Takes out the zone of the restriction with an identity, whose place the last one takes. No fall has a place then.
    fn remove(&mut self, id: u16)
        requires { list_any (has_id id) self.old.zones ≡ true }
        ensures zone { IsZoneLess id self.old.zones self.new.zones }
        ensures statics { self.new.statics ≡ self.old.statics }
        ensures room { self.new.room ≡ self.old.room }
    {
        self.clear();
        remove_held(&mut self.zones, self.statics, id);
    }

    /// Keeps the falls of a profile that a restriction has gone from.
    pub fn revoke(&mut self, braking: &Braking, profile: &Profile, id: u16)
        requires before { IsRevoked profile.now id self.old }
        requires curves { All (IsKeptZone braking.now) self.old.zones }
        ensures { AreKeptFalls braking.now profile.now self.new }
    {
        self.remove(id);
        self.keep_falls(braking, profile);
    }

    /// How many falls are kept.
    fn len(&self) -> usize
        ensures { result ≡ length self.now.list }
    {
        self.list.len()
    }

    /// The fall at an index.
    fn fall(&self, i: usize) -> Fall
        requires { i < length self.now.list }
        ensures { (d : KeptFallData) → result ≡ (slice_index_or self.now.list i d).fall }
    {
        self.list[i].fall
    }

    /// How many lie at the start of the cell `last` or before it.
    fn reached(&self, last: i64) -> usize
        ensures bound { result ≤ length self.now.list }
        ensures small { self.now.room < 2 ^ 63 }
        ensures parted { (p : ℤ → ℕ) (after : ℤ) → AreAtFalls fall_of p after self.now.list →
            ArePartedPast fall_of last self.now.list result }
    {
        parted(&self.list, |placed| i64::from(placed.fall.cell) <= last)
    }

    /// What is kept of the fall at a cell, if there is one.
    pub fn at(&self, cell: i32) -> Option<KeptFall<'_>>
        ensures each { (d : TrainAndTrack) → All (IsKeptFall d) self.now.list →
            IfSome result (λ k. IsKeptFall d (data_of k)) }
        ensures falls { (p : ℤ → ℕ) → AreAtFalls fall_of p first_cell self.now.list → first_cell <ℤ cell →
            MatchOption result (is_fall p cell ≡ false) (λ k. IsFallAt p cell k.fall) }
    {
        let i = self.reached(i64::from(cell) - 1);
        if self.len() <= i {
            return None;
        }
        let PlacedFall { fall, place } = self.list[i];
        if fall.cell != cell {
            return None;
        }
        Some(KeptFall {
            fall,
            kept: &self.zones[place].kept,
        })
    }

    /// What is kept of the falls past the start of the cell `after`, up to and with that of a place in cm.
    pub fn ahead(&self, after: i32, end: u32) -> Ahead<'_>
        ensures each { (d : TrainAndTrack) → All (IsKeptFall d) self.now.list → All (IsKeptFall d) result.falls }
        ensures falls { (p : ℤ → ℕ) → AreAtFalls fall_of p first_cell self.now.list →
            falls_past p after (pos end) ≡ map at_fall result.falls }
        ensures few { length result.falls ≤ length self.now.list }
        ensures order { AreInOrder (map brake_foot (map target_of self.now.list)) →
            AreInOrder (map brake_foot (map target_of result.falls)) }
        ensures hidden { (d : TrainAndTrack) →
            AreHidden d (map target_of self.now.list) self.now.brake_steps self.now.guide_steps →
            AreHidden d (map target_of result.falls) result.brake_steps.now result.guide_steps.now }
        ensures brake_room { length result.falls ≤ length result.brake_steps.now }
        ensures guide_room { length result.falls ≤ length result.guide_steps.now }
    {
        let begun = parted(&self.list, |placed| placed.fall.cell <= after);
        let ahead = &self.list[begun..];
        let ended = parted(
            ahead,
            |placed| i64::from(placed.fall.cell) <= i64::from(end),
        );
        Ahead {
            falls: FallsAhead {
                list: &ahead[..ended],
                zones: &self.zones,
            },
            brake_steps: &self.brake_steps[begun..],
            guide_steps: &self.guide_steps[begun..],
        }
    }
}

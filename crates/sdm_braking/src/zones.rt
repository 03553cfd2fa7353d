//! Where zones of a profile begin, and how one is found among those that are kept.

ghost use Rattle.std.specs.Prelude.{◌≡◌, ◌<◌, ◌≤◌, false, length, position, slice_index_or, true, vec_capacity};
ghost use Rattle.std.specs.List.{list_any};
ghost use Rattle.sdm_speed.specs.Held.{IsHeldRestriction};
ghost use Rattle.sdm_speed.specs.Zones.{IsFallInRange};
ghost use Rattle.sdm_targets.specs.Lists.{target_at, IsTarget};
ghost use Rattle.sdm_braking.specs.KeptFalls.{AreStaticsFirst, fall_by, has_id, is_at, IsZoneAt, IsZoneLess};

use crate::falls_ahead::{KeptZone, PlacedFall};
use sdm_num::Place;
use sdm_rules::{Fall, Restriction};
use sdm_targets::{Target, TargetKind};

/// The target at a fall.
pub(crate) fn target_at(fall: Fall) -> Target
    requires { IsFallInRange fall }
    ensures value { result ≡ target_at fall }
    ensures in_range { IsTarget result }
{
    Target {
        kind: TargetKind::Mrsp,
        place: Place::of_cm(fall.cell),
        speed: fall.speed,
    }
}

/// Where a restriction begins, with its speed.
pub(crate) fn fall_by(r: Restriction) -> Fall
    requires { IsHeldRestriction r }
    ensures value { result ≡ fall_by r }
    ensures in_range { IsFallInRange result }
{
    Fall {
        cell: r.start as i32,
        speed: r.speed,
    }
}

/// Whether a zone begins at the cell of a fall with its speed.
pub(crate) fn is_at(zone: &KeptZone, fall: Fall) -> bool
    ensures { result ≡ is_at fall zone.now }
{
    zone.fall.cell == fall.cell && zone.fall.speed == fall.speed
}

/// Whether a zone is that of the restriction with this identity.
pub(crate) fn has_id(zone: &KeptZone, id: u16) -> bool
    ensures { result ≡ has_id id zone.now }
{
    match zone.id {
        Some(held) => held == id,
        None => false,
    }
}

/// Whether there is a zone at an index that begins at a fall with its speed.
pub(crate) fn is_zone_at(zones: &[KeptZone], i: usize, fall: Fall) -> bool
    ensures at { result ≡ true → IsZoneAt fall zones.now i }
    ensures other { result ≡ false → (d : KeptZone) → i < length zones.now →
        is_at fall (slice_index_or zones.now i d) ≡ false }
{
    i < zones.len() && is_at(&zones[i], fall)
}

/// The index of the first zone that begins at a fall with its speed.
pub(crate) fn zone_at(zones: &[KeptZone], fall: Fall) -> Option<usize>
    ensures { result ≡ position (is_at fall) zones.now }
{
    zones.iter().position(|zone| is_at(zone, fall))
}

/// The index of the zone of the restriction with this identity.
pub(crate) fn zone_by_id(zones: &[KeptZone], id: u16) -> Option<usize>
    ensures { result ≡ position (has_id id) zones.now }
{
    zones.iter().position(|zone| has_id(zone, id))
}

/// Takes out the zone of the restriction with an identity, whose place the last one takes. Those of the static profile,
/// so many, come first.
pub(crate) fn remove_held(zones: &mut Vec<KeptZone>, statics: usize, id: u16)
    requires first { AreStaticsFirst statics zones.old.items }
    requires held { list_any (has_id id) zones.old.items ≡ true }
    ensures zone { IsZoneLess id zones.old.items zones.new.items }
    ensures room { vec_capacity zones.new ≡ vec_capacity zones.old }
{
    let Some(held) = zone_by_id(&zones[statics..], id) else {
        unreachable!()
    };
    let last = zones.len() - 1;
    zones.copy_within(last.., statics + held);
    zones.truncate(last);
}

/// The place of the first of some falls, from an index on, that doesn't lie before a cell. The next search begins there.
pub(crate) fn older_place(falls: &[PlacedFall], from: &mut usize, cell: i32) -> usize
    ensures further { from.old ≤ from.new }
    ensures bound { from.old ≤ length falls.now → from.new ≤ length falls.now }
{
    let first = *from;
    for i in first..falls.len() {
        let placed = falls[i];
        if cell <= placed.fall.cell {
            *from = i;
            return placed.place;
        }
    }
    *from = first.max(falls.len());
    0
}

//! Falls with what is kept of them, as they are read. The falls stand in a list in their order, and the targets at
//! them, which are large, each at a place of their own, so that a fall that comes or goes moves none of them.

ghost use Rattle.std.specs.Prelude.{◌≡◌, ◌<◌, length, slice_index_or};
ghost use Rattle.sdm_braking.specs.KeptFalls.{KeptFallData};

use crate::kept_targets::KeptTarget;
use sdm_rules::Fall;
use std::marker::Model;

/// A fall of the profile, and the target at it with its curves. (SUBSET-026-3 3.13.8.2; own)
#[derive(Clone, Copy, Debug)]
pub struct KeptFall<'a> {
    pub fall: Fall,
    pub kept: &'a KeptTarget,
}

/// A zone of the profile that may be a fall: where it begins with its speed, the restriction that it is of, or none
/// where the static profile falls, and the target there with its curves. (own)
#[derive(Clone, Copy, Debug)]
pub struct KeptZone {
    pub id: Option<u16>,
    pub fall: Fall,
    pub kept: KeptTarget,
}

/// A fall of the profile, and the place of its target among those that are kept, counted from 0. (own)
#[derive(Clone, Copy, Debug)]
pub struct PlacedFall {
    pub fall: Fall,
    pub place: usize,
}

/// Falls that follow one another, with what is kept of each. (own)
#[derive(Debug, Drop)]
pub struct FallsAhead<'a> {
    pub(crate) list: &'a [PlacedFall],
    pub(crate) zones: &'a [KeptZone],
}

impl<'a> Model for FallsAhead<'a> {
    ghost use Rattle.std.specs.Prelude.{List};
    ghost use Rattle.sdm_braking.specs.KeptFalls.{KeptFallData, kept_in, ArePlacedIn};

    ghost Value = { List KeptFallData };

    ghost view = { λ a. kept_in a.zones.now a.list.now };

    ghost invariant = { λ a. ArePlacedIn a.zones.now a.list.now };
}

impl<'a> FallsAhead<'a> {
    /// How many they are.
    pub fn len(&self) -> usize
        ensures { result ≡ length self.now }
    {
        self.list.len()
    }

    /// The target at one of them, counted from 0, with its curves.
    pub fn target(&self, i: usize) -> &'a KeptTarget
        requires { i < length self.now }
        ensures { (d : KeptFallData) → result.now ≡ (slice_index_or self.now i d).kept }
    {
        let list = self.list;
        &self.zones[list[i].place].kept
    }
}

/// The falls ahead of a place, with how far on their curves are hidden. (own)
#[derive(Drop)]
pub struct Ahead<'a> {
    pub falls: FallsAhead<'a>,
    /// For each fall how many falls further on the first one stands whose EBD hides this one's; where none does, the
    /// falls end there or before.
    pub brake_steps: &'a [usize],
    /// The same of guidance curves, where guidance is permitted.
    pub guide_steps: &'a [usize],
}

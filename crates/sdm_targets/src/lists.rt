//! The list of the targets. The falls come first, each found from the one before it; the end of the authority lies at
//! or past them all, so the list is in the order of places.

ghost use Rattle.std.specs.Prelude.{◌≡◌, All, List, [], ◌∷◌, ◌++◌, ◌<◌, ◌≤◌, pos, None, IfOk, length, vec_capacity};
ghost use Rattle.sdm_rules.specs.Records.{authority_fault};
ghost use Rattle.sdm_rules.specs.Targets.{targets_of, end_of, ends_of};
ghost use Rattle.sdm_speed.specs.Profiles.{mrsp_of, IsProfile};
ghost use Rattle.sdm_targets.specs.Lists.{room, most_falls, falls_past, IsOnTrack, IsTarget};

use sdm_num::{NoMemory, Place};
use sdm_rules::{Authority, Target, TargetKind};
use sdm_speed::Profile;
use std::alloc::Global;
use std::marker::Model;

/// The room of a list: a profile has at most 128 entries and 32 restrictions, each of which makes one fall at most,
/// and an authority has at most two targets. (own)
const ROOM: usize = 170;

/// Targets by place, then by kind, with room for 170. (own)
#[derive(Debug, Drop)]
pub struct TargetList {
    targets: Vec<Target>,
}

impl Model for TargetList {
    ghost use Rattle.std.specs.Prelude.{List, vec_capacity, ◌≤◌};
    ghost use Rattle.sdm_rules.specs.declared.targets.Target.{Target};
    ghost use Rattle.sdm_targets.specs.Lists.{room};

    ghost Value = { List Target };

    ghost view = { λ l. l.targets.items };

    ghost invariant = { λ l. room ≤ vec_capacity l.targets };
}

impl TargetList {
    /// An empty list. Takes the room for 170 targets.
    pub fn begin(alloc: Global) -> Result<TargetList, NoMemory>
        ensures { IfOk result (λ list. list ≡ []) }
    {
        Ok(TargetList {
            targets: Vec::with_capacity(alloc, ROOM)?,
        })
    }

    /// The targets in order.
    pub fn get(&self) -> &[Target]
        ensures { result.now ≡ self.now }
    {
        &self.targets
    }

    fn clear(&mut self)
        ensures { self.new ≡ [] }
    {
        self.targets.clear();
    }

    fn push(&mut self, target: Target)
        requires { length self.old < room }
        ensures { self.new ≡ self.old ++ target ∷ [] }
    {
        self.targets.push_reserved(target);
    }
}

/// The EOA or the LOA in cm.
pub fn end_of(authority: &Authority) -> u32
    ensures { result ≡ end_of authority.now }
{
    match *authority {
        Authority::Stop { eoa, .. } => eoa,
        Authority::Limit { loa, .. } => loa,
    }
}

/// Puts the falls past the start of the cell `after`, up to and with that of the cell `end`, into an empty list.
fn push_falls(profile: &Profile, after: i32, end: u32, into: &mut TargetList)
    requires { into.old ≡ [] }
    ensures falls { into.new ≡ falls_past (mrsp_of profile.now) after (pos end) }
    ensures few { length into.new ≤ most_falls }
    ensures each { All IsTarget into.new }
    ensures in_range { IsProfile profile.now }
{
    let mut at = after;
    while let Some(fall) = profile.next_fall(at) {
        if i64::from(end) < i64::from(fall.cell) {
            return;
        }
        into.push(Target {
            kind: TargetKind::Mrsp,
            place: Place::of_cm(fall.cell),
            speed: fall.speed,
        });
        at = fall.cell;
    }
}

/// Puts the targets at the end of the authority behind the others.
fn push_ends(authority: &Authority, in_release_monitoring: bool, into: &mut TargetList)
    requires on_track { IsOnTrack authority.now }
    requires few { length into.old ≤ most_falls }
    ensures ends { into.new ≡ into.old ++ ends_of authority.now in_release_monitoring }
    ensures each { All IsTarget into.old → All IsTarget into.new }
{
    match *authority {
        Authority::Stop { eoa, svl, .. } => {
            if in_release_monitoring {
                return;
            }
            into.push(Target {
                kind: TargetKind::Eoa,
                place: Place::of_cm_from_0(eoa),
                speed: 0,
            });
            into.push(Target {
                kind: TargetKind::Svl,
                place: Place::of_cm_from_0(svl),
                speed: 0,
            });
        }
        Authority::Limit { loa, speed } => into.push(Target {
            kind: TargetKind::Loa,
            place: Place::of_cm_from_0(loa),
            speed,
        }),
    }
}

/// Replaces the contents of the list by the targets of a max safe front end: the falls of the MRSP strictly ahead of
/// it and at or before the EOA or the LOA, then the LOA, or the EOA and the SvL, also once they are passed. In release
/// speed monitoring the EOA and the SvL are none. The authority is one that `check_authority` accepts for the
/// profile's track. (SUBSET-026-3 3.13.8.2)
#[tactic(auto, unfolding(sdm_rules::specs::Targets::targets_of))]
pub fn targets_of(
    profile: &Profile,
    authority: &Authority,
    front: Place,
    released: bool,
    into: &mut TargetList,
)
    requires { authority_fault profile.now.track_cm authority.now ≡ None }
    ensures targets { into.new ≡ targets_of (mrsp_of profile.now) authority.now front released }
    ensures in_range { All IsTarget into.new }
{
    into.clear();
    push_falls(profile, front.cell(), end_of(authority), into);
    push_ends(authority, released, into);
}

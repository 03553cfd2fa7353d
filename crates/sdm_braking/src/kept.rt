//! What is kept between records: the targets at the falls of the speed profile and at the end of the authority, with
//! their curves, and the start of release speed monitoring. It is one value, made again in place where the profile or
//! the authority changes.

ghost use Rattle.std.specs.Prelude.{◌≡◌, All, None, IfOk};
ghost use Rattle.sdm_rules.specs.declared.authorities.Authority.{Authority};
ghost use Rattle.std.specs.FinMap as finite;
ghost use Rattle.sdm_rules.specs.Records.{authority_fault};
ghost use Rattle.sdm_speed.specs.Held.{IsHeldRestriction};
ghost use Rattle.sdm_speed.specs.Profiles.{ProfileData};
ghost use Rattle.sdm_braking.specs.Kept.{IsKept};
ghost use Rattle.sdm_braking.specs.KeptFalls.{AreZonesOf, IsKeptZone, IsRestricted, IsRevoked};

use crate::braking::Braking;
use crate::kept_ends::KeptEnd;
use crate::kept_falls::KeptFalls;
use crate::releases::Release;
use sdm_num::NoMemory;
use sdm_rules::Restriction;
use sdm_speed::Profile;
use sdm_targets::Authority;
use std::alloc::Global;

/// The targets of a speed profile and an authority with their curves, and the start of release speed monitoring. (own)
#[derive(Drop)]
pub struct Kept {
    /// The falls of the profile.
    pub falls: KeptFalls,
    /// The end of the authority, in a box, so that a supervisor is small where it is moved.
    pub end: Box<KeptEnd>,
    /// What the authority says of release speed monitoring.
    pub release: Option<Release>,
}

impl Kept {
    /// What is to be kept of a profile under no restriction and an authority. Takes the room for all falls that there
    /// may be, and for the end of an authority.
    pub fn begin(
        alloc: Global,
        braking: &Braking,
        profile: &Profile,
        authority: &Authority,
    ) -> Result<Kept, NoMemory>
        requires authority { authority_fault braking.now.track.length_cm authority.now ≡ None }
        requires bare { profile.now.restrictions ≡ finite.empty }
        ensures { IfOk result (IsKept braking.now profile.now authority.now) }
    {
        let falls = KeptFalls::begin(alloc, braking, profile)?;
        let end = Box::new(alloc, braking.keep_end(authority))?;
        let release = braking.release(authority, &end);
        Ok(Kept {
            falls,
            end,
            release,
        })
    }

    /// Keeps what a new authority asks for; the falls stay.
    pub fn take_authority(&mut self, braking: &Braking, authority: &Authority)
        requires { authority_fault braking.now.track.length_cm authority.now ≡ None }
        ensures { (p : ProfileData) (before : Authority) →
            IsKept braking.now p before self.old → IsKept braking.now p authority.now self.new }
    {
        self.end.take(braking, authority);
        self.release = braking.release(authority, &self.end);
    }

    /// Keeps what a profile asks for that a restriction has come to; the end of the authority stays.
    pub fn restrict(&mut self, braking: &Braking, profile: &Profile, r: Restriction)
        requires before { IsRestricted profile.now r self.old.falls }
        requires held { IsHeldRestriction r }
        requires curves { All (IsKeptZone braking.now) self.old.falls.zones }
        ensures { (p : ProfileData) (a : Authority) →
            IsKept braking.now p a self.old → IsKept braking.now profile.now a self.new }
    {
        self.falls.restrict(braking, profile, r);
    }

    /// Keeps what a profile asks for that restrictions have come to, where none was in force before; the end of the
    /// authority stays.
    pub fn take_restrictions(&mut self, braking: &Braking, profile: &Profile)
        requires before { AreZonesOf (record profile.now { restrictions = finite.empty }) self.old.falls }
        requires curves { All (IsKeptZone braking.now) self.old.falls.zones }
        ensures { (p : ProfileData) (a : Authority) →
            IsKept braking.now p a self.old → IsKept braking.now profile.now a self.new }
    {
        self.falls.take_restrictions(braking, profile);
    }

    /// Keeps what a profile asks for that a restriction has gone from; the end of the authority stays.
    pub fn revoke(&mut self, braking: &Braking, profile: &Profile, id: u16)
        requires before { IsRevoked profile.now id self.old.falls }
        requires curves { All (IsKeptZone braking.now) self.old.falls.zones }
        ensures { (p : ProfileData) (a : Authority) →
            IsKept braking.now p a self.old → IsKept braking.now profile.now a self.new }
    {
        self.falls.revoke(braking, profile, id);
    }
}

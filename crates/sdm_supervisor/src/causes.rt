//! Why a sight triggers, and how each command stands: the first target that is passed by each of its limits, and with
//! it the first cause of each trigger.

ghost use Rattle.std.specs.Prelude.{◌≡◌, ◌++◌, ◌∷◌, [], List};
ghost use Rattle.sdm_rules.specs.declared.targets.Target.{Target};
ghost use Rattle.sdm_rules.specs.Limits.{computed, limits_of};
ghost use Rattle.sdm_limits.specs.Sides.{places_of};
ghost use Rattle.sdm_braking.specs.Asked.{IsAsked};
ghost use Rattle.sdm_braking.specs.KeptCurves.{IsKeptTarget};
ghost use Rattle.sdm_rules.specs.Triggers.{above_release};
ghost use Rattle.sdm_causes.specs.declared.causes.Cause.TheVariants.{ReleaseSpeed};
ghost use Rattle.sdm_causes.specs.Causes.{by_limit, causes_in, emergency_by, emergency_until, standing, where_so};
ghost use Rattle.sdm_supervisor.specs.Passed.{first_among};

use crate::sight::Sight;
use crate::verdicts::front_for;
use crate::walks::Walk;
use sdm_braking::{AskedEstimate, KeptTarget};
use sdm_causes::{Cause, Causes, PassedTarget, Standing, Until};
use sdm_limits::Limits;
use sdm_rules::{LimitKind, LimitName};
use sdm_state::Held;

/// The first target that is passed by each of its limits, if one is. (own)
#[derive(Clone, Copy, Debug, PartialEq, Eq)]
pub struct FirstPassed {
    pub permitted: Option<PassedTarget>,
    pub warning: Option<PassedTarget>,
    pub sbi: Option<PassedTarget>,
    pub ebi: Option<PassedTarget>,
}

/// Of no target none is passed. (own)
const NONE_PASSED: FirstPassed = FirstPassed {
    permitted: None,
    warning: None,
    sbi: None,
    ebi: None,
};

/// Asks targets for the first that is passed by each of its limits. (own)
#[derive(Drop)]
struct Explaining;

impl Walk for Explaining {
    ghost use Rattle.sdm_supervisor.specs.Passed.{AreFirst};

    type Found = FirstPassed;

    ghost is_found = { λ x seen e ts first. AreFirst seen e ts first };

    fn meet(
        &self,
        sight: &Sight<'_>,
        asked: &AskedEstimate,
        kept: &KeptTarget,
        found: &mut FirstPassed,
    ) {
        // No margin makes a target's speed lower: at or below it none of its limits is passed.
        if asked.estimate.speed() <= kept.speeds.permitted {
            return;
        }
        let limits = sight.braking.limits(asked, kept);
        found.permitted = sight.or_passed(
            found.permitted,
            LimitKind::Permitted,
            asked,
            kept,
            &limits,
        );
        found.warning = sight.or_passed(found.warning, LimitKind::Warning, asked, kept, &limits);
        found.sbi = sight.or_passed(found.sbi, LimitKind::Sbi, asked, kept, &limits);
        found.ebi = sight.or_passed(found.ebi, LimitKind::Ebi, asked, kept, &limits);
    }
}

/// A cause, where it stands. (own)
fn where_so(stands: bool, cause: Cause) -> Option<Cause>
    ensures { result ≡ where_so stands cause }
{
    if stands { Some(cause) } else { None }
}

/// How a command stands that is commanded or not, where a cause of it stands or not. (own)
fn standing(is_commanded: bool, is_caused: bool, until: Until) -> Standing
    ensures { result ≡ standing is_commanded is_caused until }
{
    if !is_commanded {
        return Standing::Off;
    }
    if is_caused {
        return Standing::Set;
    }
    Standing::Held(until)
}

/// What releases the emergency command, where early release is permitted or not. (SUBSET-026-3 3.13.10)
fn emergency_until(has_early_release: bool) -> Until
    ensures { result ≡ emergency_until has_early_release }
{
    if has_early_release {
        Until::StandstillOrPermittedSpeed
    } else {
        Until::Standstill
    }
}

impl Sight<'_> {
    /// The target that was found so far, else this one, where it is passed by its limit of a kind. (SUBSET-026-3
    /// 3.13.10.4; own)
    fn or_passed(
        &self,
        found: Option<PassedTarget>,
        kind: LimitKind,
        asked: &AskedEstimate,
        kept: &KeptTarget,
        limits: &Limits,
    ) -> Option<PassedTarget>
        requires kept { IsKeptTarget self.now.train_and_track kept.now }
        requires limits { places_of limits.now
            ≡ limits_of computed self.now.train_and_track asked.now.estimate kept.now.target }
        ensures { (ts : List Target) → found ≡ first_among kind self.now asked.now.estimate ts →
            result ≡ first_among kind self.now asked.now.estimate (ts ++ kept.now.target ∷ []) }
    {
        if found.is_some() {
            return found;
        }
        if asked.estimate.speed() <= kept.speeds.speed(kind) {
            return found;
        }
        let Some(limit) = limits.limit(kind) else {
            return found;
        };
        let target = &kept.target;
        if !limit.is_passed_by(front_for(self.reading, target.kind)) {
            return found;
        }
        Some(PassedTarget {
            kind: target.kind,
            place: target.place.mm_below(),
            speed: target.speed,
            limit: limit.at().mm_below(),
        })
    }

    /// The first cause by which the limit of a kind is passed: the ceiling, else this target. (SUBSET-026-3 3.13.10;
    /// own)
    fn by_limit(&self, kind: LimitKind, target: Option<PassedTarget>) -> Option<Cause>
        ensures { result ≡ by_limit kind self.now.situation target }
    {
        if self.is_above_ceiling(kind, self.reading.speed_mm_s()) {
            return Some(Cause::Ceiling);
        }
        match target {
            Some(target) => Some(Cause::Passed(target)),
            None => None,
        }
    }

    /// The release speed as a cause, where the speed is above it. (SUBSET-026-3 3.13.10.5; own)
    fn by_release_speed(&self) -> Option<Cause>
        ensures { result ≡ where_so (above_release self.now.situation) ReleaseSpeed }
    {
        let is_above = self.is_above_release(LimitName::Ebi, self.reading.speed_mm_s());
        where_so(is_above, Cause::ReleaseSpeed)
    }

    /// The first cause of an emergency, by the causes of an EBI and of an SBI that is passed. (SUBSET-026-3 3.13.10;
    /// own)
    fn emergency(&self, ebi: Option<Cause>, sbi: Option<Cause>) -> Option<Cause>
        ensures { result ≡ emergency_by self.now.situation ebi sbi }
    {
        let is_unbraked = sbi.is_some() & !self.in_use;
        ebi.or(where_so(self.past_end, Cause::EndOfAuthority))
            .or(self.by_release_speed())
            .or(where_so(is_unbraked, Cause::NoServiceBrake))
    }

    /// Why what is seen triggers, and how each of these commands stands. No memory is taken. (SUBSET-026-3 3.13.10;
    /// own)
    pub fn causes(&self, commands: Held) -> Causes
        ensures { result ≡ causes_in self.now.train_and_track commands self.now.reading self.now.situation }
    {
        let asked = self.braking.asked(self.reading.estimate());
        let mut first = NONE_PASSED;
        self.walk(&Explaining, &asked, &mut first);
        let over = self.by_limit(LimitKind::Permitted, first.permitted);
        let warn = self.by_limit(LimitKind::Warning, first.warning);
        let serv = self.by_limit(LimitKind::Sbi, first.sbi);
        let emer = self.emergency(self.by_limit(LimitKind::Ebi, first.ebi), serv);
        let is_cut_off = warn.is_some() | serv.is_some() | emer.is_some();
        Causes {
            time: self.reading.time(),
            over: over.or(self.by_release_speed()),
            warn,
            serv,
            emer,
            tco: standing(commands.tco, is_cut_off, Until::PermittedSpeed),
            sb: standing(commands.sb, serv.is_some(), Until::PermittedSpeed),
            eb: standing(
                commands.eb,
                emer.is_some(),
                emergency_until(self.braking.has_early_release()),
            ),
        }
    }
}

//! What is shown of a sight: the limits that the train would pass at another speed, and the target that counts.

ghost use Rattle.std.specs.Prelude.{◌≡◌, ◌<◌, ◌≤◌, ◌&&◌, All, length, map};
ghost use Rattle.sdm_rules.specs.Display.{counts_release, kind_of, passes_limit, shown_target, situation_at};
ghost use Rattle.sdm_rules.specs.Ranges.{top_kmh};
ghost use Rattle.sdm_rules.specs.Limits.{computed, limits_of};
ghost use Rattle.sdm_rules.specs.Triggers.{above_ceiling, above_release};
ghost use Rattle.sdm_braking.specs.Asked.{IsAsked};
ghost use Rattle.sdm_braking.specs.KeptFalls.{IsKeptFall, target_of};
ghost use Rattle.sdm_supervisor.specs.AskedFalls.{AreNoneEarlier};
ghost use Rattle.sdm_supervisor.specs.Sights.{AreFallsHidden, IsCounting};

use crate::sight::Sight;
use crate::verdicts::front_for;
use crate::walks::Walk;
use sdm_braking::{AskedEstimate, Braking, FallsAhead, KeptTarget, SpeedLimits};
use sdm_hiding::none_before_to;
use sdm_num::{Place, Speed};
use sdm_rules::{LimitKind, LimitName, Shown};
use sdm_targets::Target;

/// The target that counts so far, with its permitted limit. (own)
#[derive(Clone, Copy, Debug, PartialEq, Eq)]
pub struct Counting {
    pub target: Target,
    pub permitted: Place,
}

/// Which supervision limit is told as a speed.
fn kind_of(name: LimitName) -> LimitKind
    ensures { result ≡ kind_of name }
{
    match name {
        LimitName::Permitted => LimitKind::Permitted,
        LimitName::Sbi => LimitKind::Sbi,
        LimitName::Ebi => LimitKind::Ebi,
    }
}

/// Asks targets whether one of them is passed by its limit of a kind. (own)
#[derive(Drop)]
struct Passing {
    kind: LimitKind,
}

impl Walk for Passing {
    ghost use Rattle.std.specs.Prelude.{◌≡◌};
    ghost use Rattle.sdm_supervisor.specs.Sights.{some_target_passed};

    type Found = bool;

    ghost is_found = { λ p seen e ts passed. passed ≡ some_target_passed p.kind seen e ts };

    fn meet(&self, sight: &Sight<'_>, asked: &AskedEstimate, kept: &KeptTarget, found: &mut bool) {
        if *found || asked.estimate.speed() <= kept.speeds.speed(self.kind) {
            return;
        }
        if let Some(limit) = sight.braking.limits(asked, kept).limit(self.kind) {
            *found = limit.is_passed_by(front_for(sight.reading, kept.target.kind));
        }
    }

    /// None of its limits is passed.
    #[inline(always)]
    fn meet_faster(
        &self,
        _sight: &Sight<'_>,
        _asked: &AskedEstimate,
        _kept: &KeptTarget,
        _found: &mut bool,
    ) {}
}

/// Asks targets for the one that counts. (own)
#[derive(Drop)]
struct Choosing;

impl Walk for Choosing {
    ghost use Rattle.sdm_rules.specs.Limits.{computed, limits_of};
    ghost use Rattle.sdm_supervisor.specs.Sights.{IsCounting};

    type Found = Option<Counting>;

    ghost is_found = { λ c seen e ts counting.
        IsCounting (λ t. (limits_of computed seen.train_and_track e t).permitted) e.speed ts counting };

    /// The target that counted so far goes on counting, or this one does, where its permitted limit is earlier; one
    /// that is as fast as the train doesn't count. (own)
    fn meet(
        &self,
        sight: &Sight<'_>,
        asked: &AskedEstimate,
        kept: &KeptTarget,
        found: &mut Option<Counting>,
    ) {
        if asked.estimate.speed() <= kept.speeds.permitted {
            return;
        }
        let permitted = sight.braking.limits(asked, kept).permitted.at();
        let is_earlier = match &*found {
            Some(counting) => permitted.grains() < counting.permitted.grains(),
            None => true,
        };
        if !is_earlier {
            return;
        }
        *found = Some(Counting {
            target: kept.target,
            permitted,
        });
    }
}

/// The index up to which no fall is before the one at an index, at any speed: neither by its EBD nor, where guidance is
/// permitted, by its guidance curve. (own)
fn none_earlier_to<'a>(
    braking: &'a Braking,
    falls: &FallsAhead<'a>,
    brake_steps: &[usize],
    guide_steps: &[usize],
    i: usize,
) -> usize
    requires falls { All (IsKeptFall braking.now) falls.now }
    requires hidden { AreFallsHidden braking.now (map target_of falls.now) brake_steps.now guide_steps.now }
    requires known { i < length falls.now }
    ensures further { i < result }
    ensures inside { result ≤ length falls.now }
    ensures after { AreNoneEarlier braking.now (map target_of falls.now) i result }
{
    let braked = none_before_to(&falls.brakes(braking), brake_steps, i);
    if !braking.has_guidance() {
        return braked;
    }
    let guided = none_before_to(&falls.guides(braking), guide_steps, i);
    if guided < braked { guided } else { braked }
}

impl Sight<'_> {
    /// Whether a speed is above the ceiling with the margin of a limit. (SUBSET-026-3 3.13.10.3)
    pub(crate) fn is_above_ceiling(&self, kind: LimitKind, v: Speed) -> bool
        ensures { result ≡ above_ceiling kind (situation_at v self.now.situation) }
    {
        // No margin makes the ceiling lower.
        Speed::of_kmh(self.ceiling_kmh) < v && SpeedLimits::of_kmh(self.ceiling_kmh).speed(kind) < v
    }

    /// Whether the release speed counts as the limit, and a speed is above it. (SUBSET-026-3 3.13.10.5)
    pub(crate) fn is_above_release(&self, name: LimitName, v: Speed) -> bool
        ensures { result ≡ (counts_release name && above_release (situation_at v self.now.situation)) }
    {
        match (name, self.release_kmh) {
            (LimitName::Permitted | LimitName::Ebi, Some(kmh)) => Speed::of_kmh(kmh) < v,
            (LimitName::Sbi, _) | (_, None) => false,
        }
    }

    /// Whether the train would pass a limit at a speed in km/h, at most 500, in place of the reading's, all else as in
    /// the reading. As the EBI counts that of the ceiling, of a target or the release speed, but neither an EOA that is
    /// passed nor an SBI without a service brake. No memory is taken. (SUBSET-026-3 3.13.10; own)
    #[tactic(auto, unfolding(sdm_rules::specs::Display::passes_limit))]
    pub fn would_pass(&self, name: LimitName, kmh: u16) -> bool
        requires { kmh ≤ top_kmh }
        ensures { result ≡ passes_limit self.now.train_and_track self.now.reading self.now.situation name kmh }
    {
        let v = Speed::of_kmh(kmh);
        let kind = kind_of(name);
        if self.is_above_ceiling(kind, v) || self.is_above_release(name, v) {
            return true;
        }
        let asked = self.braking.asked(self.reading.estimate().with_speed(v));
        let mut passed = false;
        self.walk_few(&Passing { kind }, &asked, &mut passed);
        passed
    }

    /// The target that counts, of all. (own)
    fn counting(&self, asked: &AskedEstimate) -> Option<Counting>
        requires asked { IsAsked self.now.train_and_track asked.now }
        ensures { IsCounting (λ t. (limits_of computed self.now.train_and_track asked.now.estimate t).permitted)
            asked.now.estimate.speed self.now.situation.targets result }
    {
        let mut counting = None;
        let mut at = 0;
        let count = self.falls.len();
        'falls: while at < count {
            let kept = self.falls.target(at);
            Choosing.meet(self, asked, kept, &mut counting);
            at = if kept.speeds.permitted < asked.estimate.speed() {
                none_earlier_to(
                    self.braking,
                    &self.falls,
                    self.brake_steps,
                    self.guide_steps,
                    at,
                )
            } else {
                at + 1
            };
        }
        self.walk_end(self.end, &Choosing, asked, &mut counting);
        counting
    }

    /// The target that counts: of those that are slower than the train the first whose permitted limit is least, with
    /// its speed and its distance; none where no target is slower. No memory is taken. (own)
    pub fn shown(&self) -> Option<Shown>
        ensures { result ≡ shown_target self.now.train_and_track self.now.reading self.now.situation }
    {
        let asked = self.braking.asked(self.reading.estimate());
        let Counting { target, .. } = self.counting(&asked)?;
        Some(Shown {
            kind: target.kind,
            speed: target.speed,
            distance: target.place.mm_past(front_for(self.reading, target.kind)),
        })
    }
}

//! The walk over the targets of a sight: the falls ahead, and behind them the targets at the end of the authority.

ghost use Rattle.std.specs.Prelude.{◌≡◌, ◌<◌, ◌≤◌, ◌++◌, ◌∷◌, [], ℕ, All, List, is_some, length, map};
ghost use Rattle.sdm_num.specs.Readings.{Estimate};
ghost use Rattle.sdm_rules.specs.declared.targets.Target.{Target};
ghost use Rattle.sdm_rules.specs.Slopes.{IsUsable};
ghost use Rattle.sdm_rules.specs.Targets.{target_speed};
ghost use Rattle.sdm_hiding.specs.Asking.{AreFeet};
ghost use Rattle.sdm_hiding.specs.Hiding.{AreHiddenFrom};
ghost use Rattle.sdm_braking.specs.Asked.{IsAsked};
ghost use Rattle.sdm_braking.specs.KeptCurves.{AreKept, IsKeptTarget, targets_in};
ghost use Rattle.sdm_braking.specs.KeptFalls.{IsKeptFall, target_of};
ghost use Rattle.sdm_supervisor.specs.AskedFalls.{IsFoundInRow, IsFoundOfFaster, IsFoundOfFew};
ghost use Rattle.sdm_supervisor.specs.Sights.{Seen};

use crate::sight::Sight;
use sdm_braking::{AskedEstimate, FallsAhead, KeptEnd, KeptTarget};
use sdm_hiding::{Asking, Feet};

/// The least EBI margin: 7.5 km/h, in notches. (SUBSET-026-3 3.13.9.2)
const LEAST_EBI_MARGIN: u32 = 112_500;

/// What is asked of targets, one after the other, each of which adds to what was found of those before it. (own)
pub trait Walk {
    /// What is found of targets.
    type Found;

    /// This was found of some targets, by an estimate.
    ghost is_found: { Self → Seen → Estimate → List Target → Self.Found → Type 0 };

    /// Adds what one more target gives.
    fn meet(
        &self,
        sight: &Sight<'_>,
        asked: &AskedEstimate,
        kept: &KeptTarget,
        found: &mut Self::Found,
    )
        requires asked { IsAsked sight.now.train_and_track asked.now }
        requires kept { IsKeptTarget sight.now.train_and_track kept.now }
        ensures { (ts : List Target) → is_found self.now sight.now asked.now.estimate ts found.old →
            is_found self.now sight.now asked.now.estimate (ts ++ kept.now.target ∷ []) found.new };

    /// Adds what one more target gives that is faster than the train.
    #[inline(always)]
    fn meet_faster(
        &self,
        sight: &Sight<'_>,
        asked: &AskedEstimate,
        kept: &KeptTarget,
        found: &mut Self::Found,
    )
        requires asked { IsAsked sight.now.train_and_track asked.now }
        requires kept { IsKeptTarget sight.now.train_and_track kept.now }
        requires faster { asked.now.estimate.speed < target_speed kept.now.target }
        ensures { (ts : List Target) → is_found self.now sight.now asked.now.estimate ts found.old →
            is_found self.now sight.now asked.now.estimate (ts ++ kept.now.target ∷ []) found.new }
    {
        self.meet(sight, asked, kept, found);
    }
}

impl Sight<'_> {
    /// Asks all targets. In release speed monitoring the EOA and the SvL are none. (SUBSET-026-3 3.13.8.2; own)
    #[inline(always)]
    pub(crate) fn walk<W: Walk>(&self, walk: &W, asked: &AskedEstimate, found: &mut W::Found)
        requires asked { IsAsked self.now.train_and_track asked.now }
        requires first { W.is_found walk.now self.now asked.now.estimate [] found.old }
        ensures { W.is_found walk.now self.now asked.now.estimate self.now.situation.targets found.new }
    {
        for i in 0..self.falls.len() {
            walk.meet(self, asked, self.falls.target(i), found);
        }
        self.walk_end(self.end, walk, asked, found);
    }

    /// Asks the targets at the end of an authority, behind others. In release speed monitoring the EOA and the SvL are
    /// none. (SUBSET-026-3 3.13.8.2; own)
    #[inline(always)]
    pub(crate) fn walk_end<W: Walk>(
        &self,
        end: &KeptEnd,
        walk: &W,
        asked: &AskedEstimate,
        found: &mut W::Found,
    )
        requires asked { IsAsked self.now.train_and_track asked.now }
        requires kept { AreKept self.now.train_and_track end.now }
        ensures { (before : List Target) → W.is_found walk.now self.now asked.now.estimate before found.old →
            W.is_found walk.now self.now asked.now.estimate
            (before ++ targets_in end.now (is_some self.now.situation.release)) found.new }
    {
        match end {
            KeptEnd::Stop { eoa, svl } => {
                if self.release_kmh.is_none() {
                    walk.meet(self, asked, eoa, found);
                    walk.meet(self, asked, svl, found);
                }
            }
            KeptEnd::Limit { loa } => walk.meet(self, asked, loa, found),
        }
    }

    /// Asks the few targets that are enough: the falls that no other one hides by its EBD, or by its guidance curve
    /// where guidance is permitted; the faster ones; and the targets at the end of the authority. (SUBSET-026-3
    /// 3.13.8.2; own)
    #[inline(always)]
    pub(crate) fn walk_few<W: Walk>(&self, walk: &W, asked: &AskedEstimate, found: &mut W::Found)
        requires asked { IsAsked self.now.train_and_track asked.now }
        requires first { W.is_found walk.now self.now asked.now.estimate [] found.old }
        ensures { IsFoundOfFew self.now asked.now.estimate
            (λ ts. W.is_found walk.now self.now asked.now.estimate ts found.new) }
    {
        let falls = &self.falls;
        let brakes = falls.brakes(self.braking);
        self.walk_row(falls, &brakes, self.brake_steps, walk, asked, found);
        if self.braking.has_guidance() {
            let guides = falls.guides(self.braking);
            self.walk_row(falls, &guides, self.guide_steps, walk, asked, found);
        }
        self.walk_faster(falls, walk, asked, found);
        self.walk_end(self.end, walk, asked, found);
    }

    /// Asks the falls whose curves no other one of a row hides, behind other targets. (own)
    fn walk_row<W: Walk, F: Feet>(
        &self,
        falls: &FallsAhead<'_>,
        row: &F,
        steps: &[usize],
        walk: &W,
        asked: &AskedEstimate,
        found: &mut W::Found,
    )
        requires asked { IsAsked self.now.train_and_track asked.now }
        requires falls { All (IsKeptFall self.now.train_and_track) falls.now }
        requires row { length (F.feet row.now) ≡ length falls.now }
        requires usable { IsUsable (F.on row.now) }
        requires hidden { AreHiddenFrom (F.on row.now) (F.feet row.now) steps.now 0 }
        requires room { length (F.feet row.now) ≤ length steps.now }
        ensures { (margin bec : ℕ) (before : List Target) → AreFeet margin (F.feet row.now) →
            asked.now.estimate.speed ≤ bec → W.is_found walk.now self.now asked.now.estimate before found.old →
            IsFoundInRow (F.on row.now) (F.feet row.now) margin asked.now.estimate.speed bec (map target_of falls.now)
            before (λ ts. W.is_found walk.now self.now asked.now.estimate ts found.new) }
    {
        let v_est = asked.estimate.speed();
        let mut asking = Asking::begin(v_est);
        'curves: while let Some(i) = asking.next(row, steps, v_est) {
            walk.meet(self, asked, falls.target(i), found);
        }
    }

    /// Asks the falls that are faster than the train, behind other targets, where not each of them is met by speed: up
    /// to a gain of 7.5 km/h it is, as no EBI margin is less. (own)
    fn walk_faster<W: Walk>(
        &self,
        falls: &FallsAhead<'_>,
        walk: &W,
        asked: &AskedEstimate,
        found: &mut W::Found,
    )
        requires asked { IsAsked self.now.train_and_track asked.now }
        requires falls { All (IsKeptFall self.now.train_and_track) falls.now }
        ensures { (before : List Target) → W.is_found walk.now self.now asked.now.estimate before found.old →
            IsFoundOfFaster self.now.train_and_track asked.now.estimate (map target_of falls.now) before
            (λ ts. W.is_found walk.now self.now asked.now.estimate ts found.new) }
    {
        let v_est = asked.estimate.speed();
        if asked.v_bec.speed().notches() <= v_est.notches() + LEAST_EBI_MARGIN {
            return;
        }
        for i in 0..falls.len() {
            let kept = falls.target(i);
            if v_est < kept.speeds.permitted {
                walk.meet_faster(self, asked, kept, found);
            }
        }
    }
}

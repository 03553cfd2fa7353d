//! What a reading asks of a row of curves.

ghost use Rattle.std.specs.Prelude.{◌≡◌, ◌<◌, ◌≤◌, ◌++◌, ◌∷◌, [], ℕ, List, IfSome, MatchOption, length};
ghost use Rattle.sdm_rules.specs.Slopes.{Slopes, IsUsable};
ghost use Rattle.sdm_hiding.specs.Hiding.{AreHiddenFrom};

use crate::hidden::hider;
use crate::rows::{Feet, Foot};
use sdm_num::Speed;

/// A walk over a row of curves that names those that have to be asked. (own)
#[derive(Clone, Copy, Debug, PartialEq, Eq)]
pub struct Asking {
    /// The index that is looked at next.
    pub at: usize,
    /// No curve further on with a target speed of so many notches or more has to be asked.
    pub slowest: u32,
}

impl Asking {
    ghost use Rattle.sdm_hiding.specs.Asking.{AreFeet, IsEnough, IsWalkedTo};

    /// Before the first curve, at a speed of the train.
    pub fn begin(v: Speed) -> Asking
        ensures { (on : Slopes) (feet : List Foot) (margin bec : ℕ) → IsWalkedTo on feet margin v bec [] result }
    {
        Asking {
            at: 0,
            slowest: v.notches() + 1,
        }
    }

    /// The index of the next curve that has to be asked, if there is one. A curve whose target is no slower than one
    /// that was asked is passed over; from a slow one that is hidden the walk goes to what hides it.
    pub fn next<F: Feet>(&mut self, feet: &F, steps: &[usize], v: Speed) -> Option<usize>
        requires usable { IsUsable (F.on feet.now) }
        requires hidden { AreHiddenFrom (F.on feet.now) (F.feet feet.now) steps.now 0 }
        requires room { length (F.feet feet.now) ≤ length steps.now }
        ensures further { IfSome result (λ i.
            (self.old.at ≤ i) × (i < length (F.feet feet.now)) × (i < self.new.at)) }
        ensures asks { (margin bec : ℕ) (asked : List ℕ) → AreFeet margin (F.feet feet.now) → v ≤ bec →
            IsWalkedTo (F.on feet.now) (F.feet feet.now) margin v bec asked self.old →
            MatchOption result (IsEnough (F.on feet.now) (F.feet feet.now) v bec asked) (λ i.
            IsWalkedTo (F.on feet.now) (F.feet feet.now) margin v bec (asked ++ i ∷ []) self.new) }
    {
        let count = feet.len();
        'row: while self.at < count {
            let i = self.at;
            let foot = feet.foot(i);
            if foot.permitted.notches() >= self.slowest {
                self.at = i + 1;
                continue;
            }
            if v <= foot.speed {
                self.slowest = foot.permitted.notches();
                self.at = i + 1;
                return Some(i);
            }
            self.at = hider(steps[i], i, count);
            if self.at == count {
                return Some(i);
            }
        }
        None
    }
}

//! Places that rounding left on one side of the exact one. `Early` is never past what it stands for, `Late` never
//! before it. There is no way from one to the other: handing one where the other is asked does not compile.

ghost use Rattle.std.specs.Prelude.{◌≡◌, ℕ, ℤ, pos, neg_ℤ, IsTrue, ◌↔◌, ◌≤◌, ◌<◌, ◌*ℤ◌, ◌+ℤ◌, ◌≤ℤ◌, ◌<ℤ◌, ◌+◌, ◌^◌};
ghost use Rattle.std.specs.Prelude.{min};
ghost use Rattle.sdm_num.specs.Units.{IsPlace};
ghost use Rattle.sdm_num.specs.Fractions.{Fraction, greater, less, lesser, more, whole};
ghost use Rattle.sdm_num.specs.Bounds.{Bound, IsEarlyFor, IsLateFor, IsResultOf, IsResultOfTwo, earlier_of, later_of};
ghost use Rattle.sdm_num.specs.Bounds.{mm_above, mm_below, most_room};

use crate::places::Place;
use std::marker::Model;

/// The slack that is left of a bound beside another one that lies so many grains on its safe side.
fn slack_of_both(slack: u32, apart: u64, other: u32) -> u32
    requires { apart < 2 ^ 63 + 2 ^ 62 }
    ensures { result ≡ min slack (apart + other) }
{
    u64::from(slack).min(apart + u64::from(other)) as u32
}

/// A place and its slack: it stands for every exact place from `at` to `at + slack`. (own)
#[derive(Clone, Copy, Debug, PartialEq, Eq)]
pub struct Early {
    at: Place,
    slack: u32,
}

impl Model for Early {
    ghost Value = { Bound };

    ghost view = { λ e. record { at = e.at; slack = e.slack } };

    ghost invariant = { λ e. e.slack ≤ most_room };

    ghost inverse = { λ b. record { at = b.at; slack = b.slack } };
}

impl Early {
    /// The place itself.
    pub fn exact(p: Place) -> Early
        ensures value { result ≡ record { at = p; slack = 0 } }
        ensures stands { IsEarlyFor result (whole p) }
    {
        Early { at: p, slack: 0 }
    }

    /// A place with a slack of at most a millimetre, in grains.
    pub fn new(at: Place, slack: u32) -> Early
        requires { slack ≤ most_room }
        ensures { result ≡ record { at = at; slack = slack } }
    {
        Early { at, slack }
    }

    /// The place.
    pub fn at(self) -> Place
        ensures { result ≡ self.at }
    {
        self.at
    }

    /// The slack in grains.
    pub fn slack(self) -> u32
        ensures value { result ≡ self.slack }
        ensures range { self.slack ≤ most_room }
    {
        self.slack
    }

    /// So many grains earlier.
    pub fn less(self, grains: u64) -> Early
        requires { IsPlace (self.at +ℤ neg_ℤ (pos grains)) }
        ensures value { result ≡ record self { at = self.at +ℤ neg_ℤ (pos grains) } }
        ensures stands { (x : Fraction) → IsEarlyFor self x → IsEarlyFor result (less x grains) }
        ensures only { (z : Fraction) → IsEarlyFor result z → IsResultOf (IsEarlyFor self) (λ x. less x grains) z }
    {
        Early {
            at: self.at.less(grains),
            slack: self.slack,
        }
    }

    /// The bound of the lesser of two exact places.
    pub fn earlier(self, other: Early) -> Early
        ensures value { result ≡ earlier_of self other }
        ensures stands { (x y : Fraction) → IsEarlyFor self x → IsEarlyFor other y → IsEarlyFor result (lesser x y) }
        ensures only { (z : Fraction) → IsEarlyFor result z →
            IsResultOfTwo (IsEarlyFor self) (IsEarlyFor other) lesser z }
    {
        if other.at.grains() < self.at.grains() {
            Early {
                at: other.at,
                slack: slack_of_both(other.slack, other.at.distance_to(self.at), self.slack),
            }
        } else {
            Early {
                at: self.at,
                slack: slack_of_both(self.slack, self.at.distance_to(other.at), other.slack),
            }
        }
    }

    /// True exactly where the front end lies past the place.
    pub fn is_passed_by(self, front: Place) -> bool
        ensures { IsTrue result ↔ (self.at <ℤ front) }
    {
        self.at.grains() < front.grains()
    }

    /// The place in millimetres, rounded down.
    pub fn whole_mm(self) -> i64
        ensures { result ≡ mm_below self.at }
    {
        self.at.mm_below()
    }
}

/// A place and its slack: it stands for every exact place from `at − slack` to `at`. (own)
#[derive(Clone, Copy, Debug, PartialEq, Eq)]
pub struct Late {
    at: Place,
    slack: u32,
}

impl Model for Late {
    ghost Value = { Bound };

    ghost view = { λ e. record { at = e.at; slack = e.slack } };

    ghost invariant = { λ e. e.slack ≤ most_room };

    ghost inverse = { λ b. record { at = b.at; slack = b.slack } };
}

impl Late {
    /// The place itself.
    pub fn exact(p: Place) -> Late
        ensures value { result ≡ record { at = p; slack = 0 } }
        ensures stands { IsLateFor result (whole p) }
    {
        Late { at: p, slack: 0 }
    }

    /// A place with a slack of at most a millimetre, in grains.
    pub fn new(at: Place, slack: u32) -> Late
        requires { slack ≤ most_room }
        ensures { result ≡ record { at = at; slack = slack } }
    {
        Late { at, slack }
    }

    /// The place.
    pub fn at(self) -> Place
        ensures { result ≡ self.at }
    {
        self.at
    }

    /// The slack in grains.
    pub fn slack(self) -> u32
        ensures value { result ≡ self.slack }
        ensures range { self.slack ≤ most_room }
    {
        self.slack
    }

    /// So many grains later.
    pub fn more(self, grains: u64) -> Late
        requires { IsPlace (self.at +ℤ pos grains) }
        ensures value { result ≡ record self { at = self.at +ℤ pos grains } }
        ensures stands { (x : Fraction) → IsLateFor self x → IsLateFor result (more x grains) }
        ensures only { (z : Fraction) → IsLateFor result z → IsResultOf (IsLateFor self) (λ x. more x grains) z }
    {
        Late {
            at: self.at.more(grains),
            slack: self.slack,
        }
    }

    /// The bound of the greater of two exact places.
    pub fn later(self, other: Late) -> Late
        ensures value { result ≡ later_of self other }
        ensures stands { (x y : Fraction) → IsLateFor self x → IsLateFor other y → IsLateFor result (greater x y) }
        ensures only { (z : Fraction) → IsLateFor result z →
            IsResultOfTwo (IsLateFor self) (IsLateFor other) greater z }
    {
        if self.at.grains() < other.at.grains() {
            Late {
                at: other.at,
                slack: slack_of_both(other.slack, self.at.distance_to(other.at), self.slack),
            }
        } else {
            Late {
                at: self.at,
                slack: slack_of_both(self.slack, other.at.distance_to(self.at), other.slack),
            }
        }
    }

    /// The place in millimetres, rounded up.
    pub fn whole_mm(self) -> i64
        ensures { result ≡ mm_above self.at }
    {
        self.at.mm_above()
    }
}

//! Places on the track, in one absolute coordinate.

ghost use Rattle.std.specs.Int.{int_div_euclid, int_max};
ghost use Rattle.std.specs.Prelude.{◌≡◌, ℤ, pos, negsuc, neg_ℤ, ◌+ℤ◌, ◌-ℤ◌, ◌*ℤ◌, ◌≤◌, ◌≤ℤ◌};
ghost use Rattle.sdm_num.specs.Units.{IsPlace, centimetre, place_of_mm};
ghost use Rattle.sdm_num.specs.Bounds.{mm_above, mm_below};

use std::marker::Model;

/// 540,000,000 grains: a millimetre.
pub const MILLIMETRE: i64 = 540_000_000;

/// 5,400,000,000 grains: a centimetre, the length of a cell.
pub const CELL: i64 = 5_400_000_000;

/// All places lie past this many centimetres before the origin.
const FAR_CM: i32 = 800_000_000;

/// A place in grains, of which 540,000,000 make a millimetre; within 4·10¹⁸ of the origin. (own)
#[derive(Clone, Copy, Debug, PartialEq, Eq, PartialOrd, Ord)]
pub struct Place {
    grains: i64,
}

impl Model for Place {
    ghost Value = { ℤ };

    ghost view = { λ p. p.grains };

    ghost invariant = { λ p. IsPlace p.grains };

    ghost inverse = { λ z. record { grains = z } };
}

impl Place {
    /// The place of so many grains.
    pub fn new(grains: i64) -> Place
        requires { IsPlace grains }
        ensures { result ≡ grains }
    {
        Place { grains }
    }

    /// The place of a whole centimetre.
    pub fn of_cm(cm: i32) -> Place
        requires low { negsuc 699_999_999 ≤ℤ cm }
        requires high { cm ≤ℤ pos 700_000_000 }
        ensures { result ≡ cm *ℤ pos centimetre }
    {
        Place {
            grains: i64::from(cm) * CELL,
        }
    }

    /// The place of a whole centimetre that is not before the origin.
    pub fn of_cm_from_0(cm: u32) -> Place
        requires { cm ≤ 700_000_000 }
        ensures { result ≡ pos cm *ℤ pos centimetre }
    {
        Place {
            grains: i64::from(cm) * CELL,
        }
    }

    /// The place of a whole millimetre.
    pub fn of_mm(mm: i32) -> Place
        ensures { result ≡ place_of_mm mm }
    {
        Place {
            grains: i64::from(mm) * MILLIMETRE,
        }
    }

    /// The number of grains.
    pub fn grains(self) -> i64
        ensures value { result ≡ self }
        ensures range { IsPlace self }
    {
        self.grains
    }

    /// The place so many grains before this one.
    pub fn less(self, grains: u64) -> Place
        requires { IsPlace (self +ℤ neg_ℤ (pos grains)) }
        ensures { result ≡ self +ℤ neg_ℤ (pos grains) }
    {
        Place {
            grains: (i128::from(self.grains) - i128::from(grains)) as i64,
        }
    }

    /// The place so many grains past this one.
    pub fn more(self, grains: u64) -> Place
        requires { IsPlace (self +ℤ pos grains) }
        ensures { result ≡ self +ℤ pos grains }
    {
        Place {
            grains: (i128::from(self.grains) + i128::from(grains)) as i64,
        }
    }

    /// The distance in grains to a place that is not before this one.
    pub fn distance_to(self, later: Place) -> u64
        requires { self ≤ℤ later }
        ensures { later ≡ self +ℤ pos result }
    {
        later.grains.abs_diff(self.grains)
    }

    /// The grains from 8000 km before the origin on, where no place is negative: so a place is divided without a sign,
    /// by a product.
    fn from_far(self) -> u64
        ensures { pos result ≡ self +ℤ pos 4_320_000_000_000_000_000 }
    {
        (self.grains + i64::from(FAR_CM) * CELL) as u64
    }

    /// The cell that holds the place: cell `c` begins at `c` cm. (own)
    pub fn cell(self) -> i32
        ensures { result ≡ int_div_euclid self (pos centimetre) }
    {
        (self.from_far() / CELL as u64) as i32 - FAR_CM
    }

    /// The place in millimetres, rounded down.
    pub fn mm_below(self) -> i64
        ensures { result ≡ mm_below self }
    {
        (self.from_far() / MILLIMETRE as u64) as i64 - 10 * i64::from(FAR_CM)
    }

    /// How far the place lies past another one, in millimetres rounded down; 0 where it doesn't lie past it.
    pub fn mm_past(self, other: Place) -> i64
        ensures { result ≡ int_max (mm_below (self -ℤ other)) (pos 0) }
    {
        if self.grains <= other.grains {
            return 0;
        }
        (other.distance_to(self) / MILLIMETRE as u64) as i64
    }

    /// The place in millimetres, rounded up.
    pub fn mm_above(self) -> i64
        ensures { result ≡ mm_above self }
    {
        -((-self.grains).div_euclid(MILLIMETRE))
    }
}

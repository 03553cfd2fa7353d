//! The fields of a line, read one after the other.

ghost use Rattle.std.specs.Prelude.{◌≡◌, pos, [], ◌∷◌, ◌<◌, ◌≤◌, ◌≤ℤ◌, length, option_map, All, IfSome, IfNone};
ghost use Rattle.sdm_num.specs.Units.{top_speed};
ghost use Rattle.sdm_formats.specs.Lines.{comma_fields};
ghost use Rattle.sdm_curve.specs.Maps.{AreUppers, IsSlopeBounded};
ghost use Rattle.sdm_certify.specs.Fields.{first_number, first_wide, first_word, is_end, rising_after};
ghost use Rattle.sdm_certify.specs.Fields.{slopes_after};

use arrayvec::ArrayVec;
use sdm_rules::MOST_BANDS;
use sdm_text::{natural_in, read_int, read_wide, split_field};
use std::marker::Model;

/// The furthest that a slope may be from 0, in 1/Q m/s².
const MOST_SLOPE: i64 = 1_000_000_000_000_000;

/// The fields that are left of a line.
#[derive(Drop)]
pub struct Fields<'a> {
    /// The text of those that are left.
    rest: &'a [u8],
    is_end: bool,
}

impl<'a> Model for Fields<'a> {
    ghost use Rattle.std.specs.Prelude.{ℕ, List, [], if◌then◌else◌};
    ghost use Rattle.sdm_formats.specs.Lines.{comma_fields};

    ghost Value = { List (List ℕ) };

    ghost view = { λ f. if f.is_end then [] else comma_fields f.rest.now };
}

impl<'a> Fields<'a> {
    /// All fields of a line.
    pub fn of(line: &'a [u8]) -> Fields<'a>
        ensures { result ≡ comma_fields line.now }
    {
        Fields {
            rest: line,
            is_end: false,
        }
    }

    /// Whether none is left.
    pub fn is_end(&self) -> bool
        ensures { result ≡ is_end self.now }
    {
        self.is_end
    }

    /// Takes the first one.
    fn take(&mut self) -> Option<&'a [u8]>
        ensures field { IfSome result (λ field. self.old ≡ field.now ∷ self.new) }
        ensures none { IfNone result (self.old ≡ []) }
    {
        if self.is_end {
            return None;
        }
        match split_field(self.rest) {
            Some((field, rest)) => {
                self.rest = rest;
                Some(field)
            }
            None => {
                self.is_end = true;
                Some(self.rest)
            }
        }
    }

    /// Takes the first one where it is this word; after None what is left is of no use.
    #[tactic(auto, unfolding(crate::specs::Fields::first_word))]
    pub fn word(&mut self, word: &[u8]) -> Option<()>
        ensures { option_map (λ done. (done, self.new)) result ≡ first_word word.now self.old }
    {
        let field = self.take()?;
        if field != word {
            return None;
        }
        Some(())
    }

    /// Takes the first one where it is a number from `least` to `greatest`; after None what is left is of no use.
    #[tactic(auto, unfolding(crate::specs::Fields::first_number))]
    pub fn number(&mut self, least: i64, greatest: i64) -> Option<i64>
        ensures value { option_map (λ n. (n, self.new)) result ≡ first_number least greatest self.old }
        ensures range { IfSome result (λ n. (least ≤ℤ n) × (n ≤ℤ greatest)) }
    {
        let field = self.take()?;
        let Ok(number) = read_int(field, least, greatest) else {
            return None;
        };
        Some(number)
    }

    /// The same where no number is below 0.
    #[tactic(auto, unfolding(crate::specs::Fields::first_number))]
    pub fn natural(&mut self, least: u32, greatest: u32) -> Option<u32>
        ensures value { option_map (λ n. (pos n, self.new)) result ≡ first_number (pos least) (pos greatest) self.old }
        ensures range { IfSome result (λ n. (least ≤ n) × (n ≤ greatest)) }
    {
        let field = self.take()?;
        let Ok(number) = natural_in(field, least, greatest) else {
            return None;
        };
        Some(number)
    }

    /// Takes the first one where it is a wide number up to `greatest`; after None what is left is of no use.
    #[tactic(auto, unfolding(crate::specs::Fields::first_wide))]
    pub fn wide(&mut self, greatest: u128) -> Option<u128>
        ensures value { option_map (λ n. (n, self.new)) result ≡ first_wide greatest self.old }
        ensures range { IfSome result (λ n. n ≤ greatest) }
    {
        let field = self.take()?;
        let Ok(number) = read_wide(field, greatest) else {
            return None;
        };
        Some(number)
    }

    /// Takes so many slopes; after None what is left is of no use.
    pub fn slopes(&mut self, count: u32) -> Option<ArrayVec<i64, MOST_BANDS>>
        requires few { count ≤ 10 }
        ensures value { option_map (λ slopes. (slopes.items, self.new)) result ≡ slopes_after [] count self.old }
        ensures count { IfSome result (λ slopes. length slopes.items ≡ count) }
        ensures range { IfSome result (λ slopes. All IsSlopeBounded slopes.items) }
    {
        let mut slopes = ArrayVec::new();
        for i in 0..count {
            slopes.push(self.number(-MOST_SLOPE, MOST_SLOPE)?);
        }
        Some(slopes)
    }

    /// Takes so many speeds in notches that rise from 1 to the greatest speed; after None what is left is of no use.
    pub fn speeds(&mut self, count: u32) -> Option<ArrayVec<u32, MOST_BANDS>>
        requires few { count < 10 }
        ensures value { option_map (λ v. (v.items, self.new)) result ≡ rising_after [] count 1 top_speed self.old }
        ensures count { IfSome result (λ vs. length vs.items ≡ count) }
        ensures uppers { IfSome result (λ vs. AreUppers vs.items) }
        ensures range { IfSome result (λ vs. All (λ v. v ≤ 20_000_000) vs.items) }
    {
        let mut speeds = ArrayVec::new();
        let mut least = 1;
        for i in 0..count {
            let speed = self.natural(least, 20_000_000)?;
            speeds.push(speed);
            least = speed + 1;
        }
        Some(speeds)
    }
}

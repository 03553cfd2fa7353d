//! What the decelerations of a front end rest on, beside its speed band.

ghost use Rattle.std.specs.Prelude.{◌≡◌, ℤ, pos, neg_ℤ, map, IfOk, ◌≤ℤ◌};
ghost use Rattle.sdm_rules.specs.Decelerations.{under_train};
ghost use Rattle.sdm_rules.specs.Ranges.{steepest};
ghost use Rattle.sdm_track.specs.Segments.{AreSegments, segment_gradient};
ghost use Rattle.sdm_decel.specs.StretchCells.{AreGradientsUnder};

use sdm_num::NoMemory;
use sdm_track::{Segments, Track};
use std::alloc::Global;
use std::marker::Model;

/// The track under the train: the lowest gradient from its rear end to its front end, in tenths of a per mille
/// (SUBSET-026-3 3.13.4.2), whether reduced adhesion is in force, and whether the special brake is not used
/// (3.13.6.2).
#[derive(Clone, Copy)]
pub struct Under {
    grad: i64,
    reduced: bool,
    unaided: bool,
}

impl Model for Under {
    ghost use Rattle.std.specs.Prelude.{neg_ℤ, ◌≤ℤ◌};
    ghost use Rattle.sdm_rules.specs.Decelerations.{UnderTrain};
    ghost use Rattle.sdm_rules.specs.Ranges.{steepest};

    ghost Value = { UnderTrain };

    ghost view = { λ u. record { grad = u.grad; reduced = u.reduced; unaided = u.unaided } };

    ghost invariant = { λ u. (neg_ℤ steepest ≤ℤ u.grad) × (u.grad ≤ℤ steepest) };

    ghost inverse = { λ u. record { grad = u.grad; reduced = u.reduced; unaided = u.unaided } };
}

impl Under {
    /// The track under a train of this length in cm with its front end in the cell.
    pub fn at(track: &Track, segments: &Segments, length_cm: u32, cell: i32) -> Under
        requires { AreGradientsUnder track.now length_cm segments.now }
        ensures { result ≡ under_train track.now (pos length_cm) cell }
    {
        Under {
            grad: i64::from(segments.at(cell)),
            reduced: track.reduced(cell, length_cm),
            unaided: track.unaided(cell, length_cm),
        }
    }

    /// The track under the train with its front end in each of the cells.
    pub fn at_each(
        alloc: Global,
        track: &Track,
        segments: &Segments,
        length_cm: u32,
        cells: &[i32],
    ) -> Result<Vec<Under>, NoMemory>
        requires { AreGradientsUnder track.now length_cm segments.now }
        ensures { IfOk result (λ v. v.items ≡ map (under_train track.now (pos length_cm)) cells.now) }
    {
        let mut unders = Vec::new(alloc);
        for cell in cells {
            unders.push(Under::at(track, segments, length_cm, *cell))?;
        }
        Ok(unders)
    }

    /// The gradient in tenths of a per mille, uphill positive.
    pub fn grad(self) -> i64
        ensures value { result ≡ self.grad }
        ensures range { (neg_ℤ steepest ≤ℤ result) × (result ≤ℤ steepest) }
    {
        self.grad
    }

    /// Whether reduced adhesion is in force.
    pub fn reduced(self) -> bool
        ensures { result ≡ self.reduced }
    {
        self.reduced
    }

    /// Whether the special brake is not used.
    pub fn unaided(self) -> bool
        ensures { result ≡ self.unaided }
    {
        self.unaided
    }
}

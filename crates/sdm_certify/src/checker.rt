//! The checker of a certificate text: it reads the map, and then claim by claim with its marks, and answers whether the
//! marks hold. It needs neither a train nor a brake curve.

ghost use Rattle.std.specs.Prelude.{◌≡◌, ◌↔◌, [], ◌≤◌, length, All, Some, None, Ok, Err, IfOk, IfErr, IfSome, IfNone};
ghost use Rattle.std.specs.Prelude.{vec_capacity, IsTrue};
ghost use Rattle.sdm_rules.specs.Certificates.{IsClaimInRange, IsMarkInRange};
ghost use Rattle.sdm_formats.specs.Input.{most_bytes};
ghost use Rattle.sdm_certify.specs.Checker.{IsBegun, IsBeginFault, IsMadeOf, IsNextAnswer, IsShown, IsStopOn};
ghost use Rattle.sdm_certify.specs.Written.{map_view};
ghost use Rattle.sdm_curve.specs.Maps.{IsMapData};
ghost use Rattle.sdm_certify.specs.Lines.{marks_after, next_claim, next_line, mark_of};

use crate::answers::{Answer, CheckFault};
use crate::forms::{claim_of, mark_of};
use crate::holding::holds;
use crate::lines::{BadLine, Lines};
use crate::map_text::{WrittenMap, read_map};
use sdm_curve::{BandMap, CurveFault};
use sdm_rules::{Claim, Mark};
use std::alloc::Global;
use std::marker::Model;

/// The most marks of a claim.
const MOST_MARKS: usize = 4_000;

/// A certificate text that is checked claim by claim.
#[derive(Drop)]
pub struct Checker<'a> {
    /// The map, if its slopes are accepted.
    made: Option<BandMap>,
    /// Room for the marks of a claim.
    marks: Vec<Mark>,
    left: Lines<'a>,
}

impl<'a> Model for Checker<'a> {
    ghost use Rattle.std.specs.Prelude.{◌≤◌, vec_capacity};
    ghost use Rattle.sdm_certify.specs.Checker.{Checking};

    ghost Value = { Checking };

    ghost view = { λ c. record { made = c.made; left = c.left } };

    ghost invariant = { λ c. 4_000 ≤ vec_capacity c.marks };
}

/// The map of what is written, if its slopes are accepted. Only memory is a fault.
fn made_of(alloc: Global, written: &WrittenMap) -> Result<Option<BandMap>, CheckFault>
    requires { IsMapData (map_view written.now) }
    ensures made { IfOk result (IsMadeOf (map_view written.now)) }
    ensures memory { IfErr result (λ fault. fault ≡ CheckFault.Memory) }
{
    match BandMap::new(
        alloc,
        written.q,
        &written.uppers,
        &written.starts,
        &written.slopes,
    ) {
        Ok(map) => Ok(Some(map)),
        Err(CurveFault::TooWeak { .. }) => Ok(None),
        Err(CurveFault::TooVaried { .. }) => Ok(None),
        Err(CurveFault::Memory) => Err(CheckFault::Memory),
    }
}

/// Reads a line `mark`.
fn read_mark(lines: &mut Lines) -> Result<Mark, BadLine>
    ensures mark { IfOk result (λ x. next_line mark_of lines.old ≡ Ok (x, lines.new)) }
    ensures bad { IfErr result (λ bad. next_line mark_of lines.old ≡ Err bad.number) }
    ensures range { IfOk result IsMarkInRange }
{
    let bad = lines.bad();
    let Some(line) = lines.take() else {
        return Err(bad);
    };
    mark_of(line).ok_or(bad)
}

/// Reads so many lines `mark`.
fn read_marks(count: u32, lines: &mut Lines, marks: &mut Vec<Mark>) -> Result<(), BadLine>
    requires few { count ≤ 4_000 }
    requires room { 4_000 ≤ vec_capacity marks.old }
    ensures marks { IfOk result (λ _. marks_after [] count lines.old ≡ Ok (marks.new.items, lines.new)) }
    ensures bad { IfErr result (λ bad. marks_after [] count lines.old ≡ Err bad.number) }
    ensures range { All IsMarkInRange marks.new.items }
    ensures room { 4_000 ≤ vec_capacity marks.new }
{
    marks.clear();
    for i in 0..count {
        let mark = read_mark(lines)?;
        let Ok(()) = marks.push(mark) else {
            unreachable!()
        };
    }
    Ok(())
}

/// Reads the next claim with its marks, if a line is left.
#[tactic(auto, unfolding(crate::specs::Lines::claim_in))]
fn read_claim(lines: &mut Lines, marks: &mut Vec<Mark>) -> Result<Option<Claim>, BadLine>
    requires room { 4_000 ≤ vec_capacity marks.old }
    ensures claim { IfOk result (λ o. IfSome o (λ claim. next_claim lines.old
        ≡ Some (Ok (record { claim = claim; marks = marks.new.items }, lines.new)))) }
    ensures end { IfOk result (λ o. IfNone o (next_claim lines.old ≡ None)) }
    ensures bad { IfErr result (λ bad. next_claim lines.old ≡ Some (Err bad.number)) }
    ensures range { IfOk result (λ o. IfSome o (λ claim. IsClaimInRange claim × All IsMarkInRange marks.new.items)) }
    ensures room { 4_000 ≤ vec_capacity marks.new }
{
    let bad = lines.bad();
    let Some(line) = lines.take() else {
        return Ok(None);
    };
    let Some(due) = claim_of(line) else {
        return Err(bad);
    };
    match read_marks(due.marks, lines, marks) {
        Ok(()) => Ok(Some(due.claim)),
        Err(bad) => Err(bad),
    }
}

/// Whether the map is not refused, and the marks hold for the claim on it.
fn is_shown(made: &Option<BandMap>, claim: &Claim, marks: &[Mark]) -> bool
    requires claim { IsClaimInRange claim.now }
    requires marks { All IsMarkInRange marks.now }
    ensures exact { IsTrue result ↔ IsShown made.now (record { claim = claim.now; marks = marks.now }) }
    ensures stops { IsTrue result → IsStopOn made.now claim.now }
{
    match made {
        Some(map) => holds(map, claim, marks),
        None => false,
    }
}

impl<'a> Checker<'a> {
    /// Reads the map of a text, and takes room for the marks of a claim. Line comes exactly where a line of the map
    /// isn't of the form due at its place or is wanting, with the first such number; Memory comes where memory is
    /// refused. A map whose slopes `BandMap::new` refuses is kept as refused: each claim is then answered no. (own)
    pub fn begin(alloc: Global, text: &'a [u8]) -> Result<Checker<'a>, CheckFault>
        requires short { length text.now ≤ most_bytes }
        ensures begun { IfOk result (IsBegun text.now) }
        ensures fault { IfErr result (IsBeginFault text.now) }
    {
        let mut left = Lines::of(text);
        let written = read_map(alloc, &mut left)?;
        let made = made_of(alloc, &written)?;
        let Ok(marks) = Vec::with_capacity(alloc, MOST_MARKS) else {
            return Err(CheckFault::Memory);
        };
        Ok(Checker { made, marks, left })
    }

    /// Reads the next claim with its marks, and answers yes exactly where the map isn't refused and the marks hold for
    /// the claim. None comes exactly where no further line is left. BadLine comes exactly where a line of this claim or
    /// of its marks isn't of the form due at its place or is wanting, with the first such number; the checker is then
    /// as it was, so that it answers the same again. No memory is taken. (own)
    pub fn claim(&mut self) -> Result<Option<Answer>, BadLine>
        ensures answer { IfOk result (λ o. IfSome o (IsNextAnswer self.old self.new)) }
        ensures end { IfOk result (λ o. IfNone o ((next_claim self.old.left ≡ None) × (self.new ≡ self.old))) }
        ensures bad { IfErr result
            (λ bad. (next_claim self.old.left ≡ Some (Err bad.number)) × (self.new ≡ self.old)) }
    {
        let mut lines = self.left.again();
        match read_claim(&mut lines, &mut self.marks) {
            Ok(Some(claim)) => {
                let yes = is_shown(&self.made, &claim, &self.marks);
                self.left = lines;
                let time = claim.time;
                Ok(Some(Answer { time, yes }))
            }
            Ok(None) => Ok(None),
            Err(bad) => Err(bad),
        }
    }
}

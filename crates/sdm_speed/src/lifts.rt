//! What a restriction that is lifted leaves. Only the steps in its zone may have another speed, so these take those of
//! the static profile and of the restrictions that are left; then a step goes that started at an end of the zone
//! alone.

ghost use Rattle.std.specs.Prelude.{◌≡◌, ◌⊎◌, ◌≤◌, ℕ, ℤ, pos, false, true, All, length, map, vec_capacity};
ghost use Rattle.sdm_rules.specs.Profile.{capped, covers, zone_of};
ghost use Rattle.sdm_rules.specs.Ranges.{longest_train};
ghost use Rattle.sdm_speed.specs.ZoneEnds.{AreAtZoneEnds, AreSpeedsAt, AreSpeedsOf, IsZoneEnd, IsEnd, IsEndOfOne};
ghost use Rattle.sdm_speed.specs.ZoneEnds.{most_steps, retaken};
ghost use Rattle.sdm_speed.specs.Held.{IsHeldRestriction};
ghost use Rattle.sdm_speed.specs.Steps.{IsStart};
ghost use Rattle.sdm_speed.specs.Speeds.{speeds_in, speeds_left};

use crate::ends::{cells_of, zone_of};
use crate::steps::{Range, Steps};
use sdm_rules::Restriction;

/// The most steps of a profile: two for each entry of the static speed profile and each restriction. (own)
const MOST_STEPS: usize = 320;

/// Whether the zone of a restriction begins or ends at a cell.
fn is_end_of_one(held: &[Restriction], length_cm: u32, cell: i32) -> bool
    requires held { All IsHeldRestriction held.now }
    requires train { length_cm ≤ longest_train }
    ensures yes { result ≡ true → IsEndOfOne (pos length_cm) cell held.now }
    ensures no { IsEndOfOne (pos length_cm) cell held.now → result ≡ true }
{
    for r in held {
        let cells = cells_of(*r, length_cm);
        if cells.first == cell || cells.past == cell {
            return true;
        }
    }
    false
}

/// Whether a static step starts at a cell, or the zone of a restriction begins or ends there.
fn is_zone_end(statics: &Steps, held: &[Restriction], length_cm: u32, cell: i32) -> bool
    requires held { All IsHeldRestriction held.now }
    requires train { length_cm ≤ longest_train }
    ensures yes { result ≡ true → IsZoneEnd (pos length_cm) statics.now.list.items held.now cell }
    ensures no { IsZoneEnd (pos length_cm) statics.now.list.items held.now cell → result ≡ true }
{
    statics.starts_at(cell) || is_end_of_one(held, length_cm, cell)
}

/// Speeds in km/h of steps, each at the index of its step.
type StepSpeeds = [u16; MOST_STEPS];

/// Puts down the static speeds at the starts of the covered steps, in one pass over both.
fn take_statics(speeds: &mut StepSpeeds, steps: &Steps, covered: Range, statics: &Steps)
    requires few { covered.to ≤ most_steps }
    requires known { covered.to ≤ length steps.now.list.items }
    ensures speeds { AreSpeedsOf (speeds_in statics.now) steps.now.list.items covered.from covered.to speeds.new }
{
    let mut near = 0;
    for i in covered.from..covered.to {
        speeds[i] = statics.speed_near(steps.start(i), &mut near);
    }
}

/// Whether there may be a cell that two restrictions cover both.
fn meet(one: Restriction, other: Restriction, length_cm: u32) -> bool
    requires one { IsHeldRestriction one }
    requires other { IsHeldRestriction other }
    requires train { length_cm ≤ longest_train }
    ensures apart { result ≡ false → (c : ℤ) → covers c (zone_of (pos length_cm) one) ≡ true →
        covers c (zone_of (pos length_cm) other) ≡ false }
{
    let cells = cells_of(one, length_cm);
    let others = cells_of(other, length_cm);
    others.first < cells.past && cells.first < others.past
}

/// Lowers the speeds of the covered steps to the limit of a restriction, as far as its zone covers them too.
fn lower_within(
    speeds: &mut StepSpeeds,
    steps: &Steps,
    covered: Range,
    r: Restriction,
    length_cm: u32,
)
    requires few { covered.to ≤ most_steps }
    requires known { covered.to ≤ length steps.now.list.items }
    requires held { IsHeldRestriction r }
    requires train { length_cm ≤ longest_train }
    ensures speeds { (speed : ℤ → ℕ) → AreSpeedsOf speed steps.now.list.items covered.from covered.to speeds.old →
        AreSpeedsOf (λ c. capped c (zone_of (pos length_cm) r) (speed c)) steps.now.list.items
        covered.from covered.to speeds.new }
{
    let limited = steps.covered(zone_of(r, length_cm));
    let limit = r.speed;
    for i in covered.from.max(limited.from)..covered.to.min(limited.to) {
        speeds[i] = speeds[i].min(limit);
    }
}

/// Gives the steps in the zone of a restriction that is no longer held the speeds that are left: the static ones, and
/// then the limits of the restrictions that lie over the zone.
// The speeds alone stand beside one another meanwhile, so that a processor lowers many of them at once.
fn retake(
    steps: &mut Steps,
    lifted: Restriction,
    statics: &Steps,
    held: &[Restriction],
    length_cm: u32,
)
    requires few { length steps.old.list.items ≤ most_steps }
    requires speeds { (c : ℤ) → speeds_in steps.old c ≡
        capped c (zone_of (pos length_cm) lifted) (speeds_left length_cm statics.now held.now c) }
    requires held { All IsHeldRestriction held.now }
    requires lifted { IsHeldRestriction lifted }
    requires train { length_cm ≤ longest_train }
    ensures before { steps.new.before ≡ steps.old.before }
    ensures list { steps.new.list.items ≡
        map (retaken (speeds_left length_cm statics.now held.now)) steps.old.list.items }
    ensures room { vec_capacity steps.new.list ≡ vec_capacity steps.old.list }
{
    let covered = steps.covered(zone_of(lifted, length_cm));
    let mut speeds = [0; MOST_STEPS];
    take_statics(&mut speeds, steps, covered, statics);
    for r in held {
        if meet(lifted, *r, length_cm) {
            lower_within(&mut speeds, steps, covered, *r, length_cm);
        }
    }
    for i in covered.from..covered.to {
        steps.set_speed(i, speeds[i]);
    }
}

/// Takes out the step that starts at a cell, where that is no end of a zone that is left.
fn join_unless_zone_end(
    steps: &mut Steps,
    cell: i32,
    statics: &Steps,
    held: &[Restriction],
    length_cm: u32,
)
    requires held { All IsHeldRestriction held.now }
    requires train { length_cm ≤ longest_train }
    ensures before { steps.new.before ≡ steps.old.before }
    ensures speeds { (speed : ℤ → ℕ) → AreSpeedsAt speed steps.old.list.items →
        AreSpeedsAt speed steps.new.list.items }
    ensures fewer { (c : ℤ) → IsStart c steps.new.list.items → IsStart c steps.old.list.items }
    ensures here { IsStart cell steps.new.list.items → IsZoneEnd (pos length_cm) statics.now.list.items held.now cell }
    ensures others { (c : ℤ) → IsZoneEnd (pos length_cm) statics.now.list.items held.now c →
        IsStart c steps.old.list.items → IsStart c steps.new.list.items }
    ensures room { vec_capacity steps.new.list ≡ vec_capacity steps.old.list }
{
    if !is_zone_end(statics, held, length_cm, cell) {
        steps.join(cell);
    }
}

/// Raises the speeds of steps to what is left when a restriction is lifted.
pub fn raise(
    steps: &mut Steps,
    lifted: Restriction,
    statics: &Steps,
    held: &[Restriction],
    length_cm: u32,
)
    requires few { length steps.old.list.items ≤ most_steps }
    requires speeds { (c : ℤ) → speeds_in steps.old c ≡
        capped c (zone_of (pos length_cm) lifted) (speeds_left length_cm statics.now held.now c) }
    requires before { steps.old.before ≡ statics.now.before }
    requires each { (c : ℤ) → IsZoneEnd (pos length_cm) statics.now.list.items held.now c →
        IsStart c steps.old.list.items }
    requires no_other { (c : ℤ) → IsStart c steps.old.list.items →
        IsZoneEnd (pos length_cm) statics.now.list.items held.now c ⊎ IsEnd (pos length_cm) c lifted }
    requires held { All IsHeldRestriction held.now }
    requires lifted { IsHeldRestriction lifted }
    requires train { length_cm ≤ longest_train }
    ensures before { steps.new.before ≡ statics.now.before }
    ensures speeds { (c : ℤ) → speeds_in steps.new c ≡ speeds_left length_cm statics.now held.now c }
    ensures zone_ends { AreAtZoneEnds (pos length_cm) statics.now.list.items held.now steps.new.list.items }
    ensures room { vec_capacity steps.new.list ≡ vec_capacity steps.old.list }
{
    let cells = cells_of(lifted, length_cm);
    retake(steps, lifted, statics, held, length_cm);
    join_unless_zone_end(steps, cells.first, statics, held, length_cm);
    join_unless_zone_end(steps, cells.past, statics, held, length_cm);
}

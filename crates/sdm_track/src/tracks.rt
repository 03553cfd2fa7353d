//! A track, whose lists keep their order and their ranges in its type, so that no reader tests them again.

ghost use Rattle.std.specs.Prelude.{◌≡◌, ℤ, pos, ◌<◌, ◌≤◌, length, slice_get, Some, None, IfOk, IfErr};
ghost use Rattle.std.specs.Result.{result_err};
ghost use Rattle.sdm_rules.specs.Ranges.{track_fault, longest_train};
ghost use Rattle.sdm_rules.specs.Decelerations.{any_in_force, is_in_force, under_train};
ghost use Rattle.sdm_track.specs.Ranges.{IsTrack, IsGradient, IsSpeedStep, IsArea, track_data};
ghost use Rattle.sdm_track.specs.Segments.{AreSegments, segment_gradient};

use crate::entries::{check_areas, check_gradients, check_speeds};
use crate::under_train::{self, Segments};
use sdm_num::NoMemory;
use sdm_rules::{Area, Gradient, LONGEST_TRACK_CM, Section, SpeedStep, TrackFault, keys};
use std::alloc::Global;
use std::marker::Model;

/// A track from 0 to its length, 1 to 10,000,000 cm: its gradients (SUBSET-026-3 3.13.4), its static speed profile
/// (3.11.3), its areas of reduced adhesion (3.12) and those in which the special brake is not used (own form), each
/// list in the order of its starts. Before the track the first gradient and the first speed go on, past the track the
/// last ones. (ranges own)
#[derive(Debug, Drop)]
pub struct Track {
    length_cm: u32,
    gradients: Vec<Gradient>,
    speeds: Vec<SpeedStep>,
    areas: Vec<Area>,
    no_special: Vec<Area>,
}

impl Model for Track {
    ghost use Rattle.sdm_rules.specs.Data.{TrackData};
    ghost use Rattle.sdm_track.specs.Ranges.{IsTrack, track_data};

    ghost Value = { TrackData };

    ghost view = { λ t. track_data t.length_cm t.gradients.items t.speeds.items t.areas.items t.no_special.items };

    ghost invariant = { λ t.
        IsTrack (track_data t.length_cm t.gradients.items t.speeds.items t.areas.items t.no_special.items) };
}

/// Refuses the first rule that a track of these data breaks.
#[tactic(auto, unfolding(sdm_rules::specs::Ranges::track_fault))]
fn check(
    length_cm: u32,
    gradients: &[Gradient],
    speeds: &[SpeedStep],
    areas: &[Area],
    no_special: &[Area],
) -> Result<(), TrackFault>
    ensures { result_err result
        ≡ track_fault (track_data length_cm gradients.now speeds.now areas.now no_special.now) }
{
    if length_cm < 1 || LONGEST_TRACK_CM < length_cm {
        return Err(TrackFault::Value {
            list: Section::Track,
            index: 0,
            key: keys::TRACK_LENGTH,
        });
    }
    check_gradients(length_cm, gradients)?;
    check_speeds(length_cm, speeds)?;
    check_areas(Section::Adhesion, length_cm, areas)?;
    check_areas(Section::NoSpecial, length_cm, no_special)
}

/// Whether the area is in force for a front end in the cell.
fn is_in_force(area: &Area, cell: i32, length_cm: u32) -> bool
    ensures { result ≡ is_in_force (pos length_cm) cell area.now }
{
    let front = i64::from(cell);
    let rear = front - i64::from(length_cm);
    area.start <= front && rear < area.end
}

/// Whether some area of a list is.
fn any_in_force(areas: &[Area], cell: i32, length_cm: u32) -> bool
    ensures { result ≡ any_in_force areas.now (pos length_cm) cell }
{
    areas.iter().any(|area| is_in_force(area, cell, length_cm))
}

impl Track {
    /// The track of these data; else the first rule that they break: of the length, then list by list in the order of
    /// the parameters.
    pub fn new(
        length_cm: u32,
        gradients: Vec<Gradient>,
        speeds: Vec<SpeedStep>,
        areas: Vec<Area>,
        no_special: Vec<Area>,
    ) -> Result<Track, TrackFault>
        ensures accepted { IfOk result (λ track. track_fault track ≡ None) }
        ensures kept { IfOk result
            (λ track. track ≡ track_data length_cm gradients.items speeds.items areas.items no_special.items) }
        ensures refused { IfErr result
            (λ fault. track_fault
            (track_data length_cm gradients.items speeds.items areas.items no_special.items) ≡ Some fault) }
    {
        check(length_cm, &gradients, &speeds, &areas, &no_special)?;
        Ok(Track {
            length_cm,
            gradients,
            speeds,
            areas,
            no_special,
        })
    }

    /// The length in cm.
    pub fn length_cm(&self) -> u32
        ensures value { pos result ≡ self.now.length_cm }
        ensures in_range { IsTrack self.now }
    {
        self.length_cm
    }

    /// The gradients: at most 512; with none the track is level.
    pub fn gradients(&self) -> &[Gradient]
        ensures value { result.now ≡ self.now.gradients }
        ensures in_range { IsTrack self.now }
    {
        &self.gradients
    }

    /// How many gradients there are: at most 512; with none the track is level.
    pub fn gradient_count(&self) -> usize
        ensures value { result ≡ length self.now.gradients }
        ensures in_range { IsTrack self.now }
    {
        self.gradients.len()
    }

    /// The entries of the static speed profile: 1 to 128.
    pub fn speeds(&self) -> &[SpeedStep]
        ensures value { result.now ≡ self.now.speeds }
        ensures in_range { IsTrack self.now }
    {
        &self.speeds
    }

    /// How many entries the static speed profile has: 1 to 128.
    pub fn speed_count(&self) -> usize
        ensures value { result ≡ length self.now.speeds }
        ensures in_range { IsTrack self.now }
    {
        self.speeds.len()
    }

    /// The areas of reduced adhesion: at most 64.
    pub fn areas(&self) -> &[Area]
        ensures value { result.now ≡ self.now.areas }
        ensures in_range { IsTrack self.now }
    {
        &self.areas
    }

    /// How many areas of reduced adhesion there are: at most 64.
    pub fn area_count(&self) -> usize
        ensures value { result ≡ length self.now.areas }
        ensures in_range { IsTrack self.now }
    {
        self.areas.len()
    }

    /// The areas in which the special brake is not used: at most 64.
    pub fn no_special_areas(&self) -> &[Area]
        ensures value { result.now ≡ self.now.no_special }
        ensures in_range { IsTrack self.now }
    {
        &self.no_special
    }

    /// How many areas there are in which the special brake is not used: at most 64.
    pub fn no_special_count(&self) -> usize
        ensures value { result ≡ length self.now.no_special }
        ensures in_range { IsTrack self.now }
    {
        self.no_special.len()
    }

    /// The gradient at an index of the list, counted from 0.
    pub fn gradient(&self, i: usize) -> &Gradient
        requires { i < length self.now.gradients }
        ensures value { slice_get self.now.gradients i ≡ Some result.now }
        ensures in_range { IsGradient self.now.length_cm result.now }
    {
        &self.gradients[i]
    }

    /// The entry of the static speed profile at an index of the list, counted from 0.
    pub fn speed(&self, i: usize) -> &SpeedStep
        requires { i < length self.now.speeds }
        ensures value { slice_get self.now.speeds i ≡ Some result.now }
        ensures in_range { IsSpeedStep self.now.length_cm result.now }
    {
        &self.speeds[i]
    }

    /// The area of reduced adhesion at an index of the list, counted from 0.
    pub fn area(&self, i: usize) -> &Area
        requires { i < length self.now.areas }
        ensures value { slice_get self.now.areas i ≡ Some result.now }
        ensures in_range { IsArea self.now.length_cm result.now }
    {
        &self.areas[i]
    }

    /// The area in which the special brake is not used, at an index of the list, counted from 0.
    pub fn no_special(&self, i: usize) -> &Area
        requires { i < length self.now.no_special }
        ensures value { slice_get self.now.no_special i ≡ Some result.now }
        ensures in_range { IsArea self.now.length_cm result.now }
    {
        &self.no_special[i]
    }

    /// The gradients under a train of a length of 1 to 150,000 cm: for each cell of the front end the lowest gradient
    /// of the cells from the rear end to the front end. (SUBSET-026-3 3.13.4.2; own cell form)
    pub fn compensated(&self, alloc: Global, length_cm: u32) -> Result<Segments, NoMemory>
        requires shortest { 1 ≤ length_cm }
        requires longest { length_cm ≤ longest_train }
        ensures value { IfOk result
            (λ segments. (c : ℤ) → segment_gradient segments c ≡ (under_train self.now (pos length_cm) c).grad) }
        ensures in_range { IfOk result (λ segments. AreSegments segments) }
    {
        under_train::compensated(alloc, &self.gradients, length_cm)
    }

    /// Whether reduced adhesion is in force for a front end in the cell, with a train of this length in cm: from the
    /// start of an area until the rear end has left it, past the track's end too. (SUBSET-026-3 3.13.6.2; areas own)
    pub fn reduced(&self, cell: i32, length_cm: u32) -> bool
        ensures { result ≡ (under_train self.now (pos length_cm) cell).reduced }
    {
        any_in_force(&self.areas, cell, length_cm)
    }

    /// Whether the special brake is not used for a front end in the cell, with a train of this length in cm: from the
    /// start of an area until the rear end has left it, past the track's end too. (SUBSET-026-3 3.13.6.2; areas own)
    pub fn unaided(&self, cell: i32, length_cm: u32) -> bool
        ensures { result ≡ (under_train self.now (pos length_cm) cell).unaided }
    {
        any_in_force(&self.no_special, cell, length_cm)
    }
}

//! How a train is braked on its track: its data with what is found from them once, at the opening: the slope maps of
//! the three kinds, whether the service brake is in use, and the times of reaction.

ghost use Rattle.std.specs.Prelude.{◌≡◌, ◌≤◌, pos, unsigned_abs, IfOk, IfErr};
ghost use Rattle.sdm_rules.specs.declared.authorities.Authority.{Authority};
ghost use Rattle.sdm_rules.specs.declared.data.SlopeKind.TheVariants.{Safe, Expected, Normal};
ghost use Rattle.sdm_rules.specs.Opening.{IsAcceptedKind, AreBefore};
ghost use Rattle.sdm_rules.specs.Data.{TrainAndTrack};
ghost use Rattle.sdm_rules.specs.Decelerations.{slopes_of};
ghost use Rattle.sdm_rules.specs.Reaction.{reaction_times, service_in_use};
ghost use Rattle.sdm_rules.specs.Release.{t_be};
ghost use Rattle.sdm_rules.specs.Slopes.{meaning_of};
ghost use Rattle.sdm_rules.specs.Ranges.{longest_train, top_kmh};
ghost use Rattle.sdm_decel.specs.Slopes.{IsFaultOfKind};
ghost use Rattle.sdm_decel.specs.StretchCells.{AreStretches};
ghost use Rattle.sdm_limits.specs.Ranges.{AreTimes};
ghost use Rattle.sdm_braking.specs.Braking.{IsSupervisable, IsRefusal};

use crate::train_and_track::TrainAndTrack;
use sdm_curve::{BandMap, CurveFault};
use sdm_decel::slope_map;
use sdm_limits::OfTrain;
use sdm_rules::{OpenFault, SlopeKind, Times};
use sdm_track::Track;
use std::alloc::Global;
use std::marker::Model;

/// The data of a journey, all accepted, with what is found from them once. (SUBSET-026-3 3.13.2)
#[derive(Drop)]
pub struct Braking {
    train_and_track: TrainAndTrack,
    safe: BandMap,
    expected: BandMap,
    normal: BandMap,
    service_in_use: bool,
    times: Times,
}

impl Model for Braking {
    ghost use Rattle.sdm_rules.specs.Data.{TrainAndTrack};
    ghost use Rattle.sdm_braking.specs.Braking.{IsBrakingOf, IsSupervisable};

    ghost Value = { TrainAndTrack };

    ghost view = { λ l. l.train_and_track };

    ghost invariant = { λ l. IsSupervisable l.train_and_track
        × IsBrakingOf l.train_and_track l.safe l.expected l.normal l.service_in_use l.times };
}

/// What the opening says of a fault of the slopes of a kind.
fn refusal(kind: SlopeKind, fault: CurveFault) -> OpenFault
    ensures { (d : TrainAndTrack) (a : Authority) → AreBefore kind d → IsFaultOfKind kind d fault →
        IsRefusal d a result }
{
    match fault {
        CurveFault::TooWeak { band, cell, slope } => OpenFault::TooWeak {
            kind,
            band,
            cell,
            slope,
        },
        CurveFault::TooVaried {
            band,
            least,
            greatest,
        } => OpenFault::TooVaried {
            kind,
            band,
            least,
            greatest,
        },
        CurveFault::Memory => OpenFault::Memory,
    }
}

/// The map of a kind, or why the opening is refused; the slopes of the kinds before it are accepted. (SUBSET-026-3
/// 3.13.6)
fn map_of(alloc: Global, kind: SlopeKind, given: &TrainAndTrack) -> Result<BandMap, OpenFault>
    requires { AreBefore kind given.now }
    ensures slopes { IfOk result (λ m. meaning_of m ≡ slopes_of kind given.now) }
    ensures segments { IfOk result (λ m. AreStretches given.now.track given.now.train.length_cm m.starts) }
    ensures accepted { IfOk result (λ _. IsAcceptedKind kind given.now) }
    ensures refused { IfErr result (λ fault. (a : Authority) → IsRefusal given.now a fault) }
{
    match slope_map(alloc, kind, &given.train, &given.national, &given.track) {
        Ok(map) => Ok(map),
        Err(fault) => Err(refusal(kind, fault)),
    }
}

/// Whether the service brake is in use: the train has one, and the national values permit it. (SUBSET-026-3 3.13.9.3;
/// own)
fn is_service_in_use(given: &TrainAndTrack) -> bool
    ensures { result ≡ service_in_use given.now }
{
    given.train.service_brake() && given.national.service_in_target()
}

/// The times of reaction of the data. (SUBSET-026-3 3.13.9.3)
#[tactic(auto, unfolding(sdm_rules::specs::Reaction::reaction_times))]
fn times_of(given: &TrainAndTrack) -> Times
    ensures value { result ≡ reaction_times given.now }
    ensures range { AreTimes result }
{
    let train = &given.train;
    Times::of(
        train.traction_cutoff_time() as u32,
        train.traction_cutoff_interface(),
        train.emergency_time() as u32,
        train.service_time() as u32,
        is_service_in_use(given),
    )
}

impl Braking {
    /// The braking of these data, or the first fault of their slopes: of the safe, then of the expected, then of the
    /// normal ones. Takes the memory of the maps.
    pub fn open(alloc: Global, train_and_track: TrainAndTrack) -> Result<Braking, OpenFault>
        ensures data { IfOk result (λ braking. braking ≡ train_and_track) }
        ensures accepted { IfOk result IsSupervisable }
        ensures refused { IfErr result (λ fault. (a : Authority) → IsRefusal train_and_track a fault) }
    {
        let safe = map_of(alloc, SlopeKind::Safe, &train_and_track)?;
        let expected = map_of(alloc, SlopeKind::Expected, &train_and_track)?;
        let normal = map_of(alloc, SlopeKind::Normal, &train_and_track)?;
        let service_in_use = is_service_in_use(&train_and_track);
        let times = times_of(&train_and_track);
        // with these it is told that the train and the track are in their ranges
        prove!(1 <= train_and_track.train.band_count());
        prove!(1 <= train_and_track.track.length_cm());
        Ok(Braking {
            train_and_track,
            safe,
            expected,
            normal,
            service_in_use,
            times,
        })
    }

    /// The track.
    pub fn track(&self) -> &Track
        ensures value { result.now ≡ self.now.track }
        ensures accepted { IsSupervisable self.now }
    {
        &self.train_and_track.track
    }

    /// The length of the track in cm.
    pub fn track_cm(&self) -> u32
        ensures value { pos result ≡ self.now.track.length_cm }
        ensures accepted { IsSupervisable self.now }
    {
        self.train_and_track.track.length_cm()
    }

    /// The maximum train speed in km/h, 1 to 500.
    pub fn max_speed_kmh(&self) -> u16
        ensures value { result ≡ unsigned_abs self.now.train.max_speed }
        ensures least { 1 ≤ result }
        ensures greatest { result ≤ top_kmh }
    {
        self.train_and_track.train.max_speed() as u16
    }

    /// The train length in cm, 1 to 150,000.
    pub fn train_cm(&self) -> u32
        ensures value { pos result ≡ self.now.train.length_cm }
        ensures least { 1 ≤ result }
        ensures greatest { result ≤ longest_train }
    {
        self.train_and_track.train.length() as u32
    }

    /// The map of A_safe, on which EBDs stand: at most 2,000 segments, none past cell 10,150,000.
    pub fn safe(&self) -> &BandMap
        ensures slopes { meaning_of result.now ≡ slopes_of Safe self.now }
        ensures segments { AreStretches self.now.track self.now.train.length_cm result.now.starts }
    {
        &self.safe
    }

    /// The map of A_expected, on which SBDs stand: segments as those of `safe`.
    pub fn expected(&self) -> &BandMap
        ensures slopes { meaning_of result.now ≡ slopes_of Expected self.now }
        ensures segments { AreStretches self.now.track self.now.train.length_cm result.now.starts }
    {
        &self.expected
    }

    /// The map of A_normal_service, on which guidance curves stand: segments as those of `safe`.
    pub fn normal(&self) -> &BandMap
        ensures slopes { meaning_of result.now ≡ slopes_of Normal self.now }
        ensures segments { AreStretches self.now.track self.now.train.length_cm result.now.starts }
    {
        &self.normal
    }

    /// The times of reaction.
    pub fn times(&self) -> &Times
        ensures value { result.now ≡ reaction_times self.now }
        ensures range { AreTimes result.now }
    {
        &self.times
    }

    /// T_be, the emergency brake's build-up time, in ds: 0 to 300.
    pub fn t_be(&self) -> u32
        ensures value { result ≡ t_be self.now }
        ensures greatest { result ≤ 300 }
    {
        self.train_and_track.train.emergency_time() as u32
    }

    /// Whether the service brake is in use. (SUBSET-026-3 3.13.9.3; own)
    pub fn is_service_in_use(&self) -> bool
        ensures value { result ≡ service_in_use self.now }
        ensures accepted { IsSupervisable self.now }
    {
        self.service_in_use
    }

    /// Whether guidance curves are permitted (Q_NVGUIPERM).
    pub fn has_guidance(&self) -> bool
        ensures { result ≡ self.now.national.guidance }
    {
        self.train_and_track.national.guidance()
    }

    /// Whether the emergency brake may be released before standstill (Q_NVEMRRLS).
    pub fn has_early_release(&self) -> bool
        ensures { result ≡ self.now.national.early_release }
    {
        self.train_and_track.national.early_release()
    }

    /// Whether the compensation of under-reading is inhibited (Q_NVINHSMICPERM).
    pub fn inhibits_under_reading(&self) -> bool
        ensures { result ≡ self.now.national.inhibit_under_reading }
    {
        self.train_and_track.national.inhibit_under_reading()
    }
}

//! The three slope maps of a journey.

ghost use Rattle.std.specs.Prelude.{◌≡◌, map, All, ◌++◌, IfOk, IfErr, OnOk, unsigned_abs, ◌^◌, ◌≤◌};
ghost use Rattle.sdm_rules.specs.declared.data.SlopeKind.TheVariants.{Safe, Expected, Normal};
ghost use Rattle.sdm_rules.specs.Decelerations.{uppers_of, slope_under, slopes_of};
ghost use Rattle.sdm_rules.specs.Slopes.{meaning_of};
ghost use Rattle.sdm_rules.specs.Opening.{IsAcceptedKind};
ghost use Rattle.sdm_train.specs.Trains.{IsTrain, IsBand};
ghost use Rattle.sdm_decel.specs.StretchCells.{AreStretches};
ghost use Rattle.sdm_decel.specs.Slopes.{train_and_track_from, slopes_of_bands, AreParts, IsFaultOfKind};

use crate::cells::stretches;
use crate::decelerations::{q_of, slope};
use crate::under::Under;
use sdm_curve::{BandMap, CurveFault};
use sdm_national::National;
use sdm_num::{NoMemory, Speed};
use sdm_rules::SlopeKind;
use sdm_track::Track;
use sdm_train::{Band, Train};
use std::alloc::Global;

/// The upper speeds of all bands but the last.
fn uppers(alloc: Global, train: &Train) -> Result<Vec<Speed>, NoMemory>
    ensures value { IfOk result (λ v. v.items ≡ uppers_of train.now.bands) }
    ensures accepted { IsTrain train.now }
{
    let mut uppers = Vec::new(alloc);
    for i in 0..train.band_count() as usize {
        if let Some(kmh) = train.band(i).upper {
            uppers.push(Speed::of_kmh(kmh as u16))?;
        }
    }
    Ok(uppers)
}

/// Adds the slopes of a band.
fn push_band(
    slopes: &mut Vec<i64>,
    kind: SlopeKind,
    train: &Train,
    national: &National,
    unders: &[Under],
    band: &Band,
) -> Result<(), NoMemory>
    requires { IsBand band.now }
    ensures added { OnOk result
        (slopes.new.items ≡
        slopes.old.items ++ map (λ u. slope_under kind train.now national.now u band.now) unders.now) }
    ensures small { OnOk result
        (All (λ z. unsigned_abs z ≤ 10 ^ 15) slopes.old.items → All (λ z. unsigned_abs z ≤ 10 ^ 15) slopes.new.items) }
{
    for under in unders {
        slopes.push(slope(kind, train, national, *under, band))?;
    }
    Ok(())
}

/// The slopes of all bands, those of the first band first.
fn slopes(
    alloc: Global,
    kind: SlopeKind,
    train: &Train,
    national: &National,
    unders: &[Under],
) -> Result<Vec<i64>, NoMemory>
    ensures value { IfOk result
        (λ v. v.items ≡ slopes_of_bands kind train.now national.now unders.now train.now.bands) }
    ensures small { IfOk result (λ v. All (λ z. unsigned_abs z ≤ 10 ^ 15) v.items) }
{
    let mut slopes = Vec::new(alloc);
    for i in 0..train.band_count() as usize {
        push_band(&mut slopes, kind, train, national, unders, train.band(i))?;
    }
    Ok(slopes)
}

/// What a map is made of.
#[derive(Drop)]
struct Parts {
    uppers: Vec<Speed>,
    starts: Vec<i32>,
    slopes: Vec<i64>,
}

/// What the map of a kind is made of.
fn parts_of(
    alloc: Global,
    kind: SlopeKind,
    train: &Train,
    national: &National,
    track: &Track,
) -> Result<Parts, NoMemory>
    ensures { IfOk result
        (λ p. AreParts kind (train_and_track_from train.now national.now track.now)
        p.uppers.items p.starts.items p.slopes.items) }
{
    let length_cm = train.length() as u32;
    let segments = track.compensated(alloc, length_cm)?;
    let starts = stretches(alloc, track, &segments, length_cm)?;
    let unders = Under::at_each(alloc, track, &segments, length_cm, &starts)?;
    let uppers = uppers(alloc, train)?;
    let slopes = slopes(alloc, kind, train, national, &unders)?;
    Ok(Parts {
        uppers,
        starts,
        slopes,
    })
}

/// The map of a kind, with segments and faults as those of `safe`. (SUBSET-026-3 3.13.6)
pub fn slope_map(
    alloc: Global,
    kind: SlopeKind,
    train: &Train,
    national: &National,
    track: &Track,
) -> Result<BandMap, CurveFault>
    ensures slopes { IfOk result
        (λ m. meaning_of m ≡ slopes_of kind (train_and_track_from train.now national.now track.now)) }
    ensures segments { IfOk result (λ m. AreStretches track.now train.now.length_cm m.starts) }
    ensures accepted { IfOk result (λ _. IsAcceptedKind kind (train_and_track_from train.now national.now track.now)) }
    ensures fault { IfErr result (IsFaultOfKind kind (train_and_track_from train.now national.now track.now)) }
{
    let Ok(parts) = parts_of(alloc, kind, train, national, track) else {
        return Err(CurveFault::Memory);
    };
    BandMap::new(
        alloc,
        q_of(train),
        &parts.uppers,
        &parts.starts,
        &parts.slopes,
    )
}

/// The map of A_safe, on which emergency brake deceleration curves stand (SUBSET-026-3 3.13.6.2, 3.13.8.3): the slopes
/// of the definitions in every band and cell, before the track and past its end too. A segment begins at each cell
/// where the gradient under the train or the adhesion changes: at most 2,000 segments, none past cell 10,150,000.
/// TooWeak comes exactly where a slope is below 0.05 m/s², with the first by bands, counted from 1, and then by cells
/// from 0 on; TooVaried exactly where none is and in some band the greatest slope is too many times the least, with
/// the first such band. Both yield to Memory. (limits own)
pub fn safe(
    alloc: Global,
    train: &Train,
    national: &National,
    track: &Track,
) -> Result<BandMap, CurveFault>
    ensures slopes { IfOk result
        (λ m. meaning_of m ≡ slopes_of Safe (train_and_track_from train.now national.now track.now)) }
    ensures segments { IfOk result (λ m. AreStretches track.now train.now.length_cm m.starts) }
    ensures accepted { IfOk result (λ _. IsAcceptedKind Safe (train_and_track_from train.now national.now track.now)) }
    ensures fault { IfErr result (IsFaultOfKind Safe (train_and_track_from train.now national.now track.now)) }
{
    slope_map(alloc, SlopeKind::Safe, train, national, track)
}

/// The map of A_expected, on which service brake deceleration curves stand (SUBSET-026-3 3.13.6.3, 3.13.8.4), with
/// segments and faults as those of `safe`.
pub fn expected(
    alloc: Global,
    train: &Train,
    national: &National,
    track: &Track,
) -> Result<BandMap, CurveFault>
    ensures slopes { IfOk result
        (λ m. meaning_of m ≡ slopes_of Expected (train_and_track_from train.now national.now track.now)) }
    ensures segments { IfOk result (λ m. AreStretches track.now train.now.length_cm m.starts) }
    ensures accepted { IfOk result
        (λ _. IsAcceptedKind Expected (train_and_track_from train.now national.now track.now)) }
    ensures fault { IfErr result (IsFaultOfKind Expected (train_and_track_from train.now national.now track.now)) }
{
    slope_map(alloc, SlopeKind::Expected, train, national, track)
}

/// The map of A_normal_service, on which guidance curves stand (SUBSET-026-3 3.13.6.4, 3.13.8.5), with segments and
/// faults as those of `safe`.
pub fn normal(
    alloc: Global,
    train: &Train,
    national: &National,
    track: &Track,
) -> Result<BandMap, CurveFault>
    ensures slopes { IfOk result
        (λ m. meaning_of m ≡ slopes_of Normal (train_and_track_from train.now national.now track.now)) }
    ensures segments { IfOk result (λ m. AreStretches track.now train.now.length_cm m.starts) }
    ensures accepted { IfOk result
        (λ _. IsAcceptedKind Normal (train_and_track_from train.now national.now track.now)) }
    ensures fault { IfErr result (IsFaultOfKind Normal (train_and_track_from train.now national.now track.now)) }
{
    slope_map(alloc, SlopeKind::Normal, train, national, track)
}

//! The decelerations of SUBSET-026-3 3.13.6 in whole numbers of 1/Q m/s², with Q = 2·10⁹·q: in this unit each is
//! exact.

ghost use Rattle.std.specs.Prelude.{◌≡◌, ℤ, pos, neg_ℤ, unsigned_abs, ◌^◌, ◌+◌, ◌-◌, ◌*◌, ◌*ℤ◌, ◌<◌, ◌≤◌, ◌≤ℤ◌};
ghost use Rattle.sdm_rules.specs.Decelerations.{q_of, emergency_in, brake_safe, brake_under, mass_factor, a_gradient};
ghost use Rattle.sdm_rules.specs.Decelerations.{kn_of, kn_term, slope_under};
ghost use Rattle.sdm_rules.specs.Ranges.{steepest};
ghost use Rattle.sdm_decel.specs.Slopes.{brake_of};
ghost use Rattle.sdm_train.specs.Trains.{IsBand};

use crate::under::Under;
use sdm_national::National;
use sdm_rules::SlopeKind;
use sdm_train::{Band, Train};

/// 1 cm/s² in 1/(2·10⁹) m/s². (own unit)
const CM_S2: i64 = 20_000_000;

/// 9.81 m/s² for a gradient of a tenth of a per mille of a train without rotating mass, in 1/Q m/s².
/// (SUBSET-026-3 3.13.4.3)
const GRAVITY: i64 = 196_200_000;

/// Kn · grad / 10,000 for 1 cm/s² and a tenth of a per mille, in 1/(2·10⁹) m/s². (SUBSET-026-3 3.13.6.4; own form)
const KN_UNIT: u32 = 2_000;

/// Kn · grad / 10,000 for the greatest Kn, 1,000 cm/s², and a tenth of a per mille, in 1/(2·10⁹) m/s². (ranges own)
const GREATEST_KN: u32 = 1_000 * KN_UNIT;

/// How far a gradient may lie from the level, in tenths of a per mille.
const STEEPEST: u64 = sdm_rules::STEEPEST as u64;

/// The product of two numbers that are at most `M` and `N`.
fn product<const M: u64, const N: u64>(a: u64, b: u64) -> u64
    requires first { a ≤ M }
    requires second { b ≤ N }
    requires fits { M * N < 2 ^ 63 }
    ensures value { result ≡ a * b }
    ensures most { result ≤ M * N }
{
    a * b
}

/// The product of a number that is at most `M` and one that lies at most `N` from 0.
fn scaled<const M: u32, const N: u64>(a: u32, b: i64) -> i64
    requires first { a ≤ M }
    requires second { (neg_ℤ (pos N) ≤ℤ b) × (b ≤ℤ pos N) }
    requires fits { M * N < 2 ^ 63 }
    ensures value { result ≡ pos a *ℤ b }
    ensures range { (neg_ℤ (pos (M * N)) ≤ℤ result) × (result ≤ℤ pos (M * N)) }
{
    i64::from(a) * b
}

/// q: 100 plus the rotating mass in percent; 102 · 115 where it is not known, for both values that are then taken.
/// (own unit)
pub fn q_of(train: &Train) -> u32
    ensures value { result ≡ q_of train.now.rotating_mass }
    ensures least { 100 ≤ result }
    ensures greatest { result ≤ 11_730 }
{
    match train.rotating_mass() {
        Some(percent) => 100 + percent as u32,
        None => 11_730,
    }
}

/// Where the rotating mass is not known, 15 percent are taken uphill and 2 percent downhill: with q = 102 · 115 this
/// leaves the factor 102 uphill and 115 downhill. (SUBSET-026-3 3.13.4.3; own values)
fn mass_factor(rotating_mass: Option<i64>, grad: i64) -> i64
    ensures value { result ≡ mass_factor rotating_mass grad }
    ensures range { (pos 1 ≤ℤ result) × (result ≤ℤ pos 115) }
{
    match rotating_mass {
        Some(_) => 1,
        None if grad < 0 => 115,
        None => 102,
    }
}

/// A_gradient = 9.81 · grad / (10,000 + 100 · M_rotating) with the gradient in tenths of a per mille, in 1/Q m/s².
/// (SUBSET-026-3 3.13.4.3)
fn a_gradient(rotating_mass: Option<i64>, grad: i64) -> i64
    requires { (neg_ℤ steepest ≤ℤ grad) × (grad ≤ℤ steepest) }
    ensures value { result ≡ a_gradient rotating_mass grad }
    ensures range { (neg_ℤ (pos 18_050_400_000_000) ≤ℤ result) × (result ≤ℤ pos 18_050_400_000_000) }
{
    GRAVITY * mass_factor(rotating_mass, grad) * grad
}

/// Kwet_rst, in thousandths, weighted by M_NVAVADH: Kwet_rst + M_NVAVADH · (1 − Kwet_rst), in 1/20,000.
/// (SUBSET-026-3 3.13.6.2.1)
fn weighted_kwet(avadh: u64, kwet: u64) -> u64
    requires avadh { avadh ≤ 20 }
    requires kwet { kwet ≤ 1000 }
    ensures value { result ≡ 20 * kwet + avadh * (1000 - kwet) }
    ensures most { result ≤ 40_000 }
{
    20 * kwet + product::<20, 1000>(avadh, 1000 - kwet)
}

/// A_brake_emergency of a band, in cm/s²: where the special brake is not used the band's reduced one, if it gives one.
/// (SUBSET-026-3 3.13.6.2.1; own: two decelerations a band)
fn emergency_in(under: Under, band: &Band) -> u64
    requires { IsBand band.now }
    ensures value { pos result ≡ emergency_in under band.now }
    ensures most { result ≤ 400 }
{
    let emergency = if under.unaided() {
        band.emergency_reduced.unwrap_or(band.emergency)
    } else {
        band.emergency
    };
    emergency as u64
}

/// Kdry_rst · (Kwet_rst + M_NVAVADH · (1 − Kwet_rst)) · A_brake_emergency, in 1/(2·10⁹) m/s². (SUBSET-026-3
/// 3.13.6.2.1)
#[tactic(auto, using(crate::proofs::Sizes::brake_safe_is))]
fn brake_safe(avadh: u64, band: &Band, emergency: u64) -> u64
    requires avadh { avadh ≤ 20 }
    requires band { IsBand band.now }
    requires emergency { emergency ≤ 400 }
    ensures value { pos result ≡ brake_safe (pos avadh) band.now (pos emergency) }
    ensures most { result ≤ 16_000_000_000 }
{
    let kwet = weighted_kwet(avadh, band.kwet as u64);
    let dry = product::<1000, 40_000>(band.kdry as u64, kwet);
    product::<40_000_000, 400>(dry, emergency)
}

/// A_brake_safe: on reduced adhesion at most the national maximum A_NVMAXREDADH. (SUBSET-026-3 3.13.6.2.1)
fn brake_under(national: &National, under: Under, band: &Band) -> u64
    requires { IsBand band.now }
    ensures value { pos result ≡ brake_under national.now under band.now }
    ensures most { result ≤ 16_000_000_000 }
{
    let dry = brake_safe(national.avadh() as u64, band, emergency_in(under, band));
    if under.reduced() {
        dry.min((CM_S2 * national.adhesion_max()) as u64)
    } else {
        dry
    }
}

/// Kn: Kn+ uphill and on the level, Kn- downhill, in cm/s². (SUBSET-026-3 3.13.6.4; own form)
fn kn_of(band: &Band, grad: i64) -> u32
    requires { IsBand band.now }
    ensures value { pos result ≡ kn_of band.now grad }
    ensures most { result ≤ 1000 }
{
    let kn = if grad < 0 { band.kn_down } else { band.kn_up };
    kn as u32
}

/// Kn · grad / 10,000 with the gradient in tenths of a per mille, in 1/(2·10⁹) m/s².
/// (SUBSET-026-3 3.13.6.4; own form)
fn kn_term(band: &Band, grad: i64) -> i64
    requires band { IsBand band.now }
    requires grad { (neg_ℤ steepest ≤ℤ grad) × (grad ≤ℤ steepest) }
    ensures value { result ≡ kn_term band.now grad }
    ensures range { (neg_ℤ (pos 1_600_000_000) ≤ℤ result) × (result ≤ℤ pos 1_600_000_000) }
{
    scaled::<GREATEST_KN, STEEPEST>(KN_UNIT * kn_of(band, grad), grad)
}

/// What the brakes give, in 1/(2·10⁹) m/s²: A_brake_safe, A_brake_service, or A_brake_normal_service less Kn · grad /
/// 10,000. Reduced adhesion and want of the special brake count for the emergency brake alone. (SUBSET-026-3 3.13.6.2,
/// 3.13.6.3, 3.13.6.4)
fn brake(kind: SlopeKind, national: &National, under: Under, band: &Band) -> i64
    requires { IsBand band.now }
    ensures value { result ≡ brake_of kind national.now under band.now }
    ensures range { (neg_ℤ (pos 16_000_000_000) ≤ℤ result) × (result ≤ℤ pos 16_000_000_000) }
{
    match kind {
        SlopeKind::Safe => brake_under(national, under, band) as i64,
        SlopeKind::Expected => CM_S2 * band.service,
        SlopeKind::Normal => CM_S2 * band.normal - kn_term(band, under.grad()),
    }
}

/// A_safe, A_expected or A_normal_service of a band: what its brakes give, and A_gradient, in 1/Q m/s².
/// (SUBSET-026-3 3.13.6.2, 3.13.6.3, 3.13.6.4)
pub fn slope(kind: SlopeKind, train: &Train, national: &National, under: Under, band: &Band) -> i64
    requires { IsBand band.now }
    ensures value { result ≡ slope_under kind train.now national.now under band.now }
    ensures size { unsigned_abs result ≤ 10 ^ 15 }
{
    let brake = brake(kind, national, under, band);
    let scaled = scaled::<11_730, 16_000_000_000>(q_of(train), brake);
    scaled + a_gradient(train.rotating_mass(), under.grad())
}

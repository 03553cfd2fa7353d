//! How far and how fast a train comes at most until its brakes work, from a claim whose accelerations and times stand
//! as they are.

ghost use Rattle.std.specs.Prelude.{◌≡◌, ◌+◌, ◌*◌, ◌^◌, ◌≤◌};
ghost use Rattle.sdm_rules.specs.Certificates.{d_bec_of, start_of, v_bec_of, IsClaimInRange};
ghost use Rattle.sdm_rules.specs.Reaction.{build_up_of, v_cut_off};

use sdm_num::Speed;
use sdm_rules::Claim;

/// Notches of 1 mm/s, which 1 cm/s² gains in a ds.
const MM_S: u32 = 54;

/// Grains of a notch in a ds.
const NOTCH_DS: u64 = 1_000_000;

/// By how many notches the speed rises at an acceleration in cm/s² within a time in ds.
fn gain(accel: u16, time: u32) -> u32
    requires accel { accel ≤ 300 }
    requires time { time ≤ 300 }
    ensures value { result ≡ 54 * accel * time }
    ensures small { result ≤ 16_200 * accel }
{
    MM_S * u32::from(accel) * time
}

/// The greatest speed at the end of the traction, in notches.
fn cut_off(claim: &Claim) -> u32
    requires { IsClaimInRange claim.now }
    ensures value { result ≡ v_cut_off (build_up_of (start_of claim.now)) 0 }
    ensures small { result ≤ 12_960_000 }
{
    claim.speed.notches() + gain(claim.accel1, claim.traction)
}

/// V_bec, for a target speed of 0. (SUBSET-026-3 3.13.9.3.2)
pub fn v_bec(claim: &Claim) -> Speed
    requires { IsClaimInRange claim.now }
    ensures { result ≡ v_bec_of claim.now }
{
    Speed::new(cut_off(claim) + gain(claim.accel2, claim.berem))
}

/// The distance at a speed in notches and an acceleration in cm/s² within a time in ds, in 10⁶ grains.
fn distance(speed: u32, accel: u16, time: u32) -> u64
    requires speed { speed ≤ 12_960_000 }
    requires accel { accel ≤ 300 }
    requires time { time ≤ 300 }
    ensures value { result ≡ (speed + 27 * accel * time) * time }
    ensures small { result ≤ 10 ^ 10 }
{
    let mean = u64::from(speed) + u64::from(MM_S / 2) * u64::from(accel) * u64::from(time);
    mean * u64::from(time)
}

/// D_bec in grains, for a target speed of 0. (SUBSET-026-3 3.13.9.3.2)
pub fn d_bec(claim: &Claim) -> u64
    requires { IsClaimInRange claim.now }
    ensures value { result ≡ d_bec_of claim.now }
    ensures small { result ≤ 2 * 10 ^ 16 }
{
    let traction = distance(claim.speed.notches(), claim.accel1, claim.traction);
    let build_up = distance(cut_off(claim), claim.accel2, claim.berem);
    NOTCH_DS * (traction + build_up)
}

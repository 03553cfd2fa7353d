//! A limit as a speed: the greatest whole speed at which it isn't passed. A faster train passes every limit that a
//! slower one does, so the speed is found by halving, and sooner where one near it is known.

ghost use Rattle.std.specs.Prelude.{◌≡◌, ◌+◌, ◌<◌, ◌≤◌, ℕ, Bool, not, false, true};
ghost use Rattle.sdm_num.specs.Units.{top_kmh};
ghost use Rattle.sdm_rules.specs.declared.display.LimitName.{LimitName};
ghost use Rattle.sdm_rules.specs.Machines.{Implies};
ghost use Rattle.sdm_rules.specs.Release.{greatest_up_to};

use sdm_num::TOP_KMH;
use sdm_rules::LimitName;

/// Where limits are passed: a train that is elsewhere, or brakes otherwise, passes them at other speeds. (own)
pub trait Passed {
    /// Whether a train at a whole speed in km/h passes a limit.
    ghost passed: { Self → LimitName → ℕ → Bool };

    /// Tells whether a train at a whole speed of at most 500 km/h passes a limit.
    fn passed(&self, limit: LimitName, kmh: u16) -> bool
        requires { kmh ≤ top_kmh }
        ensures { result ≡ passed self.now limit kmh };
}

/// A speed at which a limit isn't passed, and a greater one at which it is, or 501 km/h. (own)
#[derive(Clone, Copy)]
struct Between {
    within: u16,
    past: u16,
}

/// How many binary digits a speed in km/h has at most.
const DIGITS: u32 = 9;

const ALL_SPEEDS: Between = Between {
    within: 0,
    past: TOP_KMH as u16 + 1,
};

/// Two such speeds, found from a speed in steps that double: a few steps away, where the limit is near it. (own)
fn around<P: Passed>(places: &P, limit: LimitName, near: u16) -> Between
    requires standstill { P.passed places.now limit 0 ≡ false }
    requires near { near ≤ top_kmh }
    ensures apart { result.within < result.past }
    ensures top { result.past ≤ top_kmh + 1 }
    ensures within { P.passed places.now limit result.within ≡ false }
    ensures past { result.past ≤ top_kmh → P.passed places.now limit result.past ≡ true }
{
    if places.passed(limit, near) {
        let mut past = near;
        'down: for turn in 0..DIGITS {
            let step = 1 << turn;
            if past <= step {
                break;
            }
            let within = past - step;
            if !places.passed(limit, within) {
                return Between { within, past };
            }
            past = within;
        }
        return Between { within: 0, past };
    }
    let mut within = near;
    'up: for turn in 0..DIGITS {
        let step = 1 << turn;
        let past = within + step;
        if past > TOP_KMH as u16 {
            break;
        }
        if places.passed(limit, past) {
            return Between { within, past };
        }
        within = past;
    }
    Between {
        within,
        past: TOP_KMH as u16 + 1,
    }
}

/// The greatest speed at which a limit isn't passed, between two such speeds. (own)
fn halve<P: Passed>(places: &P, limit: LimitName, between: Between) -> u16
    requires upwards { (v v' : ℕ) → v ≤ v' → v' ≤ top_kmh →
        Implies (P.passed places.now limit v) (P.passed places.now limit v') }
    requires apart { between.within < between.past }
    requires top { between.past ≤ top_kmh + 1 }
    requires within { P.passed places.now limit between.within ≡ false }
    requires past { between.past ≤ top_kmh → P.passed places.now limit between.past ≡ true }
    ensures value { result ≡ greatest_up_to top_kmh (λ kmh. not (P.passed places.now limit kmh)) }
    ensures range { result ≤ top_kmh }
{
    let Between {
        mut within,
        mut past,
    } = between;
    for _turn in (0..DIGITS).rev() {
        if past - within <= 1 {
            break;
        }
        let middle = within + (past - within) / 2;
        if places.passed(limit, middle) {
            past = middle;
        } else {
            within = middle;
        }
    }
    within
}

/// A limit as a speed in km/h: the greatest whole speed from 0 to 500 at which it isn't passed. A train at standstill
/// doesn't pass it, and a faster one does where a slower one does. It is asked at most nine times, and no memory is
/// taken. (own)
pub fn greatest<P: Passed>(places: &P, limit: LimitName) -> u16
    requires standstill { P.passed places.now limit 0 ≡ false }
    requires upwards { (v v' : ℕ) → v ≤ v' → v' ≤ top_kmh →
        Implies (P.passed places.now limit v) (P.passed places.now limit v') }
    ensures value { result ≡ greatest_up_to top_kmh (λ kmh. not (P.passed places.now limit kmh)) }
    ensures range { result ≤ top_kmh }
{
    halve(places, limit, ALL_SPEEDS)
}

/// The same speed, sought from one that may be near it, in km/h: where that one is it, `places` is asked twice. Which one it
/// is changes nothing but the time. (own)
pub fn greatest_near<P: Passed>(places: &P, limit: LimitName, near: u16) -> u16
    requires standstill { P.passed places.now limit 0 ≡ false }
    requires upwards { (v v' : ℕ) → v ≤ v' → v' ≤ top_kmh →
        Implies (P.passed places.now limit v) (P.passed places.now limit v') }
    ensures value { result ≡ greatest_up_to top_kmh (λ kmh. not (P.passed places.now limit kmh)) }
    ensures range { result ≤ top_kmh }
{
    halve(
        places,
        limit,
        around(places, limit, near.min(TOP_KMH as u16)),
    )
}

//! What is shown of a reading, as a supervisor sees it.

ghost use Rattle.std.specs.Prelude.{◌≡◌};
ghost use Rattle.sdm_rules.specs.Display.{display_of};
ghost use Rattle.sdm_row_laws.specs.OpenTurns.{HasNearLimits};

use crate::speeds::{Passed, greatest, greatest_near};
use sdm_num::Reading;
use sdm_rules::{Display, LimitName};
use sdm_supervisor::{Sight, Supervisor};

impl Passed for Sight<'_> {
    ghost use Rattle.sdm_rules.specs.Display.{passes_limit};

    ghost passed = { λ seen limit kmh. passes_limit seen.train_and_track seen.reading seen.situation limit kmh };

    fn passed(&self, limit: LimitName, kmh: u16) -> bool {
        self.would_pass(limit, kmh)
    }
}

/// What is shown of a reading: the permitted speed, the SBI and the EBI as the greatest whole speeds at which the train
/// wouldn't pass them where it is, the release speed of the authority, and the target that counts. At each speed a
/// computed limit is less than a millimetre before the exact one, and not past it. Nothing is changed, and no memory is
/// taken. (own)
pub fn display_of(supervisor: &Supervisor, reading: &Reading) -> Display
    ensures value { result ≡ display_of supervisor.now reading.now }
    ensures limits { HasNearLimits supervisor.now reading.now }
{
    let time = reading.time();
    let sight = supervisor.sight(reading);
    Display {
        time,
        permitted: greatest(&sight, LimitName::Permitted),
        sbi: greatest(&sight, LimitName::Sbi),
        ebi: greatest(&sight, LimitName::Ebi),
        release: supervisor.release(),
        shown: sight.shown(),
    }
}

/// The same, with the speeds sought from those of another display: best that of the reading before. Which one it is
/// changes nothing but the time. (own)
pub fn display_near(supervisor: &Supervisor, reading: &Reading, near: &Display) -> Display
    ensures value { result ≡ display_of supervisor.now reading.now }
    ensures limits { HasNearLimits supervisor.now reading.now }
{
    let time = reading.time();
    let sight = supervisor.sight(reading);
    Display {
        time,
        permitted: greatest_near(&sight, LimitName::Permitted, near.permitted),
        sbi: greatest_near(&sight, LimitName::Sbi, near.sbi),
        ebi: greatest_near(&sight, LimitName::Ebi, near.ebi),
        release: supervisor.release(),
        shown: sight.shown(),
    }
}

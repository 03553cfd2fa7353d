//! Why a supervisor triggers at the reading that it took last, and how its commands stand.

ghost use Rattle.std.specs.Prelude.{◌≡◌};
ghost use Rattle.sdm_causes.specs.Causes.{causes_of};

use super::Supervisor;
use sdm_causes::Causes;
use sdm_num::Reading;

impl Supervisor {
    /// Why a reading triggers, and how each command stands after it. It is asked once `cycle` has taken the reading, in
    /// the state after it: the commands are those of the reading's row, and a command of them for which no cause stands
    /// is held. No memory is taken. (SUBSET-026-3 3.13.10; own)
    pub fn causes(&self, reading: &Reading) -> Causes
        ensures { result ≡ causes_of self.now reading.now }
    {
        self.sight(reading).causes(self.held)
    }
}

//! What-if readings: whether a reading that hasn't come would be covered, and each up to it that asks no more.

ghost use Rattle.std.specs.Prelude.{◌≡◌, IsTrue};
ghost use Rattle.sdm_num.specs.Readings.{OdometerReading};
ghost use Rattle.sdm_rules.specs.Supervision.{row_of};
ghost use Rattle.sdm_ahead.specs.WhatIfs.{AsksNoMoreFrom, IsCoveredOrReleased, would_cover_from};

use super::Supervisor;
use crate::sight::Sight;
use crate::verdicts::Verdict;
use sdm_num::Reading;
use sdm_targets::Authority;

impl Supervisor {
    /// Whether the row of a reading would be covered, if it were the next one. Its time doesn't count. No memory is
    /// taken. (own)
    pub fn would_cover(&self, reading: &Reading) -> bool
        ensures { result ≡ (row_of self.now reading.now).covered }
    {
        self.sight(reading).row(self.held).covered
    }

    /// Whether a reading would cover each target past its min safe front end. Then every reading is covered, or in
    /// release speed monitoring, whose max safe front end lies from there to that of this reading, and whose V_est +
    /// V_delta0 and acceleration are at most those of this one. No memory is taken. (own)
    pub fn would_cover_up_to(&self, asked: &Reading) -> bool
        ensures value { result ≡ would_cover_from self.now asked.now.min asked.now }
        ensures covers { IsTrue result → (r : OdometerReading) →
            AsksNoMoreFrom self.now.train_and_track asked.now.min asked.now r → IsCoveredOrReleased self.now r }
    {
        // the length is told with it that the data are accepted
        prove!(1 <= self.braking.track_cm());
        let end = match self.authority {
            Authority::Stop { eoa, .. } => eoa,
            Authority::Limit { loa, .. } => loa,
        };
        let ahead = self.kept.falls.ahead(asked.min_mm().cell(), end);
        let sight = Sight {
            braking: &self.braking,
            reading: asked,
            ceiling_kmh: 0,
            past_end: false,
            release_kmh: None,
            in_use: false,
            falls: ahead.falls,
            brake_steps: ahead.brake_steps,
            guide_steps: ahead.guide_steps,
            end: &self.kept.end,
        };
        Verdict::of(&sight).covered
    }
}

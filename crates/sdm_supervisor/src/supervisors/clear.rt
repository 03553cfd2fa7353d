//! The place that the service brake promises.

ghost use Rattle.std.specs.Prelude.{IfSome, pos};
ghost use Rattle.sdm_num.specs.Units.{place_of_mm};
ghost use Rattle.sdm_rules.specs.declared.data.SlopeKind.TheVariants.{Expected};
ghost use Rattle.sdm_rules.specs.Decelerations.{slopes_of};
ghost use Rattle.sdm_rules.specs.Stop.{StopsBy};
ghost use Rattle.sdm_row_laws.specs.Clearances.{IsFirstClearOf, start_with};

use super::Supervisor;
use crate::allowances::Allowance;
use crate::clearances::RunUp;
use sdm_num::Reading;

impl Supervisor {
    /// The first place of the track that a reading is clear of with an allowance, in whole mm: from there the service
    /// brake, which works T_bs after the reading, stops the train at or before it, where the train is beyond its
    /// estimate and gains speed by the allowance at most. None exactly where the reading isn't clear of the track's end.
    /// It takes no account of targets and commands. No memory is taken. (SUBSET-026-3 3.13.9.3.3; own)
    pub fn clear_of(&self, reading: &Reading, allowance: Allowance) -> Option<u32>
        ensures first { IsFirstClearOf allowance self.now.train_and_track reading.now result }
        ensures stops { IfSome result (λ mm. StopsBy (slopes_of Expected self.now.train_and_track)
            (start_with allowance self.now.train_and_track reading.now) (place_of_mm (pos mm))) }
    {
        let run = RunUp::of(&self.braking, reading, allowance);
        run.first_clear(&self.braking, 10 * self.braking.track_cm())
    }
}

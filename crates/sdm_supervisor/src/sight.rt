//! What a supervisor sees at a reading before it judges: the front ends, the ceiling, the targets with their curves,
//! and whether release speed monitoring has begun. All of it stays where only the train's speed is another.

ghost use Rattle.std.specs.Prelude.{◌≡◌};
ghost use Rattle.sdm_rules.specs.Supervision.{row_in};

use crate::verdicts::Verdict;
use sdm_braking::{Braking, FallsAhead, KeptEnd};
use sdm_limits::T_WARNING;
use sdm_num::Reading;
use sdm_rules::Row;
use sdm_state::{Held, State, next};
use std::marker::Model;

/// What is seen at a reading. (SUBSET-026-3 3.13.10; own)
#[derive(Drop)]
pub struct Sight<'a> {
    pub(crate) braking: &'a Braking,
    pub(crate) reading: &'a Reading,
    /// The lowest MRSP from the min safe to the max safe front end, at most 500 km/h.
    pub(crate) ceiling_kmh: u16,
    /// The authority has an EOA, and the min safe front end is past it.
    pub(crate) past_end: bool,
    /// In release speed monitoring the release speed in km/h, at most 500.
    pub(crate) release_kmh: Option<u16>,
    /// The service brake is in use.
    pub(crate) in_use: bool,
    pub(crate) falls: FallsAhead<'a>,
    /// For each fall how many falls further on the first one stands whose EBD hides this one's.
    pub(crate) brake_steps: &'a [usize],
    /// The same of guidance curves, where guidance is permitted.
    pub(crate) guide_steps: &'a [usize],
    pub(crate) end: &'a KeptEnd,
}

impl<'a> Model for Sight<'a> {
    ghost use Rattle.std.specs.Prelude.{◌++◌, is_some, map};
    ghost use Rattle.sdm_braking.specs.KeptCurves.{targets_in};
    ghost use Rattle.sdm_braking.specs.KeptFalls.{target_of};
    ghost use Rattle.sdm_supervisor.specs.Sights.{AreFallsHidden, IsSight, Seen};

    ghost Value = { Seen };

    ghost view = { λ s. record {
      train_and_track = s.braking.now;
      reading = s.reading.now;
      situation = record {
        speed = s.reading.now.speed;
        ceiling_kmh = s.ceiling_kmh;
        est = s.reading.now.est;
        front = s.reading.now.max;
        targets = map target_of s.falls ++ targets_in s.end.now (is_some s.release_kmh);
        past_end = s.past_end;
        release = s.release_kmh;
        in_use = s.in_use;
      };
    } };

    ghost invariant = { λ s. IsSight s.braking.now s.ceiling_kmh s.release_kmh s.falls s.end.now
        × AreFallsHidden s.braking.now (map target_of s.falls) s.brake_steps.now s.guide_steps.now };
}

impl Sight<'_> {
    /// The row of what is seen, with the commands after it, from those that are held. (SUBSET-026-3 3.13.10; own)
    #[inline(always)]
    pub fn row(&self, held: Held) -> Row
        ensures { result ≡ row_in self.now.train_and_track held self.now.reading self.now.situation }
    {
        let said = Verdict::of(self);
        let v_est = self.reading.speed_mm_s();
        // Release speed monitoring is decided first. (SUBSET-026-3 3.13.10.6; own)
        let state = match (self.release_kmh, said.indicated) {
            (Some(_), _) => State::R,
            (None, true) => State::T,
            (None, false) => State::C,
        };
        let held = next(
            held,
            said.triggers,
            state,
            v_est.notches() == 0,
            self.braking.has_early_release(),
            self.in_use,
        );
        let mut row = Row {
            time: self.reading.time(),
            state,
            held,
            covered: self.release_kmh.is_none() & said.covered,
            ceiling: self.ceiling_kmh,
            ebi: None,
            sbi: None,
            warning: None,
            permitted: None,
            indication: None,
        };
        if let Some(nearest) = &said.nearest {
            // d_W = d_SBI - V_est * T_warning, d_I = d_P - V_est * T_indication (SUBSET-026-3 3.13.9.3.4, 3.13.9.3.6)
            let reaction = v_est.distance_at(self.braking.times().indication);
            row.ebi = nearest.ebi.map(|ebi| ebi.mm_below());
            row.sbi = Some(nearest.sbi.mm_below());
            row.warning = Some(nearest.sbi.less(v_est.distance_at(T_WARNING)).mm_below());
            row.permitted = Some(nearest.permitted.mm_below());
            row.indication = Some(nearest.permitted.less(reaction).mm_below());
        }
        row
    }
}

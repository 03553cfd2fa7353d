//! What is said of a reading: by its targets, each of which is looked at once and adds to what the others said, and
//! then by the ceiling, the end of the authority and the release speed.

ghost use Rattle.std.specs.Prelude.{◌≡◌, ◌<◌, ◌++◌, ◌∷◌, List, []};
ghost use Rattle.sdm_rules.specs.declared.targets.Target.{Target};
ghost use Rattle.sdm_rules.specs.Targets.{target_speed};
ghost use Rattle.sdm_rules.specs.Triggers.{front_for};
ghost use Rattle.sdm_braking.specs.Asked.{IsAsked};
ghost use Rattle.sdm_braking.specs.KeptCurves.{IsKeptTarget};
ghost use Rattle.sdm_supervisor.specs.Verdicts.{IsSaid, IsVerdictOf};

use crate::nearest::Nearest;
use crate::sight::Sight;
use crate::walks::Walk;
use sdm_braking::{AskedEstimate, Braking, KeptTarget};
use sdm_ceiling::Margins;
use sdm_num::{Place, Reading, Speed};
use sdm_rules::Triggers;
use sdm_targets::TargetKind;

/// What is said of a reading: what is triggered, whether the train is above the speed of a target and past its
/// indication limit, whether each target is covered, and the nearest limits. (SUBSET-026-3 3.13.10; own)
#[derive(Clone, Copy, Debug, PartialEq, Eq)]
pub struct Verdict {
    pub triggers: Triggers,
    pub indicated: bool,
    pub covered: bool,
    pub nearest: Option<Nearest>,
}

/// What no target says: nothing is passed. (own)
const NOTHING_SAID: Verdict = Verdict {
    triggers: Triggers {
        over: false,
        warn: false,
        serv: false,
        emer: false,
    },
    indicated: false,
    covered: true,
    nearest: None,
};

/// The front end that a target compares: the estimated one for the EOA, else the max safe one. (SUBSET-026-3
/// 3.13.10.4)
pub fn front_for(reading: &Reading, kind: TargetKind) -> Place
    ensures { result ≡ front_for reading.now.est reading.now.max kind }
{
    match kind {
        TargetKind::Eoa => reading.est_mm(),
        TargetKind::Svl | TargetKind::Mrsp | TargetKind::Loa => reading.max_mm(),
    }
}

/// Asks targets what they say. (own)
#[derive(Drop)]
struct Judging;

impl Walk for Judging {
    ghost use Rattle.sdm_supervisor.specs.Verdicts.{IsSaid};

    type Found = Verdict;

    ghost is_found = { λ j seen e ts said.
        IsSaid seen.train_and_track e seen.situation.est seen.situation.front ts said };

    #[inline(always)]
    fn meet(
        &self,
        sight: &Sight<'_>,
        asked: &AskedEstimate,
        kept: &KeptTarget,
        found: &mut Verdict,
    ) {
        found.add(sight.braking, asked, sight.reading, kept);
    }

    #[inline(always)]
    fn meet_faster(
        &self,
        sight: &Sight<'_>,
        asked: &AskedEstimate,
        kept: &KeptTarget,
        found: &mut Verdict,
    ) {
        found.add_faster(sight.braking, asked, sight.reading, kept);
    }
}

impl Verdict {
    /// Adds what a target says that is faster than the train: it is not passed, and none of its limits counts. Most such
    /// targets are met by speed; another is covered where the max safe front end is at or before its EBI. (SUBSET-026-3
    /// 3.13.10.4; own)
    fn add_faster(
        &mut self,
        braking: &Braking,
        asked: &AskedEstimate,
        reading: &Reading,
        kept: &KeptTarget,
    )
        requires asked { IsAsked braking.now asked.now }
        requires kept { IsKeptTarget braking.now kept.now }
        requires faster { asked.now.estimate.speed < target_speed kept.now.target }
        ensures { (ts : List Target) →
            IsSaid braking.now asked.now.estimate reading.now.est reading.now.max ts self.old →
            IsSaid braking.now asked.now.estimate reading.now.est reading.now.max
            (ts ++ kept.now.target ∷ []) self.new }
    {
        let max = reading.max_mm();
        if self.covered && !asked.is_met_by_speed(kept) {
            self.covered = braking.is_before_ebi(asked, kept, max);
        }
    }

    /// Adds what a target says: a limit is passed where the estimated speed is above the target's with its margin, and
    /// the front end that the target compares is past the limit. (SUBSET-026-3 3.13.10.4; own)
    fn add(
        &mut self,
        braking: &Braking,
        asked: &AskedEstimate,
        reading: &Reading,
        kept: &KeptTarget,
    )
        requires asked { IsAsked braking.now asked.now }
        requires kept { IsKeptTarget braking.now kept.now }
        ensures { (ts : List Target) →
            IsSaid braking.now asked.now.estimate reading.now.est reading.now.max ts self.old →
            IsSaid braking.now asked.now.estimate reading.now.est reading.now.max
            (ts ++ kept.now.target ∷ []) self.new }
    {
        let v_est = asked.estimate.speed();
        let speeds = &kept.speeds;
        if v_est < speeds.permitted {
            self.add_faster(braking, asked, reading, kept);
            return;
        }
        let max = reading.max_mm();
        let limits = braking.limits(asked, kept);
        self.nearest = Some(Nearest::with(self.nearest, &limits));
        let front = front_for(reading, kept.target.kind);
        // No limit lies before the indication limit: up to there none is passed.
        if !limits.indication.is_passed_by(front) {
            return;
        }
        self.triggers.over |= (speeds.permitted < v_est) & limits.permitted.is_passed_by(front);
        self.triggers.warn |= (speeds.warning < v_est) & limits.warning.is_passed_by(front);
        self.triggers.serv |= (speeds.sbi < v_est) & limits.sbi.is_passed_by(front);
        self.indicated |= speeds.permitted < v_est;
        if let Some(ebi) = limits.ebi {
            self.triggers.emer |= (speeds.ebi < v_est) & ebi.is_passed_by(front);
            self.covered &= !ebi.is_passed_by(max) || asked.is_met_by_speed(kept);
        }
    }

    /// What is said of a sight. (SUBSET-026-3 3.13.10; own)
    pub fn of(sight: &Sight<'_>) -> Verdict
        ensures { IsVerdictOf sight.now result }
    {
        let asked = sight.braking.asked(sight.reading.estimate());
        let mut said = NOTHING_SAID;
        sight.walk_few(&Judging, &asked, &mut said);
        let v_est = sight.reading.speed_mm_s();
        // V_est > V_MRSP + dV, where no margin dV makes the ceiling lower (SUBSET-026-3 3.13.10.3)
        let v_mrsp = Speed::of_kmh(sight.ceiling_kmh);
        if v_mrsp < v_est {
            let dv = Margins::of_kmh(sight.ceiling_kmh);
            said.triggers.over = true;
            said.triggers.warn |= v_mrsp.plus(dv.warning) < v_est;
            said.triggers.serv |= v_mrsp.plus(dv.sbi) < v_est;
            said.triggers.emer |= v_mrsp.plus(dv.ebi) < v_est;
        }
        // (SUBSET-026-3 3.13.10.5)
        if let Some(kmh) = sight.release_kmh {
            let is_above = Speed::of_kmh(kmh) < v_est;
            said.triggers.over |= is_above;
            said.triggers.emer |= is_above;
        }
        // Told by fields: a byte that was just written can't be read back with its neighbours as one word.
        let Triggers {
            over,
            warn,
            serv,
            emer,
        } = said.triggers;
        Verdict {
            triggers: Triggers {
                over,
                warn,
                serv,
                emer: emer | (sight.past_end | (serv & !sight.in_use)),
            },
            indicated: said.indicated,
            covered: said.covered,
            nearest: said.nearest,
        }
    }
}

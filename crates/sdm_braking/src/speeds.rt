//! The speeds above which a speed in km/h is passed: itself, and with each of its margins.

ghost use Rattle.std.specs.Prelude.{◌≡◌, ◌≤◌, ◌+◌};
ghost use Rattle.sdm_num.specs.Units.{notches};
ghost use Rattle.sdm_rules.specs.Margins.{ebi_margin, no_margin, sbi_margin, warning_margin};
ghost use Rattle.sdm_rules.specs.Ranges.{top_kmh};
ghost use Rattle.sdm_braking.specs.KeptCurves.{AreSpeedsOf, speed_in};

use sdm_ceiling::Margins;
use sdm_num::Speed;
use sdm_rules::LimitKind;
use sdm_targets::{Target, TargetKind};

/// A speed and the same with its margins. (SUBSET-026-3 3.13.9.2)
#[derive(Clone, Copy, Debug, PartialEq, Eq)]
pub struct SpeedLimits {
    pub permitted: Speed,
    pub warning: Speed,
    pub sbi: Speed,
    pub ebi: Speed,
}

impl SpeedLimits {
    /// Those of a speed in km/h, at most 500.
    pub fn of_kmh(kmh: u16) -> SpeedLimits
        requires { kmh ≤ top_kmh }
        ensures permitted { result.permitted ≡ notches kmh + no_margin kmh }
        ensures warning { result.warning ≡ notches kmh + warning_margin kmh }
        ensures sbi { result.sbi ≡ notches kmh + sbi_margin kmh }
        ensures ebi { result.ebi ≡ notches kmh + ebi_margin kmh }
    {
        let permitted = Speed::of_kmh(kmh);
        let margins = Margins::of_kmh(kmh);
        SpeedLimits {
            permitted,
            warning: permitted.plus(margins.warning),
            sbi: permitted.plus(margins.sbi),
            ebi: permitted.plus(margins.ebi),
        }
    }

    /// Those of a target; at the EOA and the SvL its speed and every margin count as 0. With its EBI margin the target
    /// speed is the foot speed of its EBD. (SUBSET-026-3 3.13.8.3, 3.13.10; own)
    pub fn of_target(target: &Target) -> SpeedLimits
        requires { target.now.speed ≤ top_kmh }
        ensures { AreSpeedsOf target.now result }
    {
        match target.kind {
            TargetKind::Mrsp | TargetKind::Loa => SpeedLimits::of_kmh(target.speed),
            TargetKind::Eoa | TargetKind::Svl => SpeedLimits {
                permitted: Speed::new(0),
                warning: Speed::new(0),
                sbi: Speed::new(0),
                ebi: Speed::new(0),
            },
        }
    }

    /// The speed above which a limit of this kind is passed. (SUBSET-026-3 3.13.10; own table)
    pub fn speed(&self, kind: LimitKind) -> Speed
        ensures { result ≡ speed_in kind self.now }
    {
        match kind {
            LimitKind::Ebi => self.ebi,
            LimitKind::Sbi => self.sbi,
            LimitKind::Warning => self.warning,
            LimitKind::Permitted | LimitKind::Indication => self.permitted,
        }
    }
}

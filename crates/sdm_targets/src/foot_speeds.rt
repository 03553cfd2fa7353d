//! The speed at the foot of a target's brake curve.

ghost use Rattle.std.specs.Prelude.{◌≡◌, ◌≤◌};
ghost use Rattle.sdm_rules.specs.Targets.{foot_speed_of};
ghost use Rattle.sdm_rules.specs.Ranges.{top_kmh};

use sdm_ceiling::dv_ebi;
use sdm_num::Speed;
use sdm_rules::{Target, TargetKind};

/// The foot speed of a target's EBD: the target speed, at most 500 km/h, with its EBI margin; 0 at the EOA and the
/// SvL. (SUBSET-026-3 3.13.8.3)
pub fn foot_speed(t: &Target) -> Speed
    requires { t.now.speed ≤ top_kmh }
    ensures { result ≡ foot_speed_of t.now }
{
    match t.kind {
        TargetKind::Mrsp | TargetKind::Loa => Speed::of_kmh(t.speed).plus(dv_ebi(t.speed)),
        TargetKind::Eoa | TargetKind::Svl => Speed::new(0),
    }
}

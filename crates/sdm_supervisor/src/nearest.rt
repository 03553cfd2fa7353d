//! The nearest limits of the targets that a reading looks at, one name at a time.

ghost use Rattle.std.specs.Prelude.{◌*◌};
ghost use Rattle.sdm_limits.specs.Ranges.{IsNearZero, reach};
ghost use Rattle.sdm_limits.specs.Sides.{AreNear};

use sdm_limits::Limits;
use sdm_num::Place;

/// The nearest EBI, SBI and permitted limit over targets whose speed is at most the train's; no EBI where they are
/// EOAs alone. At one speed each warning limit lies as far before its SBI as any other, and each indication limit
/// before its permitted limit: so the nearest of these follow. (SUBSET-026-3 3.13.9.3; own)
#[derive(Clone, Copy, Debug, PartialEq, Eq)]
pub struct Nearest {
    pub ebi: Option<Place>,
    pub sbi: Place,
    pub permitted: Place,
    ghost near: { IsNearZero (2 * reach) sbi × IsNearZero (2 * reach) permitted },
}

impl Nearest {
    ghost use Rattle.sdm_supervisor.specs.Verdicts.{IsNearer};

    /// The nearest of these limits and of those of one more target.
    pub fn with(nearest: Option<Nearest>, limits: &Limits) -> Nearest
        requires { AreNear limits.now }
        ensures { IsNearer nearest limits.now result }
    {
        let ebi = limits.ebi.map(|ebi| ebi.at());
        let sbi = limits.sbi.at();
        let permitted = limits.permitted.at();
        let Some(nearest) = nearest else {
            return Nearest {
                ebi,
                sbi,
                permitted,
            };
        };
        Nearest {
            ebi: match (nearest.ebi, ebi) {
                (None, _) => ebi,
                (Some(a), None) => Some(a),
                (Some(a), Some(b)) => Some(if b.grains() < a.grains() { b } else { a }),
            },
            sbi: if sbi.grains() < nearest.sbi.grains() {
                sbi
            } else {
                nearest.sbi
            },
            permitted: if permitted.grains() < nearest.permitted.grains() {
                permitted
            } else {
                nearest.permitted
            },
        }
    }
}

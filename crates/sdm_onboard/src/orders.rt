//! What the interfaces of the train are given. A row's commands are handed on, and the emergency brake is commanded
//! besides wherever the row promises nothing that may be counted on: docs/INTEGRATION.md has the cases.

ghost use Rattle.std.specs.Prelude.{◌≡◌, ◌⊎◌, ◌||◌, IsTrue};
ghost use Rattle.sdm_onboard.specs.Guard.{is_guarded_order};

use sdm_rules::Row;
use std::fmt;

/// What stands at the interfaces.
#[derive(Clone, Copy, Debug)]
pub struct Orders {
    pub traction_off: bool,
    pub service: bool,
    pub emergency: bool,
}

impl Orders {
    /// What is always enough.
    pub const BRAKE: Orders = Orders {
        traction_off: true,
        service: true,
        emergency: true,
    };

    /// What a row asks. `is_unsupervised` says that something which was handed in was refused, so that the supervisor
    /// doesn't know of it. A row that isn't covered promises no stop, so the brake is commanded, but in release speed
    /// monitoring after a reading that is relied on there.
    pub fn of(row: &Row, is_relied_on: bool, is_unsupervised: bool) -> Orders
        ensures emergency { result.emergency ≡ (is_guarded_order row.now is_relied_on || is_unsupervised) }
        ensures service { result.service ≡ (row.now.held.sb || result.emergency) }
        ensures cut_off { IsTrue row.now.held.tco → IsTrue result.traction_off }
        ensures no_traction_against_brakes { IsTrue result.emergency ⊎ IsTrue result.service
            → IsTrue result.traction_off }
    {
        let is_uncovered = !row.covered && !is_relied_on;
        if row.held.eb || is_uncovered || is_unsupervised {
            return Orders::BRAKE;
        }
        Orders {
            traction_off: row.held.tco || row.held.sb,
            service: row.held.sb,
            emergency: false,
        }
    }
}

impl fmt::Display for Orders {
    fn fmt<W: fmt::Write>(&self, f: &mut fmt::Formatter<W>) -> fmt::Result {
        if self.emergency {
            write!(f, "emergency brake")
        } else if self.service {
            write!(f, "service brake")
        } else if self.traction_off {
            write!(f, "traction off")
        } else {
            write!(f, "run")
        }
    }
}

//! Where speed limits end, and the cells that a temporary restriction covers.

ghost use Rattle.std.specs.Prelude.{◌≡◌, ◌≤◌, ◌≤ℤ◌, pos};
ghost use Rattle.sdm_rules.specs.Profile.{end_for, zone_of};
ghost use Rattle.sdm_rules.specs.Ranges.{longest_track, longest_train};
ghost use Rattle.sdm_speed.specs.Held.{IsHeldRestriction};
ghost use Rattle.sdm_speed.specs.ZoneEnds.{cells_of};

use crate::zones::Zone;
use sdm_rules::Restriction;

/// Cells from the first one up to, but not including, the one past the last.
#[derive(Clone, Copy)]
pub struct Cells {
    pub first: i32,
    pub past: i32,
}

/// Where a speed limit ends for the front end, with a train of this length in cm.
pub fn end_for(length_cm: u32, delayed: bool, end: i64) -> i32
    requires train { length_cm ≤ longest_train }
    requires not_before { pos 0 ≤ℤ end }
    requires on_track { end ≤ℤ pos longest_track }
    ensures { result ≡ end_for (pos length_cm) delayed end }
{
    if delayed {
        (end + i64::from(length_cm)) as i32
    } else {
        end as i32
    }
}

/// The cells that a temporary restriction covers.
pub fn cells_of(r: Restriction, length_cm: u32) -> Cells
    requires track { IsHeldRestriction r }
    requires train { length_cm ≤ longest_train }
    ensures { result ≡ cells_of (pos length_cm) r }
{
    Cells {
        first: r.start as i32,
        past: end_for(length_cm, r.delayed, i64::from(r.end)),
    }
}

/// The zone of a temporary restriction.
pub fn zone_of(r: Restriction, length_cm: u32) -> Zone
    requires track { IsHeldRestriction r }
    requires train { length_cm ≤ longest_train }
    ensures { result ≡ zone_of (pos length_cm) r }
{
    let cells = cells_of(r, length_cm);
    Zone {
        first: Some(cells.first),
        past: Some(cells.past),
        limit: r.speed,
    }
}

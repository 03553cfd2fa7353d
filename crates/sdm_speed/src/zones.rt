//! Zones: stretches of the track with a speed limit, of which the lowest counts where several lie over one another.
//! Static speed profile and temporary restrictions are zones alike.

use std::marker::Model;

/// A speed limit in km/h from its first cell up to, but not including, the cell past its last; none where it has no
/// beginning or no end.
#[derive(Clone, Copy, Debug)]
pub struct Zone {
    pub first: Option<i32>,
    pub past: Option<i32>,
    pub limit: u16,
}

impl Model for Zone {
    ghost use Rattle.sdm_rules.specs.Profile.{Zone};

    ghost Value = { Zone };

    ghost view = { λ z. record { first = z.first; past = z.past; limit = z.limit } };

    ghost inverse = { λ z. record { first = z.first; past = z.past; limit = z.limit } };
}

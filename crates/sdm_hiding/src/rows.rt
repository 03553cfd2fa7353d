//! Feet of curves in a row.

ghost use Rattle.std.specs.Prelude.{◌≡◌, ◌<◌, length, List};
ghost use Rattle.sdm_rules.specs.Slopes.{Slopes};
ghost use Rattle.sdm_hiding.specs.Hiding.{hides, IsAt};

use sdm_num::{Place, Speed};

/// The foot of a target's curve. (own)
#[derive(Clone, Copy, Debug, PartialEq, Eq)]
pub struct Foot {
    pub place: Place,
    /// The target speed.
    pub permitted: Speed,
    /// The foot speed: the target speed with the margin of its curve, which a guidance curve has none of.
    pub speed: Speed,
}

/// Feet of curves over one slope map, one after the other. (own)
pub trait Feet {
    ghost use Rattle.sdm_hiding.specs.declared.rows.Foot.{Foot};

    /// The slopes of the map.
    ghost on: { Self → Slopes };

    /// The feet.
    ghost feet: { Self → List Foot };

    /// How many they are.
    fn len(&self) -> usize
        ensures { result ≡ length (feet self.now) };

    /// One of them, counted from 0.
    fn foot(&self, i: usize) -> Foot
        requires { i < length (feet self.now) }
        ensures { IsAt (feet self.now) i result };

    /// Whether the curve at `k` hides that at `i`.
    fn hides(&self, k: usize, i: usize) -> bool
        requires further { k < length (feet self.now) }
        requires hidden { i < length (feet self.now) }
        ensures { (h f : Foot) → IsAt (feet self.now) k h → IsAt (feet self.now) i f → result ≡ hides (on self.now) h f };
}

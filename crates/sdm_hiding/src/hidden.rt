//! What a record works out: how far on each curve of a row is hidden.

ghost use Rattle.std.specs.Prelude.{◌≡◌, ◌+◌, ◌<◌, ◌≤◌, length, slice_index, if◌then◌else◌, nat_lt};
ghost use Rattle.sdm_rules.specs.Slopes.{IsUsable};
ghost use Rattle.sdm_hiding.specs.declared.rows.Foot.{Foot};
ghost use Rattle.sdm_hiding.specs.Hiding.{AreHiddenFrom, AreInOrder, AreNoEarlier, IsAt};

use crate::rows::Feet;

/// The index of what hides the curve at an index of a row of so many, or the row's end.
pub(crate) fn hider(steps: usize, i: usize, count: usize) -> usize
    requires { i < count }
    ensures { result ≡ (if nat_lt (i + steps) count then i + steps else count) }
{
    if steps < count - i { i + steps } else { count }
}

/// Works out how many curves further on each curve of a row is hidden, in at most two turns for each curve. It goes from
/// what is hidden to what hides it: what hides none of a row of curves doesn't hide the first of them. So a curve that
/// was passed over is not looked at again.
pub fn hide<F: Feet>(feet: &F, steps: &mut [usize])
    requires usable { IsUsable (F.on feet.now) }
    requires order { AreInOrder (F.feet feet.now) }
    requires room { length (F.feet feet.now) ≤ length steps.old }
    ensures hidden { AreHiddenFrom (F.on feet.now) (F.feet feet.now) steps.new 0 }
    ensures room { length steps.new ≡ length steps.old }
{
    let count = feet.len();
    // how often curves may still be passed over in the whole run: each of them is at most once
    let mut passes = count;
    'each: for i in (0..count).rev() {
        let mut k = i + 1;
        'further: while k < count && passes > 0 && !feet.hides(k, i) {
            passes -= 1;
            k = hider(steps[k], k, count);
        }
        steps[i] = k - i;
    }
}

/// The index up to which no curve of a row is before the one at an index, at any speed: that of what hides it, or the
/// row's end.
pub fn none_before_to<F: Feet>(feet: &F, steps: &[usize], i: usize) -> usize
    requires usable { IsUsable (F.on feet.now) }
    requires order { AreInOrder (F.feet feet.now) }
    requires hidden { AreHiddenFrom (F.on feet.now) (F.feet feet.now) steps.now 0 }
    requires room { length (F.feet feet.now) ≤ length steps.now }
    requires known { i < length (F.feet feet.now) }
    ensures further { i < result }
    ensures inside { result ≤ length (F.feet feet.now) }
    ensures after { (f : Foot) → IsAt (F.feet feet.now) i f → AreNoEarlier (F.on feet.now) (F.feet feet.now) f i result }
{
    hider(steps[i], i, feet.len())
}

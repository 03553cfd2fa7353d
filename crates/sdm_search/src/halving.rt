//! A search in a list in order, whose number of turns the list's length gives.

ghost use Rattle.std.specs.Prelude.{◌≡◌, ◌≤◌, Bool, true, false, length};
ghost use Rattle.std.specs.Fn.{ComputesKey};
ghost use Rattle.std.specs.List.Sorted.{IsPartitionedBy, IsPartitionPoint};

use crate::binary::{digits, power_of_2};

/// How many elements of a list come first for which a test holds, where all these come before the others. It takes as
/// many turns as the list's length has binary digits.
pub fn parted<T, P: FnMut(&T) -> bool>(list: &[T], mut comes_first: P) -> usize
    requires { P.IsAlwaysCallable comes_first }
    ensures bound { result ≤ length list.now }
    ensures partitioned { (p : T → Bool) → ComputesKey P.FnMut p comes_first → IsPartitionedBy p list.now →
        IsPartitionPoint (λ y. p y ≡ true) (λ y. p y ≡ false) list.now result }
{
    let mut parted = 0;
    for turn in (0..digits(list.len())).rev() {
        let more = power_of_2(turn);
        if more <= list.len() - parted && comes_first(&list[parted + more - 1]) {
            parted += more;
        }
    }
    parted
}

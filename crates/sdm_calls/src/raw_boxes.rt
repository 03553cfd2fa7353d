//! A box as its pointer, so that it may lie in a struct of C.

ghost use Rattle.std.specs.Prelude.{◌≡◌};
ghost use Rattle.std.specs.Box.Ownership.{box_owns};
ghost use Rattle.sdm_calls.specs.Heap.{free_right};

use std::alloc::Global;
use std::marker::Model;

/// The pointer of a box on the heap. What it leads to is known and not kept.
pub struct RawBox<T> {
    pub(crate) at: *mut T,
    pub ghost value: { T },
}

impl<T> Model for RawBox<T> {
    ghost also_owns = { λ b. box_owns free_right T.row b.at b.value };
}

impl<T> RawBox<T> {
    /// The pointer of a box.
    pub fn of(b: Box<T>) -> RawBox<T>
    where
        T: Drop,
        ensures { result.value ≡ b.value }
    {
        let at = Box::into_raw(b);
        RawBox { at }
    }

    /// The box again.
    pub fn into_box(self, alloc: Global) -> Box<T>
        ensures { result.value ≡ self.value }
    {
        let RawBox { at } = self;
        unsafe { Box::from_raw(alloc, at) }
    }
}

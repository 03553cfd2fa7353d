//! The handle that C holds: a pointer to a supervisor on the heap, or nothing. Here alone raw pointers are met, so each
//! function is proved by hand; all others see a handle as its state.

ghost use Rattle.std.specs.Prelude.{◌≡◌, ◌==◌};
ghost use Rattle.std.specs.Borrow.{sem};
ghost use Rattle.sdm_rules.specs.Supervision.{Supervision};
ghost use Rattle.sdm_c.specs.Held.{held, state_coded};

use crate::raw_boxes::RawBox;
use sdm_supervisor::Supervisor;
use std::marker::Model;
use std::ptr::null_mut;

/// A supervisor on the heap, or none: `struct sdm`. The pointer's type says nothing, since no type that owns memory
/// crosses to C.
#[repr(C)]
pub struct Handle {
    at: *mut u8,
    is_open: u32,
    pub ghost state: { Supervision } by { state_coded },
}

impl Model for Handle {
    ghost also_owns = { λ h. held h.is_open h.at h.state };
}

const _: () = prove!(size_of::<Handle>() == 16);

impl Handle {
    ghost use Rattle.sdm_c.specs.Lending.{IsInit, LendsSupervisor};

    /// A handle of nothing: `SDM_INIT`.
    pub fn closed() -> Handle
        ensures { IsInit result }
    {
        Handle {
            at: null_mut(),
            is_open: 0,
        }
    }

    /// The handle of a supervisor.
    pub fn of(raw: RawBox<Supervisor>) -> Handle
        ensures open { result.is_open ≡ 1 }
        ensures state { result.state ≡ raw.value }
    {
        let RawBox { at } = raw;
        Handle {
            at: at as *mut u8,
            is_open: 1,
        }
    }

    /// The supervisor of a handle.
    pub fn into_raw(self) -> RawBox<Supervisor>
        requires { self.is_open ≡ 1 }
        ensures { result.value ≡ self.state }
    {
        let Handle { at, is_open: _ } = self;
        RawBox {
            at: at as *mut Supervisor,
        }
    }

    /// Lets a handle of nothing go. No other may be let go: it has a supervisor to free.
    pub fn discard(self)
        requires { ¬ (self.is_open ≡ 1) }
    {
        let Handle { at: _, is_open: _ } = self;
    }

    /// Whether there is a supervisor.
    pub fn is_open(&mut self) -> bool
        ensures open { result ≡ (self.old.is_open == 1) }
        ensures unchanged { self.new ≡ self.old }
    {
        self.is_open == 1
    }

    /// The supervisor, lent.
    pub fn supervisor(&mut self) -> &mut Supervisor
        requires { self.old.is_open ≡ 1 }
        ensures* writes_back { sem 𝓛 (LendsSupervisor self.entry result) }
        ensures value { result.now ≡ self.old.state }
    {
        unsafe { &mut *(self.at as *mut Supervisor) }
    }
}

// The supervisor and the right to free it may go to another thread.
unsafe impl Send for Handle {}

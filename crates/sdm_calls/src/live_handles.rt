//! The handle that C holds: a pointer to a session on the heap, or nothing. Here alone raw pointers are met, so each
//! function is proved by hand; all others see a handle as its state.

ghost use Rattle.std.specs.Prelude.{◌≡◌, ◌==◌};
ghost use Rattle.std.specs.Borrow.{sem};
ghost use Rattle.sdm_calls.specs.declared.sessions.Session.{Session};
ghost use Rattle.sdm_calls.specs.Held.{held, state_coded};

use crate::raw_boxes::RawBox;
use crate::sessions::Session;
use std::marker::Model;
use std::ptr::null_mut;

/// A session on the heap, or none: `struct sdm_live`. The pointer's type says nothing, since no type that owns memory
/// crosses to C.
#[repr(C)]
pub struct Live {
    at: *mut u8,
    is_open: u32,
    pub ghost state: { Session } by { state_coded },
}

impl Model for Live {
    ghost also_owns = { λ h. held h.is_open h.at h.state };
}

const _: () = prove!(size_of::<Live>() == 16);

impl Live {
    ghost use Rattle.sdm_calls.specs.Lending.{IsInit, LendsSession};

    /// A handle of nothing: `SDM_LIVE_INIT`.
    pub fn closed() -> Live
        ensures { IsInit result }
    {
        Live {
            at: null_mut(),
            is_open: 0,
        }
    }

    /// The handle of a session.
    pub fn of(raw: RawBox<Session>) -> Live
        ensures open { result.is_open ≡ 1 }
        ensures state { result.state ≡ raw.value }
    {
        let RawBox { at } = raw;
        Live {
            at: at as *mut u8,
            is_open: 1,
        }
    }

    /// The session of a handle.
    pub fn into_raw(self) -> RawBox<Session>
        requires { self.is_open ≡ 1 }
        ensures { result.value ≡ self.state }
    {
        let Live { at, is_open: _ } = self;
        RawBox {
            at: at as *mut Session,
        }
    }

    /// Lets a handle of nothing go. No other may be let go: it has a session to free.
    pub fn discard(self)
        requires { ¬ (self.is_open ≡ 1) }
    {
        let Live { at: _, is_open: _ } = self;
    }

    /// Whether there is a session.
    pub fn is_open(&mut self) -> bool
        ensures open { result ≡ (self.old.is_open == 1) }
        ensures unchanged { self.new ≡ self.old }
    {
        self.is_open == 1
    }

    /// The session, lent.
    pub fn session(&mut self) -> &mut Session
        requires { self.old.is_open ≡ 1 }
        ensures* writes_back { sem 𝓛 (LendsSession self.entry result) }
        ensures value { result.now ≡ self.old.state }
    {
        unsafe { &mut *(self.at as *mut Session) }
    }
}

// The session and the right to free it may go to another thread.
unsafe impl Send for Live {}

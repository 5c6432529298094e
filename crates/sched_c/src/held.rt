//! The pointer to a session on the heap, which C holds.
ghost use Rattle.std.specs.Prelude.{◌≡◌, Bool, true, false};
ghost use Rattle.sched_c.specs.Seen.{Seen};
ghost use Rattle.sched_c.specs.Slots.{holds_session};
ghost use Rattle.sched_c.specs.own.Kept.{no_session, seen_coded};

use crate::session::Session;
use c_slot::Kept;
use std::alloc::Global;
use std::marker::Model;

/// The pointer to a session, or null.
#[repr(C)]
#[derive(Drop)]
pub struct SessionPointer {
    ptr: *mut u8,
    alloc: Global,
    pub ghost full: { Bool },
    pub ghost value: { Seen } by { seen_coded },
}

impl Model for SessionPointer {
    ghost also_owns = { λ h. holds_session h.alloc h.ptr h.full h.value };
}

impl SessionPointer {
    /// The null pointer.
    pub(crate) fn nothing(alloc: Global) -> SessionPointer
        ensures { (result.full ≡ false) × (result.value ≡ no_session) }
    {
        SessionPointer {
            ptr: std::ptr::null_mut(),
            alloc,
        }
    }

    /// The pointer to a session.
    pub(crate) fn of(kept: Kept<Session, Global>) -> SessionPointer
        ensures { (result.full ≡ true) × (result.value ≡ kept.value) }
    {
        let Kept { ptr, alloc } = kept;
        SessionPointer {
            ptr: ptr as *mut u8,
            alloc,
        }
    }

    /// The session again.
    pub(crate) fn into_kept(self) -> Kept<Session, Global>
        requires { self.full ≡ true }
        ensures { result.value ≡ self.value }
    {
        let SessionPointer { ptr, alloc } = self;
        Kept {
            ptr: ptr as *mut Session,
            alloc,
        }
    }
}

unsafe impl Send for SessionPointer {}

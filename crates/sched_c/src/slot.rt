//! What C holds of an executor.
ghost use Rattle.std.specs.Prelude.{◌≡◌, true, false, is_some, IfSome, IfNone};
ghost use Rattle.sched_c.specs.own.Kept.{no_session};

use crate::held::SessionPointer;
use crate::session::Session;
use c_slot::Kept;
use std::alloc::Global;

/// Room for an executor, with one or without.
///
/// C fills it with zeros before the first call, and reads and writes none of it after that.
#[repr(C)]
#[derive(Drop)]
pub struct Slot {
    /// The executor.
    pub held: SessionPointer,
    /// Whether there is an executor.
    pub full: bool,
    pub ghost agrees: { held.full ≡ full },
}

impl Slot {
    /// A slot without an executor.
    pub(crate) fn empty(alloc: Global) -> Slot
        ensures full { result.full ≡ false }
        ensures value { result.held.value ≡ no_session }
    {
        Slot {
            held: SessionPointer::nothing(alloc),
            full: false,
        }
    }

    /// A slot with an executor.
    pub(crate) fn of(session: Box<Session, Global>) -> Slot
        ensures full { result.full ≡ true }
        ensures value { result.held.value ≡ session.value }
    {
        Slot {
            held: SessionPointer::of(Kept::of(session)),
            full: true,
        }
    }

    /// Takes the executor out, if there is one, and leaves the slot empty.
    pub(crate) fn take(&mut self, alloc: Global) -> Option<Box<Session, Global>>
        ensures there { is_some result ≡ self.old.full }
        ensures taken { IfSome result (λ session. session.value ≡ self.old.held.value) }
        ensures empty { self.new.full ≡ false }
        ensures unchanged { IfNone result (self.new ≡ self.old) }
    {
        if !self.full {
            return None;
        }
        let slot = std::mem::replace(self, Slot::empty(alloc));
        Some(slot.held.into_kept().into_box())
    }
}

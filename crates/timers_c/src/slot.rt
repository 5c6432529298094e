//! What C holds of timers.
ghost use Rattle.std.specs.Prelude.{◌≡◌, true, false, is_some, IfSome, IfNone};
ghost use Rattle.timers_c.specs.own.Kept.{no_session};

use crate::held::SessionPointer;
use crate::session::Session;
use c_slot::Kept;
use std::alloc::Global;

/// Room for timers, with them or without.
///
/// C fills it with zeros before the first call, and reads and writes none of it after that.
#[repr(C)]
#[derive(Drop)]
pub struct Slot {
    /// The timers.
    pub held: SessionPointer,
    /// Whether there are timers.
    pub full: bool,
    pub ghost agrees: { held.full ≡ full },
}

impl Slot {
    /// A slot without timers.
    pub(crate) fn empty(alloc: Global) -> Slot
        ensures full { result.full ≡ false }
        ensures value { result.held.value ≡ no_session }
    {
        Slot {
            held: SessionPointer::nothing(alloc),
            full: false,
        }
    }

    /// Takes the timers out, if there are any, and leaves the slot empty.
    pub(crate) fn take(&mut self, alloc: Global) -> Option<Box<Session, Global>>
        ensures there { is_some result ≡ self.old.full }
        ensures taken { IfSome result (λ session. session.value ≡ self.old.held.value) }
        ensures empty { self.new.full ≡ false }
        ensures unchanged { IfNone result (self.new ≡ self.old) }
    {
        if !self.full {
            return None;
        }
        let slot = std::mem::replace(self, Slot::empty(alloc));
        Some(slot.held.into_kept().into_box())
    }

    /// Puts timers into the slot, which is empty.
    pub(crate) fn put(&mut self, session: Box<Session, Global>)
        requires { self.old.full ≡ false }
        ensures full { self.new.full ≡ true }
        ensures value { self.new.held.value ≡ session.value }
    {
        self.held = SessionPointer::of(Kept::of(session));
        self.full = true;
    }
}

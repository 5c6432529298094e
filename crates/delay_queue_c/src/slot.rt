//! What C holds of a queue.
ghost use Rattle.std.specs.Prelude.{◌≡◌, true, false, is_some, length, IfSome, IfNone};
ghost use Rattle.delay_queue_c.specs.own.Kept.{nothing};

use crate::held::QueuePointer;
use c_slot::Kept;
use delay_queue::DelayQueue;
use std::alloc::Global;

/// Room for a queue, with one or without.
///
/// C fills it with zeros before the first call, and reads and writes none of it after that.
#[repr(C)]
#[derive(Drop)]
pub struct Slot {
    /// The queue.
    pub held: QueuePointer,
    /// For how many tasks the queue is, and 0 where there is none.
    pub tasks: u32,
    /// Whether there is a queue.
    pub full: bool,
    pub ghost agrees: { held.full ≡ full },
    pub ghost counted: { length held.value.entries ≡ tasks },
}

impl Slot {
    /// A slot without a queue.
    pub(crate) fn empty(alloc: Global) -> Slot
        ensures full { result.full ≡ false }
        ensures value { result.held.value ≡ nothing }
    {
        Slot {
            held: QueuePointer::nothing(alloc),
            tasks: 0,
            full: false,
        }
    }

    /// A slot with a queue for so many tasks.
    pub(crate) fn of(queue: Box<DelayQueue<Global>, Global>, tasks: u32) -> Slot
        requires { length queue.value.entries ≡ tasks }
        ensures full { result.full ≡ true }
        ensures value { result.held.value ≡ queue.value }
    {
        Slot {
            held: QueuePointer::of(Kept::of(queue)),
            tasks,
            full: true,
        }
    }

    /// Takes the queue out, if there is one, and leaves the slot empty.
    pub(crate) fn take(&mut self, alloc: Global) -> Option<Box<DelayQueue<Global>, Global>>
        ensures there { is_some result ≡ self.old.full }
        ensures taken { IfSome result (λ queue. queue.value ≡ self.old.held.value) }
        ensures empty { self.new.full ≡ false }
        ensures unchanged { IfNone result (self.new ≡ self.old) }
    {
        if !self.full {
            return None;
        }
        let slot = std::mem::replace(self, Slot::empty(alloc));
        Some(slot.held.into_kept().into_box())
    }
}

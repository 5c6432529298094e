//! The pointer to a queue on the heap, which C holds.
ghost use Rattle.std.specs.Prelude.{◌≡◌, Bool, true, false};
ghost use Rattle.delay_queue.specs.Queues.{Queue};
ghost use Rattle.delay_queue_c.specs.Held.{holds_queue};
ghost use Rattle.delay_queue_c.specs.own.Kept.{queue_coded, nothing};

use c_slot::Kept;
use delay_queue::DelayQueue;
use std::alloc::Global;
use std::marker::Model;

/// The pointer to a queue, or null.
#[repr(C)]
#[derive(Drop)]
pub struct QueuePointer {
    ptr: *mut u8,
    alloc: Global,
    pub ghost full: { Bool },
    pub ghost value: { Queue } by { queue_coded },
}

impl Model for QueuePointer {
    ghost also_owns = { λ h. holds_queue h.alloc h.ptr h.full h.value };
}

impl QueuePointer {
    /// The null pointer.
    pub(crate) fn nothing(alloc: Global) -> QueuePointer
        ensures { (result.full ≡ false) × (result.value ≡ nothing) }
    {
        QueuePointer {
            ptr: std::ptr::null_mut(),
            alloc,
        }
    }

    /// The pointer to a queue.
    pub(crate) fn of(kept: Kept<DelayQueue<Global>, Global>) -> QueuePointer
        ensures { (result.full ≡ true) × (result.value ≡ kept.value) }
    {
        let Kept { ptr, alloc } = kept;
        QueuePointer {
            ptr: ptr as *mut u8,
            alloc,
        }
    }

    /// The queue again.
    pub(crate) fn into_kept(self) -> Kept<DelayQueue<Global>, Global>
        requires { self.full ≡ true }
        ensures { result.value ≡ self.value }
    {
        let QueuePointer { ptr, alloc } = self;
        Kept {
            ptr: ptr as *mut DelayQueue<Global>,
            alloc,
        }
    }
}

unsafe impl Send for QueuePointer {}

//! Making a queue and freeing it.
ghost use Rattle.std.specs.Prelude.{◌≡◌, ◌≢◌, ◌⊎◌, true, false, None, replicate};
ghost use Rattle.delay_queue_c.specs.Statuses.{done, no_memory, has_queue, queue_status};

use crate::slot::Slot;
use crate::status::Status;
use delay_queue::DelayQueue;
use std::alloc::Global;

/// Puts a new queue, for the tasks from 0 to `tasks - 1`, into an empty slot.
#[unsafe(no_mangle)]
pub extern "C" fn dq_ref_new(alloc: Global, slot: &mut Slot, tasks: u32) -> u32
    ensures has_queue { slot.old.full ≡ true → result ≡ has_queue }
    ensures answers { slot.old.full ≡ false → (result ≡ done) ⊎ (result ≡ no_memory) }
    ensures full { result ≡ done → slot.new.full ≡ true }
    ensures empty { result ≡ done → slot.new.held.value.entries ≡ replicate tasks None }
    ensures untouched { result ≡ done → slot.new.held.value.touched ≡ 0 }
    ensures unchanged { result ≢ done → slot.new ≡ slot.old }
{
    if slot.full {
        return Status::HasQueue.number();
    }
    let Ok(queue) = DelayQueue::new(alloc, tasks) else {
        return Status::NoMemory.number();
    };
    let Ok(queue) = Box::new(alloc, queue) else {
        return Status::NoMemory.number();
    };
    *slot = Slot::of(queue, tasks);
    Status::Done.number()
}

/// Frees the queue of a slot, and leaves the slot empty.
#[unsafe(no_mangle)]
pub extern "C" fn dq_ref_free(alloc: Global, slot: &mut Slot) -> u32
    ensures answers { result ≡ queue_status slot.old.full }
    ensures empty { slot.new.full ≡ false }
    ensures unchanged { result ≢ done → slot.new ≡ slot.old }
{
    let Some(queue) = slot.take(alloc) else {
        return Status::NoQueue.number();
    };
    drop(queue);
    Status::Done.number()
}

//! Adding an entry.
ghost use Rattle.std.specs.Prelude.{◌≡◌, ◌≢◌, ◌<◌, true, min, None, Some, length, slice_set};
ghost use Rattle.delay_queue.specs.Queues.{due_in, entry_count};
ghost use Rattle.delay_queue.specs.Touches.{most_touches, Touches};
ghost use Rattle.delay_queue_c.specs.Slots.{IsSame};
ghost use Rattle.delay_queue_c.specs.Statuses.{done, insert_status};
ghost use Rattle.delay_queue_c.specs.own.Told.{number_of};

use crate::slot::Slot;
use crate::status::Status;
use delay_queue::{DelayQueue, Entry};
use std::alloc::Global;

/// Adds an entry, if its task is below the count of tasks and has no entry yet.
#[unsafe(no_mangle)]
pub extern "C" fn dq_ref_try_insert(alloc: Global, slot: &mut Slot, due: u64, task: u32) -> u32
    ensures answers { result ≡ insert_status slot.old.full slot.old.held.value.entries task }
    ensures full { slot.new.full ≡ slot.old.full }
    ensures inserted { result ≡ done
        → slot.new.held.value.entries ≡ slice_set slot.old.held.value.entries task (Some due) }
    ensures touched { result ≡ done
        → Touches slot.old.held.value.touched slot.new.held.value.touched
        (min 1 (entry_count slot.old.held.value.entries))
        (most_touches (entry_count slot.old.held.value.entries)) }
    ensures unchanged { result ≢ done → IsSame slot.old.held.value slot.new.held.value }
{
    let tasks = slot.tasks;
    let Some(mut queue) = slot.take(alloc) else {
        return Status::NoQueue.number();
    };
    let status = insert_into(&mut queue, tasks, due, task);
    *slot = Slot::of(queue, tasks);
    status.number()
}

/// Adds an entry to a queue for so many tasks.
pub(crate) fn insert_into(queue: &mut DelayQueue<Global>, tasks: u32, due: u64, task: u32) -> Status
    requires { length queue.old.entries ≡ tasks }
    ensures answers { number_of result ≡ insert_status true queue.old.entries task }
    ensures length { length queue.new.entries ≡ tasks }
    ensures inserted { number_of result ≡ done
        → queue.new.entries ≡ slice_set queue.old.entries task (Some due) }
    ensures touched { number_of result ≡ done
        → Touches queue.old.touched queue.new.touched (min 1 (entry_count queue.old.entries))
        (most_touches (entry_count queue.old.entries)) }
    ensures unchanged { number_of result ≢ done → queue.new ≡ queue.old }
{
    if task >= tasks {
        return Status::UnknownTask;
    }
    if queue.contains(task) {
        return Status::HasEntry;
    }
    queue.insert(Entry { due, task });
    Status::Done
}

/// Adds an entry to the queue of a full slot. Its task is below the count of tasks and has no entry yet.
#[unsafe(no_mangle)]
pub extern "C" fn dq_insert_unchecked(alloc: Global, slot: &mut Slot, due: u64, task: u32)
    requires full { slot.old.full ≡ true }
    requires known { task < length slot.old.held.value.entries }
    requires absent { due_in slot.old.held.value.entries task ≡ None }
    ensures full { slot.new.full ≡ true }
    ensures inserted { slot.new.held.value.entries
        ≡ slice_set slot.old.held.value.entries task (Some due) }
    ensures touched { Touches slot.old.held.value.touched slot.new.held.value.touched
        (min 1 (entry_count slot.old.held.value.entries))
        (most_touches (entry_count slot.old.held.value.entries)) }
{
    let tasks = slot.tasks;
    if let Some(mut queue) = slot.take(alloc) {
        queue.insert(Entry { due, task });
        *slot = Slot::of(queue, tasks);
    }
}

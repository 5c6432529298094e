//! Looking at a queue.
ghost use Rattle.std.specs.Prelude.{◌≡◌, ◌≢◌, ◌⊎◌, true, false, Some};
ghost use Rattle.delay_queue.specs.Queues.{due_in, entry_count, IsLeast, IsEmpty};
ghost use Rattle.delay_queue_c.specs.Slots.{IsSame};
ghost use Rattle.delay_queue_c.specs.Statuses.{done, no_entry, no_queue, look_status, queue_status};

use crate::entry::DqEntry;
use crate::slot::Slot;
use crate::status::Status;
use std::alloc::Global;

/// Writes the least entry to `out`, due or not. The entry stays.
#[unsafe(no_mangle)]
pub extern "C" fn dq_ref_peek(alloc: Global, slot: &mut Slot, out: &mut DqEntry) -> u32
    ensures no_queue { slot.old.full ≡ false → result ≡ no_queue }
    ensures answers { slot.old.full ≡ true → (result ≡ done) ⊎ (result ≡ no_entry) }
    ensures least { result ≡ done → IsLeast slot.old.held.value.entries out.new.due out.new.task }
    ensures empty { result ≡ no_entry → IsEmpty slot.old.held.value.entries }
    ensures unwritten { result ≢ done → out.new ≡ out.old }
    ensures full { slot.new.full ≡ slot.old.full }
    ensures same { IsSame slot.old.held.value slot.new.held.value }
{
    let tasks = slot.tasks;
    let Some(queue) = slot.take(alloc) else {
        return Status::NoQueue.number();
    };
    let least = queue.peek();
    *slot = Slot::of(queue, tasks);
    let Some(entry) = least else {
        return Status::NoEntry.number();
    };
    *out = DqEntry::of(entry);
    Status::Done.number()
}

/// Writes the moment at which a task is due to `due`, in nanoseconds, if the task has an entry.
#[unsafe(no_mangle)]
pub extern "C" fn dq_ref_due_of(alloc: Global, slot: &mut Slot, task: u32, due: &mut u64) -> u32
    ensures answers { result ≡ look_status slot.old.full slot.old.held.value.entries task }
    ensures due { result ≡ done → due_in slot.old.held.value.entries task ≡ Some due.new }
    ensures unwritten { result ≢ done → due.new ≡ due.old }
    ensures full { slot.new.full ≡ slot.old.full }
    ensures same { IsSame slot.old.held.value slot.new.held.value }
{
    let tasks = slot.tasks;
    let Some(queue) = slot.take(alloc) else {
        return Status::NoQueue.number();
    };
    let found = queue.due_of(task);
    *slot = Slot::of(queue, tasks);
    let Some(moment) = found else {
        return Status::NoEntry.number();
    };
    *due = moment;
    Status::Done.number()
}

/// Whether a task has an entry.
#[unsafe(no_mangle)]
pub extern "C" fn dq_ref_contains(alloc: Global, slot: &mut Slot, task: u32) -> u32
    ensures answers { result ≡ look_status slot.old.full slot.old.held.value.entries task }
    ensures full { slot.new.full ≡ slot.old.full }
    ensures same { IsSame slot.old.held.value slot.new.held.value }
{
    let tasks = slot.tasks;
    let Some(queue) = slot.take(alloc) else {
        return Status::NoQueue.number();
    };
    let there = queue.contains(task);
    *slot = Slot::of(queue, tasks);
    Status::found(there).number()
}

/// Writes to `count` how many entries there are.
#[unsafe(no_mangle)]
pub extern "C" fn dq_ref_len(alloc: Global, slot: &mut Slot, count: &mut usize) -> u32
    ensures answers { result ≡ queue_status slot.old.full }
    ensures count { result ≡ done → count.new ≡ entry_count slot.old.held.value.entries }
    ensures unwritten { result ≢ done → count.new ≡ count.old }
    ensures full { slot.new.full ≡ slot.old.full }
    ensures same { IsSame slot.old.held.value slot.new.held.value }
{
    let tasks = slot.tasks;
    let Some(queue) = slot.take(alloc) else {
        return Status::NoQueue.number();
    };
    let entries = queue.len();
    *slot = Slot::of(queue, tasks);
    *count = entries;
    Status::Done.number()
}

/// Writes to `touched` how often the calls so far compared two entries, or changed the index of an entry that stays.
#[unsafe(no_mangle)]
pub extern "C" fn dq_ref_touched(alloc: Global, slot: &mut Slot, touched: &mut u64) -> u32
    ensures answers { result ≡ queue_status slot.old.full }
    ensures touched { result ≡ done → touched.new ≡ slot.old.held.value.touched }
    ensures unwritten { result ≢ done → touched.new ≡ touched.old }
    ensures full { slot.new.full ≡ slot.old.full }
    ensures same { IsSame slot.old.held.value slot.new.held.value }
{
    let tasks = slot.tasks;
    let Some(queue) = slot.take(alloc) else {
        return Status::NoQueue.number();
    };
    let times = queue.touched();
    *slot = Slot::of(queue, tasks);
    *touched = times;
    Status::Done.number()
}

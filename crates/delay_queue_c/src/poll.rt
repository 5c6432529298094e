//! Taking entries out.
ghost use Rattle.std.specs.Prelude.{◌≡◌, ◌≢◌, ℕ, ◌-◌, ◌≤◌, ◌⊎◌, true, false, min, None, slice_set};
ghost use Rattle.delay_queue.specs.Queues.{entry_count, IsLeast, NoneIsDue};
ghost use Rattle.delay_queue.specs.Touches.{most_touches, Touches};
ghost use Rattle.delay_queue_c.specs.Slots.{IsSame};
ghost use Rattle.delay_queue_c.specs.Statuses.{done, no_entry, no_queue, look_status};

use crate::entry::DqEntry;
use crate::slot::Slot;
use crate::status::Status;
use std::alloc::Global;

/// Takes out the least entry, if it is due at the moment `now`, and writes it to `out`.
#[unsafe(no_mangle)]
pub extern "C" fn dq_ref_poll(alloc: Global, slot: &mut Slot, now: u64, out: &mut DqEntry) -> u32
    ensures no_queue { slot.old.full ≡ false → result ≡ no_queue }
    ensures answers { slot.old.full ≡ true → (result ≡ done) ⊎ (result ≡ no_entry) }
    ensures full { slot.new.full ≡ slot.old.full }
    ensures least { result ≡ done → IsLeast slot.old.held.value.entries out.new.due out.new.task }
    ensures due { result ≡ done → out.new.due ≤ now }
    ensures removed { result ≡ done
        → slot.new.held.value.entries ≡ slice_set slot.old.held.value.entries out.new.task None }
    ensures touched { result ≡ done
        → Touches slot.old.held.value.touched slot.new.held.value.touched
        (min 1 (entry_count slot.old.held.value.entries - 1))
        (most_touches (entry_count slot.old.held.value.entries)) }
    ensures none_due { result ≡ no_entry → NoneIsDue slot.old.held.value.entries now }
    ensures unchanged { result ≢ done → IsSame slot.old.held.value slot.new.held.value }
    ensures unwritten { result ≢ done → out.new ≡ out.old }
{
    let tasks = slot.tasks;
    let Some(mut queue) = slot.take(alloc) else {
        return Status::NoQueue.number();
    };
    let polled = queue.poll(now);
    *slot = Slot::of(queue, tasks);
    let Some(entry) = polled else {
        return Status::NoEntry.number();
    };
    *out = DqEntry::of(entry);
    Status::Done.number()
}

/// Takes out the entry of a task, if there is one.
#[unsafe(no_mangle)]
pub extern "C" fn dq_ref_remove(alloc: Global, slot: &mut Slot, task: u32) -> u32
    ensures answers { result ≡ look_status slot.old.full slot.old.held.value.entries task }
    ensures full { slot.new.full ≡ slot.old.full }
    ensures removed { result ≡ done
        → slot.new.held.value.entries ≡ slice_set slot.old.held.value.entries task None }
    ensures touched { result ≡ done
        → Touches slot.old.held.value.touched slot.new.held.value.touched 0
        (most_touches (entry_count slot.old.held.value.entries)) }
    ensures least { result ≡ done → (due : ℕ) → IsLeast slot.old.held.value.entries due task
        → Touches slot.old.held.value.touched slot.new.held.value.touched
        (min 1 (entry_count slot.old.held.value.entries - 1))
        (most_touches (entry_count slot.old.held.value.entries)) }
    ensures unchanged { result ≢ done → IsSame slot.old.held.value slot.new.held.value }
{
    let tasks = slot.tasks;
    let Some(mut queue) = slot.take(alloc) else {
        return Status::NoQueue.number();
    };
    let there = queue.remove(task);
    *slot = Slot::of(queue, tasks);
    Status::found(there).number()
}

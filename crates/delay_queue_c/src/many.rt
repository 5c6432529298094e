//! Many entries in one call.
ghost use Rattle.std.specs.Prelude.{◌≡◌, ◌≢◌, ◌<◌, ◌≤◌, true, false, length, take, drop};
ghost use Rattle.delay_queue.specs.Queues.{NoneIsDue};
ghost use Rattle.delay_queue_c.specs.Slots.{InsertsEach, Stops, PollsEach};
ghost use Rattle.delay_queue_c.specs.Statuses.{no_queue, queue_status};
ghost use Rattle.delay_queue_c.specs.own.Told.{number_of};

use crate::entry::DqEntry;
use crate::insert::insert_into;
use crate::slot::Slot;
use crate::status::Status;
use delay_queue::DelayQueue;
use std::alloc::Global;

/// Adds entries in turn, up to the first that is refused, and writes to `inserted` how many were added.
#[unsafe(no_mangle)]
pub extern "C" fn dq_ref_insert_many(
    alloc: Global,
    slot: &mut Slot,
    entries: &[DqEntry],
    inserted: &mut usize,
) -> u32
    ensures no_queue { slot.old.full ≡ false
        → (result ≡ no_queue) × (slot.new ≡ slot.old) × (inserted.new ≡ 0) }
    ensures full { slot.new.full ≡ slot.old.full }
    ensures within { inserted.new ≤ length entries.now }
    ensures added { slot.old.full ≡ true
        → InsertsEach slot.old.held.value (take inserted.new entries.now) slot.new.held.value }
    ensures stops { slot.old.full ≡ true
        → Stops slot.new.held.value (drop inserted.new entries.now) result }
{
    let tasks = slot.tasks;
    let Some(mut queue) = slot.take(alloc) else {
        *inserted = 0;
        return Status::NoQueue.number();
    };
    let (count, status) = insert_each(&mut queue, tasks, entries);
    *slot = Slot::of(queue, tasks);
    *inserted = count;
    status.number()
}

/// Adds entries to a queue for so many tasks, up to the first that is refused: how many, and how it ended.
fn insert_each(queue: &mut DelayQueue<Global>, tasks: u32, entries: &[DqEntry]) -> (usize, Status)
    requires { length queue.old.entries ≡ tasks }
    ensures length { length queue.new.entries ≡ tasks }
    ensures within { result.0 ≤ length entries.now }
    ensures added { InsertsEach queue.old (take result.0 entries.now) queue.new }
    ensures stops { Stops queue.new (drop result.0 entries.now) (number_of result.1) }
{
    let mut count = 0;
    while count < entries.len() {
        let entry = entries[count];
        match insert_into(queue, tasks, entry.due, entry.task) {
            Status::Done => count += 1,
            refused => return (count, refused),
        }
    }
    (count, Status::Done)
}

/// Takes out entries that are due at the moment `now`, the least first, as many as `out` has room for, writes them there in
/// this order, and writes to `polled` how many.
#[unsafe(no_mangle)]
pub extern "C" fn dq_ref_poll_many(
    alloc: Global,
    slot: &mut Slot,
    now: u64,
    out: &mut [DqEntry],
    polled: &mut usize,
) -> u32
    ensures answers { result ≡ queue_status slot.old.full }
    ensures no_queue { slot.old.full ≡ false → (slot.new ≡ slot.old) × (polled.new ≡ 0) }
    ensures full { slot.new.full ≡ slot.old.full }
    ensures room { length out.new ≡ length out.old }
    ensures within { polled.new ≤ length out.old }
    ensures polled { slot.old.full ≡ true
        → PollsEach slot.old.held.value now (take polled.new out.new) slot.new.held.value }
    ensures none_due { slot.old.full ≡ true → polled.new < length out.old
        → NoneIsDue slot.new.held.value.entries now }
    ensures unwritten { drop polled.new out.new ≡ drop polled.new out.old }
{
    let tasks = slot.tasks;
    let Some(mut queue) = slot.take(alloc) else {
        *polled = 0;
        return Status::NoQueue.number();
    };
    let count = poll_each(&mut queue, now, out);
    *slot = Slot::of(queue, tasks);
    *polled = count;
    Status::Done.number()
}

/// Takes out entries that are due, as many as there is room for: how many.
fn poll_each(queue: &mut DelayQueue<Global>, now: u64, out: &mut [DqEntry]) -> usize
    ensures length { length queue.new.entries ≡ length queue.old.entries }
    ensures room { length out.new ≡ length out.old }
    ensures within { result ≤ length out.old }
    ensures polled { PollsEach queue.old now (take result out.new) queue.new }
    ensures none_due { result < length out.old → NoneIsDue queue.new.entries now }
    ensures unwritten { drop result out.new ≡ drop result out.old }
{
    let mut count = 0;
    while count < out.len() {
        let Some(entry) = queue.poll(now) else {
            return count;
        };
        out[count] = DqEntry::of(entry);
        count += 1;
    }
    count
}

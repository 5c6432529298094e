//! A queue in which, of entries due at one moment, the one whose task has the lowest number is first.
ghost use Rattle.std.specs.Prelude.{◌≡◌, true, [], OnOk, OnErr, IfOk};
ghost use Rattle.task_table.specs.Orders.{keys};
ghost use Rattle.delay_queue.specs.slots.Queues.{with_slots};

use crate::queues::{Entry, TaskQueue};
use delay_queue::slots::SlotQueue;
use std::alloc::{AllocError, Allocator};

/// The entries of a [`TaskTable`](crate::TaskTable), by slot. The rank of each is the number of its task.
#[derive(Drop)]
pub struct NumberedQueue<A: Allocator> {
    pub(crate) entries: SlotQueue<u64, A>,
}

impl<A: Allocator> NumberedQueue<A> {
    /// No entry, and no room.
    pub(crate) fn new(alloc: A) -> Result<NumberedQueue<A>, AllocError>
    where
        A: Copy,
        ensures { IfOk result (λ q. q.entries.entries ≡ []) }
    {
        let entries = SlotQueue::new(alloc, 0).map_err(|_| AllocError)?;
        Ok(NumberedQueue { entries })
    }

    /// Makes room, so that there is some for at least `slots` slots.
    pub(crate) fn reserve(&mut self, slots: u32) -> Result<(), AllocError>
        ensures grown { OnOk result (self.new.entries.entries ≡ with_slots self.old.entries.entries slots) }
        ensures refused { OnErr result (self.new.entries.entries ≡ self.old.entries.entries) }
    {
        self.entries.reserve(slots).map_err(|_| AllocError)
    }
}

impl<A: Allocator> TaskQueue for NumberedQueue<A> {
    ghost use Rattle.std.specs.Prelude.{length};

    ghost keys = { λ q. keys q.entries.entries };

    ghost room = { λ q. length q.entries.entries };

    ghost admits = { λ slot number. true };

    #[inline(always)]
    fn insert(&mut self, entry: Entry) {
        let Entry { due, number, slot } = entry;
        let rank = number;
        self.entries
            .insert(delay_queue::slots::Entry { due, rank, slot });
    }

    #[inline(always)]
    fn first(&self) -> Option<Entry> {
        let entry = self.entries.peek()?;
        Some(Entry {
            due: entry.due,
            number: entry.rank,
            slot: entry.slot,
        })
    }

    #[inline(always)]
    fn remove(&mut self, slot: u32) {
        self.entries.remove(slot);
    }

    fn len(&self) -> usize {
        self.entries.len()
    }
}

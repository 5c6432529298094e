//! A queue in which the entry of a task has the number of its slot.
ghost use Rattle.std.specs.Prelude.{◌≡◌, ◌==◌, ℕ, length, replicate, None, IfOk};
ghost use Rattle.executor_core.specs.plan_table.Numbered.{keys_by};

use delay_queue::DelayQueue;
use std::alloc::{AllocError, Allocator};
use task_table::{Entry, TaskQueue};

/// The entries of a [`PlanTable`](crate::plan_table::PlanTable), by slot, which is the number of the task.
#[derive(Drop)]
pub struct PlanQueue<A: Allocator> {
    entries: DelayQueue<A>,
}

impl<A: Allocator> PlanQueue<A> {
    /// No entry, and room for this many slots.
    pub(crate) fn new(alloc: A, slots: u32) -> Result<PlanQueue<A>, AllocError>
    where
        A: Copy,
        ensures { IfOk result (λ q. q.entries.entries ≡ replicate slots None) }
    {
        let entries = DelayQueue::new(alloc, slots).map_err(|_| AllocError)?;
        Ok(PlanQueue { entries })
    }
}

impl<A: Allocator> TaskQueue for PlanQueue<A> {
    ghost keys = { λ q. keys_by q.entries.entries };

    ghost room = { λ q. length q.entries.entries };

    ghost admits = { λ slot number. slot == number };

    #[inline(always)]
    fn insert(&mut self, entry: Entry) {
        self.entries.insert(delay_queue::Entry {
            due: entry.due,
            task: entry.slot,
        });
    }

    #[inline(always)]
    fn first(&self) -> Option<Entry> {
        let entry = self.entries.peek()?;
        Some(Entry {
            due: entry.due,
            number: u64::from(entry.task),
            slot: entry.task,
        })
    }

    #[inline(always)]
    fn remove(&mut self, slot: u32) {
        self.entries.remove(slot);
    }

    fn len(&self) -> usize {
        self.entries.len()
    }
}

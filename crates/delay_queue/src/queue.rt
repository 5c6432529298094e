//! The queue: a queue of slots, one for each task, whose entries have no rank.
ghost use Rattle.std.specs.Prelude.{◌≡◌, ℕ, ◌+◌, ◌-◌, ◌<◌, ◌≤◌, ◌==◌, true, false, min, Some, None, length, replicate, slice_set, is_some, IfOk, IsOk, IfSome, IfNone};
ghost use Rattle.delay_queue.specs.Queues.{due_in, entry_count, IsLeast, IsEmpty, NoneIsDue};
ghost use Rattle.delay_queue.specs.Touches.{most_touches, greatest_count, Touches};

use crate::entry::Entry;
use crate::error::QueueError;
use crate::slots::{NoRank, SlotQueue};
use std::alloc::Allocator;
use std::marker::Model;

/// The entries of tasks, at most one for each task below a fixed count.
///
/// A contract sees it as a table by task number, with the due moment of each task that has an entry, and the count of
/// [`touched`](DelayQueue::touched).
#[derive(Drop)]
pub struct DelayQueue<A: Allocator> {
    /// The slot of a task has its number.
    slots: SlotQueue<NoRank, A>,
}

impl<A: Allocator> Model for DelayQueue<A> {
    ghost use Rattle.std.specs.Prelude.{map};
    ghost use Rattle.delay_queue.specs.slots.Queues.{due_by};
    ghost use Rattle.delay_queue.specs.Queues.{Queue};
    ghost use Rattle.delay_queue.specs.own.Unranked.{IsUnranked};

    ghost Value = { Queue };

    ghost view = { λ q. record { entries = map due_by q.slots.entries; touched = q.slots.touched } };

    ghost invariant = { λ q. IsUnranked q.slots.entries };
}

impl<A: Allocator> DelayQueue<A> {
    /// Makes an empty queue for the tasks from 0 to `tasks - 1`, and takes the memory for an entry of each from `alloc`.
    ///
    /// # Errors
    ///
    /// [`QueueError::Memory`] where `alloc` refuses that memory. For no task at all it takes none, and succeeds.
    pub fn new(alloc: A, tasks: u32) -> Result<DelayQueue<A>, QueueError>
    where
        A: Copy,
        ensures empty { IfOk result (λ q. q.entries ≡ replicate tasks None) }
        ensures untouched { IfOk result (λ q. q.touched ≡ 0) }
        ensures no_room { tasks ≡ 0 → IsOk result }
    {
        match SlotQueue::new(alloc, tasks) {
            Ok(slots) => Ok(DelayQueue { slots }),
            Err(crate::slots::QueueError::Memory) => Err(QueueError::Memory),
        }
    }

    /// Adds an entry, whose task is below the count of tasks and has no entry yet.
    pub fn insert(&mut self, entry: Entry)
        requires known { entry.task < length self.old.entries }
        requires absent { due_in self.old.entries entry.task ≡ None }
        ensures inserted { self.new.entries
            ≡ slice_set self.old.entries entry.task (Some entry.due) }
        ensures touched { Touches self.old.touched self.new.touched
            (min 1 (entry_count self.old.entries)) (most_touches (entry_count self.old.entries)) }
    {
        self.slots.insert(in_slot(entry));
    }

    /// The least entry, due or not, or `None` where the queue is empty. The entry stays.
    pub fn peek(&self) -> Option<Entry>
        ensures least { IfSome result (λ e. IsLeast self.now.entries e.due e.task) }
        ensures empty { IfNone result (IsEmpty self.now.entries) }
    {
        Some(of_task(self.slots.peek()?))
    }

    /// Takes out the least entry, if it is due at the moment `now`, in nanoseconds.
    ///
    /// `None` says that no entry is due at `now`; the queue is then unchanged.
    ///
    /// ```rust
    /// let mut queue = DelayQueue::new(alloc, 2)?;
    /// queue.insert(Entry { due: 5, task: 1 });
    /// queue.insert(Entry { due: 5, task: 0 });
    /// assert_eq!(rt; queue.poll(4), None); // nothing is due yet
    /// assert_eq!(rt; queue.poll(5), Some(Entry { due: 5, task: 0 }));
    /// assert_eq!(rt; queue.poll(9), Some(Entry { due: 5, task: 1 }));
    /// ```
    pub fn poll(&mut self, now: u64) -> Option<Entry>
        ensures least { IfSome result (λ e. IsLeast self.old.entries e.due e.task) }
        ensures due { IfSome result (λ e. e.due ≤ now) }
        ensures removed { IfSome result
            (λ e. self.new.entries ≡ slice_set self.old.entries e.task None) }
        ensures none_due { IfNone result (NoneIsDue self.old.entries now) }
        ensures unchanged { IfNone result (self.new.entries ≡ self.old.entries) }
        ensures touched { IfSome result
            (λ _. Touches self.old.touched self.new.touched
            (min 1 (entry_count self.old.entries - 1))
            (most_touches (entry_count self.old.entries))) }
        ensures untouched { IfNone result (self.new.touched ≡ self.old.touched) }
    {
        Some(of_task(self.slots.poll(now)?))
    }

    /// Takes out the entry of a task, and says whether there was one. Where there was none the queue is unchanged.
    pub fn remove(&mut self, task: u32) -> bool
        ensures there { result ≡ is_some (due_in self.old.entries task) }
        ensures removed { self.new.entries ≡ slice_set self.old.entries task None }
        ensures unchanged { result ≡ false → self.new.entries ≡ self.old.entries }
        ensures touched { Touches self.old.touched self.new.touched 0
            (most_touches (entry_count self.old.entries)) }
        ensures least { (due : ℕ) → IsLeast self.old.entries due task
            → Touches self.old.touched self.new.touched (min 1 (entry_count self.old.entries - 1))
            (most_touches (entry_count self.old.entries)) }
        ensures untouched { result ≡ false → self.new.touched ≡ self.old.touched }
    {
        self.slots.remove(task)
    }

    /// The moment at which a task is due, in nanoseconds, or `None` where it has no entry, as a task past the count.
    pub fn due_of(&self, task: u32) -> Option<u64>
        ensures { result ≡ due_in self.now.entries task }
    {
        self.slots.due_of(task)
    }

    /// Whether a task has an entry. A task past the count has none.
    pub fn contains(&self, task: u32) -> bool
        ensures { result ≡ is_some (due_in self.now.entries task) }
    {
        self.slots.contains(task)
    }

    /// How many entries there are.
    pub fn len(&self) -> usize
        ensures { result ≡ entry_count self.now.entries }
    {
        self.slots.len()
    }

    /// Whether there is no entry.
    pub fn is_empty(&self) -> bool
        ensures { result ≡ (entry_count self.now.entries == 0) }
    {
        self.slots.is_empty()
    }

    /// How often the calls so far compared two entries, or changed the index of an entry that stays. It stays at
    /// [`u64::MAX`].
    pub fn touched(&self) -> u64
        ensures { result ≡ self.now.touched }
    {
        self.slots.touched()
    }
}

/// A task's entry as that of its slot.
fn in_slot(entry: Entry) -> crate::slots::Entry<NoRank>
    ensures due { result.due ≡ entry.due }
    ensures slot { result.slot ≡ entry.task }
{
    crate::slots::Entry {
        due: entry.due,
        rank: NoRank {},
        slot: entry.task,
    }
}

/// A slot's entry as that of the task with its number.
fn of_task(entry: crate::slots::Entry<NoRank>) -> Entry
    ensures due { result.due ≡ entry.due }
    ensures task { result.task ≡ entry.slot }
{
    Entry {
        due: entry.due,
        task: entry.slot,
    }
}

//! Which slots are empty, and which slot each number has.
ghost use Rattle.std.specs.Prelude.{◌≡◌, ℕ, ◌+◌, ◌-◌, ◌*◌, ◌<◌, ◌≤◌, ◌++◌, List, [], ◌∷◌, length, IfSome, IfNone, IfOk, OnOk, OnErr};
ghost use Rattle.std.specs.List.{range_with_len};
ghost use Rattle.task_table.specs.Images.{Ascends, AreImages};
ghost use Rattle.live_core.specs.Said.{tasks_in};
ghost use Rattle.live_core.specs.Empties.{held_numbers};
ghost use Rattle.live_core.specs.own.Slots.{IsBelow, HasEntry, HasNone, IsIndex};
ghost use Rattle.live_core.specs.own.Restoring.{refs_of};

use crate::index::NumberIndex;
use std::alloc::{AllocError, Allocator};
use std::marker::Model;
use task_table::{Image, TaskRef, TaskTable};

/// What is noted of the slots of a table: the empty ones, and an index of the others by the numbers of their tasks.
///
/// A contract sees it as the lists of both, how many slots there is room to note in both, and how many entries the index has
/// room for.
#[derive(Drop)]
pub(crate) struct Notes<A: Allocator> {
    free: Vec<u32, A>,
    index: NumberIndex<A>,
}

impl<A: Allocator> Model for Notes<A> {
    ghost use Rattle.std.specs.Prelude.{min, vec_capacity};
    ghost use Rattle.live_core.specs.own.Slots.{NotesView};

    ghost Value = { NotesView };

    ghost view = { λ n. record { free = n.free.items; slot_room = min (vec_capacity n.free) n.index.room; entries = n.index.entries; index_room = n.index.room } };
}

impl<A: Allocator> Notes<A> {
    /// The notes of no slot, without room.
    pub(crate) fn new(alloc: A) -> Notes<A>
    where
        A: Copy,
        ensures free { result.free ≡ [] }
        ensures index { result.entries ≡ [] }
    {
        Notes {
            free: Vec::new(alloc),
            index: NumberIndex::new(alloc),
        }
    }

    /// How many slots are empty.
    pub(crate) fn free_slots(&self) -> usize
        ensures { result ≡ length self.now.free }
    {
        self.free.len()
    }

    /// The empty slots, the one that was noted last behind the others.
    pub(crate) fn empty_slots(&self) -> &[u32]
        ensures { result.now ≡ self.now.free }
    {
        &self.free
    }

    /// Takes out the empty slot that was noted last, and `None` where there is none.
    pub(crate) fn take(&mut self) -> Option<u32>
        ensures taken { IfSome result (λ slot. self.old.free ≡ self.new.free ++ slot ∷ []) }
        ensures none { IfNone result (self.old.free ≡ []) }
        ensures rest { self.new ≡ record self.old { free = self.new.free } }
    {
        self.free.pop()
    }

    /// Notes an empty slot.
    pub(crate) fn release(&mut self, slot: u32)
        requires { length self.old.free < self.old.slot_room }
        ensures { self.new ≡ record self.old { free = self.old.free ++ slot ∷ [] } }
    {
        self.free.push_reserved(slot);
    }

    /// Notes the slot of a task whose number is above all others.
    pub(crate) fn add(&mut self, task: TaskRef)
        requires above { IsBelow self.old.entries (length self.old.entries) task.number }
        requires room { length self.old.entries < self.old.index_room }
        ensures { self.new ≡ record self.old { entries = self.old.entries ++ task ∷ [] } }
    {
        self.index.add(task);
    }

    /// The slot that was noted for a number, and `None` where none is.
    pub(crate) fn find(&self, number: u64) -> Option<u32>
        ensures found { IfSome result (λ slot. HasEntry self.now.entries number slot) }
        ensures none { IfNone result (HasNone self.now.entries number) }
    {
        self.index.find(number)
    }

    /// What is written of the tasks of this table, of which there are at most so many, ascending by number.
    ///
    /// # Errors
    ///
    /// `AllocError` where the memory for it is refused.
    pub(crate) fn images<B: Allocator, C: Allocator>(
        &self,
        table: &TaskTable<B>,
        tasks: usize,
        alloc: C,
    ) -> Result<Vec<Image, C>, AllocError>
        requires { (count : ℕ) × IsIndex (held_numbers table.now.slots) self.now.entries count }
        ensures { IfOk result (λ v. AreImages table.now v.items) }
    {
        self.index.images(table, tasks, alloc)
    }

    /// Drops the entries of the index that are stale for this table's slots, where there is no room for one more. Then there is, where
    /// not every slot that there is room to note holds a task.
    pub(crate) fn tidy_index<B: Allocator>(&mut self, table: &TaskTable<B>)
        requires { length self.old.free + tasks_in table.now.slots ≡ length table.now.slots }
        ensures index { (count : ℕ) → IsIndex (held_numbers table.now.slots) self.old.entries count
            → IsIndex (held_numbers table.now.slots) self.new.entries count }
        ensures room { tasks_in table.now.slots < self.old.slot_room
            → length self.new.entries < self.new.index_room }
        ensures left { length self.old.entries < self.old.index_room → self.new ≡ self.old }
        ensures few { self.old.index_room ≤ length self.old.entries
            → length self.new.entries ≤ tasks_in table.now.slots }
        ensures rest { self.new ≡ record self.old { entries = self.new.entries } }
    {
        if self.index.is_full() {
            let tasks = table.slots() - self.free.len();
            self.index.compact(table, tasks);
        }
    }

    /// Makes room to note each of so many slots: that it is empty, and in the index.
    ///
    /// # Errors
    ///
    /// `AllocError` where the memory for them is refused: no slot is noted otherwise then.
    pub(crate) fn reserve(&mut self, slots: u32) -> Result<(), AllocError>
        ensures room { OnOk result (slots ≤ self.new.slot_room) }
        ensures index { OnOk result (3 * slots ≤ self.new.index_room) }
        ensures grows { self.old.slot_room ≤ self.new.slot_room }
        ensures free { self.new.free ≡ self.old.free }
        ensures entries { self.new.entries ≡ self.old.entries }
    {
        self.free.reserve(slots as usize)?;
        // With three times as many entries as slots, at least two of three are stale when it is full.
        self.index.reserve(3 * slots as usize)
    }

    /// Notes that these slots are empty, in their order.
    pub(crate) fn add_all_empty(&mut self, slots: &[u32])
        requires none { self.old.free ≡ [] }
        requires room { length slots.now ≤ self.old.slot_room }
        ensures { self.new ≡ record self.old { free = slots.now } }
    {
        for slot in slots {
            self.release(*slot);
        }
    }

    /// Notes the slots of these tasks, which ascend by number.
    pub(crate) fn add_all(&mut self, tasks: &[Image])
        requires none { self.old.entries ≡ [] }
        requires ascending { Ascends tasks.now }
        requires room { length tasks.now ≤ self.old.index_room }
        ensures { self.new ≡ record self.old { entries = refs_of tasks.now } }
    {
        for image in tasks {
            let number = image.seat.number;
            let slot = image.slot;
            self.add(TaskRef { number, slot });
        }
    }

    /// Notes that the slots from one to the one before another are empty.
    pub(crate) fn add_empty(&mut self, from: u32, to: u32)
        requires order { from ≤ to }
        requires room { length self.old.free + (to - from) ≤ self.old.slot_room }
        ensures { self.new
            ≡ record self.old { free = self.old.free ++ range_with_len from (to - from) } }
    {
        let mut slot = from;
        while slot < to {
            self.free.push_reserved(slot);
            slot += 1;
        }
    }
}

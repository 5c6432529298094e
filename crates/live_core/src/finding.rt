//! The slot that a task has.
ghost use Rattle.std.specs.Prelude.{ℕ};
ghost use Rattle.live_core.specs.Empties.{held_numbers};
ghost use Rattle.live_core.specs.own.Slots.{IsIndex};
ghost use Rattle.live_core.specs.own.Places.{IsSlotOf};

use crate::index::holds;
use crate::notes::Notes;
use std::alloc::Allocator;
use task_table::{TaskRef, TaskTable};

/// The slot that holds the task of a number, and `None` where none does.
pub(crate) fn slot_of_number<A: Allocator>(
    table: &TaskTable<A>,
    notes: &Notes<A>,
    number: u64,
) -> Option<u32>
    requires { (count : ℕ) × IsIndex (held_numbers table.now.slots) notes.now.entries count }
    ensures { IsSlotOf table.now.slots number result }
{
    let Some(slot) = notes.find(number) else {
        return None;
    };
    if holds(table, TaskRef { number, slot }) {
        return Some(slot);
    }
    None
}

/// The same for the number of a task, where its own slot is looked at first.
#[inline(always)]
pub(crate) fn slot_of_task<A: Allocator>(
    table: &TaskTable<A>,
    notes: &Notes<A>,
    task: TaskRef,
) -> Option<u32>
    requires { (count : ℕ) × IsIndex (held_numbers table.now.slots) notes.now.entries count }
    ensures { IsSlotOf table.now.slots task.number result }
{
    if holds(table, task) {
        return Some(task.slot);
    }
    slot_of_number(table, notes, task.number)
}

//! Room for one more task.
ghost use Rattle.std.specs.Prelude.{◌≡◌, ◌<◌, length, OnOk, OnErr, vec_capacity};
ghost use Rattle.task_table.specs.Changes.{grown};
ghost use Rattle.live_core.specs.Said.{AreTaken, GrowsWhereTaken};
ghost use Rattle.live_core.specs.Lives.{AreAlive};
ghost use Rattle.live_core.specs.own.Formed.{AreNoted, IsRoomier};
ghost use Rattle.live_core.specs.own.Slots.{LeavesNumbers};

use crate::notes::Notes;
use std::alloc::{AllocError, Allocator};
use task_table::{TaskRef, TaskTable};

/// Makes room for one more task, where `count` numbers were given out: an empty slot, and an entry of the index. Where each slot
/// holds a task, there are twice as many slots then, and four.
///
/// # Errors
///
/// `AllocError` where each slot holds a task, and memory for more is refused, or there are 2^30 slots: the table is as it was then.
#[inline(always)]
pub(crate) fn make_room<A: Allocator>(
    table: &mut TaskTable<A>,
    notes: &mut Notes<A>,
    ended: &mut Vec<TaskRef, A>,
    count: u64,
) -> Result<(), AllocError>
    requires noted { AreNoted table.old.slots count notes.old.free notes.old.entries
        notes.old.slot_room (vec_capacity ended.old) }
    ensures noted { AreNoted table.new.slots count notes.new.free notes.new.entries
        notes.new.slot_room (vec_capacity ended.new) }
    ensures alive { AreAlive table.old.slots → AreAlive table.new.slots }
    ensures roomier { IsRoomier table.old table.new }
    ensures leaves { LeavesNumbers table.old.slots table.new.slots }
    ensures refused { OnErr result (table.new ≡ table.old) }
    ensures full { OnErr result (AreTaken table.old.slots) }
    ensures entry { OnOk result (length notes.new.entries < notes.new.index_room) }
    ensures slot { OnOk result (0 < length notes.new.free) }
    ensures size { OnOk result (GrowsWhereTaken 4 table.old.slots table.new.slots) }
    ensures ended { ended.new.items ≡ ended.old.items }
{
    make_slot(table, notes, ended, count)?;
    notes.tidy_index(table);
    Ok(())
}

/// Makes an empty slot, where there is none: twice as many slots, and four.
#[inline(always)]
fn make_slot<A: Allocator>(
    table: &mut TaskTable<A>,
    notes: &mut Notes<A>,
    ended: &mut Vec<TaskRef, A>,
    count: u64,
) -> Result<(), AllocError>
    requires noted { AreNoted table.old.slots count notes.old.free notes.old.entries
        notes.old.slot_room (vec_capacity ended.old) }
    ensures noted { AreNoted table.new.slots count notes.new.free notes.new.entries
        notes.new.slot_room (vec_capacity ended.new) }
    ensures alive { AreAlive table.old.slots → AreAlive table.new.slots }
    ensures roomier { IsRoomier table.old table.new }
    ensures leaves { LeavesNumbers table.old.slots table.new.slots }
    ensures refused { OnErr result (table.new ≡ table.old) }
    ensures full { OnErr result (AreTaken table.old.slots) }
    ensures slot { OnOk result (0 < length notes.new.free) }
    ensures size { OnOk result (GrowsWhereTaken 4 table.old.slots table.new.slots) }
    ensures ended { ended.new.items ≡ ended.old.items }
{
    if notes.free_slots() > 0 {
        return Ok(());
    }
    let slots = table.slots();
    if slots >= 1073741824 {
        return Err(AllocError);
    }
    grow(table, notes, ended, count, 2 * slots as u32 + 4)
}

/// Makes room for so many slots in all, and notes that the new ones are empty.
#[cold]
#[inline(never)]
pub(crate) fn grow<A: Allocator>(
    table: &mut TaskTable<A>,
    notes: &mut Notes<A>,
    ended: &mut Vec<TaskRef, A>,
    count: u64,
    slots: u32,
) -> Result<(), AllocError>
    requires noted { AreNoted table.old.slots count notes.old.free notes.old.entries
        notes.old.slot_room (vec_capacity ended.old) }
    requires more { length table.old.slots < slots }
    ensures noted { AreNoted table.new.slots count notes.new.free notes.new.entries
        notes.new.slot_room (vec_capacity ended.new) }
    ensures alive { AreAlive table.old.slots → AreAlive table.new.slots }
    ensures roomier { IsRoomier table.old table.new }
    ensures leaves { LeavesNumbers table.old.slots table.new.slots }
    ensures grown { OnOk result (table.new ≡ grown table.old slots) }
    ensures refused { OnErr result (table.new ≡ table.old) }
    ensures entries { notes.new.entries ≡ notes.old.entries }
    ensures slot { OnOk result (0 < length notes.new.free) }
    ensures ended { ended.new.items ≡ ended.old.items }
{
    notes.reserve(slots)?;
    ended.reserve(slots as usize)?;
    let first = table.slots() as u32;
    table.reserve(slots)?;
    notes.add_empty(first, slots);
    Ok(())
}

//! Slots that are emptied.
ghost use Rattle.std.specs.Prelude.{◌≡◌, ℕ, List, Some, false};
ghost use Rattle.queue_code.specs.Calls.{Planned};
ghost use Rattle.executor_model.specs.Histories.{HistoryEntry};
ghost use Rattle.executor_model.specs.declared.types.Happening as happenings;
ghost use Rattle.task_table.specs.declared.seat.Seat as seats;
ghost use Rattle.task_table.specs.Seats.{task_in, slot_of, is_alive};
ghost use Rattle.task_table.specs.Tables.{Stands, StandsBefore};
ghost use Rattle.task_table.specs.Changes.{emptied};
ghost use Rattle.live_core.specs.own.Formed.{AreNoted};
ghost use Rattle.live_core.specs.own.Slots.{LeavesSlots};

use crate::notes::Notes;
use std::alloc::Allocator;
use task_table::TaskTable;

/// Empties the slot of a task of which nothing may come any more, and notes that it is empty.
#[inline(always)]
pub(crate) fn release<A: Allocator>(table: &mut TaskTable<A>, notes: &mut Notes<A>, slot: u32)
    requires noted { (count : ℕ) × (ended_room : ℕ)
        × AreNoted table.old.slots count notes.old.free notes.old.entries notes.old.slot_room
        ended_room }
    requires over { (x : seats.Seat) × (slot_of table.old.slots slot ≡ Some x)
        × (is_alive (task_in x) ≡ false) }
    ensures slots { table.new ≡ emptied table.old slot }
    ensures leaves { LeavesSlots table.old.slots table.new.slots }
    ensures noted { (count ended_room : ℕ)
        → AreNoted table.old.slots count notes.old.free notes.old.entries notes.old.slot_room
        ended_room
        → AreNoted table.new.slots count notes.new.free notes.new.entries notes.new.slot_room
        ended_room }
    ensures stands { (calls : List Planned) (past : List HistoryEntry) → Stands table.old calls past
        → Stands table.new calls past }
    ensures stands_before { (calls : List Planned) (past : List HistoryEntry)
        (y : happenings.Happening) → StandsBefore table.old calls past y
        → StandsBefore table.new calls past y }
{
    table.release(slot);
    notes.release(slot);
}

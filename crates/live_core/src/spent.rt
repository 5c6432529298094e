//! Slots of tasks of which nothing may come any more.
ghost use Rattle.std.specs.Prelude.{◌≡◌, ℕ, not, Some};
ghost use Rattle.task_table.specs.Seats.{task_in, is_alive};
ghost use Rattle.live_core.specs.Cancels.{IsHeldAlive};
ghost use Rattle.live_core.specs.Lives.{AreAlive};
ghost use Rattle.live_core.specs.own.Formed.{AreNoted, AreAliveBut, IsRoomier};
ghost use Rattle.live_core.specs.own.Places.{IsSlotOf};
ghost use Rattle.live_core.specs.own.Slots.{LeavesSlots};

use crate::notes::Notes;
use crate::releasing::release;
use executor_model::Stage;
use std::alloc::Allocator;
use task_table::{Seat, TaskTable};

/// Empties a slot where nothing may come of its task any more, and notes that it is empty.
#[inline(always)]
pub(crate) fn release_spent<A: Allocator>(table: &mut TaskTable<A>, notes: &mut Notes<A>, slot: u32)
    requires { (count : ℕ) × (ended_room : ℕ)
        × AreNoted table.old.slots count notes.old.free notes.old.entries notes.old.slot_room
        ended_room }
    ensures noted { (count ended_room : ℕ)
        → AreNoted table.old.slots count notes.old.free notes.old.entries notes.old.slot_room
        ended_room
        → AreNoted table.new.slots count notes.new.free notes.new.entries notes.new.slot_room
        ended_room }
    ensures alive { (number : ℕ) → IsSlotOf table.old.slots number (Some slot)
        → IsHeldAlive table.new number }
    ensures all { AreAliveBut slot table.old.slots → AreAlive table.new.slots }
    ensures stands { IsRoomier table.old table.new }
    ensures leaves { LeavesSlots table.old.slots table.new.slots }
{
    if let Some(seat) = table.seat(slot) {
        let spent = is_spent(&seat);
        if spent {
            release(table, notes, slot);
        }
    }
}

/// Whether nothing may come of a task any more: it does not wait, is not kept, and no run of it is under way.
pub(crate) fn is_spent(seat: &Seat) -> bool
    ensures { result ≡ not (is_alive (task_in seat.now)) }
{
    if seat.kept || matches!(seat.phase, Stage::Running) {
        return false;
    }
    if seat.cancelled {
        return true;
    }
    !matches!(seat.phase, Stage::Waiting)
}

//! What the calls do that shut the executor down or set a policy: the tasks that they end leave their slots.
ghost use Rattle.std.specs.Prelude.{◌≡◌, ℕ, ◌≤◌, not, List, length, true, false, Some, None, vec_capacity};
ghost use Rattle.std.specs.List.{All};
ghost use Rattle.sched_time.specs.Times.{longest};
ghost use Rattle.queue_code.specs.Calls.{Planned};
ghost use Rattle.queue_code.specs.declared.call.CodeCall.TheVariants as call;
ghost use Rattle.executor_model.specs.Answers.{bare};
ghost use Rattle.executor_model.specs.Histories.{HistoryEntry};
ghost use Rattle.executor_model.specs.declared.types.Answer.TheVariants as answer;
ghost use Rattle.executor_model.specs.declared.types.Happening.TheVariants as happening;
ghost use Rattle.task_table.specs.Ends.{IsAscending, sweeps_at};
ghost use Rattle.task_table.specs.Endings.{IsOverAt, numbers_of};
ghost use Rattle.task_table.specs.Firsts.{NoneKept};
ghost use Rattle.task_table.specs.Seats.{slot_of};
ghost use Rattle.task_table.specs.declared.seat.Seat as seats;
ghost use Rattle.task_table.specs.Tables.{workers_of, CallSteps, EventStepsBefore, IsNextCall, Stands, StandsBefore};
ghost use Rattle.live_core.specs.Said.{ending};
ghost use Rattle.live_core.specs.Shutting.{shutdown_answer, AreGone};
ghost use Rattle.live_core.specs.Lives.{AreAlive};
ghost use Rattle.live_core.specs.own.Formed.{AreNoted};
ghost use Rattle.live_core.specs.own.Places.{IsEmptyAt};
ghost use Rattle.live_core.specs.own.Slots.{LeavesSlots};

use crate::notes::Notes;
use crate::releasing::release;
use sched_time::Which;
use std::alloc::Allocator;
use task_table::{TaskRef, TaskTable};

/// Sets a policy, at the moment `at`. `ended` holds the tasks that this ends, ascending by number; they have no slot any more.
pub(crate) fn set_policy<A: Allocator>(
    table: &mut TaskTable<A>,
    notes: &mut Notes<A>,
    ended: &mut Vec<TaskRef, A>,
    at: u64,
    which: Which,
    value: bool,
)
    requires noted { (count : ℕ)
        × AreNoted table.old.slots count notes.old.free notes.old.entries notes.old.slot_room
        (vec_capacity ended.old) }
    requires moment { table.old.moment ≤ at }
    requires limit { at ≤ longest }
    ensures noted { (count : ℕ)
        → AreNoted table.old.slots count notes.old.free notes.old.entries notes.old.slot_room
        (vec_capacity ended.old)
        → AreNoted table.new.slots count notes.new.free notes.new.entries notes.new.slot_room
        (vec_capacity ended.new) }
    ensures alive { AreAlive table.old.slots → AreAlive table.new.slots }
    ensures leaves { LeavesSlots table.old.slots table.new.slots }
    ensures workers { workers_of table.new ≡ workers_of table.old }
    ensures moment { table.new.moment ≡ at }
    ensures gone { AreGone table.old table.new ended.new.items }
    ensures shut { table.new.shut ≡ table.old.shut }
    ensures steps { CallSteps table.old table.new (at, call.SetPolicy which value)
        (ending (answer.Policy which value) ended.new.items) }
{
    if table.setting_sweeps(which, value) {
        drop_kept(table, notes);
        table.set_policy(at, which, value, ended);
        release_each(table, notes, ended);
        return;
    }
    table.set_policy(at, which, value, ended);
}

/// Shuts the executor down, at the moment `at`, and says whether it was not shut before. `ended` holds the tasks that this
/// ends, ascending by number; they have no slot any more.
pub(crate) fn shut_down<A: Allocator>(
    table: &mut TaskTable<A>,
    notes: &mut Notes<A>,
    ended: &mut Vec<TaskRef, A>,
    at: u64,
) -> bool
    requires noted { (count : ℕ)
        × AreNoted table.old.slots count notes.old.free notes.old.entries notes.old.slot_room
        (vec_capacity ended.old) }
    requires moment { table.old.moment ≤ at }
    requires limit { at ≤ longest }
    ensures first { result ≡ not table.old.shut }
    ensures noted { (count : ℕ)
        → AreNoted table.old.slots count notes.old.free notes.old.entries notes.old.slot_room
        (vec_capacity ended.old)
        → AreNoted table.new.slots count notes.new.free notes.new.entries notes.new.slot_room
        (vec_capacity ended.new) }
    ensures alive { AreAlive table.old.slots → AreAlive table.new.slots }
    ensures leaves { LeavesSlots table.old.slots table.new.slots }
    ensures workers { workers_of table.new ≡ workers_of table.old }
    ensures moment { table.new.moment ≡ at }
    ensures gone { AreGone table.old table.new ended.new.items }
    ensures shut { table.new.shut ≡ true }
    ensures steps { CallSteps table.old table.new (at, call.Shutdown)
        (ending (shutdown_answer result) ended.new.items) }
{
    if table.is_shut() {
        table.shut_down(at, ended);
        return false;
    }
    drop_kept(table, notes);
    table.shut_down(at, ended);
    release_each(table, notes, ended);
    true
}

/// Shuts the executor down at once, at the moment `at`. `ended` holds the tasks that this ends, ascending by number; they have
/// no slot any more.
pub(crate) fn shut_down_now<A: Allocator>(
    table: &mut TaskTable<A>,
    notes: &mut Notes<A>,
    ended: &mut Vec<TaskRef, A>,
    at: u64,
)
    requires noted { (count : ℕ)
        × AreNoted table.old.slots count notes.old.free notes.old.entries notes.old.slot_room
        (vec_capacity ended.old) }
    requires moment { table.old.moment ≤ at }
    requires limit { at ≤ longest }
    ensures noted { (count : ℕ)
        → AreNoted table.old.slots count notes.old.free notes.old.entries notes.old.slot_room
        (vec_capacity ended.old)
        → AreNoted table.new.slots count notes.new.free notes.new.entries notes.new.slot_room
        (vec_capacity ended.new) }
    ensures alive { AreAlive table.old.slots → AreAlive table.new.slots }
    ensures leaves { LeavesSlots table.old.slots table.new.slots }
    ensures workers { workers_of table.new ≡ workers_of table.old }
    ensures moment { table.new.moment ≡ at }
    ensures gone { AreGone table.old table.new ended.new.items }
    ensures shut { table.new.shut ≡ true }
    ensures steps { CallSteps table.old table.new (at, call.ShutdownNow)
        (ending answer.ShutdownNow ended.new.items) }
{
    drop_kept(table, notes);
    table.shut_down_now(at, ended);
    release_each(table, notes, ended);
}

/// Drops each kept task, before a call that sweeps or of a purge, and empties its slot.
pub(crate) fn drop_kept<A: Allocator>(table: &mut TaskTable<A>, notes: &mut Notes<A>)
    requires { (count : ℕ) × (ended_room : ℕ)
        × AreNoted table.old.slots count notes.old.free notes.old.entries notes.old.slot_room
        ended_room }
    ensures none { NoneKept table.new }
    ensures noted { (count ended_room : ℕ)
        → AreNoted table.old.slots count notes.old.free notes.old.entries notes.old.slot_room
        ended_room
        → AreNoted table.new.slots count notes.new.free notes.new.entries notes.new.slot_room
        ended_room }
    ensures alive { AreAlive table.old.slots → AreAlive table.new.slots }
    ensures gone { (i : ℕ) (x : seats.Seat) → slot_of table.old.slots i ≡ Some x → x.kept ≡ true
        → slot_of table.new.slots i ≡ None }
    ensures others { (i : ℕ) (x : seats.Seat) → slot_of table.old.slots i ≡ Some x
        → x.kept ≡ false → slot_of table.new.slots i ≡ Some x }
    ensures leaves { (i : ℕ) (x : seats.Seat) → slot_of table.new.slots i ≡ Some x
        → slot_of table.old.slots i ≡ Some x }
    ensures size { length table.new.slots ≡ length table.old.slots }
    ensures rest { table.new ≡ record table.old { slots = table.new.slots } }
    ensures stands { (calls : List Planned) (past : List HistoryEntry) (p : Planned)
        → IsNextCall calls past p → sweeps_at table.old.shut p.1 ≡ true
        → StandsBefore table.old calls past happening.Call
        → StandsBefore table.new calls past happening.Call }
    ensures purges { EventStepsBefore table.old table.new happening.Purge (bare answer.Purge) }
{
    while let Some(slot) = table.drop_kept() {
        release(table, notes, slot);
    }
}

/// Empties the slots of some tasks, ascending by number, of which nothing may come any more.
pub(crate) fn release_each<A: Allocator>(
    table: &mut TaskTable<A>,
    notes: &mut Notes<A>,
    tasks: &[TaskRef],
)
    requires noted { (count : ℕ) × (ended_room : ℕ)
        × AreNoted table.old.slots count notes.old.free notes.old.entries notes.old.slot_room
        ended_room }
    requires over { All (IsOverAt table.old) tasks.now }
    requires ascending { IsAscending (numbers_of tasks.now) }
    ensures noted { (count ended_room : ℕ)
        → AreNoted table.old.slots count notes.old.free notes.old.entries notes.old.slot_room
        ended_room
        → AreNoted table.new.slots count notes.new.free notes.new.entries notes.new.slot_room
        ended_room }
    ensures leaves { (i : ℕ) (x : seats.Seat) → slot_of table.new.slots i ≡ Some x
        → slot_of table.old.slots i ≡ Some x }
    ensures gone { All (IsEmptyAt table.new) tasks.now }
    ensures size { length table.new.slots ≡ length table.old.slots }
    ensures rest { table.new ≡ record table.old { slots = table.new.slots } }
    ensures stands { (calls : List Planned) (past : List HistoryEntry) → Stands table.old calls past
        → Stands table.new calls past }
{
    for task in tasks {
        release(table, notes, task.slot);
    }
}

//! A task comes into an empty slot.
ghost use Rattle.std.specs.Prelude.{◌≡◌, ◌<◌, ◌≤◌, ◌+◌, [], true, false, length, vec_capacity};
ghost use Rattle.sched_time.specs.Times.{longest};
ghost use Rattle.queue_code.specs.Calls.{IsTimed};
ghost use Rattle.queue_code.specs.declared.call.CodeCall.TheVariants as call;
ghost use Rattle.executor_model.specs.Answers.{bare, kind_of};
ghost use Rattle.executor_model.specs.declared.types.Answer.TheVariants as answer;
ghost use Rattle.task_table.specs.Tables.{workers_of, CallSteps};
ghost use Rattle.live_core.specs.Said.{tasks_in, is_waiting_there};
ghost use Rattle.live_core.specs.Lives.{AreAlive};
ghost use Rattle.live_core.specs.own.Formed.{AreNoted};
ghost use Rattle.live_core.specs.own.Slots.{LeavesBelow};

use crate::notes::Notes;
use sched_time::Timing;
use std::alloc::Allocator;
use task_table::{TaskRef, TaskTable};

/// A task of the table.
#[derive(Clone, Copy, Debug, PartialEq, Eq)]
pub(crate) struct Placed {
    pub(crate) task: TaskRef,
    /// The due moment of its first run.
    pub(crate) due: u64,
}

/// A call submits a task at the moment `at`: it has the number `count`, and comes into the slot that was noted last as empty. No
/// task is ended.
#[inline(always)]
pub(crate) fn place<A: Allocator>(
    table: &mut TaskTable<A>,
    notes: &mut Notes<A>,
    ended: &mut Vec<TaskRef, A>,
    count: u64,
    at: u64,
    timing: Timing,
    delay: u64,
) -> Placed
    requires noted { AreNoted table.old.slots count notes.old.free notes.old.entries
        notes.old.slot_room (vec_capacity ended.old) }
    requires slot { 0 < length notes.old.free }
    requires entry { length notes.old.entries < notes.old.index_room }
    requires unshut { table.old.shut ≡ false }
    requires moment { table.old.moment ≤ at }
    requires limit { at ≤ longest }
    requires spans { (delay ≤ longest) × IsTimed timing }
    ensures number { result.task.number ≡ count }
    ensures seated { is_waiting_there table.new result.task ≡ true }
    ensures noted { AreNoted table.new.slots (count + 1) notes.new.free notes.new.entries
        notes.new.slot_room (vec_capacity ended.new) }
    ensures alive { AreAlive table.old.slots → AreAlive table.new.slots }
    ensures leaves { LeavesBelow count table.old.slots table.new.slots }
    ensures workers { workers_of table.new ≡ workers_of table.old }
    ensures shut { table.new.shut ≡ table.old.shut }
    ensures ended { ended.new.items ≡ [] }
    ensures moment { table.new.moment ≡ at }
    ensures slots { length table.new.slots ≡ length table.old.slots }
    ensures tasks { tasks_in table.new.slots ≡ tasks_in table.old.slots + 1 }
    ensures steps { CallSteps table.old table.new (at, call.Submit count timing delay)
        (bare (answer.Submit count (kind_of timing) result.due)) }
{
    let Some(slot) = notes.take() else {
        unreachable!();
    };
    let number = count;
    let task = TaskRef { number, slot };
    notes.add(task);
    ended.clear();
    let due = table.admit(slot, number, at, timing, delay);
    Placed { task, due }
}

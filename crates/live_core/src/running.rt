//! The runs of the workers: what their starts and finishes do to the parts of an executor.
ghost use Rattle.std.specs.Prelude.{◌≡◌, ℕ, ◌<◌, List, Some, None, slice_index_or, IfSome, IfOk, IfErr, OnErr};
ghost use Rattle.queue_code.specs.Calls.{Planned};
ghost use Rattle.executor_model.specs.Histories.{HistoryEntry};
ghost use Rattle.executor_model.specs.declared.types.Happening.TheVariants as happening;
ghost use Rattle.task_table.specs.declared.seat.Seat as seats;
ghost use Rattle.task_table.specs.Seats.{slot_of};
ghost use Rattle.task_table.specs.Tables.{workers_of, Stands, EventSteps};
ghost use Rattle.task_table.specs.Firsts.{NoneMet};
ghost use Rattle.task_table.specs.Runs.{IsFree, IsFull, IsLeft, FailsFinish};
ghost use Rattle.live_core.specs.Events.{start_reply, finish_reply, run_limit, IsRunBy, IsLeftThere};
ghost use Rattle.live_core.specs.Lives.{AreAlive};
ghost use Rattle.live_core.specs.own.Formed.{AreNoted};
ghost use Rattle.live_core.specs.own.Shed.{Sheds, released};
ghost use Rattle.live_core.specs.own.Slots.{LeavesSlots};

use crate::notes::Notes;
use crate::releasing::release;
use executor_model::{EventError, Outcome};
use sched_time::Ending;
use std::alloc::Allocator;
use task_table::{Begun, Ended, TaskTable};

/// A worker that has no work asks for some, and begins a run of the first task that is due, or none. The kept tasks that it meets
/// are dropped, and their slots emptied. The first task that is due has not had 2^64 - 1 runs.
#[inline(always)]
pub(crate) fn begin_run<A: Allocator>(
    table: &mut TaskTable<A>,
    notes: &mut Notes<A>,
    worker: u8,
) -> Option<Begun>
    requires noted { (count : ℕ) × (ended_room : ℕ)
        × AreNoted table.old.slots count notes.old.free notes.old.entries notes.old.slot_room
        ended_room }
    requires free { IsFree table.old worker }
    requires fresh { IsFull table.old → ⊥ }
    ensures noted { (count ended_room : ℕ)
        → AreNoted table.old.slots count notes.old.free notes.old.entries notes.old.slot_room
        ended_room
        → AreNoted table.new.slots count notes.new.free notes.new.entries notes.new.slot_room
        ended_room }
    ensures alive { AreAlive table.old.slots → AreAlive table.new.slots }
    ensures leaves { LeavesSlots table.old.slots table.new.slots }
    ensures workers { workers_of table.new ≡ workers_of table.old }
    ensures moment { table.new.moment ≡ table.old.moment }
    ensures shut { table.new.shut ≡ table.old.shut }
    ensures runs { IfSome result (λ b. IsRunBy table.new worker b.task) }
    ensures numbered { IfSome result (λ b. b.run < run_limit) }
    ensures steps { EventSteps table.old table.new (happening.Start worker)
        (start_reply worker result) }
{
    drop_met(table, notes);
    match table.start(worker) {
        Ok(begun) => begun,
        Err(_) => unreachable!(),
    }
}

/// Drops the kept tasks that the next start meets, if it is not refused, and empties their slots.
#[inline(always)]
fn drop_met<A: Allocator>(table: &mut TaskTable<A>, notes: &mut Notes<A>)
    requires noted { (count : ℕ) × (ended_room : ℕ)
        × AreNoted table.old.slots count notes.old.free notes.old.entries notes.old.slot_room
        ended_room }
    ensures noted { (count ended_room : ℕ)
        → AreNoted table.old.slots count notes.old.free notes.old.entries notes.old.slot_room
        ended_room
        → AreNoted table.new.slots count notes.new.free notes.new.entries notes.new.slot_room
        ended_room }
    ensures alive { AreAlive table.old.slots → AreAlive table.new.slots }
    ensures leaves { LeavesSlots table.old.slots table.new.slots }
    ensures sheds { Sheds table.old table.new }
    ensures met { NoneMet table.new }
{
    while let Some(slot) = table.drop_met() {
        release(table, notes, slot);
    }
}

/// A worker ends the run that it has under way. The slot of its task is emptied, if no run comes after it.
#[inline(always)]
pub(crate) fn end_run<A: Allocator>(
    table: &mut TaskTable<A>,
    notes: &mut Notes<A>,
    worker: u8,
    ending: Ending,
) -> Result<Ended, EventError>
    requires noted { (count : ℕ) × (ended_room : ℕ)
        × AreNoted table.old.slots count notes.old.free notes.old.entries notes.old.slot_room
        ended_room }
    ensures noted { (count ended_room : ℕ)
        → AreNoted table.old.slots count notes.old.free notes.old.entries notes.old.slot_room
        ended_room
        → AreNoted table.new.slots count notes.new.free notes.new.entries notes.new.slot_room
        ended_room }
    ensures alive { AreAlive table.old.slots → AreAlive table.new.slots }
    ensures leaves { LeavesSlots table.old.slots table.new.slots }
    ensures workers { workers_of table.new ≡ workers_of table.old }
    ensures moment { table.new.moment ≡ table.old.moment }
    ensures shut { table.new.shut ≡ table.old.shut }
    ensures ran { IfOk result (λ ended. IsRunBy table.old worker ended.task) }
    ensures left { IfOk result (λ ended. IsLeftThere table.new ended.outcome ended.task) }
    ensures steps { IfOk result
        (λ ended. EventSteps table.old table.new (happening.Finish worker ending)
        (finish_reply worker ended)) }
    ensures unchanged { OnErr result (table.new ≡ table.old) }
    ensures failed { IfErr result (λ error. FailsFinish table.old worker ending error) }
{
    match table.finish(worker, ending) {
        Ok(ended) => {
            release_left(table, notes, ended);
            Ok(ended)
        }
        Err(error) => Err(error),
    }
}

/// Empties the slot of a task whose run ended so, if no run comes after it.
#[inline(always)]
fn release_left<A: Allocator>(table: &mut TaskTable<A>, notes: &mut Notes<A>, ended: Ended)
    requires noted { (count : ℕ) × (ended_room : ℕ)
        × AreNoted table.old.slots count notes.old.free notes.old.entries notes.old.slot_room
        ended_room }
    requires left { (x : seats.Seat) × (slot_of table.old.slots ended.task.slot ≡ Some x)
        × IsLeft ended.outcome x }
    ensures noted { (count ended_room : ℕ)
        → AreNoted table.old.slots count notes.old.free notes.old.entries notes.old.slot_room
        ended_room
        → AreNoted table.new.slots count notes.new.free notes.new.entries notes.new.slot_room
        ended_room }
    ensures slots { table.new ≡ released ended.outcome table.old ended.task.slot }
    ensures leaves { LeavesSlots table.old.slots table.new.slots }
    ensures stands { (calls : List Planned) (past : List HistoryEntry) → Stands table.old calls past
        → Stands table.new calls past }
{
    match ended.outcome {
        Outcome::Again(_) => {}
        Outcome::Done(_) | Outcome::Failed(_) | Outcome::Dropped | Outcome::Ended => {
            release(table, notes, ended.task.slot);
        }
    }
}

//! The calls that tell how far the timers are, and change nothing.
ghost use Rattle.std.specs.Prelude.{◌≡◌};
ghost use Rattle.timers_c.specs.Calls.{holding, Reads, ReadsDue, ReadsEnded, ReadsHead, ReadsTask};

use crate::refs::{Gone, Ref};
use crate::slot::Slot;
use crate::state::{State, TaskState};
use crate::status::Status;
use std::alloc::Global;

/// The moment at which the first task that waits is due.
pub fn read_due(alloc: Global, slot: &mut Slot, due: &mut u64) -> Status
    ensures { ReadsDue result due.new (holding slot.old.full slot.old.held.value)
        (holding slot.new.full slot.new.held.value) }
{
    *due = 0;
    let Some(session) = slot.take(alloc) else {
        return Status::NoTimers;
    };
    let next = session.timers().next_due();
    slot.put(session);
    match next {
        Some(moment) => {
            *due = moment;
            Status::Done
        }
        None => Status::Idle,
    }
}

/// The due moment of the head of the queue.
pub fn read_head(alloc: Global, slot: &mut Slot, due: &mut u64) -> Status
    ensures { ReadsHead result due.new (holding slot.old.full slot.old.held.value)
        (holding slot.new.full slot.new.held.value) }
{
    *due = 0;
    let Some(session) = slot.take(alloc) else {
        return Status::NoTimers;
    };
    let head = session.timers().head_due();
    slot.put(session);
    match head {
        Some(moment) => {
            *due = moment;
            Status::Done
        }
        None => Status::Idle,
    }
}

/// How far the task of a number is.
pub fn read_task(alloc: Global, slot: &mut Slot, task: Ref, state: &mut TaskState) -> Status
    ensures { ReadsTask result task state.new (holding slot.old.full slot.old.held.value)
        (holding slot.new.full slot.new.held.value) }
{
    *state = TaskState::none();
    let Some(session) = slot.take(alloc) else {
        return Status::NoTimers;
    };
    let numbers = session.timers().numbers();
    let seat = session.timers().seat_of(task.task());
    slot.put(session);
    if task.number >= numbers {
        return Status::NoTask;
    }
    *state = TaskState::found(seat);
    Status::Done
}

/// How far the timers are.
pub fn read(alloc: Global, slot: &mut Slot, state: &mut State) -> Status
    ensures { Reads result state.new (holding slot.old.full slot.old.held.value)
        (holding slot.new.full slot.new.held.value) }
{
    *state = State::none();
    let Some(session) = slot.take(alloc) else {
        return Status::NoTimers;
    };
    *state = State::of(&session);
    slot.put(session);
    Status::Done
}

/// The task at a place of those that the last call ended.
pub fn read_ended(alloc: Global, slot: &mut Slot, place: usize, gone: &mut Gone) -> Status
    ensures { ReadsEnded result place gone.new (holding slot.old.full slot.old.held.value)
        (holding slot.new.full slot.new.held.value) }
{
    *gone = Gone::none();
    let Some(session) = slot.take(alloc) else {
        return Status::NoTimers;
    };
    let found = session.gone_at(place);
    slot.put(session);
    match found {
        Some(found) => {
            *gone = found;
            Status::Done
        }
        None => Status::Idle,
    }
}

//! The calls that make timers, free them, and make room.
ghost use Rattle.std.specs.Prelude.{◌≡◌};
ghost use Rattle.timers_c.specs.Calls.{holding, Makes, Frees, Reserves};

use crate::session::Session;
use crate::slot::Slot;
use crate::status::Status;
use live_core::MakeError;
use std::alloc::Global;

/// Makes timers in an empty slot.
pub fn new(alloc: Global, slot: &mut Slot, workers: u32) -> Status
    ensures { Makes result workers (holding slot.old.full slot.old.held.value)
        (holding slot.new.full slot.new.held.value) }
{
    if slot.full {
        return Status::HasTimers;
    }
    let session = match Session::open(alloc, workers) {
        Ok(session) => session,
        Err(MakeError::Workers) => return Status::Workers,
        Err(MakeError::Memory) => return Status::NoMemory,
    };
    let Ok(session) = Box::new(alloc, session) else {
        return Status::NoMemory;
    };
    slot.put(session);
    Status::Done
}

/// Frees the timers of a slot.
pub fn free(alloc: Global, slot: &mut Slot) -> Status
    ensures { Frees result (holding slot.old.full slot.old.held.value)
        (holding slot.new.full slot.new.held.value) }
{
    let Some(session) = slot.take(alloc) else {
        return Status::NoTimers;
    };
    drop(session);
    Status::Done
}

/// Makes at least so many slots.
pub fn reserve(alloc: Global, slot: &mut Slot, tasks: u32) -> Status
    ensures { Reserves result tasks (holding slot.old.full slot.old.held.value)
        (holding slot.new.full slot.new.held.value) }
{
    let Some(mut session) = slot.take(alloc) else {
        return Status::NoTimers;
    };
    let made = session.reserve(tasks).is_ok();
    slot.put(session);
    if made { Status::Done } else { Status::NoMemory }
}

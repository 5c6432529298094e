//! The calls, with the status of each.
ghost use Rattle.std.specs.Prelude.{◌≡◌, ℕ, List, None};
ghost use Rattle.executor_model.specs.declared.types.Event.TheVariants as events;
ghost use Rattle.sched_c.specs.Calls.{holding, Refuses, Makes, Frees, TakesEvent, RefusesWorker, TakesEventOf, Copies, Reads, ReadsTask, ReadsStart};

use crate::fault::Fault;
use crate::session::Session;
use crate::slot::Slot;
use crate::started::Started;
use crate::state::{State, TaskState};
use crate::status::Status;
use executor_model::Event;
use line_copy::{Copied, put_lines};
use plan_read::PlanFaultKind;
use sched_engine::OpenError;
use sched_time::Ending;
use std::alloc::Global;

/// Makes an executor of a plan's text in an empty slot.
pub fn new(
    alloc: Global,
    slot: &mut Slot,
    plan: &[u8],
    workers: u32,
    limit: u64,
    fault: &mut Fault,
) -> Status
    ensures { Makes result plan.now workers limit fault.new
        (holding slot.old.full slot.old.held.value) (holding slot.new.full slot.new.held.value) }
{
    *fault = Fault::none();
    if slot.full {
        return Status::HasExecutor;
    }
    let session = match Session::open(alloc, plan, workers, limit) {
        Ok(session) => session,
        Err(error) => {
            let (status, found) = refusal(error);
            *fault = found;
            return status;
        }
    };
    let Ok(session) = Box::new(alloc, session) else {
        return Status::NoMemory;
    };
    *slot = Slot::of(session);
    Status::Done
}

/// The status of an error at the making of an executor, and the fault of the text where it is one.
fn refusal(error: OpenError) -> (Status, Fault)
    ensures { (text : List ℕ) (workers limit : ℕ) → Refuses error text workers limit
        → Makes result.0 text workers limit result.1 None None }
{
    match error {
        OpenError::Plan(fault) if fault.kind != PlanFaultKind::Memory => {
            (Status::NoPlan, Fault::of(fault))
        }
        OpenError::Workers => (Status::Workers, Fault::none()),
        OpenError::Limit => (Status::Limit, Fault::none()),
        _ => (Status::NoMemory, Fault::none()),
    }
}

/// Frees the executor of a slot.
pub fn free(alloc: Global, slot: &mut Slot) -> Status
    ensures { Frees result (holding slot.old.full slot.old.held.value)
        (holding slot.new.full slot.new.held.value) }
{
    let Some(session) = slot.take(alloc) else {
        return Status::NoExecutor;
    };
    drop(session);
    Status::Done
}

/// Takes an event.
pub fn tell(alloc: Global, slot: &mut Slot, event: Event) -> Status
    ensures { TakesEvent result event (holding slot.old.full slot.old.held.value)
        (holding slot.new.full slot.new.held.value) }
{
    let Some(mut session) = slot.take(alloc) else {
        return Status::NoExecutor;
    };
    let taken = session.take(event);
    *slot = Slot::of(session);
    if taken { Status::Done } else { Status::Full }
}

/// Takes the start of a worker.
pub fn start(alloc: Global, slot: &mut Slot, worker: u32) -> Status
    ensures { TakesEventOf worker result (events.Start worker)
        (holding slot.old.full slot.old.held.value) (holding slot.new.full slot.new.held.value) }
{
    if worker >= 256 {
        return refuse_worker(slot);
    }
    tell(alloc, slot, Event::Start(worker as u8))
}

/// Takes the end of a worker's run.
pub fn finish(alloc: Global, slot: &mut Slot, worker: u32, ending: Ending) -> Status
    ensures { TakesEventOf worker result (events.Finish worker ending)
        (holding slot.old.full slot.old.held.value) (holding slot.new.full slot.new.held.value) }
{
    if worker >= 256 {
        return refuse_worker(slot);
    }
    tell(alloc, slot, Event::Finish(worker as u8, ending))
}

/// Refuses an event of a worker that no event can name.
fn refuse_worker(slot: &Slot) -> Status
    ensures { RefusesWorker result (holding slot.now.full slot.now.held.value)
        (holding slot.now.full slot.now.held.value) }
{
    if slot.full {
        Status::NoWorker
    } else {
        Status::NoExecutor
    }
}

/// Copies the text of lines.
pub fn text(
    alloc: Global,
    slot: &mut Slot,
    from: usize,
    out: &mut [u8],
    copied: &mut Copied,
) -> Status
    ensures { Copies result from out.old out.new copied.new
        (holding slot.old.full slot.old.held.value) (holding slot.new.full slot.new.held.value) }
{
    *copied = Copied::none();
    let Some(session) = slot.take(alloc) else {
        return Status::NoExecutor;
    };
    let lines = session.lines();
    *copied = put_lines(&lines[from.min(lines.len())..], out);
    *slot = Slot::of(session);
    Status::Done
}

/// How far the executor is.
pub fn read(alloc: Global, slot: &mut Slot, state: &mut State) -> Status
    ensures { Reads result state.new (holding slot.old.full slot.old.held.value)
        (holding slot.new.full slot.new.held.value) }
{
    *state = State::none();
    let Some(session) = slot.take(alloc) else {
        return Status::NoExecutor;
    };
    *state = State::of(&session);
    *slot = Slot::of(session);
    Status::Done
}

/// How far a task is.
pub fn read_task(alloc: Global, slot: &mut Slot, task: u32, state: &mut TaskState) -> Status
    ensures { ReadsTask result task state.new (holding slot.old.full slot.old.held.value)
        (holding slot.new.full slot.new.held.value) }
{
    *state = TaskState::none();
    let Some(session) = slot.take(alloc) else {
        return Status::NoExecutor;
    };
    let word = session.word(task);
    *slot = Slot::of(session);
    match word {
        Some(word) => {
            *state = TaskState::of(word);
            Status::Done
        }
        None => Status::UnknownTask,
    }
}

/// The run that the last event started.
pub fn read_start(alloc: Global, slot: &mut Slot, started: &mut Started) -> Status
    ensures { ReadsStart result started.new (holding slot.old.full slot.old.held.value)
        (holding slot.new.full slot.new.held.value) }
{
    *started = Started::none();
    let Some(session) = slot.take(alloc) else {
        return Status::NoExecutor;
    };
    let last = Started::last_of(session.lines());
    *slot = Slot::of(session);
    match last {
        Some(run) => {
            *started = run;
            Status::Done
        }
        None => Status::NotStarted,
    }
}

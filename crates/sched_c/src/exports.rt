//! What C calls.
ghost use Rattle.std.specs.Prelude.{◌≡◌};
ghost use Rattle.executor_model.specs.declared.types.Event.TheVariants as events;
ghost use Rattle.sched_time.specs.declared.timing.Ending.TheVariants as endings;
ghost use Rattle.sched_c.specs.Calls.{holding, Answers, Makes, Frees, TakesEvent, TakesEventOf, Copies, Reads, ReadsTask, ReadsStart};

use crate::calls;
use crate::fault::Fault;
use crate::slot::Slot;
use crate::started::Started;
use crate::state::{State, TaskState};
use executor_model::Event;
use line_copy::Copied;
use sched_time::Ending;
use std::alloc::Global;

/// Makes an executor of a plan's text, before anything happened, in an empty slot.
#[unsafe(no_mangle)]
pub extern "C" fn sched_ref_new(
    alloc: Global,
    slot: &mut Slot,
    plan: &[u8],
    workers: u32,
    limit: u64,
    fault: &mut Fault,
) -> u32
    ensures { Answers result
        (λ status. Makes status plan.now workers limit fault.new
        (holding slot.old.full slot.old.held.value) (holding slot.new.full slot.new.held.value)) }
{
    calls::new(alloc, slot, plan, workers, limit, fault).number()
}

/// Frees the executor of a slot, which is empty then.
#[unsafe(no_mangle)]
pub extern "C" fn sched_ref_free(alloc: Global, slot: &mut Slot) -> u32
    ensures { Answers result
        (λ status. Frees status (holding slot.old.full slot.old.held.value)
        (holding slot.new.full slot.new.held.value)) }
{
    calls::free(alloc, slot).number()
}

/// The clock shows a moment, in nanoseconds.
#[unsafe(no_mangle)]
pub extern "C" fn sched_ref_clock(alloc: Global, slot: &mut Slot, moment: u64) -> u32
    ensures { Answers result
        (λ status. TakesEvent status (events.Clock moment)
        (holding slot.old.full slot.old.held.value) (holding slot.new.full slot.new.held.value)) }
{
    calls::tell(alloc, slot, Event::Clock(moment)).number()
}

/// A worker asks for work.
#[unsafe(no_mangle)]
pub extern "C" fn sched_ref_start(alloc: Global, slot: &mut Slot, worker: u32) -> u32
    ensures { Answers result
        (λ status. TakesEventOf worker status (events.Start worker)
        (holding slot.old.full slot.old.held.value) (holding slot.new.full slot.new.held.value)) }
{
    calls::start(alloc, slot, worker).number()
}

/// The run of a worker ended with a value.
#[unsafe(no_mangle)]
pub extern "C" fn sched_ref_finish(alloc: Global, slot: &mut Slot, worker: u32, value: u64) -> u32
    ensures { Answers result
        (λ status. TakesEventOf worker status (events.Finish worker (endings.Value value))
        (holding slot.old.full slot.old.held.value) (holding slot.new.full slot.new.held.value)) }
{
    calls::finish(alloc, slot, worker, Ending::Value(value)).number()
}

/// The run of a worker failed, with a code.
#[unsafe(no_mangle)]
pub extern "C" fn sched_ref_fail(alloc: Global, slot: &mut Slot, worker: u32, code: u32) -> u32
    ensures { Answers result
        (λ status. TakesEventOf worker status (events.Finish worker (endings.Fault code))
        (holding slot.old.full slot.old.held.value) (holding slot.new.full slot.new.held.value)) }
{
    calls::finish(alloc, slot, worker, Ending::Fault(code)).number()
}

/// A cancel of a task is asked for from outside the plan.
#[unsafe(no_mangle)]
pub extern "C" fn sched_ref_cancel(alloc: Global, slot: &mut Slot, task: u32) -> u32
    ensures { Answers result
        (λ status. TakesEvent status (events.Cancel task)
        (holding slot.old.full slot.old.held.value) (holding slot.new.full slot.new.held.value)) }
{
    calls::tell(alloc, slot, Event::Cancel(task)).number()
}

/// Copies the text of the lines that the last event was answered, from line `from` on, counted from 0, into the caller's
/// buffer: whole lines, as long as 128 bytes of room are left.
#[unsafe(no_mangle)]
pub extern "C" fn sched_ref_text(
    alloc: Global,
    slot: &mut Slot,
    from: usize,
    out: &mut [u8],
    copied: &mut Copied,
) -> u32
    ensures { Answers result
        (λ status. Copies status from out.old out.new copied.new
        (holding slot.old.full slot.old.held.value) (holding slot.new.full slot.new.held.value)) }
{
    calls::text(alloc, slot, from, out, copied).number()
}

/// How far the executor is.
#[unsafe(no_mangle)]
pub extern "C" fn sched_ref_state_of(alloc: Global, slot: &mut Slot, state: &mut State) -> u32
    ensures { Answers result
        (λ status. Reads status state.new (holding slot.old.full slot.old.held.value)
        (holding slot.new.full slot.new.held.value)) }
{
    calls::read(alloc, slot, state).number()
}

/// How far the task of a number is.
#[unsafe(no_mangle)]
pub extern "C" fn sched_ref_task_of(
    alloc: Global,
    slot: &mut Slot,
    task: u32,
    state: &mut TaskState,
) -> u32
    ensures { Answers result
        (λ status. ReadsTask status task state.new (holding slot.old.full slot.old.held.value)
        (holding slot.new.full slot.new.held.value)) }
{
    calls::read_task(alloc, slot, task, state).number()
}

/// The run that the last event started: which task, its run and due moment, and by which worker.
#[unsafe(no_mangle)]
pub extern "C" fn sched_ref_started(alloc: Global, slot: &mut Slot, started: &mut Started) -> u32
    ensures { Answers result
        (λ status. ReadsStart status started.new (holding slot.old.full slot.old.held.value)
        (holding slot.new.full slot.new.held.value)) }
{
    calls::read_start(alloc, slot, started).number()
}

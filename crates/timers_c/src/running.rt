//! Polls, and the ends of runs.
ghost use Rattle.std.specs.Prelude.{◌≡◌, ◌≢◌, Some};
ghost use Rattle.timers_c.specs.declared.status.Status.TheVariants as statuses;
ghost use Rattle.timers_c.specs.Calls.{holding, no_end, no_run, TakesFinish, TakesPoll};

use crate::runs::{End, Run};
use crate::session::Session;
use crate::slot::Slot;
use crate::status::Status;
use sched_time::Ending;
use std::alloc::Global;
use timers::{FinishError, PollError};

/// A worker polls.
#[inline(always)]
pub fn poll(alloc: Global, slot: &mut Slot, now: u64, worker: u32, run: &mut Run) -> Status
    ensures { TakesPoll result now worker run.new (holding slot.old.full slot.old.held.value)
        (holding slot.new.full slot.new.held.value) }
{
    let Some(mut session) = slot.take(alloc) else {
        *run = Run::none();
        return Status::NoTimers;
    };
    let (status, begun) = begin(&mut session, now, worker);
    slot.put(session);
    *run = begun;
    status
}

/// A worker polls: what came of it, and the run that it begins, or none.
#[inline(always)]
pub fn begin(session: &mut Session, now: u64, worker: u32) -> (Status, Run)
    ensures takes { TakesPoll result.0 now worker result.1 (Some session.old) (Some session.new) }
    ensures none { result.0 ≢ statuses.Done → result.1 ≡ no_run }
{
    match session.poll(now, worker) {
        Ok(Some(run)) => (Status::Done, Run::of(worker, run)),
        Ok(None) => (Status::Idle, Run::none()),
        Err(PollError::NoWorker) => (Status::NoWorker, Run::none()),
        Err(PollError::Busy) => (Status::Busy, Run::none()),
        Err(PollError::TooFar) => (Status::TooFar, Run::none()),
        Err(PollError::Full) => (Status::Full, Run::none()),
    }
}

/// The run of a worker has ended so.
#[inline(always)]
pub fn finish(
    alloc: Global,
    slot: &mut Slot,
    now: u64,
    worker: u32,
    ending: Ending,
    end: &mut End,
) -> Status
    ensures { TakesFinish result now worker ending end.new
        (holding slot.old.full slot.old.held.value) (holding slot.new.full slot.new.held.value) }
{
    let Some(mut session) = slot.take(alloc) else {
        *end = End::none();
        return Status::NoTimers;
    };
    let (status, ended) = end_run(&mut session, now, worker, ending);
    slot.put(session);
    *end = ended;
    status
}

/// The run of a worker has ended so: what came of it, and the end, or none.
#[inline(always)]
pub fn end_run(session: &mut Session, now: u64, worker: u32, ending: Ending) -> (Status, End)
    ensures takes { TakesFinish result.0 now worker ending result.1 (Some session.old)
        (Some session.new) }
    ensures none { result.0 ≢ statuses.Done → result.1 ≡ no_end }
{
    match session.finish(now, worker, ending) {
        Ok(finished) => (Status::Done, End::of(finished)),
        Err(FinishError::NoWorker) => (Status::NoWorker, End::none()),
        Err(FinishError::NotRunning) => (Status::NotRunning, End::none()),
        Err(FinishError::TooFar) => (Status::TooFar, End::none()),
    }
}

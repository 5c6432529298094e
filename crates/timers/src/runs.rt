//! The runs of the workers: the clock, and then a start or a finish.
ghost use Rattle.std.specs.Prelude.{◌≡◌, Some, None, IfOk, IfErr, OnErr};
ghost use Rattle.timers.specs.Calls.{Polls, IsPollError, Finishes, IsFinishError};
ghost use Rattle.timers.specs.own.Runs.{run_of, finished_of};

use crate::clock::show_clock;
use crate::error::{FinishError, PollError};
use executor_model::EventError;
use live_core::{Begun, Ended, ScheduledExecutor, StartError};
use sched_time::Ending;
use std::alloc::Allocator;

/// The clock shows a moment, and then a worker starts, where it has no run under way.
#[inline(always)]
pub(crate) fn begin<A: Allocator>(
    executor: &mut ScheduledExecutor<A>,
    now: u64,
    worker: u8,
) -> Result<Option<Begun>, PollError>
    ensures polls { IfOk result
        (λ begun. Polls executor.old executor.new now worker (run_of begun 0)) }
    ensures failed { IfErr result
        (λ error. IsPollError executor.old executor.new now worker error) }
{
    match executor.start_error(worker) {
        None => {}
        Some(EventError::Busy) => return Err(PollError::Busy),
        Some(_) => return Err(PollError::NoWorker),
    }
    if show_clock(executor, now).is_err() {
        return Err(PollError::TooFar);
    }
    match executor.start(worker) {
        Ok(begun) => Ok(begun),
        Err(StartError::Full) => Err(PollError::Full),
        Err(StartError::Refused(_)) => unreachable!(),
    }
}

/// The clock shows a moment, and then a worker finishes, where it has a run under way.
#[inline(always)]
pub(crate) fn end<A: Allocator>(
    executor: &mut ScheduledExecutor<A>,
    now: u64,
    worker: u8,
    ending: Ending,
) -> Result<Ended, FinishError>
    ensures finishes { IfOk result
        (λ ended. Finishes executor.old executor.new now worker ending (finished_of ended 0)) }
    ensures refused { OnErr result (executor.new ≡ executor.old) }
    ensures failed { IfErr result (λ error. IsFinishError executor.old now worker error) }
{
    match executor.start_error(worker) {
        Some(EventError::Busy) => {}
        Some(_) => return Err(FinishError::NoWorker),
        None => return Err(FinishError::NotRunning),
    }
    if show_clock(executor, now).is_err() {
        return Err(FinishError::TooFar);
    }
    match executor.finish(worker, ending) {
        Ok(ended) => Ok(ended),
        Err(_) => unreachable!(),
    }
}

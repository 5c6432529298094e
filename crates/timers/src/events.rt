//! Polls and finishes, cancels from outside, and purges.
ghost use Rattle.std.specs.Prelude.{◌≡◌, ◌≤◌, IfOk, IfErr, IfSome, OnOk, OnErr};
ghost use Rattle.live_core.specs.declared.error.CallError.TheVariants as call_error;

use crate::answers::{Finished, Run};
use crate::error::{FinishError, PollError};
use crate::runs::{begin, end};
use crate::timers::Timers;
use executor_model::CancelEffect;
use live_core::{CallError, TaskRef};
use sched_time::Ending;
use std::alloc::Allocator;

impl<A: Allocator> Timers<A> {
    ghost use Rattle.live_core.specs.Cancels.{CancelsOutside};
    ghost use Rattle.live_core.specs.Lives.{StaysQuiet};
    ghost use Rattle.live_core.specs.Purges.{Purges};
    ghost use Rattle.timers.specs.Timers.{GivesNone, WasGivenWith};
    ghost use Rattle.timers.specs.Calls.{Polls, IsPollError, Finishes, IsFinishError};

    /// The clock shows a moment, or stays where it is, where it would go back; and a worker that has no run under way asks for one.
    /// It begins a run of the first task that is due, or none, where none is. The run has what was given with its task.
    ///
    /// # Errors
    ///
    /// [`PollError::NoWorker`] where there is no such worker, [`PollError::Busy`] where it has a run under way, and
    /// [`PollError::TooFar`] where the moment is above 2^62: nothing has changed then. [`PollError::Full`] where else the first
    /// task that is due has had 2^64 - 1 runs: the clock has shown the moment then, and nothing else has happened.
    #[inline(always)]
    pub fn poll(&mut self, now: u64, worker: u8) -> Result<Option<Run>, PollError>
        ensures polls { IfOk result (λ run. Polls self.old.live self.new.live now worker run) }
        ensures given { IfOk result
            (λ run. IfSome run (λ r. WasGivenWith self.old r.task.number r.user_data)) }
        ensures keeps { GivesNone self.old self.new }
        ensures failed { IfErr result
            (λ error. IsPollError self.old.live self.new.live now worker error) }
        ensures user_data { self.new.user_data ≡ self.old.user_data }
    {
        match begin(&mut self.executor, now, worker)? {
            Some(begun) => Ok(Some(Run {
                task: begun.task,
                run: begun.run,
                due: begun.due,
                user_data: self.data_in(begun.task.slot),
            })),
            None => Ok(None),
        }
    }

    /// The clock shows a moment, or stays where it is, where it would go back; and a worker has run its task, and the run ended so:
    /// with a value, or by a fault. Where no run of the task comes after it, its slot may hold another task from then on.
    ///
    /// # Errors
    ///
    /// [`FinishError::NoWorker`] where there is no such worker, [`FinishError::NotRunning`] where it has no run under way, and
    /// [`FinishError::TooFar`] where the moment is above 2^62: nothing has changed then.
    #[inline(always)]
    pub fn finish(&mut self, now: u64, worker: u8, ending: Ending) -> Result<Finished, FinishError>
        ensures finishes { IfOk result
            (λ f. Finishes self.old.live self.new.live now worker ending f) }
        ensures given { IfOk result (λ f. WasGivenWith self.old f.task.number f.user_data) }
        ensures keeps { GivesNone self.old self.new }
        ensures refused { OnErr result (self.new ≡ self.old) }
        ensures failed { IfErr result (λ error. IsFinishError self.old.live now worker error) }
    {
        let ended = end(&mut self.executor, now, worker, ending)?;
        Ok(Finished {
            task: ended.task,
            run: ended.run,
            outcome: ended.outcome,
            user_data: self.data_in(ended.task.slot),
        })
    }

    /// A task is cancelled from outside, at the moment that it is now. The task is the one of the number, whatever the slot.
    ///
    /// The answer is [`CancelEffect::Yes`] where it waits or is run, and is cancelled now, [`CancelEffect::No`] where it was
    /// cancelled before, or is over, and [`CancelEffect::Absent`] where its submission was rejected. A task that waits is kept
    /// in the queue, unless the policy says that cancelled tasks leave it: then its slot is empty from now on.
    ///
    /// # Errors
    ///
    /// [`CallError::NoTask`] where no submission was given the number yet: nothing has happened then.
    #[inline(always)]
    pub fn cancel(&mut self, task: TaskRef) -> Result<CancelEffect, CallError>
        ensures stays { OnOk result (StaysQuiet self.old.live self.new.live self.old.live.count) }
        ensures keeps { GivesNone self.old self.new }
        ensures done { IfOk result
            (λ effect. CancelsOutside self.old.live self.new.live task.number effect) }
        ensures refused { OnErr result (self.new ≡ self.old) }
        ensures failed { IfErr result
            (λ error. (error ≡ call_error.NoTask) × (self.old.live.count ≤ task.number)) }
        ensures user_data { self.new.user_data ≡ self.old.user_data }
    {
        if task.number >= self.executor.numbers() {
            return Err(CallError::NoTask);
        }
        match self.executor.cancel(task) {
            Ok(effect) => Ok(effect),
            Err(_) => unreachable!(),
        }
    }

    /// The tasks that were cancelled while they waited, and are kept in the queue, leave it at once: their slots are empty from now
    /// on. No other task changes. It is made at the moment that it is now, and is never refused.
    pub fn purge(&mut self)
        ensures purged { Purges self.old.live self.new.live }
        ensures stays { StaysQuiet self.old.live self.new.live self.old.live.count }
        ensures keeps { GivesNone self.old self.new }
        ensures user_data { self.new.user_data ≡ self.old.user_data }
    {
        self.executor.purge();
    }
}

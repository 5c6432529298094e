//! What stands on the heap for C: timers, and what they note of the last call.
ghost use Rattle.std.specs.Prelude.{◌≡◌, ◌<◌, ◌≤◌, true, length, slice_get, IfOk, IfErr, IfSome, IfNone, OnOk, OnErr};
ghost use Rattle.live_core.specs.declared.error.CallError.TheVariants as call_error;
ghost use Rattle.live_core.specs.Said.{IsMakeError};
ghost use Rattle.timers.specs.Calls.{IsFinishError};
ghost use Rattle.call_lines.specs.Narrow as narrow;
ghost use Rattle.timers_c.specs.own.Told.{IsToldAs};

use crate::refs::{Gone, Ref};
use crate::submission::Submission;
use call_lines::{Last, Said, all_spelled, line_at, line_count};
use executor_model::{CancelEffect, Line};
use live_core::{Asked, CallError, MakeError, Submitted, TaskRef};
use sched_time::{Ending, Which};
use std::alloc::Global;
use std::marker::Model;
use timers::{FinishError, Finished, PollError, Run, Timers};

/// Timers, and the last call that was taken, to tell its lines.
#[derive(Drop)]
pub struct Session {
    timers: Timers<Global>,
    last: Last,
}

impl Model for Session {
    ghost use Rattle.std.specs.Prelude.{◌≤◌};
    ghost use Rattle.executor_model.specs.Counts.{most_live_workers};
    ghost use Rattle.task_table.specs.Tables.{workers_of};
    ghost use Rattle.timers_c.specs.Seen.{Seen};
    ghost use Rattle.call_lines.specs.Lasts.{lines_of_last};

    ghost Value = { Seen };

    ghost view = { λ s. record { timers = s.timers; lines = lines_of_last s.last s.timers.live.table.moment s.timers.live.ended } };

    ghost invariant = { λ s. workers_of s.timers.live.table ≤ most_live_workers };
}

impl Session {
    ghost use Rattle.timers_c.specs.Calls.{Opens, Grows, Submits, IsRefused, Cancels, Purges, Begins, FailsToBegin, EndsRun, IsFar, SetsPolicy, Shuts, Stops, AsksTimers, IsEndedAt};
    ghost use Rattle.timers_c.specs.own.Submissions.{first_of, timing_of};

    /// Timers before anything happened.
    ///
    /// # Errors
    ///
    /// `Workers` where their number is not 1 to 255, and `Memory` where memory is refused.
    pub fn open(alloc: Global, workers: u32) -> Result<Session, MakeError>
        ensures opens { IfOk result (λ session. Opens session workers) }
        ensures failed { IfErr result (λ error. IsMakeError workers error) }
    {
        Ok(Session {
            timers: Timers::new(alloc, told_workers(workers))?,
            last: Last::Nothing,
        })
    }

    /// The timers.
    pub fn timers(&self) -> &Timers<Global>
        ensures { result.now ≡ self.now.timers }
    {
        &self.timers
    }

    /// Makes at least so many slots. It is no call.
    ///
    /// # Errors
    ///
    /// `Memory` where memory is refused: nothing has changed then.
    pub fn reserve(&mut self, tasks: u32) -> Result<(), CallError>
        ensures made { OnOk result (Grows self.old self.new tasks) }
        ensures refused { OnErr result (self.new ≡ self.old) }
        ensures failed { IfErr result (λ error. error ≡ call_error.Memory) }
        ensures short { OnErr result (length self.old.timers.live.table.slots < tasks) }
    {
        self.timers.reserve(tasks)
    }

    /// A submission, with these data.
    ///
    /// # Errors
    ///
    /// Those of the timers: nothing has changed then.
    #[inline(always)]
    pub fn submit(
        &mut self,
        now: u64,
        submission: Submission,
        user_data: u64,
    ) -> Result<Submitted, CallError>
        ensures made { IfOk result
            (λ s. Submits self.old self.new now (timing_of submission) (first_of submission)
            user_data s) }
        ensures refused { OnErr result (self.new ≡ self.old) }
        ensures failed { IfErr result
            (λ error. IsRefused self.old.timers.live now (timing_of submission)
            (first_of submission) error) }
    {
        let submitted = submission.make(&mut self.timers, now, user_data)?;
        let said = submission.answer(submitted);
        self.last = Last::Call { said };
        Ok(submitted)
    }

    /// A cancel of the task of a number.
    ///
    /// # Errors
    ///
    /// `NoTask` where no submission was given the number yet: nothing has changed then.
    #[inline(always)]
    pub fn cancel(&mut self, task: TaskRef) -> Result<CancelEffect, CallError>
        ensures made { IfOk result (λ effect. Cancels self.old self.new task.number effect) }
        ensures refused { OnErr result (self.new ≡ self.old) }
        ensures failed { IfErr result
            (λ error. (error ≡ call_error.NoTask) × (self.old.timers.live.count ≤ task.number)) }
    {
        let effect = self.timers.cancel(task)?;
        let task = task.number;
        let said = Said::Outside { task, effect };
        self.last = Last::Call { said };
        Ok(effect)
    }

    /// Takes the kept tasks out of the queue.
    pub fn purge(&mut self)
        ensures { Purges self.old self.new }
    {
        self.timers.purge();
        let said = Said::Purge;
        self.last = Last::Call { said };
    }

    /// A worker polls.
    ///
    /// # Errors
    ///
    /// Those of the timers. Nothing has changed then, but that the clock has shown the moment where the error is `Full`.
    #[inline(always)]
    pub fn poll(&mut self, now: u64, worker: u32) -> Result<Option<Run>, PollError>
        ensures begins { IfOk result (λ run. Begins self.old self.new now worker run) }
        ensures failed { IfErr result (λ error. FailsToBegin self.old self.new now worker error) }
    {
        let moment = now.max(self.timers.now());
        if worker >= 256 {
            return Err(PollError::NoWorker);
        }
        let worker = worker as u8;
        let run = match self.timers.poll(now, worker) {
            Ok(run) => run,
            Err(PollError::Full) => {
                self.last = Last::Clock { moment };
                return Err(PollError::Full);
            }
            Err(error) => return Err(error),
        };
        let said = Said::begun(worker, run);
        self.last = Last::Event { moment, said };
        Ok(run)
    }

    /// The run of a worker has ended so.
    ///
    /// # Errors
    ///
    /// Those of the timers: nothing has changed then.
    #[inline(always)]
    pub fn finish(&mut self, now: u64, worker: u32, ending: Ending) -> Result<Finished, FinishError>
        ensures ends { IfOk result (λ f. EndsRun self.old self.new now worker ending f) }
        ensures refused { OnErr result (self.new ≡ self.old) }
        ensures failed { IfErr result
            (λ error. IsFinishError self.old.timers.live now worker error) }
    {
        let moment = now.max(self.timers.now());
        if worker >= 256 {
            return Err(FinishError::NoWorker);
        }
        let worker = worker as u8;
        let ended = self.timers.finish(now, worker, ending)?;
        let said = Said::finished(worker, ended);
        self.last = Last::Event { moment, said };
        Ok(ended)
    }

    /// Sets a policy.
    ///
    /// # Errors
    ///
    /// `TooFar`: nothing has changed then.
    pub fn set_policy(&mut self, now: u64, which: Which, value: bool) -> Result<(), CallError>
        ensures made { OnOk result (SetsPolicy self.old self.new now which value) }
        ensures refused { OnErr result (self.new ≡ self.old) }
        ensures failed { OnErr result (IsFar self.old now) }
    {
        self.timers.set_policy(now, which, value)?;
        let said = Said::Policy { which, value };
        self.last = Last::Call { said };
        Ok(())
    }

    /// Shuts the timers down in order: whether they were not shut before.
    ///
    /// # Errors
    ///
    /// `TooFar`: nothing has changed then.
    pub fn shut_down(&mut self, now: u64) -> Result<bool, CallError>
        ensures made { IfOk result (λ first. Shuts self.old self.new now first) }
        ensures refused { OnErr result (self.new ≡ self.old) }
        ensures failed { OnErr result (IsFar self.old now) }
    {
        let first = self.timers.shut_down(now)?;
        let said = Said::Shutdown { first };
        self.last = Last::Call { said };
        Ok(first)
    }

    /// Shuts the timers down at once.
    ///
    /// # Errors
    ///
    /// `TooFar`: nothing has changed then.
    pub fn shut_down_now(&mut self, now: u64) -> Result<(), CallError>
        ensures made { OnOk result (Stops self.old self.new now) }
        ensures refused { OnErr result (self.new ≡ self.old) }
        ensures failed { OnErr result (IsFar self.old now) }
    {
        self.timers.shut_down_now(now)?;
        let said = Said::ShutdownNow;
        self.last = Last::Call { said };
        Ok(())
    }

    /// Asks how far the timers are, by a call.
    ///
    /// # Errors
    ///
    /// `TooFar`: nothing has changed then.
    pub fn ask(&mut self, now: u64) -> Result<Asked, CallError>
        ensures made { IfOk result (λ asked. AsksTimers self.old self.new now asked) }
        ensures refused { OnErr result (self.new ≡ self.old) }
        ensures failed { OnErr result (IsFar self.old now) }
    {
        let asked = self.timers.ask(now)?;
        let said = Said::Ask(asked);
        self.last = Last::Call { said };
        Ok(asked)
    }

    /// The task at a place of those that the last call ended.
    pub fn gone_at(&self, place: usize) -> Option<Gone>
        ensures there { IfSome result (λ gone. IsEndedAt self.now place gone) }
        ensures none { IfNone result (length self.now.timers.live.ended ≤ place) }
    {
        let task = *self.timers.ended().get(place)?;
        let user_data = self.timers.ended_user_data(place)?;
        Some(Gone {
            task: Ref::of(task),
            user_data,
        })
    }

    /// How many lines the last call has.
    pub fn lines(&self) -> usize
        ensures { result ≡ length self.now.lines }
    {
        line_count(self.last, self.timers.now(), self.timers.ended())
    }

    /// Whether the lines of the last call have room for each number.
    pub fn are_spelled(&self) -> bool
        ensures { result ≡ narrow.are_spelled self.now.lines }
    {
        all_spelled(self.last, self.timers.now(), self.timers.ended())
    }

    /// The line at a place, from 0 on, of those of the last call, and `None` behind the last one.
    pub fn line(&self, place: usize) -> Option<Line>
        requires { narrow.are_spelled self.now.lines ≡ true }
        ensures { result ≡ slice_get self.now.lines place }
    {
        line_at(self.last, self.timers.now(), self.timers.ended(), place)
    }
}

/// The number of workers for timers, which refuse 0 as they would one that is too large.
fn told_workers(workers: u32) -> u8
    ensures { IsToldAs 256 workers result }
{
    if workers < 256 { workers as u8 } else { 0 }
}

//! Events: the clock, and the starts and finishes of the workers.
ghost use Rattle.std.specs.Prelude.{◌≡◌, ◌+◌, ◌<◌, ◌↔◌, true, [], IsOk, IfOk, OnOk, IfErr, IfSome, IfNone};
ghost use Rattle.executor_model.specs.Answers.{bare, is_accepted};
ghost use Rattle.executor_model.specs.declared.types.Answer.TheVariants as answer;
ghost use Rattle.executor_model.specs.declared.types.Happening.TheVariants as happening;

use crate::executor::ScheduledExecutor;
use crate::running::{begin_run, end_run};
use executor_model::EventError;
use sched_time::Ending;
use std::alloc::Allocator;
use task_table::{Begun, Ended, StartError};

impl<A: Allocator> ScheduledExecutor<A> {
    ghost use Rattle.task_table.specs.Firsts.{IsEarliest, NoneWaits, IsHead, NoneQueued};
    ghost use Rattle.task_table.specs.Runs.{IsClockError, IsFinishError};
    ghost use Rattle.live_core.specs.Lives.{Happens, Stays};
    ghost use Rattle.task_table.specs.Tables.{workers_of};
    ghost use Rattle.live_core.specs.Events as events;

    /// The clock shows a moment, in nanoseconds: it is now. A call that comes next is made 1 ns later, or after that.
    ///
    /// # Errors
    ///
    /// [`EventError::Backward`] where that is before [`now`](ScheduledExecutor::now), and [`EventError::TooFar`] where it is
    /// past 2^62. The clock has happened then, and the executor is as it was, but that [`ended`](ScheduledExecutor::ended) is
    /// empty.
    #[inline(always)]
    pub fn clock(&mut self, moment: u64) -> Result<(), EventError>
        ensures accepted { IsOk result ↔ (is_accepted self.old.table.moment moment ≡ true) }
        ensures happens { IfOk result
            (λ _. Happens self.old self.new (happening.Clock moment) (bare answer.Clock)) }
        ensures moment { IfOk result (λ _. self.new.table.moment ≡ moment) }
        ensures earliest { IfOk result (λ _. self.new.earliest ≡ moment + 1) }
        ensures workers { IfOk result (λ _. workers_of self.new.table ≡ workers_of self.old.table) }
        ensures count { self.new.count ≡ self.old.count }
        ensures slots { self.new.table.slots ≡ self.old.table.slots }
        ensures work { self.new.table.work ≡ self.old.table.work }
        ensures ended { self.new.ended ≡ [] }
        ensures failed { IfErr result
            (λ error. IsClockError self.old.table moment error
            × events.Fails self.old self.new (happening.Clock moment) error) }
    {
        self.ended.clear();
        match self.table.clock(moment) {
            Ok(()) => {
                self.earliest = moment + 1;
                Ok(())
            }
            Err(error) => Err(error),
        }
    }

    /// A worker asks for work: it begins a run of the first task that is due, or none, where none is.
    ///
    /// The tasks that were cancelled while they waited, and still stand in the queue before that one, leave it: each that is due,
    /// where no task is.
    ///
    /// # Errors
    ///
    /// [`StartError::Refused`] where there is no such worker, or it has a run under way: the start has happened then, and the
    /// executor is as it was, but that [`ended`](ScheduledExecutor::ended) is empty. [`StartError::Full`] where else the first
    /// task that is due has had 2^64 - 1 runs: nothing has happened then, and nothing has changed.
    #[inline(always)]
    pub fn start(&mut self, worker: u8) -> Result<Option<Begun>, StartError>
        ensures happens { IfOk result
            (λ begun. Happens self.old self.new (happening.Start worker)
            (events.start_reply worker begun)) }
        ensures stays { OnOk result (Stays self.old self.new self.old.count) }
        ensures runs { IfOk result
            (λ begun. IfSome begun (λ b. events.IsRunBy self.new.table worker b.task)) }
        ensures numbered { IfOk result (λ begun. IfSome begun (λ b. b.run < events.run_limit)) }
        ensures given { IfOk result (λ begun. IfSome begun (λ b. b.task.number < self.old.count)) }
        ensures ended { IfOk result (λ _. self.new.ended ≡ []) }
        ensures failed { IfErr result (λ error. events.BeginsNone self.old self.new worker error) }
    {
        if let Some(error) = self.table.start_error(worker) {
            self.ended.clear();
            return Err(StartError::Refused(error));
        }
        if self.table.is_spent() {
            return Err(StartError::Full);
        }
        self.ended.clear();
        Ok(begin_run(&mut self.table, &mut self.notes, worker))
    }

    /// A worker has run its task, and the run ended so: with a value, or by a fault. Where no run of the task comes after it, its
    /// slot may hold another task from then on.
    ///
    /// # Errors
    ///
    /// [`EventError::NoWorker`] where there is no such worker, and [`EventError::NotRunning`] where it has no run under way.
    /// The finish has happened then, and the executor is as it was, but that [`ended`](ScheduledExecutor::ended) is empty.
    #[inline(always)]
    pub fn finish(&mut self, worker: u8, ending: Ending) -> Result<Ended, EventError>
        ensures happens { IfOk result
            (λ e. Happens self.old self.new (happening.Finish worker ending)
            (events.finish_reply worker e)) }
        ensures stays { OnOk result (Stays self.old self.new self.old.count) }
        ensures ran { IfOk result (λ e. events.IsRunBy self.old.table worker e.task) }
        ensures given { IfOk result (λ e. e.task.number < self.old.count) }
        ensures left { IfOk result (λ e. events.IsLeftThere self.new.table e.outcome e.task) }
        ensures ended { self.new.ended ≡ [] }
        ensures failed { IfErr result
            (λ error. IsFinishError self.old.table worker error
            × events.Fails self.old self.new (happening.Finish worker ending) error) }
    {
        self.ended.clear();
        end_run(&mut self.table, &mut self.notes, worker, ending)
    }

    /// The due moment of the first task that waits, in nanoseconds: before it no start begins a run. `None` where none waits.
    ///
    /// A task that was cancelled is not counted, since no start begins a run of it.
    pub fn next_due(&self) -> Option<u64>
        ensures first { IfSome result (λ due. IsEarliest self.now.table due) }
        ensures none { IfNone result (NoneWaits self.now.table) }
    {
        self.table.next_due()
    }

    /// The due moment of the head of the queue, in nanoseconds, which waits for a run or is kept after a cancel: before it no start
    /// takes a task out of the queue. `None` where none stands there.
    pub fn head_due(&self) -> Option<u64>
        ensures head { IfSome result (λ due. IsHead self.now.table due) }
        ensures none { IfNone result (NoneQueued self.now.table) }
    {
        self.table.head_due()
    }
}

//! What the finishes of the workers do to a table.
ghost use Rattle.std.specs.Prelude.{◌≡◌, ◌<◌, ◌≤◌, Bool, Some, None, slice_index_or, IfOk, IfErr, OnErr};
ghost use Rattle.sched_time.specs.Times.{longest};
ghost use Rattle.sched_time.specs.declared.timing.Ending as endings;
ghost use Rattle.executor_model.specs.Answers as replies;
ghost use Rattle.executor_model.specs.State.{due_past};
ghost use Rattle.task_table.specs.Changes as changes;

use crate::answers::{Ended, RunEnd};
use crate::queues::{Entry, TaskQueue};
use crate::seat::{Seat, TaskRef};
use crate::slots::Slots;
use crate::table::Table;
use executor_model::{EventError, Outcome};
use sched_time::{Ending, Timing, next_due};
use std::alloc::Allocator;

impl<S: Slots, Q: TaskQueue, A: Allocator> Table<S, Q, A> {
    ghost use Rattle.task_table.specs.Tables.{workers_of};
    ghost use Rattle.task_table.specs.Seats.{slot_of};
    ghost use Rattle.task_table.specs.Runs.{IsFinishError, IsEndOf, Ends, FailsFinish};
    ghost use Rattle.task_table.specs.Formed.{IsFormed};
    ghost use Rattle.task_table.specs.own.Working.{IsAtWork};

    /// A worker has run its task, and the run ended so: with a value, or by a fault.
    ///
    /// # Errors
    ///
    /// [`EventError::NoWorker`] where there is no such worker, and [`EventError::NotRunning`] where it has no run under way.
    /// The table is then as it was.
    #[inline(always)]
    pub fn finish(&mut self, worker: u8, ending: Ending) -> Result<Ended, EventError>
        ensures ended { IfOk result (λ ended. Ends self.old self.new worker ending ended) }
        ensures unchanged { OnErr result (self.new ≡ self.old) }
        ensures failed { IfErr result (λ error. FailsFinish self.old worker ending error) }
    {
        match self.work_of(worker) {
            Ok(at) => {
                let end = self.run_end(at.0, &at.1, ending);
                self.end(worker, at.0, at.1, end.outcome, end.due);
                Ok(Ended {
                    task: end.task,
                    run: end.run,
                    outcome: end.outcome,
                })
            }
            Err(error) => Err(error),
        }
    }

    /// What a finish by a worker would come to now, whose run ended so: with a value, or by a fault. [`end_as`](Table::end_as) makes
    /// it so.
    ///
    /// # Errors
    ///
    /// [`EventError::NoWorker`] where there is no such worker, and [`EventError::NotRunning`] where it has no run under way.
    #[inline(always)]
    pub fn end_of(&self, worker: u8, ending: Ending) -> Result<RunEnd, EventError>
        ensures end { IfOk result (λ end. IsEndOf self.now worker ending end) }
        ensures failed { IfErr result (λ error. FailsFinish self.now worker ending error) }
    {
        match self.work_of(worker) {
            Ok(at) => Ok(self.run_end(at.0, &at.1, ending)),
            Err(error) => Err(error),
        }
    }

    /// A worker has run its task, and that comes to what [`end_of`](Table::end_of) told, since which nothing happened: this is a
    /// [`finish`](Table::finish) that is not refused.
    #[inline(always)]
    pub fn end_as(&mut self, worker: u8, end: RunEnd)
        requires { (ending : endings.Ending) × IsEndOf self.old worker ending end }
        ensures { (ending : endings.Ending) → IsEndOf self.old worker ending end
            → Ends self.old self.new worker ending
            (record { task = end.task; run = end.run; outcome = end.outcome }) }
    {
        let slot = end.task.slot;
        let seat = self.held(slot);
        self.end(worker, slot, seat, end.outcome, end.due);
    }

    /// The slot of the task that a worker runs, and what it holds.
    fn work_of(&self, worker: u8) -> Result<(u32, Seat), EventError>
        ensures works { IfOk result
            (λ at. (worker < workers_of self.now)
            × (slice_index_or self.now.work worker None ≡ Some at.0)) }
        ensures there { IfOk result (λ at. slot_of self.now.slots at.0 ≡ Some at.1) }
        ensures runs { IfOk result (λ at. IsAtWork self.now.moment at.1) }
        ensures none { IfErr result (λ error. IsFinishError self.now worker error) }
        ensures formed { IfOk result (λ _. IsFormed self.now) }
    {
        let place = worker as usize;
        if place >= self.workers() {
            return Err(EventError::NoWorker);
        }
        match self.work[place] {
            Some(slot) => {
                let seat = self.held(slot);
                Ok((slot, seat))
            }
            None => Err(EventError::NotRunning),
        }
    }

    /// Whether periodic tasks do not go on.
    fn stops(&self) -> bool
        ensures { result ≡ replies.stops_periodic self.now.shut self.now.stopped self.now.policies }
    {
        self.stopped || (self.shut && !self.policies.continues)
    }

    /// What the end of the run comes to that the task in a slot has under way.
    #[inline(always)]
    fn run_end(&self, slot: u32, seat: &Seat, ending: Ending) -> RunEnd
        requires { seat.now.due ≤ longest }
        ensures slot { result.task.slot ≡ slot }
        ensures number { result.task.number ≡ seat.now.number }
        ensures run { result.run ≡ seat.now.run }
        ensures due { result.due ≡ due_past seat.now.timing seat.now.due self.now.moment }
        ensures outcome { result.outcome
            ≡ replies.outcome_in seat.now.cancelled
            (replies.stops_periodic self.now.shut self.now.stopped self.now.policies)
            seat.now.timing result.due ending }
    {
        let now = self.now();
        let stops = self.stops();
        let due = due_after(seat, now);
        let outcome = outcome_of(seat, stops, due, ending);
        let number = seat.number;
        let run = seat.run;
        let task = TaskRef { number, slot };
        RunEnd {
            task,
            run,
            due,
            outcome,
        }
    }

    /// The run of a worker's task ended with this outcome, and the task holds this due moment from then on.
    #[inline(always)]
    fn end(&mut self, worker: u8, slot: u32, seat: Seat, outcome: Outcome, due: u64)
        requires works { slice_index_or self.old.work worker None ≡ Some slot }
        requires there { slot_of self.old.slots slot ≡ Some seat }
        requires runs { IsAtWork self.old.moment seat }
        requires due { due ≡ due_past seat.timing seat.due self.old.moment }
        requires outcome { (stops : Bool) × (ending : endings.Ending)
            × (outcome ≡ replies.outcome_in seat.cancelled stops seat.timing due ending) }
        ensures { self.new ≡ changes.finished self.old worker slot seat outcome due }
    {
        let number = seat.number;
        self.slots.end(slot, seat, outcome, due);
        self.work[worker as usize] = None;
        if let Outcome::Again(_) = outcome {
            self.queue.insert(Entry { due, number, slot });
        }
    }
}

/// The due moment that a finish at this moment leaves a task: that of the next run, where it may have one.
fn due_after(seat: &Seat, now: u64) -> u64
    requires due { seat.now.due ≤ longest }
    requires now { now ≤ longest }
    ensures { result ≡ due_past seat.now.timing seat.now.due now }
{
    let timing = seat.timing;
    let due = seat.due;
    match next_due(timing, due, now) {
        Some(next) => next,
        None => due,
    }
}

/// The outcome of a task's run that ended so, where periodic tasks maybe do not go on, and the run after it would be due at this
/// moment.
fn outcome_of(seat: &Seat, stops: bool, due: u64, ending: Ending) -> Outcome
    ensures { result ≡ replies.outcome_in seat.now.cancelled stops seat.now.timing due ending }
{
    if seat.cancelled {
        return Outcome::Dropped;
    }
    match (ending, seat.timing) {
        (Ending::Fault(code), _) => Outcome::Failed(code),
        (Ending::Value(value), Timing::Once) => Outcome::Done(value),
        (Ending::Value(_), Timing::Rate(_)) | (Ending::Value(_), Timing::Fixed(_)) => {
            if stops {
                Outcome::Ended
            } else {
                Outcome::Again(due)
            }
        }
    }
}

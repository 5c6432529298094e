//! What the clock and the starts of the workers do to a table.
ghost use Rattle.std.specs.Prelude.{◌≡◌, ◌<◌, ◌^◌, ◌↔◌, true, false, Some, None, IsOk, IfOk, IfErr, OnErr, IfSome, IfNone};
ghost use Rattle.executor_model.specs.Answers.{bare, is_accepted};
ghost use Rattle.executor_model.specs.declared.types.Answer.TheVariants as answer;
ghost use Rattle.executor_model.specs.declared.types.Happening.TheVariants as happening;
ghost use Rattle.task_table.specs.Changes as changes;
ghost use Rattle.task_table.specs.declared.seat.Seat as seats;

use crate::answers::{Begun, StartError};
use crate::queues::{Entry, TaskQueue};
use crate::seat::{Seat, TaskRef};
use crate::slots::Slots;
use crate::table::Table;
use executor_model::EventError;
use sched_time::LONGEST;
use std::alloc::Allocator;

impl<S: Slots, Q: TaskQueue, A: Allocator> Table<S, Q, A> {
    ghost use Rattle.task_table.specs.Tables.{EventSteps};
    ghost use Rattle.task_table.specs.Seats.{slot_of};
    ghost use Rattle.task_table.specs.Firsts.{IsFirstDue, IsFirst, NoneDue, NoneMet, IsEarliest, NoneWaits, IsHead, NoneQueued};
    ghost use Rattle.task_table.specs.Runs.{IsFree, IsFull, MayRun, IsStartError, Starts, FailsStart, FailsClock};
    ghost use Rattle.task_table.specs.Formed.{IsFormed};
    ghost use Rattle.task_table.specs.own.Heads.{HeadsQueue};

    /// The clock shows a moment, in nanoseconds: it is moved there.
    ///
    /// # Errors
    ///
    /// [`EventError::Backward`] where that is before [`now`](Table::now), and [`EventError::TooFar`] where it is past
    /// 2^62. The table is then as it was.
    pub fn clock(&mut self, moment: u64) -> Result<(), EventError>
        ensures accepted { IsOk result ↔ (is_accepted self.old.moment moment ≡ true) }
        ensures moved { IfOk result (λ _. self.new ≡ changes.at_moment self.old moment) }
        ensures steps { IfOk result
            (λ _. EventSteps self.old self.new (happening.Clock moment) (bare answer.Clock)) }
        ensures unchanged { OnErr result (self.new ≡ self.old) }
        ensures failed { IfErr result (λ error. FailsClock self.old moment error) }
    {
        if moment < self.moment {
            return Err(EventError::Backward);
        }
        if moment > LONGEST {
            return Err(EventError::TooFar);
        }
        self.moment = moment;
        Ok(())
    }

    /// The due moment of the first task that waits, in nanoseconds: before it no start gets a task. `None` where none waits.
    ///
    /// A kept task is not counted, since no start gets it.
    pub fn next_due(&self) -> Option<u64>
        ensures first { IfSome result (λ due. IsEarliest self.now due) }
        ensures none { IfNone result (NoneWaits self.now) }
    {
        let least = self.queue.first()?;
        Some(least.due)
    }

    /// The due moment of the head of the queue, which waits or is kept, in nanoseconds: before it no start takes a task out of the
    /// queue. `None` where none stands there.
    pub fn head_due(&self) -> Option<u64>
        ensures head { IfSome result (λ due. IsHead self.now due) }
        ensures none { IfNone result (NoneQueued self.now) }
    {
        let Some(kept) = self.first_kept() else {
            return self.next_due();
        };
        match self.next_due() {
            Some(due) => Some(due.min(kept.due)),
            None => Some(kept.due),
        }
    }

    /// The first task that waits and is due: the one of which a start by a worker without work begins a run. `None` where none is.
    pub fn first(&self) -> Option<TaskRef>
        ensures first { IfSome result (λ task. IsFirst self.now task) }
        ensures none { IfNone result (NoneDue self.now) }
    {
        let entry = self.first_due()?;
        Some(TaskRef {
            number: entry.number,
            slot: entry.slot,
        })
    }

    /// The entry of the first task that waits and is due, and `None` where none is.
    pub(crate) fn first_due(&self) -> Option<Entry>
        ensures first { IfSome result
            (λ entry. HeadsQueue self.now entry.slot entry.due entry.number) }
        ensures none { IfNone result (NoneDue self.now) }
        ensures formed { IsFormed self.now }
    {
        let first = self.queue.first()?;
        if first.due > self.moment {
            return None;
        }
        Some(first)
    }

    /// Why a start by a worker is refused, and `None` where it is not: then the worker begins a run, or is idle.
    pub fn start_error(&self, worker: u8) -> Option<EventError>
        ensures free { IfNone result (IsFree self.now worker) }
        ensures refused { IfSome result (λ error. IsStartError self.now worker error) }
    {
        let place = worker as usize;
        if place >= self.work.len() {
            return Some(EventError::NoWorker);
        }
        match self.work[place] {
            Some(_) => Some(EventError::Busy),
            None => None,
        }
    }

    /// Whether the first task that is due has had 2^64 - 1 runs: then no number is left for a run that a start would begin.
    pub fn is_spent(&self) -> bool
        ensures spent { result ≡ true → IsFull self.now }
        ensures fresh { result ≡ false → (IsFull self.now → ⊥) }
    {
        let Some(first) = self.first_due() else {
            return false;
        };
        self.held(first.slot).run == u64::MAX
    }

    /// A worker asks for work: it begins a run of the first task that is due, or none, where none is.
    ///
    /// The kept tasks that it meets were dropped before, as [`drop_met`](Table::drop_met) tells, unless it is refused. The run of the
    /// first task that is due may be under way, as one may in a [`TaskTable`](crate::TaskTable) that has a number left for the next.
    ///
    /// # Errors
    ///
    /// [`StartError::Refused`] where there is no such worker, or it has a run under way, and [`StartError::Full`] where else
    /// the first task that is due has had 2^64 - 1 runs. The table is then as it was.
    #[inline(always)]
    pub fn start(&mut self, worker: u8) -> Result<Option<Begun>, StartError>
        requires met { IsFree self.old worker → NoneMet self.old }
        requires runs { MayRun S.may_run self.old }
        ensures started { IfOk result (λ begun. Starts self.old self.new worker begun) }
        ensures unchanged { OnErr result (self.new ≡ self.old) }
        ensures failed { IfErr result (λ error. FailsStart self.old worker error) }
    {
        match self.start_error(worker) {
            Some(error) => Err(StartError::Refused(error)),
            None => self.start_free(worker),
        }
    }

    /// A worker that has no work asks for it, which is a [`start`](Table::start) that is not refused: it begins a run of the first
    /// task that is due, or none, where none is.
    ///
    /// The kept tasks that it meets were dropped before, as [`drop_met`](Table::drop_met) tells. The run of the first task that
    /// is due may be under way, as for a [`start`](Table::start).
    ///
    /// # Errors
    ///
    /// [`StartError::Full`] where the first task that is due has had 2^64 - 1 runs. The table is then as it was.
    #[inline(always)]
    pub fn start_free(&mut self, worker: u8) -> Result<Option<Begun>, StartError>
        requires free { IsFree self.old worker }
        requires met { NoneMet self.old }
        requires runs { MayRun S.may_run self.old }
        ensures started { IfOk result (λ begun. Starts self.old self.new worker begun) }
        ensures unchanged { OnErr result (self.new ≡ self.old) }
        ensures failed { IfErr result (λ error. FailsStart self.old worker error) }
    {
        let Some(first) = self.first_due() else {
            return Ok(None);
        };
        let slot = first.slot;
        let seat = self.held(slot);
        if seat.run == u64::MAX {
            return Err(StartError::Full);
        }
        let number = seat.number;
        let run = seat.run;
        let due = seat.due;
        self.begin(worker, slot, seat);
        let task = TaskRef { number, slot };
        Ok(Some(Begun { task, run, due }))
    }

    /// What a slot holds that is not empty.
    pub(crate) fn held(&self, slot: u32) -> Seat
        requires { (x : seats.Seat) × (slot_of self.now.slots slot ≡ Some x) }
        ensures held { slot_of self.now.slots slot ≡ Some result }
        ensures formed { IsFormed self.now }
    {
        self.slots.held(slot)
    }

    /// A worker that has no work runs the first task that is due.
    #[inline(always)]
    fn begin(&mut self, worker: u8, slot: u32, seat: Seat)
        requires free { IsFree self.old worker }
        requires first { IsFirstDue self.old slot seat }
        requires runs { S.may_run seat.run ≡ true }
        ensures { self.new ≡ changes.started self.old worker slot seat }
    {
        self.slots.begin(slot, seat);
        self.queue.remove(slot);
        self.work[worker as usize] = Some(slot);
    }
}

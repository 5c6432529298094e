//! Cancels, from outside and by calls.
ghost use Rattle.std.specs.Prelude.{◌≡◌, ℕ, ◌<◌, ◌≤◌, [], Some, IfOk, IfErr, OnOk, OnErr};
ghost use Rattle.sched_time.specs.Times.{longest};
ghost use Rattle.queue_code.specs.declared.call.CodeCall.TheVariants as call;
ghost use Rattle.executor_model.specs.Answers.{bare};
ghost use Rattle.executor_model.specs.declared.types.Answer.TheVariants as answer;
ghost use Rattle.executor_model.specs.declared.types.EventError.TheVariants as event_error;
ghost use Rattle.executor_model.specs.declared.types.Happening.TheVariants as happening;
ghost use Rattle.live_core.specs.own.Places as places;

use crate::error::CallError;
use crate::executor::ScheduledExecutor;
use crate::finding::{slot_of_number, slot_of_task};
use crate::spent::release_spent;
use executor_model::{CancelEffect, EventError};
use sched_time::LONGEST;
use std::alloc::Allocator;
use task_table::TaskRef;

impl<A: Allocator> ScheduledExecutor<A> {
    ghost use Rattle.task_table.specs.Seats.{IsNew};
    ghost use Rattle.live_core.specs.Lives.{Calls, Happens, never, StaysQuiet, quiet, moment_of_call};
    ghost use Rattle.live_core.specs.Cancels.{IsHeldAlive, CancelsOutside, CancelsNone, CancelsByCall, IsCancelError};
    ghost use Rattle.live_core.specs.own.Places.{IsSlotOf};

    /// A task is cancelled from outside, at the moment that it is now: that is an event. The task is the one of the number,
    /// whatever the slot.
    ///
    /// The answer is [`CancelEffect::Yes`] where it waits or is run, and is cancelled now, [`CancelEffect::No`] where it was
    /// cancelled before, or is over, and [`CancelEffect::Absent`] where its submission was rejected. A task that waits is kept
    /// in the queue, unless the policy says that cancelled tasks leave it: then its slot is empty from now on.
    ///
    /// # Errors
    ///
    /// [`EventError::NoTask`] where no submission was given the number yet: the cancel has happened then, and the executor is as it
    /// was, but that [`ended`](ScheduledExecutor::ended) is empty.
    #[inline(always)]
    pub fn cancel(&mut self, task: TaskRef) -> Result<CancelEffect, EventError>
        ensures stays { StaysQuiet self.old self.new self.old.count }
        ensures done { IfOk result (λ effect. CancelsOutside self.old self.new task.number effect) }
        ensures failed { IfErr result (λ error. CancelsNone self.old self.new task.number error) }
    {
        let slot = self.slot_of(task);
        self.cancel_at(task.number, slot)
    }

    /// The task of a number is cancelled from outside, as [`cancel`](ScheduledExecutor::cancel) does.
    ///
    /// # Errors
    ///
    /// [`EventError::NoTask`] where no submission was given the number yet: the cancel has happened then, and the executor is as it
    /// was, but that [`ended`](ScheduledExecutor::ended) is empty.
    pub fn cancel_number(&mut self, number: u64) -> Result<CancelEffect, EventError>
        ensures stays { StaysQuiet self.old self.new self.old.count }
        ensures done { IfOk result (λ effect. CancelsOutside self.old self.new number effect) }
        ensures failed { IfErr result (λ error. CancelsNone self.old self.new number error) }
    {
        let slot = self.slot_with(number);
        self.cancel_at(number, slot)
    }

    /// A call cancels a task, at the moment of this call, which is the greatest of `at`, now, and 1 ns after the last accepted
    /// clock. The task is the one of the number, whatever the slot, and the answer is as that of
    /// [`cancel`](ScheduledExecutor::cancel).
    ///
    /// # Errors
    ///
    /// [`CallError::NoTask`] where no submission was given the number yet, and [`CallError::TooFar`] where the moment of the
    /// call would be above 2^62: nothing has changed then.
    pub fn cancel_by_call(&mut self, at: u64, task: TaskRef) -> Result<CancelEffect, CallError>
        ensures stays { OnOk result (StaysQuiet self.old self.new self.old.count) }
        ensures made { IfOk result
            (λ effect. CancelsByCall self.old self.new at task.number effect) }
        ensures refused { OnErr result (self.new ≡ self.old) }
        ensures failed { IfErr result (λ error. IsCancelError self.old at task.number error) }
    {
        let slot = self.slot_of(task);
        self.cancel_at_by_call(at, task.number, slot)
    }

    /// A call cancels the task of a number, as [`cancel_by_call`](ScheduledExecutor::cancel_by_call) does.
    ///
    /// # Errors
    ///
    /// [`CallError::NoTask`] where no submission was given the number yet, and [`CallError::TooFar`] where the moment of the
    /// call would be above 2^62: nothing has changed then.
    pub fn cancel_number_by_call(&mut self, at: u64, number: u64) -> Result<CancelEffect, CallError>
        ensures stays { OnOk result (StaysQuiet self.old self.new self.old.count) }
        ensures made { IfOk result (λ effect. CancelsByCall self.old self.new at number effect) }
        ensures refused { OnErr result (self.new ≡ self.old) }
        ensures failed { IfErr result (λ error. IsCancelError self.old at number error) }
    {
        let slot = self.slot_with(number);
        self.cancel_at_by_call(at, number, slot)
    }

    /// The slot that holds the task of a number, and `None` where none does.
    fn slot_with(&self, number: u64) -> Option<u32>
        ensures { IsSlotOf self.now.table.slots number result }
    {
        slot_of_number(&self.table, &self.notes, number)
    }

    /// The same for the number of a task, where its own slot is looked at first.
    fn slot_of(&self, task: TaskRef) -> Option<u32>
        ensures { IsSlotOf self.now.table.slots task.number result }
    {
        slot_of_task(&self.table, &self.notes, task)
    }

    /// The task of a number, which this slot holds, or none, is cancelled from outside.
    #[inline(always)]
    fn cancel_at(&mut self, number: u64, slot: Option<u32>) -> Result<CancelEffect, EventError>
        requires { IsSlotOf self.old.table.slots number slot }
        ensures stays { StaysQuiet self.old self.new self.old.count }
        ensures done { IfOk result (λ effect. CancelsOutside self.old self.new number effect) }
        ensures failed { IfErr result (λ error. CancelsNone self.old self.new number error) }
    {
        if number >= self.count {
            self.cancel_none();
            return Err(EventError::NoTask);
        }
        match slot {
            Some(slot) => Ok(self.cancel_held(number, slot)),
            None => Ok(self.cancel_gone(number)),
        }
    }

    /// A call cancels the task of a number, which this slot holds, or none.
    fn cancel_at_by_call(
        &mut self,
        at: u64,
        number: u64,
        slot: Option<u32>,
    ) -> Result<CancelEffect, CallError>
        requires { IsSlotOf self.old.table.slots number slot }
        ensures stays { OnOk result (StaysQuiet self.old self.new self.old.count) }
        ensures made { IfOk result (λ effect. CancelsByCall self.old self.new at number effect) }
        ensures refused { OnErr result (self.new ≡ self.old) }
        ensures failed { IfErr result (λ error. IsCancelError self.old at number error) }
    {
        if number >= self.count {
            return Err(CallError::NoTask);
        }
        let moment = self.moment_of(at);
        if moment > LONGEST {
            return Err(CallError::TooFar);
        }
        match slot {
            Some(slot) => Ok(self.cancel_held_by_call(moment, number, slot)),
            None => Ok(self.cancel_gone_by_call(moment, number)),
        }
    }

    /// A cancel from outside names a task that there is not: no task is ended.
    fn cancel_none(&mut self)
        ensures is { self.new ≡ quiet self.old self.old.table }
        ensures stays { StaysQuiet self.old self.new self.old.count }
        ensures happens { (k : ℕ) → never ≤ k
            → Happens self.old self.new (happening.Cancel k)
            (bare (answer.Error event_error.NoTask)) }
    {
        self.ended.clear();
    }

    /// The task of a number, which has no slot, is cancelled from outside.
    fn cancel_gone(&mut self, number: u64) -> CancelEffect
        requires given { number < self.old.count }
        requires gone { IsNew self.old.table.slots number }
        ensures stays { StaysQuiet self.old self.new self.old.count }
        ensures happens { Happens self.old self.new (happening.Cancel number)
            (bare (answer.Outside number result)) }
        ensures held { IsHeldAlive self.new.table number }
        ensures ended { self.new.ended ≡ [] }
    {
        self.ended.clear();
        effect_without(self.accepted, number)
    }

    /// The task of a number, which has this slot, is cancelled from outside.
    #[inline(always)]
    fn cancel_held(&mut self, number: u64, slot: u32) -> CancelEffect
        requires given { number < self.old.count }
        requires held { IsSlotOf self.old.table.slots number (Some slot) }
        ensures stays { StaysQuiet self.old self.new self.old.count }
        ensures happens { Happens self.old self.new (happening.Cancel number)
            (bare (answer.Outside number result)) }
        ensures held { IsHeldAlive self.new.table number }
        ensures ended { self.new.ended ≡ [] }
    {
        let effect = self.table.cancel(slot);
        release_spent(&mut self.table, &mut self.notes, slot);
        self.ended.clear();
        effect
    }

    /// A call cancels the task of a number, which has no slot.
    fn cancel_gone_by_call(&mut self, moment: u64, number: u64) -> CancelEffect
        requires given { number < self.old.count }
        requires gone { IsNew self.old.table.slots number }
        requires early { self.old.earliest ≤ moment }
        requires ahead { self.old.table.moment ≤ moment }
        requires limit { moment ≤ longest }
        ensures stays { StaysQuiet self.old self.new self.old.count }
        ensures makes { Calls self.old self.new (moment, call.Cancel number)
            (bare (answer.Cancel number result)) }
        ensures held { IsHeldAlive self.new.table number }
        ensures ended { self.new.ended ≡ [] }
    {
        self.table.pass(moment);
        self.ended.clear();
        effect_without(self.accepted, number)
    }

    /// A call cancels the task of a number, which has this slot.
    fn cancel_held_by_call(&mut self, moment: u64, number: u64, slot: u32) -> CancelEffect
        requires given { number < self.old.count }
        requires held { IsSlotOf self.old.table.slots number (Some slot) }
        requires early { self.old.earliest ≤ moment }
        requires ahead { self.old.table.moment ≤ moment }
        requires limit { moment ≤ longest }
        ensures stays { StaysQuiet self.old self.new self.old.count }
        ensures makes { Calls self.old self.new (moment, call.Cancel number)
            (bare (answer.Cancel number result)) }
        ensures held { IsHeldAlive self.new.table number }
        ensures ended { self.new.ended ≡ [] }
    {
        let effect = self.table.cancel_by_call(moment, slot);
        release_spent(&mut self.table, &mut self.notes, slot);
        self.ended.clear();
        effect
    }
}

/// What a cancel does to a task that has no slot, where so many were accepted.
fn effect_without(accepted: u64, number: u64) -> CancelEffect
    ensures { result ≡ places.effect_without accepted number }
{
    if number < accepted {
        return CancelEffect::No;
    }
    CancelEffect::Absent
}

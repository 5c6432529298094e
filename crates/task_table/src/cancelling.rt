//! Cancels of tasks that have a slot, by a call or from outside, and calls that change no task.
ghost use Rattle.std.specs.Prelude.{◌≡◌, ℕ, ◌<◌, ◌≤◌, ◌&&◌, not, true, List, Some};
ghost use Rattle.std.specs.Option.{option_map_or};
ghost use Rattle.queue_code.specs.Calls.{Planned};
ghost use Rattle.queue_code.specs.declared.call.CodeCall.TheVariants as call;
ghost use Rattle.sched_time.specs.Times.{longest};
ghost use Rattle.executor_model.specs.Answers.{bare};
ghost use Rattle.executor_model.specs.Histories.{HistoryEntry, happenings};
ghost use Rattle.executor_model.specs.State.{after};
ghost use Rattle.executor_model.specs.declared.types.Answer.TheVariants as answer;
ghost use Rattle.executor_model.specs.declared.types.CancelEffect.TheVariants as effects;
ghost use Rattle.executor_model.specs.declared.types.Happening.TheVariants as happening;
ghost use Rattle.executor_model.specs.declared.types.Refusal.TheVariants as refusal;
ghost use Rattle.task_table.specs.Changes as changes;
ghost use Rattle.task_table.specs.Ends as effects_of;
ghost use Rattle.task_table.specs.Seats as phases;
ghost use Rattle.task_table.specs.Seats.{slot_of};
ghost use Rattle.task_table.specs.declared.seat.Seat as seats;

use crate::queues::{Entry, TaskQueue};
use crate::seat::Seat;
use crate::slots::Slots;
use crate::table::Table;
use executor_model::{CancelEffect, Stage};
use std::alloc::Allocator;

impl<S: Slots, Q: TaskQueue, A: Allocator> Table<S, Q, A> {
    ghost use Rattle.task_table.specs.Tables.{workers_of, Stands, Takes, IsNextCall, CallSteps, EventSteps};
    ghost use Rattle.task_table.specs.Seats.{IsNew};
    ghost use Rattle.task_table.specs.Ends.{effect_of, effect_gone};
    ghost use Rattle.task_table.specs.Formed.{IsFormed};

    /// A call cancels the task in a slot, which is not empty, at the moment `at`. The answer says whether that had an effect:
    /// never [`CancelEffect::Absent`].
    pub fn cancel_by_call(&mut self, at: u64, slot: u32) -> CancelEffect
        requires moment { self.old.moment ≤ at }
        requires limit { at ≤ longest }
        requires there { (x : seats.Seat) × (slot_of self.old.slots slot ≡ Some x) }
        ensures effect { (x : seats.Seat) → slot_of self.old.slots slot ≡ Some x
            → result ≡ effect_of x }
        ensures slots { (x : seats.Seat) → slot_of self.old.slots slot ≡ Some x
            → self.new ≡ changes.at_moment (changes.cancel_in self.old slot x) at }
        ensures steps { (x : seats.Seat) → slot_of self.old.slots slot ≡ Some x
            → CallSteps self.old self.new (at, call.Cancel x.number)
            (bare (answer.Cancel x.number result)) }
    {
        let effect = self.cancel_held(slot);
        self.pass(at);
        effect
    }

    /// The task in a slot, which is not empty, is cancelled from outside. The answer says whether that had an effect: never
    /// [`CancelEffect::Absent`].
    #[inline(always)]
    pub fn cancel(&mut self, slot: u32) -> CancelEffect
        requires there { (x : seats.Seat) × (slot_of self.old.slots slot ≡ Some x) }
        ensures effect { (x : seats.Seat) → slot_of self.old.slots slot ≡ Some x
            → result ≡ effect_of x }
        ensures slots { (x : seats.Seat) → slot_of self.old.slots slot ≡ Some x
            → self.new ≡ changes.cancel_in self.old slot x }
        ensures steps { (x : seats.Seat) → slot_of self.old.slots slot ≡ Some x
            → EventSteps self.old self.new (happening.Cancel x.number)
            (bare (answer.Outside x.number result)) }
    {
        self.cancel_held(slot)
    }

    /// A call is made, at the moment `at`, that changes no task: it cancels one that has no slot, or submits one with a period
    /// or a fixed delay that is none.
    pub fn pass(&mut self, at: u64)
        requires moment { self.old.moment ≤ at }
        requires limit { at ≤ longest }
        ensures slots { self.new ≡ changes.at_moment self.old at }
        ensures gone { (number : ℕ) → IsNew self.old.slots number
            → (calls : List Planned) (past : List HistoryEntry) → Stands self.old calls past
            → IsNextCall calls past (at, call.Cancel number)
            → Takes self.new calls past happening.Call
            (bare
            (answer.Cancel number
            (effect_gone
            ((after calls (workers_of self.old) (happenings past)).tasks number).phase))) }
        ensures illegal { (number : ℕ)
            → CallSteps self.old self.new (at, call.Illegal number)
            (bare (answer.Refuse number refusal.Illegal)) }
    {
        self.moment = at;
    }

    /// What a cancel of the task in a slot would do, and [`CancelEffect::Absent`] where the slot is empty or there is none of this
    /// number.
    pub fn effect(&self, slot: u32) -> CancelEffect
        ensures { result ≡ option_map_or effect_of (slot_of self.now.slots slot) effects.Absent }
    {
        match self.seat(slot) {
            Some(seat) => effect_on(&seat),
            None => CancelEffect::Absent,
        }
    }

    /// Cancels the task in a slot, if a cancel has an effect on it.
    #[inline(always)]
    fn cancel_held(&mut self, slot: u32) -> CancelEffect
        requires { (x : seats.Seat) × (slot_of self.old.slots slot ≡ Some x) }
        ensures effect { (x : seats.Seat) → slot_of self.old.slots slot ≡ Some x
            → result ≡ effect_of x }
        ensures slots { (x : seats.Seat) → slot_of self.old.slots slot ≡ Some x
            → self.new ≡ changes.cancel_in self.old slot x }
        ensures formed { IsFormed self.old }
    {
        // Of a task that is cancelled already nothing else is looked at.
        if self.slots.is_cancelled(slot) {
            return CancelEffect::No;
        }
        let seat = self.held(slot);
        let effect = effect_on(&seat);
        if let CancelEffect::Yes = effect {
            self.cancel_seat(slot, seat);
        }
        effect
    }

    /// Cancels a task that is not over, and keeps it where it waits and cancelled tasks stay in the queue.
    #[inline(always)]
    fn cancel_seat(&mut self, slot: u32, seat: Seat)
        requires there { slot_of self.old.slots slot ≡ Some seat }
        requires live { effect_of seat ≡ effects.Yes }
        ensures { self.new
            ≡ changes.put self.old slot (changes.cancelled self.old.policies.removes seat) }
    {
        let keeps = stays_queued(seat.phase, self.policies.removes);
        let entry = Entry {
            due: seat.due,
            number: seat.number,
            slot,
        };
        self.slots.cancel(slot, seat, keeps);
        if keeps {
            self.kept.insert(entry);
        }
        self.queue.remove(slot);
    }
}

/// What a cancel does to a task.
fn effect_on(seat: &Seat) -> CancelEffect
    ensures { result ≡ effects_of.effect_of seat.now }
{
    if seat.cancelled {
        return CancelEffect::No;
    }
    match seat.phase {
        Stage::Waiting | Stage::Running => CancelEffect::Yes,
        Stage::Vacant | Stage::Done | Stage::Failed | Stage::Dropped => CancelEffect::No,
    }
}

/// Whether a task in this phase stays in the queue when it is cancelled.
fn stays_queued(phase: Stage, removes: bool) -> bool
    ensures { result ≡ (phases.is_waiting_in phase && not removes) }
{
    !removes && is_waiting(phase)
}

/// Whether a task in this phase waits for a run.
pub(crate) fn is_waiting(phase: Stage) -> bool
    ensures { result ≡ phases.is_waiting_in phase }
{
    match phase {
        Stage::Waiting => true,
        Stage::Vacant | Stage::Running | Stage::Done | Stage::Failed | Stage::Dropped => false,
    }
}

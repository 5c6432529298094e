//! The calls that set a policy, or shut the executor down, and the tasks that they end.
ghost use Rattle.std.specs.Prelude.{◌≡◌, ◌≤◌, not, true, false, [], length, vec_capacity};
ghost use Rattle.queue_code.specs.declared.call.CodeCall.TheVariants as call;
ghost use Rattle.sched_time.specs.Times.{longest};
ghost use Rattle.sched_time.specs.Policies as settings;
ghost use Rattle.executor_model.specs.Answers as replies;
ghost use Rattle.executor_model.specs.declared.types.Answer.TheVariants as answer;
ghost use Rattle.task_table.specs.Changes as changes;

use crate::queues::TaskQueue;
use crate::seat::TaskRef;
use crate::slots::Slots;
use crate::table::Table;
use sched_time::Which;
use std::alloc::Allocator;

impl<S: Slots, Q: TaskQueue, A: Allocator> Table<S, Q, A> {
    ghost use Rattle.task_table.specs.Tables.{CallSteps, CallStepsBefore};
    ghost use Rattle.task_table.specs.Firsts.{NoneKept};
    ghost use Rattle.task_table.specs.Endings.{SweepEnds, numbers_of};

    /// Whether a call that sets this policy so sweeps: the executor is shut, and the continue or the execute policy is set to
    /// false.
    pub fn setting_sweeps(&self, which: Which, value: bool) -> bool
        ensures { result ≡ replies.setting_sweeps self.now.shut which value }
    {
        match which {
            Which::Remove => false,
            Which::Continue | Which::Execute => self.shut && !value,
        }
    }

    /// A call sets a policy, at the moment `at`. Where that sweeps, `ends` holds the tasks that it ends, ascending by number,
    /// and else none; no task was kept before it then, as [`drop_kept`](Table::drop_kept) tells.
    ///
    /// `ends` has room for as many tasks as there are slots, and the room stays.
    pub fn set_policy<B: Allocator>(
        &mut self,
        at: u64,
        which: Which,
        value: bool,
        ends: &mut Vec<TaskRef, B>,
    )
        requires moment { self.old.moment ≤ at }
        requires limit { at ≤ longest }
        requires kept { replies.setting_sweeps self.old.shut which value ≡ true
            → NoneKept self.old }
        requires room { length self.old.slots ≤ vec_capacity ends.old }
        ensures room { vec_capacity ends.new ≡ vec_capacity ends.old }
        ensures none { replies.setting_sweeps self.old.shut which value ≡ false
            → ends.new.items ≡ [] }
        ensures set { replies.setting_sweeps self.old.shut which value ≡ false
            → self.new
            ≡ record (changes.at_moment self.old at)
            { policies = settings.set_policy which value self.old.policies } }
        ensures steps { replies.setting_sweeps self.old.shut which value ≡ false
            → CallSteps self.old self.new (at, call.SetPolicy which value)
            (replies.bare (answer.Policy which value)) }
        ensures swept { replies.setting_sweeps self.old.shut which value ≡ true
            → SweepEnds
            (record (changes.at_moment self.old at)
            { policies = settings.set_policy which value self.old.policies }) self.new
            ends.new.items }
        ensures sweeps { replies.setting_sweeps self.old.shut which value ≡ true
            → CallStepsBefore self.old self.new (at, call.SetPolicy which value)
            (record { answer = answer.Policy which value; ends = numbers_of ends.new.items }) }
    {
        let sweeps = self.setting_sweeps(which, value);
        ends.clear();
        self.set(at, which, value);
        let still = !sweeps;
        if still {
            return;
        }
        self.sweep(ends);
    }

    /// A call shuts the executor down, at the moment `at`, and says whether it was not shut before. Then `ends` holds the tasks
    /// that it ends, ascending by number, and else none; no task was kept before it then, as
    /// [`drop_kept`](Table::drop_kept) tells.
    ///
    /// `ends` has room for as many tasks as there are slots, and the room stays.
    pub fn shut_down<B: Allocator>(&mut self, at: u64, ends: &mut Vec<TaskRef, B>) -> bool
        requires moment { self.old.moment ≤ at }
        requires limit { at ≤ longest }
        requires kept { self.old.shut ≡ false → NoneKept self.old }
        requires room { length self.old.slots ≤ vec_capacity ends.old }
        ensures room { vec_capacity ends.new ≡ vec_capacity ends.old }
        ensures first { result ≡ not self.old.shut }
        ensures none { self.old.shut ≡ true → ends.new.items ≡ [] }
        ensures again { self.old.shut ≡ true → self.new ≡ changes.at_moment self.old at }
        ensures steps { self.old.shut ≡ true
            → CallSteps self.old self.new (at, call.Shutdown) (replies.bare answer.ShutdownAgain) }
        ensures swept { self.old.shut ≡ false
            → SweepEnds (record (changes.at_moment self.old at) { shut = true }) self.new
            ends.new.items }
        ensures sweeps { self.old.shut ≡ false
            → CallStepsBefore self.old self.new (at, call.Shutdown)
            (record { answer = answer.Shutdown; ends = numbers_of ends.new.items }) }
    {
        ends.clear();
        let again = self.is_shut();
        if again {
            self.pass(at);
            return false;
        }
        self.shut_at(at);
        self.sweep(ends);
        true
    }

    /// A call shuts the executor down at once, at the moment `at`: `ends` holds the tasks that it ends, ascending by number.
    /// No task was kept before it, as [`drop_kept`](Table::drop_kept) tells.
    ///
    /// `ends` has room for as many tasks as there are slots, and the room stays.
    pub fn shut_down_now<B: Allocator>(&mut self, at: u64, ends: &mut Vec<TaskRef, B>)
        requires moment { self.old.moment ≤ at }
        requires limit { at ≤ longest }
        requires kept { NoneKept self.old }
        requires room { length self.old.slots ≤ vec_capacity ends.old }
        ensures room { vec_capacity ends.new ≡ vec_capacity ends.old }
        ensures swept { SweepEnds
            (record (changes.at_moment self.old at) { shut = true; stopped = true }) self.new
            ends.new.items }
        ensures sweeps { CallStepsBefore self.old self.new (at, call.ShutdownNow)
            (record { answer = answer.ShutdownNow; ends = numbers_of ends.new.items }) }
    {
        ends.clear();
        self.stop_at(at);
        self.sweep(ends);
    }

    /// A policy is set at the moment `at`, and nothing else: where that sweeps, the one above sweeps each slot after it, by
    /// [`sweep_slot`](Table::sweep_slot).
    pub fn set(&mut self, at: u64, which: Which, value: bool)
        requires moment { self.old.moment ≤ at }
        requires limit { at ≤ longest }
        ensures { self.new
            ≡ record (changes.at_moment self.old at)
            { policies = settings.set_policy which value self.old.policies } }
    {
        let policies = self.policies.with(which, value);
        self.moment = at;
        self.policies = policies;
    }

    /// The executor is shut at the moment `at`, and nothing else: the one above sweeps each slot after it, by
    /// [`sweep_slot`](Table::sweep_slot).
    pub fn shut_at(&mut self, at: u64)
        requires moment { self.old.moment ≤ at }
        requires limit { at ≤ longest }
        ensures { self.new ≡ record (changes.at_moment self.old at) { shut = true } }
    {
        self.moment = at;
        self.shut = true;
    }

    /// The executor is shut, and stopped, at the moment `at`, and nothing else: the one above sweeps each slot after it, by
    /// [`sweep_slot`](Table::sweep_slot).
    pub fn stop_at(&mut self, at: u64)
        requires moment { self.old.moment ≤ at }
        requires limit { at ≤ longest }
        ensures { self.new
            ≡ record (changes.at_moment self.old at) { shut = true; stopped = true } }
    {
        self.moment = at;
        self.shut = true;
        self.stopped = true;
    }
}

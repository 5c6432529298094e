//! What a step would move of the words, before it is taken, and whether a task is due.
ghost use Rattle.std.specs.Prelude.{◌≡◌, ℕ, Some, slice_get, ◌<◌, ◌≤◌, ◌↔◌, IsTrue, IfSome, length, None, slice_index_or};
ghost use Rattle.executor_model.specs.declared.types.Happening.TheVariants as happening;
ghost use Rattle.sched_time.specs.Times.{longest};
ghost use Rattle.executor_model.specs.Flows.{ReachesNext, reached};
ghost use Rattle.executor_model.specs.Histories.{AreMade, is_end};
ghost use Rattle.executor_model.specs.State.{reply_of, vacant, view_of_state};
ghost use Rattle.executor_model.specs.Needs.{need_of, need_of_finish, IsRipe};
ghost use Rattle.executor_core.specs.own.Ends.{need_of_end};

use super::Core;
use crate::foreseen::RunEnd;
use executor_model::{CancelEffect, Need, Outcome};
use queue_code::CodeCall;
use sched_time::Ending;
use std::alloc::Allocator;

impl<A: Allocator> Core<A> {
    ghost use Rattle.executor_core.specs.CoreView.{workers_of, state_of};

    /// The word moves of the next call, where one with a moment of at most this one, in nanoseconds, is left, and `None`
    /// where none is.
    pub fn call_need(&self, moment: u64) -> Option<Need>
        ensures none { (result ≡ None) ↔ AreMade self.now.calls self.now.made moment }
        ensures last { result ≡ None → longest ≤ moment → length self.now.calls ≤ self.now.made }
        ensures left { IfSome result (λ _. self.now.made < length self.now.calls) }
        ensures next { IfSome result (λ _. ReachesNext self.now.calls self.now.made moment) }
        ensures over { result ≡ None → reached self.now.calls self.now.made moment ≡ 0 }
        ensures need { IfSome result
            (λ need. need
            ≡ need_of self.now.calls (workers_of self.now) (state_of self.now) happening.Call) }
    {
        let (at, call) = self.next_call()?;
        if moment < at {
            return None;
        }
        Some(self.need_of_call(call))
    }

    /// The word moves of the next call, which is this one.
    pub(super) fn need_of_call(&self, call: CodeCall) -> Need
        requires { (at : ℕ) × (slice_get self.now.calls self.now.made ≡ Some (at, call)) }
        ensures { result
            ≡ need_of self.now.calls (workers_of self.now) (state_of self.now) happening.Call }
    {
        match call {
            CodeCall::Submit { task, .. } => {
                if self.table.is_shut() {
                    Need::Nothing
                } else {
                    Need::Submit(task)
                }
            }
            CodeCall::Cancel { task } => self.cancel_need(task),
            CodeCall::SetPolicy { which, value } => {
                if self.table.setting_sweeps(which, value) {
                    Need::Sweep
                } else {
                    Need::Nothing
                }
            }
            CodeCall::Shutdown => {
                if self.table.is_shut() {
                    Need::Nothing
                } else {
                    Need::Sweep
                }
            }
            CodeCall::ShutdownNow => Need::Sweep,
            CodeCall::Illegal { .. } | CodeCall::Ask => Need::Nothing,
        }
    }

    /// Whether the next call would end this task, by a sweep.
    pub fn sweeps(&self, task: u32) -> bool
        ensures { result
            ≡ is_end task
            (reply_of self.now.calls (workers_of self.now) (state_of self.now)
            happening.Call).ends }
    {
        let Some((at, call)) = self.next_call() else {
            return false;
        };
        let now = self.table.now().max(at);
        let stopped = self.table.is_stopped();
        let policies = self.table.policies();
        match call {
            CodeCall::SetPolicy { which, value } => self.table.setting_sweeps(which, value)
                && self
                    .table
                    .ends_under(task, stopped, policies.with(which, value), now),
            CodeCall::Shutdown => !self.table.is_shut()
                && self.table.ends_under(task, stopped, policies, now),
            CodeCall::ShutdownNow => self.table.ends_under(task, true, policies, now),
            CodeCall::Submit { .. }
            | CodeCall::Illegal { .. }
            | CodeCall::Cancel { .. }
            | CodeCall::Ask => false,
        }
    }

    /// The word moves of a start of this worker.
    pub fn start_need(&self, worker: u8) -> Need
        ensures { result
            ≡ need_of self.now.calls (workers_of self.now) (state_of self.now)
            (happening.Start worker) }
    {
        if self.table.start_error(worker).is_some() {
            return Need::Nothing;
        }
        match self.table.first() {
            Some(first) => Need::Start(first.slot),
            None => Need::Nothing,
        }
    }

    /// The word moves of a finish of this worker, whose run ended so.
    pub fn finish_need(&self, worker: u8, ending: Ending) -> Need
        ensures { result
            ≡ need_of self.now.calls (workers_of self.now) (state_of self.now)
            (happening.Finish worker ending) }
    {
        need_of_end(self.run_end(worker, ending))
    }

    /// The word moves of a cancel of this task from outside the plan.
    pub fn cancel_need(&self, task: u32) -> Need
        ensures { result
            ≡ need_of self.now.calls (workers_of self.now) (state_of self.now)
            (happening.Cancel task) }
    {
        match self.table.effect(task) {
            CancelEffect::Yes => Need::Cancel(task),
            CancelEffect::No | CancelEffect::Absent => Need::Nothing,
        }
    }

    /// Whether a task was cancelled: by the plan, from outside, by a sweep or at the end of its last run. One that the plan has
    /// not was not.
    pub fn is_cancelled(&self, task: u32) -> bool
        ensures { result ≡ (slice_index_or self.now.tasks task vacant).cancelled }
    {
        match self.table.seat(task) {
            Some(seat) => seat.cancelled,
            None => false,
        }
    }

    /// Whether the due moment of some task that waits or is kept is reached.
    pub fn ripe(&self) -> bool
        ensures { IsTrue result
            ↔ IsRipe self.now.calls (view_of_state self.now.calls (state_of self.now)) }
    {
        self.table.is_ripe()
    }
}

/// The word moves of the end of a run, where one ends.
#[inline(always)]
pub(super) fn need_of_end(end: Option<RunEnd>) -> Need
    ensures { result ≡ need_of_end end }
{
    match end {
        Some(end) => need_of_finish(end.task, end.outcome),
        None => Need::Nothing,
    }
}

/// The word moves of the end of a run of a task with this outcome.
fn need_of_finish(task: u32, outcome: Outcome) -> Need
    ensures { result ≡ need_of_finish task outcome }
{
    match outcome {
        Outcome::Done(_) => Need::Done(task),
        Outcome::Failed(_) => Need::Fail(task),
        Outcome::Again(_) => Need::Rearm(task),
        Outcome::Dropped => Need::Nothing,
        Outcome::Ended => Need::Cancel(task),
    }
}

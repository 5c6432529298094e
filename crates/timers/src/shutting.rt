//! The calls that set a policy or shut the timers down, and room made ahead.
ghost use Rattle.std.specs.Prelude.{◌≡◌, ◌≤◌, length, List, IsOk, OnOk, OnErr, IfOk, IfErr};
ghost use Rattle.sched_time.specs.Times.{longest};
ghost use Rattle.queue_code.specs.Calls.{Planned};
ghost use Rattle.executor_model.specs.Histories.{HistoryEntry};
ghost use Rattle.live_core.specs.declared.error.CallError.TheVariants as call_error;

use crate::room::grow;
use crate::timers::Timers;
use live_core::CallError;
use sched_time::Which;
use std::alloc::Allocator;
use task_table::Asked;

impl<A: Allocator> Timers<A> {
    ghost use Rattle.task_table.specs.Changes.{grown};
    ghost use Rattle.live_core.specs.Lives.{Stands, Stays, StaysQuiet, moment_of_call};
    ghost use Rattle.live_core.specs.Shutting.{IsTooFar, AreGone, Sets, ShutsDown, StopsAtOnce, Asks};
    ghost use Rattle.timers.specs.Timers.{GivesNone};

    /// Sets a policy, at the moment of this call, as [`schedule`](Timers::schedule) has it. Where the timers are shut, and the
    /// continue or the execute policy is set to false, this ends the tasks that wait and that the policies do not let run any
    /// more, and no cancelled task stays in the queue; else it ends none.
    ///
    /// # Errors
    ///
    /// [`CallError::TooFar`] where the moment of the call would be above 2^62: nothing has changed then.
    pub fn set_policy(&mut self, now: u64, which: Which, value: bool) -> Result<(), CallError>
        ensures made { OnOk result (Sets self.old.live self.new.live now which value) }
        ensures keeps { GivesNone self.old self.new }
        ensures gone { OnOk result
            (AreGone self.old.live.table self.new.live.table self.new.live.ended) }
        ensures stays { OnOk result (Stays self.old.live self.new.live self.old.live.count) }
        ensures near { OnOk result (moment_of_call self.old.live now ≤ longest) }
        ensures refused { OnErr result (self.new ≡ self.old) }
        ensures failed { IfErr result (λ error. IsTooFar self.old.live now error) }
    {
        self.executor.set_policy(now, which, value)
    }

    /// Shuts the timers down in order: submissions are rejected from then on. The answer is whether they were not shut before.
    /// Then this ends the tasks that wait and that the policies do not let run any more, and no cancelled task stays in the
    /// queue; else it ends none, and no task changes.
    ///
    /// # Errors
    ///
    /// [`CallError::TooFar`] where the moment of the call would be above 2^62: nothing has changed then.
    pub fn shut_down(&mut self, now: u64) -> Result<bool, CallError>
        ensures made { IfOk result (λ first. ShutsDown self.old.live self.new.live now first) }
        ensures keeps { GivesNone self.old self.new }
        ensures gone { OnOk result
            (AreGone self.old.live.table self.new.live.table self.new.live.ended) }
        ensures stays { OnOk result (Stays self.old.live self.new.live self.old.live.count) }
        ensures near { OnOk result (moment_of_call self.old.live now ≤ longest) }
        ensures refused { OnErr result (self.new ≡ self.old) }
        ensures failed { IfErr result (λ error. IsTooFar self.old.live now error) }
    {
        self.executor.shut_down(now)
    }

    /// Shuts the timers down at once, whether they are shut or not: submissions are rejected from then on, each task that waits
    /// is ended, no cancelled task stays in the queue, and of a task that runs no run comes after this one.
    ///
    /// # Errors
    ///
    /// [`CallError::TooFar`] where the moment of the call would be above 2^62: nothing has changed then.
    pub fn shut_down_now(&mut self, now: u64) -> Result<(), CallError>
        ensures made { OnOk result (StopsAtOnce self.old.live self.new.live now) }
        ensures keeps { GivesNone self.old self.new }
        ensures gone { OnOk result
            (AreGone self.old.live.table self.new.live.table self.new.live.ended) }
        ensures stays { OnOk result (Stays self.old.live self.new.live self.old.live.count) }
        ensures near { OnOk result (moment_of_call self.old.live now ≤ longest) }
        ensures refused { OnErr result (self.new ≡ self.old) }
        ensures failed { IfErr result (λ error. IsTooFar self.old.live now error) }
    {
        self.executor.shut_down_now(now)
    }

    /// Asks how far the timers are: how many tasks stand in the queue, how many run, and whether they are shut, and terminated. It
    /// is a call, which ends no task, and changes none.
    ///
    /// # Errors
    ///
    /// [`CallError::TooFar`] where the moment of the call would be above 2^62: nothing has changed then.
    pub fn ask(&mut self, now: u64) -> Result<Asked, CallError>
        ensures made { IfOk result (λ asked. Asks self.old.live self.new.live now asked) }
        ensures keeps { GivesNone self.old self.new }
        ensures stays { OnOk result (StaysQuiet self.old.live self.new.live self.old.live.count) }
        ensures near { OnOk result (moment_of_call self.old.live now ≤ longest) }
        ensures refused { OnErr result (self.new ≡ self.old) }
        ensures failed { IfErr result (λ error. IsTooFar self.old.live now error) }
    {
        self.executor.ask(now)
    }

    /// Makes at least so many slots, so that no submission needs memory while fewer tasks than that are alive. It is no call.
    ///
    /// # Errors
    ///
    /// [`CallError::Memory`] where memory is refused: nothing has changed then.
    pub fn reserve(&mut self, tasks: u32) -> Result<(), CallError>
        ensures made { OnOk result
            (self.new.live ≡ record self.old.live { table = grown self.old.live.table tasks }) }
        ensures stands { (calls : List Planned) (past : List HistoryEntry)
            → Stands self.old.live calls past → Stands self.new.live calls past }
        ensures keeps { GivesNone self.old self.new }
        ensures roomy { tasks ≤ length self.old.live.table.slots → IsOk result }
        ensures refused { OnErr result (self.new ≡ self.old) }
        ensures failed { IfErr result (λ error. error ≡ call_error.Memory) }
    {
        if self.user_data.len() >= tasks as usize {
            return Ok(());
        }
        match grow(&mut self.executor, &mut self.user_data, tasks) {
            Ok(()) => Ok(()),
            Err(_) => Err(CallError::Memory),
        }
    }
}

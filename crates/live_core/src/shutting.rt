//! The calls that set a policy, shut the executor down, or ask how far it is.
ghost use Rattle.std.specs.Prelude.{◌≡◌, ◌≤◌, OnOk, OnErr, IfOk, IfErr};
ghost use Rattle.sched_time.specs.Times.{longest};

use crate::error::CallError;
use crate::executor::ScheduledExecutor;
use crate::sweeps::{set_policy, shut_down, shut_down_now};
use sched_time::{LONGEST, Policies, Which};
use std::alloc::Allocator;
use task_table::Asked;

impl<A: Allocator> ScheduledExecutor<A> {
    ghost use Rattle.live_core.specs.Lives.{Stays, StaysQuiet, moment_of_call};
    ghost use Rattle.live_core.specs.Shutting.{IsTooFar, AreGone, Sets, ShutsDown, StopsAtOnce, Asks};

    /// Sets a policy, at the moment of this call, as [`schedule`](ScheduledExecutor::schedule) has it. Where the executor is
    /// shut, and the continue or the execute policy is set to false, this ends the tasks that wait and that the policies do not
    /// let run any more, and no cancelled task stays in the queue; else it ends none.
    ///
    /// # Errors
    ///
    /// [`CallError::TooFar`] where the moment of the call would be above 2^62: nothing has changed then.
    pub fn set_policy(&mut self, at: u64, which: Which, value: bool) -> Result<(), CallError>
        ensures made { OnOk result (Sets self.old self.new at which value) }
        ensures gone { OnOk result (AreGone self.old.table self.new.table self.new.ended) }
        ensures stays { OnOk result (Stays self.old self.new self.old.count) }
        ensures near { OnOk result (moment_of_call self.old at ≤ longest) }
        ensures refused { OnErr result (self.new ≡ self.old) }
        ensures failed { IfErr result (λ error. IsTooFar self.old at error) }
    {
        let moment = self.moment_of(at);
        if moment > LONGEST {
            return Err(CallError::TooFar);
        }
        set_policy(
            &mut self.table,
            &mut self.notes,
            &mut self.ended,
            moment,
            which,
            value,
        );
        Ok(())
    }

    /// Shuts the executor down in order: submissions are rejected from then on. The answer is whether it was not shut before.
    /// Then this ends the tasks that wait and that the policies do not let run any more, and no cancelled task stays in the
    /// queue; else it ends none, and no task changes.
    ///
    /// # Errors
    ///
    /// [`CallError::TooFar`] where the moment of the call would be above 2^62: nothing has changed then.
    pub fn shut_down(&mut self, at: u64) -> Result<bool, CallError>
        ensures made { IfOk result (λ first. ShutsDown self.old self.new at first) }
        ensures gone { OnOk result (AreGone self.old.table self.new.table self.new.ended) }
        ensures stays { OnOk result (Stays self.old self.new self.old.count) }
        ensures near { OnOk result (moment_of_call self.old at ≤ longest) }
        ensures refused { OnErr result (self.new ≡ self.old) }
        ensures failed { IfErr result (λ error. IsTooFar self.old at error) }
    {
        let moment = self.moment_of(at);
        if moment > LONGEST {
            return Err(CallError::TooFar);
        }
        Ok(shut_down(&mut self.table, &mut self.notes, &mut self.ended, moment))
    }

    /// Shuts the executor down at once, whether it is shut or not: submissions are rejected from then on, each task that waits
    /// is ended, no cancelled task stays in the queue, and of a task that runs no run comes after this one.
    ///
    /// # Errors
    ///
    /// [`CallError::TooFar`] where the moment of the call would be above 2^62: nothing has changed then.
    pub fn shut_down_now(&mut self, at: u64) -> Result<(), CallError>
        ensures made { OnOk result (StopsAtOnce self.old self.new at) }
        ensures gone { OnOk result (AreGone self.old.table self.new.table self.new.ended) }
        ensures stays { OnOk result (Stays self.old self.new self.old.count) }
        ensures near { OnOk result (moment_of_call self.old at ≤ longest) }
        ensures refused { OnErr result (self.new ≡ self.old) }
        ensures failed { IfErr result (λ error. IsTooFar self.old at error) }
    {
        let moment = self.moment_of(at);
        if moment > LONGEST {
            return Err(CallError::TooFar);
        }
        shut_down_now(&mut self.table, &mut self.notes, &mut self.ended, moment);
        Ok(())
    }

    /// Asks how far the executor is: how many tasks stand in its queue, how many run, and whether it is shut, and terminated.
    /// It is a call, which ends no task, and changes none.
    ///
    /// # Errors
    ///
    /// [`CallError::TooFar`] where the moment of the call would be above 2^62: nothing has changed then.
    pub fn ask(&mut self, at: u64) -> Result<Asked, CallError>
        ensures made { IfOk result (λ asked. Asks self.old self.new at asked) }
        ensures stays { OnOk result (StaysQuiet self.old self.new self.old.count) }
        ensures near { OnOk result (moment_of_call self.old at ≤ longest) }
        ensures refused { OnErr result (self.new ≡ self.old) }
        ensures failed { IfErr result (λ error. IsTooFar self.old at error) }
    {
        let moment = self.moment_of(at);
        if moment > LONGEST {
            return Err(CallError::TooFar);
        }
        self.ended.clear();
        Ok(self.table.ask(moment))
    }

    /// The policies that are set.
    pub fn policies(&self) -> Policies
        ensures { result ≡ self.now.table.policies }
    {
        self.table.policies()
    }

    /// Whether a call to shut down was made, in order or at once.
    pub fn is_shut(&self) -> bool
        ensures { result ≡ self.now.table.shut }
    {
        self.table.is_shut()
    }
}

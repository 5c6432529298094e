//! How many tasks are of some sorts. The numbers are kept beside the tasks, so that no call has to count.
ghost use Rattle.std.specs.Prelude.{◌≡◌, ◌+◌, ◌-◌, ◌^◌, ◌<◌, ◌≤◌};
ghost use Rattle.executor_core.specs.plan_table.Tasks.{is_periodic, waits_again};
ghost use Rattle.executor_core.specs.plan_table.own.Tables.{Count, IsRecount, one};

use executor_model::{Stage, Task};
use sched_time::Timing;

/// How many tasks are of some sorts.
#[derive(Clone, Copy)]
pub(crate) struct Tallies {
    /// How many are not cancelled.
    pub(crate) uncancelled: usize,
    /// How many periodic ones wait for a run.
    pub(crate) periodic: usize,
}

impl Tallies {
    /// The numbers once the task `after` stands for `before`.
    pub(crate) fn recount(self, before: Task, after: Task) -> Tallies
        requires { Count self before }
        ensures { IsRecount self result before after }
    {
        Tallies {
            uncancelled: self.uncancelled + one(!after.cancelled) - one(!before.cancelled),
            periodic: self.periodic + one(waits_again(after)) - one(waits_again(before)),
        }
    }

    /// The numbers once a run has begun, of a periodic task or not.
    #[inline(always)]
    pub(crate) fn run_started(self, periodic: bool) -> Tallies
        requires { one periodic ≤ self.periodic }
        ensures { result ≡ record self { periodic = self.periodic - one periodic } }
    {
        Tallies {
            uncancelled: self.uncancelled,
            periodic: self.periodic - one(periodic),
        }
    }

    /// The numbers once a run has ended, and its task waits again or not.
    #[inline(always)]
    pub(crate) fn run_ended(self, again: bool) -> Tallies
        requires { self.periodic < 2 ^ 63 }
        ensures { result ≡ record self { periodic = self.periodic + one again } }
    {
        Tallies {
            uncancelled: self.uncancelled,
            periodic: self.periodic + one(again),
        }
    }
}

/// One where a test passes.
fn one(test: bool) -> usize
    ensures { result ≡ one test }
{
    if test { 1 } else { 0 }
}

/// Whether a periodic task waits for a run.
fn waits_again(task: Task) -> bool
    ensures { result ≡ waits_again task }
{
    matches!(task.phase, Stage::Waiting) && !task.cancelled && is_periodic(task.timing)
}

/// Whether a task of this timing has more runs than one.
pub(crate) fn is_periodic(timing: Timing) -> bool
    ensures { result ≡ is_periodic timing }
{
    match timing {
        Timing::Once => false,
        Timing::Rate(_) | Timing::Fixed(_) => true,
    }
}

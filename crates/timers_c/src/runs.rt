//! Runs at C: one that a worker has begun, how it is to end, and how it ended.
ghost use Rattle.std.specs.Prelude.{◌≡◌};
ghost use Rattle.timers_c.specs.Numbers.{number_of_outcome};
ghost use Rattle.timers_c.specs.Calls.{end_of, no_end, no_run, run_of, value_of};

use crate::refs::Ref;
use executor_model::Outcome;
use timers::Finished;

/// A run that a worker has begun.
#[repr(C)]
#[derive(Clone, Copy, Debug, PartialEq, Eq)]
pub struct Run {
    pub task: Ref,
    /// The number of the run, 0 for the first one of its task.
    pub run: u64,
    /// The moment at which it was due, in nanoseconds, at most 2^63.
    pub due: u64,
    /// What was given with the submission.
    pub user_data: u64,
    /// The worker that has it under way.
    pub worker: u32,
}

impl Run {
    /// No run.
    pub fn none() -> Run
        ensures { result ≡ no_run }
    {
        Run {
            task: Ref::none(),
            run: 0,
            due: 0,
            user_data: 0,
            worker: 0,
        }
    }

    /// A run of a worker.
    pub fn of(worker: u32, run: timers::Run) -> Run
        ensures { result ≡ run_of worker run }
    {
        Run {
            task: Ref::of(run.task),
            run: run.run,
            due: run.due,
            user_data: run.user_data,
            worker,
        }
    }
}

/// A run that a worker has ended.
#[repr(C)]
#[derive(Clone, Copy, Debug, PartialEq, Eq)]
pub struct End {
    pub task: Ref,
    /// The number of the run.
    pub run: u64,
    /// What was given with the submission.
    pub user_data: u64,
    /// The value of a run that is done, the code of one that failed, the moment at which the next one is due; else 0.
    pub value: u64,
    /// What becomes of the task, 0 to 4.
    pub outcome: u32,
}

impl End {
    /// No end of a run.
    pub fn none() -> End
        ensures { result ≡ no_end }
    {
        End {
            task: Ref::none(),
            run: 0,
            user_data: 0,
            value: 0,
            outcome: 0,
        }
    }

    /// The end of a run.
    pub fn of(finished: Finished) -> End
        ensures { result ≡ end_of finished }
    {
        End {
            task: Ref::of(finished.task),
            run: finished.run,
            user_data: finished.user_data,
            value: outcome_value(finished.outcome),
            outcome: outcome_number(finished.outcome),
        }
    }
}

/// The number of an outcome.
fn outcome_number(outcome: Outcome) -> u32
    ensures { result ≡ number_of_outcome outcome }
{
    match outcome {
        Outcome::Done(_) => 0,
        Outcome::Failed(_) => 1,
        Outcome::Again(_) => 2,
        Outcome::Dropped => 3,
        Outcome::Ended => 4,
    }
}

/// The value of an outcome, its code or its moment, and 0 where it has none.
fn outcome_value(outcome: Outcome) -> u64
    ensures { result ≡ value_of outcome }
{
    match outcome {
        Outcome::Done(value) => value,
        Outcome::Failed(code) => u64::from(code),
        Outcome::Again(next) => next,
        Outcome::Dropped | Outcome::Ended => 0,
    }
}

/// How a run that is to be ended ended.
#[repr(C)]
#[derive(Clone, Copy, Debug, PartialEq, Eq)]
pub struct Ending {
    /// Its value, or the code of its failure, below 2^32.
    pub value: u64,
    /// The worker that has it under way.
    pub worker: u32,
    /// 0 where it ended with the value; else it failed.
    pub failed: u32,
}

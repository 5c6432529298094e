//! What the calls answer.

use executor_model::Outcome;
use live_core::TaskRef;

/// A run that a worker begins, which has it under way until it finishes.
#[derive(Clone, Copy, Debug, PartialEq, Eq)]
pub struct Run {
    pub task: TaskRef,
    /// The number of the run: 0 for the first one of its task.
    pub run: u64,
    /// The moment at which it was due, in nanoseconds.
    pub due: u64,
    /// What was given with the submission of the task.
    pub user_data: u64,
}

/// A run that a worker has ended.
#[derive(Clone, Copy, Debug, PartialEq, Eq)]
pub struct Finished {
    pub task: TaskRef,
    /// The number of the run.
    pub run: u64,
    /// What becomes of the task.
    pub outcome: Outcome,
    /// What was given with the submission of the task.
    pub user_data: u64,
}

//! What a table answers.
use crate::seat::TaskRef;
use executor_model::{EventError, Outcome};

/// A run that is begun.
#[derive(Clone, Copy, Debug, PartialEq, Eq)]
pub struct Begun {
    pub task: TaskRef,
    /// The number of the run, from 0.
    pub run: u64,
    /// The due moment of the run, in nanoseconds, at most 2^63.
    pub due: u64,
}

/// A run that has ended.
#[derive(Clone, Copy, Debug, PartialEq, Eq)]
pub struct Ended {
    pub task: TaskRef,
    /// The number of the run, from 0.
    pub run: u64,
    pub outcome: Outcome,
}

/// What the end of a run comes to.
#[derive(Clone, Copy, Debug, PartialEq, Eq)]
pub struct RunEnd {
    pub task: TaskRef,
    /// The number of the run, from 0.
    pub run: u64,
    /// The due moment that the task holds from then on, in nanoseconds, at most 2^63: that of the next run, where it may have one.
    pub due: u64,
    pub outcome: Outcome,
}

/// How far the executor is.
#[derive(Clone, Copy, Debug, PartialEq, Eq)]
pub struct Asked {
    /// How many tasks wait, or are kept after a cancel.
    pub queue: usize,
    /// How many tasks have a run under way.
    pub running: usize,
    /// A call to shut down was made, orderly or at once.
    pub shutdown: bool,
    /// It is shut, and nothing is queued or run.
    pub terminated: bool,
}

/// Why no run begins.
#[derive(Clone, Copy, Debug, PartialEq, Eq)]
pub enum StartError {
    /// The start is answered by an error.
    Refused(EventError),
    /// The first task has had 2^64 - 1 runs: no number is left for one more, and the start is not answered.
    Full,
}

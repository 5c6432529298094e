//! The runs of a trace, as bars.
use executor_model::Outcome;

/// How a run ended, and when.
#[derive(Clone, Copy, Debug, PartialEq, Eq)]
pub struct Finish {
    /// The moment, in nanoseconds.
    pub moment: u64,
    /// What the run led to.
    pub outcome: Outcome,
}

/// A run of a task by a worker.
#[derive(Clone, Copy, Debug, PartialEq, Eq)]
pub struct Bar {
    /// The worker, whose lane it stands in.
    pub worker: u8,
    /// The task.
    pub task: u32,
    /// The number of the run, from 0.
    pub run: u64,
    /// When the run was due, in nanoseconds.
    pub due: u64,
    /// When it started, in nanoseconds.
    pub first: u64,
    /// How it ended, and when. `None` where it was under way at the end of the trace.
    pub finish: Option<Finish>,
}

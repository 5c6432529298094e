use sched_time::Timing;

/// How far a task has come.
#[derive(Clone, Copy, Debug, PartialEq, Eq)]
pub enum Stage {
    /// Not submitted.
    Vacant,
    /// It waits for a run, or was cancelled while it waited.
    Waiting,
    /// A run is under way.
    Running,
    /// Its one run ended with a value.
    Done,
    /// A run failed.
    Failed,
    /// A run was under way when it was cancelled, and has ended; or its last run ended when periodic tasks did not
    /// go on.
    Dropped,
}

/// A task of the plan.
#[derive(Clone, Copy, Debug, PartialEq, Eq)]
pub struct Task {
    pub phase: Stage,
    /// The number of the run that it waits for, that is under way, or that was its last.
    pub run: u32,
    /// The due moment of that run, and after the last one that of the run that would come, or of a task with one run its own, in
    /// nanoseconds.
    pub due: u64,
    /// How often it runs.
    pub timing: Timing,
    /// It was cancelled.
    pub cancelled: bool,
    /// It was cancelled while it waited, and still stands in the queue.
    pub kept: bool,
}

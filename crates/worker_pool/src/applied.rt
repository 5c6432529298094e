//! What is told of an event that was taken.

/// A run that was started.
#[derive(Clone, Copy, Debug, PartialEq, Eq)]
pub struct Work {
    /// The task's number, from 0.
    pub task: u32,
    /// The number of the run, from 0.
    pub run: u64,
}

/// The lines that an event added, and the work that it started.
#[derive(Clone, Copy, Debug, PartialEq, Eq)]
pub struct Applied {
    /// How many lines there were before.
    pub first: usize,
    /// How many lines were added, at least one.
    pub count: usize,
    /// The run that the event's answer starts, if any.
    pub work: Option<Work>,
}

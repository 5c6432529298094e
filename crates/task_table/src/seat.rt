//! What is held of a task in its slot, and what names it.
use executor_model::Stage;
use sched_time::Timing;

/// A task in its slot.
#[derive(Clone, Copy, Debug, PartialEq, Eq)]
pub struct Seat {
    /// The number of its submission.
    pub number: u64,
    /// The number of the run that it waits for, that is under way, or that was its last.
    pub run: u64,
    /// The due moment of that run, and after the last one that of the run that would come, or of a task with one run its own, in
    /// nanoseconds.
    pub due: u64,
    /// How often it runs.
    pub timing: Timing,
    pub phase: Stage,
    /// It was cancelled.
    pub cancelled: bool,
    /// It was cancelled while it waited, and still stands in the queue.
    pub kept: bool,
}

/// A task, by the number of its submission and the slot that it has while it is alive.
#[derive(Clone, Copy, Debug, PartialEq, Eq)]
pub struct TaskRef {
    pub number: u64,
    pub slot: u32,
}

//! Why no executor is made, why a call is not, and why no lines are added.

use thiserror::Error;

/// Why no executor is made.
#[derive(Clone, Copy, Debug, PartialEq, Eq, Error)]
pub enum MakeError {
    /// The number of workers is not 1 to 255.
    #[error("the number of workers is not 1 to 255")]
    Workers,
    /// The allocator refused the memory.
    #[error("out of memory")]
    Memory,
}

/// Why a call is not made. Nothing has changed then.
#[derive(Clone, Copy, Debug, PartialEq, Eq, Error)]
pub enum CallError {
    /// The period, or the fixed delay, is 0.
    #[error("the period or the fixed delay is 0")]
    Illegal,
    /// The span to the first run, the period or the fixed delay is above 2^62 nanoseconds.
    #[error("a span is above 2^62 nanoseconds")]
    TooLong,
    /// The moment of the call would be above 2^62 nanoseconds.
    #[error("the moment is above 2^62 nanoseconds")]
    TooFar,
    /// 2^64 - 1 numbers were given out.
    #[error("no number is left for one more task")]
    Full,
    /// No submission was given this number yet.
    #[error("no task has this number")]
    NoTask,
    /// The allocator refused the memory, or there are 2^30 slots, and each holds a task.
    #[error("out of memory")]
    Memory,
}

/// Why the lines of what happened last are not added. They are as they were then.
#[derive(Clone, Copy, Debug, PartialEq, Eq, Error)]
pub enum LinesError {
    /// A task that was ended has a number of 2^32 or more, which a line can not spell.
    #[error("a line can not spell the number of a task")]
    Number,
    /// The allocator refused the memory.
    #[error("out of memory")]
    Memory,
}

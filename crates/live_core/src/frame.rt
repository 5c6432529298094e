//! What is written of an executor, so that another one can be made of it.

use task_table::Frame;

/// What is written of an executor beside its tasks and its empty slots.
#[derive(Clone, Copy, Debug, PartialEq, Eq)]
pub struct ExecutorFrame {
    pub table: Frame,
    /// The least moment of the call that comes next: 1 ns after the last accepted clock, and 0 before any. In nanoseconds.
    pub earliest: u64,
    /// How many numbers were given out.
    pub count: u64,
    /// Of how many of these the submission was accepted.
    pub accepted: u64,
}

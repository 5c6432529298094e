//! What stands at the front of a snapshot.

use task_table::Frame;

/// What stands at the front of a snapshot.
#[derive(Clone, Copy, Debug, PartialEq, Eq)]
pub struct Head {
    /// How many lines were taken in the run that the executor stands in.
    pub lines: u64,
    /// How many lines were written in it.
    pub written: u64,
    /// What is written of the executor's table beside its tasks.
    pub table: Frame,
    /// The least moment of the call that comes next, in nanoseconds.
    pub earliest: u64,
    /// How many numbers were given out.
    pub count: u64,
    /// Of how many of these the submission was accepted.
    pub accepted: u64,
}

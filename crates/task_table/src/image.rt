//! What is written of a table, so that another one can be made of it.

use crate::seat::Seat;
use sched_time::Policies;
use thiserror::Error;

/// What is written of a table beside its tasks.
#[derive(Clone, Copy, Debug, PartialEq, Eq)]
pub struct Frame {
    /// In nanoseconds, at most 2^62.
    pub moment: u64,
    /// 1 to 255.
    pub workers: u8,
    pub slots: u32,
    pub policies: Policies,
    /// A call to shut down was made, orderly or at once.
    pub shut: bool,
    /// A call to shut down at once was made.
    pub stopped: bool,
}

/// What is written of a task.
#[derive(Clone, Copy, Debug, PartialEq, Eq)]
pub struct Image {
    pub slot: u32,
    /// The worker that runs it, if one does.
    pub worker: Option<u8>,
    /// What its slot holds.
    pub seat: Seat,
}

/// Why nothing is made of what is written.
#[derive(Clone, Copy, Debug, PartialEq, Eq, Error)]
pub enum RestoreError {
    /// It is written of none that may be.
    #[error("what is written can not be restored")]
    Unsound,
    /// The allocator refused the memory.
    #[error("out of memory")]
    Memory,
}

//! What a cell is set to.
use sched_time::Ending;

/// How a task ended.
#[derive(Clone, Copy, Debug, PartialEq, Eq)]
pub struct Verdict {
    /// The task's number, from 0.
    pub task: u32,
    /// The value that its last run returned, or the code with which that run failed.
    pub ending: Ending,
}

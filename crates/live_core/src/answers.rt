//! What the executor's calls answer.

use task_table::TaskRef;

/// What becomes of a submission.
#[derive(Clone, Copy, Debug, PartialEq, Eq)]
pub enum Submitted {
    /// The task waits for its first run, which is due at this moment, in nanoseconds, at most 2^63.
    Accepted { task: TaskRef, due: u64 },
    /// The executor is shut: the submission has this number, and no task.
    Rejected { number: u64 },
}

//! How a task stands, as its line tells it.

/// How a task stands of which something may come.
#[derive(Clone, Copy, Debug, PartialEq, Eq)]
pub enum Standing {
    /// It waits for a run.
    Waits,
    /// It was cancelled while it waited, and stands in the queue still.
    Kept,
    /// This worker makes a run of it.
    Runs(u8),
    /// This worker makes a run of it, and it was cancelled meanwhile.
    Cancelled(u8),
}

//! What a queue holds.

/// One entry: a task, and the moment at which it is due.
///
/// Entries are ordered by [`due`](Entry::due), and at the same moment by [`task`](Entry::task): `a < b` says that `a`
/// leaves a queue before `b`.
#[derive(Clone, Copy, Debug, PartialEq, Eq, PartialOrd, Ord)]
pub struct Entry {
    /// The moment at which the task is due, in nanoseconds since a beginning that the caller chooses, from 0 to
    /// [`u64::MAX`].
    pub due: u64,
    /// The task's number, from 0.
    pub task: u32,
}

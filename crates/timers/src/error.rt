//! Why a poll begins no run, and why no run ends.

use thiserror::Error;

/// Why a poll begins no run, and does not tell that none is due.
#[derive(Clone, Copy, Debug, PartialEq, Eq, Error)]
pub enum PollError {
    /// There is no such worker: nothing has happened.
    #[error("there is no such worker")]
    NoWorker,
    /// The worker has a run under way: nothing has happened.
    #[error("the worker has a run under way")]
    Busy,
    /// The moment is above 2^62 nanoseconds: nothing has happened.
    #[error("the moment is above 2^62 nanoseconds")]
    TooFar,
    /// The first task that is due has had 2^64 - 1 runs: the clock has shown the moment, and nothing else has happened.
    #[error("no number is left for the run that is due")]
    Full,
}

/// Why no run ends. Nothing has happened then.
#[derive(Clone, Copy, Debug, PartialEq, Eq, Error)]
pub enum FinishError {
    /// There is no such worker.
    #[error("there is no such worker")]
    NoWorker,
    /// The worker has no run under way.
    #[error("the worker has no run under way")]
    NotRunning,
    /// The moment is above 2^62 nanoseconds.
    #[error("the moment is above 2^62 nanoseconds")]
    TooFar,
}

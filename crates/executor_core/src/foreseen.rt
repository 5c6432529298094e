//! What one look at a core tells of a happening before it comes.
use executor_model::{Happening, Need, Outcome};

/// The end of the run of a worker, before it comes.
#[derive(Clone, Copy, Debug)]
pub struct RunEnd {
    /// The task whose run ends.
    pub task: u32,
    /// The number of the run, from 0.
    pub run: u32,
    /// The due moment that the task holds from then on, at most 2^63 nanoseconds: that of its next run, where one may come.
    pub due: u64,
    /// What the end leads to.
    pub outcome: Outcome,
}

/// A happening, what it moves of the words, and where it ends a run, what that leads to.
#[derive(Clone, Copy, Debug)]
pub struct Foreseen {
    pub happening: Happening,
    /// The word moves.
    pub need: Need,
    /// The end of the run, where the happening ends one.
    pub end: Option<RunEnd>,
}

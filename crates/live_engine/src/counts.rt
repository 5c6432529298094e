//! The counts of a live run.

/// The greatest number of lines of a trace: so that there is a number for a further line of the input.
pub(crate) const MOST_LINES: u64 = u64::MAX - 1;

/// How many lines were read, and how many lines answer them.
#[derive(Clone, Copy, Debug, PartialEq, Eq)]
pub(crate) struct Counts {
    pub read: u64,
    pub written: u64,
}

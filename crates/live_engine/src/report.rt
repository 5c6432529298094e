//! What a live run did.

/// What a live run did.
#[derive(Clone, Copy, Debug, PartialEq, Eq)]
pub struct LiveReport {
    /// How many lines of the input were taken.
    pub lines_read: u64,
    /// How many lines were written.
    pub lines_written: u64,
}

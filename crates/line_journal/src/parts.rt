//! What two files have.
use crate::half::Half;

/// The last snapshot with its groups, and the one before it, if there is one.
#[derive(Clone, Copy, Debug, PartialEq, Eq)]
pub struct Parts {
    pub last: Half,
    pub has_before: bool,
    /// The last one again, if there is none before it.
    pub before: Half,
    /// The last one stands in the second file.
    pub is_second: bool,
}

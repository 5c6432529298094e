//! Why a queue was not made.

use thiserror::Error;

/// Why a queue was not made.
#[derive(Clone, Copy, Debug, PartialEq, Eq, Error)]
pub enum QueueError {
    /// The allocator refused the memory for the entries.
    #[error("out of memory")]
    Memory,
}

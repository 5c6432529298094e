//! Why a queue has no room.

use thiserror::Error;

/// Why a queue has no room.
#[derive(Clone, Copy, Debug, PartialEq, Eq, Error)]
pub enum QueueError {
    /// The allocator refused the memory for the entries.
    #[error("out of memory")]
    Memory,
}

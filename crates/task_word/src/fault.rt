ghost use Rattle.std.specs.Prelude.{◌≡◌};
ghost use Rattle.task_word.specs.declared.fault.WordError.TheVariants.{Memory};

use std::alloc::AllocError;
use thiserror::Error;

/// Why a call on a table of words was refused.
#[derive(Clone, Copy, Debug, PartialEq, Eq, Error)]
pub enum WordError {
    /// The allocator had no memory.
    #[error("out of memory")]
    Memory,
    /// [`MOST_HANDLES`](crate::MOST_HANDLES) are out, 63.
    #[error("63 handles are out")]
    Seats,
}

impl From<AllocError> for WordError {
    ghost from_gives = { λ _ e. e ≡ Memory };

    fn from(_: AllocError) -> WordError {
        WordError::Memory
    }
}

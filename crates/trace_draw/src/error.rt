use std::alloc::AllocError;
use thiserror::Error;

/// Why a picture was not made.
#[derive(Clone, Copy, Debug, PartialEq, Eq, Error)]
pub enum PictureError {
    /// It would show more marks, or else more bars, than it may.
    #[error("{marks} marks or bars in the window are too many")]
    Crowded {
        /// How many there are.
        marks: u64,
    },
    /// The memory was refused.
    #[error("out of memory")]
    Memory,
}

impl From<AllocError> for PictureError {
    ghost use Rattle.std.specs.Prelude.{◌≡◌};
    ghost use Rattle.trace_draw.specs.declared.error.PictureError.TheVariants.{Memory};

    ghost from_gives = { λ _ e. e ≡ Memory };

    fn from(_: AllocError) -> PictureError {
        PictureError::Memory
    }
}

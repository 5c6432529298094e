//! What the drawing of a trace may answer.

use std::alloc::AllocError;
use thiserror::Error;
use trace_check::CheckError;
use trace_draw::PictureError;

/// What was drawn.
#[derive(Clone, Copy, Debug)]
pub enum Drawn {
    /// The picture.
    Drawn,
    /// Nothing: the text is no trace of the plan, and breaks at this line, counted from 1.
    Breaks(u64),
}

/// Why nothing was drawn.
#[derive(Clone, Copy, Debug, Error)]
pub enum DrawError {
    /// The number of workers is not 1 to 64.
    #[error("the number of workers is not 1 to 64")]
    Workers,
    /// The picture ends before it begins.
    #[error("the picture ends before it begins")]
    Window,
    /// The picture would show more marks, or else more bars, than it may.
    #[error("{marks} marks or bars are too many")]
    Crowded {
        /// How many there are.
        marks: u64,
    },
    /// The writer was at fault.
    #[error("write fault")]
    Write,
    /// The memory was refused.
    #[error("out of memory")]
    Memory,
}

impl From<AllocError> for DrawError {
    ghost use Rattle.std.specs.Prelude.{◌≡◌};
    ghost use Rattle.trace_svg.specs.declared.report.DrawError.TheVariants.{Memory};

    ghost from_gives = { λ _ e. e ≡ Memory };

    fn from(_: AllocError) -> DrawError {
        DrawError::Memory
    }
}

impl From<CheckError> for DrawError {
    ghost use Rattle.std.specs.Prelude.{◌≡◌};
    ghost use Rattle.trace_svg.specs.Faults.{of_check};

    ghost from_gives = { λ fault e. e ≡ of_check fault };

    fn from(fault: CheckError) -> DrawError {
        match fault {
            CheckError::Workers => DrawError::Workers,
            CheckError::Memory => DrawError::Memory,
        }
    }
}

impl From<PictureError> for DrawError {
    ghost use Rattle.std.specs.Prelude.{◌≡◌};
    ghost use Rattle.trace_svg.specs.Faults.{of_picture};

    ghost from_gives = { λ fault e. e ≡ of_picture fault };

    fn from(fault: PictureError) -> DrawError {
        match fault {
            PictureError::Crowded { marks } => DrawError::Crowded { marks },
            PictureError::Memory => DrawError::Memory,
        }
    }
}

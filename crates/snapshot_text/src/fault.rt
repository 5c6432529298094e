//! Why a text is no snapshot.

use std::alloc::AllocError;
use thiserror::Error;

/// Why a text is no snapshot.
#[derive(Clone, Copy, Debug, PartialEq, Eq, Error)]
pub enum SnapshotFault {
    /// It does not begin as a snapshot of version 1 does.
    #[error("no snapshot of version 1")]
    Version,
    /// The line of this number, from 1, is none that may stand there.
    #[error("line {0}")]
    Line(u64),
    /// It has another number of tasks than its last line tells.
    #[error("another number of tasks")]
    Tasks,
    /// Its bytes have another sum than its last line tells.
    #[error("another sum")]
    Sum,
    /// The allocator refused the memory.
    #[error("out of memory")]
    Memory,
}

impl From<AllocError> for SnapshotFault {
    ghost use Rattle.std.specs.Prelude.{◌≡◌};
    ghost use Rattle.snapshot_text.specs.declared.fault.SnapshotFault.TheVariants.{Memory};

    ghost from_gives = { λ _ e. e ≡ Memory };

    fn from(_: AllocError) -> SnapshotFault {
        SnapshotFault::Memory
    }
}

/// Why a snapshot is not written whole.
#[derive(Clone, Copy, Debug, PartialEq, Eq, Error)]
pub enum SnapshotError {
    /// The writer was at fault: a front of the text was written.
    #[error("write error")]
    Write,
    /// The allocator refused the memory: nothing was written.
    #[error("out of memory")]
    Memory,
}

impl From<AllocError> for SnapshotError {
    ghost use Rattle.std.specs.Prelude.{◌≡◌};
    ghost use Rattle.snapshot_text.specs.declared.fault.SnapshotError.TheVariants.{Memory};

    ghost from_gives = { λ _ e. e ≡ Memory };

    fn from(_: AllocError) -> SnapshotError {
        SnapshotError::Memory
    }
}

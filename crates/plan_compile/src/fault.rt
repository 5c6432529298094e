//! Why a plan was not compiled.

use std::alloc::AllocError;
use thiserror::Error;

/// Why a plan was not compiled.
#[derive(Clone, Copy, Debug, PartialEq, Eq, Error)]
pub enum CompileFault {
    /// The allocator refused the memory for the code.
    #[error("out of memory")]
    Memory,
}

impl From<AllocError> for CompileFault {
    fn from(_: AllocError) -> CompileFault {
        CompileFault::Memory
    }
}

use thiserror::Error;

/// Why a text was not checked.
#[derive(Clone, Copy, Debug, PartialEq, Eq, Error)]
pub enum CheckError {
    /// The number of workers is not 1 to 64.
    #[error("the number of workers is not 1 to 64")]
    Workers,
    /// A growth was refused for want of memory.
    #[error("out of memory")]
    Memory,
}

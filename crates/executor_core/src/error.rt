use thiserror::Error;

/// Why a core was not made, or an event was not taken.
#[derive(Clone, Copy, Debug, PartialEq, Eq, Error)]
pub enum CoreError {
    /// The number of workers is not 1 to 64.
    #[error("the number of workers is not 1 to 64")]
    Workers,
    /// The limit on events is 0.
    #[error("the limit on events is 0")]
    Limit,
    /// As many events were taken as the limit allows.
    #[error("the limit on events is reached")]
    Full,
    /// A growth was refused for want of memory.
    #[error("out of memory")]
    Memory,
}

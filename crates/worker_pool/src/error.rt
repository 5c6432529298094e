use thiserror::Error;

/// Why a call did not do its work.
#[derive(Clone, Copy, Debug, PartialEq, Eq, Error)]
pub enum PoolError {
    /// The number of workers is not 1 to 64.
    #[error("the number of workers is not 1 to 64")]
    Workers,
    /// The limit on events is 0.
    #[error("the limit on events is 0")]
    Limit,
    /// As many events were taken as the limit allows.
    #[error("the limit on events is reached")]
    Full,
    /// As many handles are out as may be.
    #[error("as many handles are out as may be")]
    Seats,
    /// A run of the pool is under way.
    #[error("a run is under way")]
    Running,
    /// A growth was refused for want of memory.
    #[error("out of memory")]
    Memory,
}

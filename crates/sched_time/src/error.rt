use thiserror::Error;

/// Why a moment or a span was refused.
#[derive(Clone, Copy, Debug, PartialEq, Eq, Error)]
pub enum TimeError {
    /// It is more than 2^62 nanoseconds.
    #[error("more than 2^62 nanoseconds")]
    TooLarge,
}

//! Why no further line is taken.

/// Why no further line was taken of the bytes at hand.
#[derive(Clone, Copy, Debug, PartialEq, Eq)]
pub(crate) enum PieceEnd {
    /// Less than a line is left.
    Part,
    /// What is left begins with no line.
    Refused,
    /// A further line follows for which there is no room.
    Full,
    /// A further line follows for which there is room, and memory for it was refused.
    Memory,
}

//! Limits of a plan.

/// The greatest number of blocks of a plan.
pub const MOST_BLOCKS: usize = 256;

/// The greatest number of calls of a block.
pub const MOST_BLOCK_CALLS: usize = 256;

/// The greatest number of calls that a plan makes, and of the iterations of a block.
pub const MOST_CALLS: u64 = 65_536;

/// The greatest length of a plan text, in bytes.
pub const LONGEST_TEXT: usize = 1_048_576;

/// The greatest number of blocks of a plan.
pub const MOST_BLOCKS: usize = 256;

/// The greatest number of calls in the text of a block.
pub const MOST_BLOCK_CALLS: usize = 256;

/// The greatest number of calls that a plan makes, and of the iterations of a block.
pub const MOST_CALLS: u64 = 65_536;

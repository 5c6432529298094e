//! Limits of a plan.

/// The greatest number of calls of a journal, and of a plan.
pub const MOST_CALLS: usize = 65_536;

/// The greatest number of calls of a block.
pub const MOST_BLOCK_CALLS: usize = 256;

/// The greatest whole number that a text of TOML has.
pub const GREATEST_NUMBER: u64 = 9_223_372_036_854_775_807;

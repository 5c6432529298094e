/// The greatest moment and the longest span, in nanoseconds: 2^62.
pub const LONGEST: u64 = 1 << 62;

/// The greatest number of calls that a plan makes, and so of its tasks and of the iterations of a loop.
pub const MOST_CALLS: usize = 65_536;

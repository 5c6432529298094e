//! The ticks of an axis of time.
use sched_time::Unit;

/// A moment of the axis: it is `count` of `unit`.
#[derive(Clone, Copy, Debug, PartialEq, Eq)]
pub struct Tick {
    /// The moment, in nanoseconds.
    pub moment: u64,
    /// How many of the unit it is.
    pub count: u64,
    /// The unit, the same for each tick of a picture.
    pub unit: Unit,
}

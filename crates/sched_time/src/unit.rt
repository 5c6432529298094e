ghost use Rattle.std.specs.Prelude.{◌≡◌};
ghost use Rattle.sched_time.specs.Times.{nanos_of};

/// The unit in which a plan states its times.
#[derive(Clone, Copy, Debug, PartialEq, Eq)]
pub enum Unit {
    /// Nanoseconds.
    Ns,
    /// Microseconds.
    Us,
    /// Milliseconds.
    Ms,
    /// Seconds.
    S,
    /// Minutes of 60 seconds.
    Min,
    /// Hours of 60 minutes.
    Hour,
    /// Days of 24 hours.
    Day,
}

impl Unit {
    /// How many nanoseconds one of this unit has: 1; 1,000; 1,000,000; 1,000,000,000; 60,000,000,000;
    /// 3,600,000,000,000 or 86,400,000,000,000.
    pub fn nanos(self) -> u64
        ensures { result ≡ nanos_of self }
    {
        match self {
            Unit::Ns => 1,
            Unit::Us => 1_000,
            Unit::Ms => 1_000_000,
            Unit::S => 1_000_000_000,
            Unit::Min => 60_000_000_000,
            Unit::Hour => 3_600_000_000_000,
            Unit::Day => 86_400_000_000_000,
        }
    }
}

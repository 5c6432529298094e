//! How a call ended.
ghost use Rattle.std.specs.Prelude.{◌≡◌};
ghost use Rattle.timers_c.specs.Numbers.{number_of_status};

/// How a call ended.
#[derive(Clone, Copy, Debug, PartialEq, Eq)]
pub enum Status {
    /// The call did what it says.
    Done,
    /// The allocator refused, or there are 2^30 slots.
    NoMemory,
    /// The slot is empty.
    NoTimers,
    /// The slot has timers already.
    HasTimers,
    /// The number of workers is not 1 to 255.
    Workers,
    /// A submission is rejected, since the timers are shut.
    Shut,
    /// A period, or a fixed delay, is 0; or there is no such policy; or the code of a failure is 2^32 or more.
    Illegal,
    /// A delay or a period is above 2^62 nanoseconds.
    TooLong,
    /// The moment of the call would be above 2^62 nanoseconds.
    TooFar,
    /// There is no such worker.
    NoWorker,
    /// The worker has a run under way.
    Busy,
    /// The worker has no run under way.
    NotRunning,
    /// Nothing is due, no task waits, or no more tasks were ended.
    Idle,
    /// No number is left: 2^64 - 1 submissions, or as many runs of the task that is due.
    Full,
    /// No submission was given this number yet.
    NoTask,
    /// A line of the last call would name a task by a number of 2^32 or more.
    Number,
}

impl Status {
    /// The number by which C knows it.
    pub fn number(self) -> u32
        ensures { result ≡ number_of_status self }
    {
        match self {
            Status::Done => 0,
            Status::NoMemory => 1,
            Status::NoTimers => 2,
            Status::HasTimers => 3,
            Status::Workers => 4,
            Status::Shut => 5,
            Status::Illegal => 6,
            Status::TooLong => 7,
            Status::TooFar => 8,
            Status::NoWorker => 10,
            Status::Busy => 11,
            Status::NotRunning => 12,
            Status::Idle => 13,
            Status::Full => 14,
            Status::NoTask => 15,
            Status::Number => 16,
        }
    }
}

//! How a call ended.
ghost use Rattle.std.specs.Prelude.{◌≡◌};
ghost use Rattle.sched_c.specs.Numbers.{number_of_status};

/// How a call ended.
#[derive(Clone, Copy, Debug, PartialEq, Eq)]
pub enum Status {
    /// The call did what it says.
    Done,
    /// The allocator refused.
    NoMemory,
    /// The slot is empty.
    NoExecutor,
    /// The slot has an executor already.
    HasExecutor,
    /// The text is no plan.
    NoPlan,
    /// The number of workers is not 1 to 64.
    Workers,
    /// The limit on events is 0, or above 4,294,967,295.
    Limit,
    /// As many events were taken as the limit allows.
    Full,
    /// The plan has no task of this number.
    UnknownTask,
    /// The worker is above 255, so that no event names it.
    NoWorker,
    /// The last event was no start that got a task.
    NotStarted,
}

impl Status {
    /// The number by which C knows it.
    pub fn number(self) -> u32
        ensures { result ≡ number_of_status self }
    {
        match self {
            Status::Done => 0,
            Status::NoMemory => 1,
            Status::NoExecutor => 2,
            Status::HasExecutor => 3,
            Status::NoPlan => 4,
            Status::Workers => 5,
            Status::Limit => 6,
            Status::Full => 7,
            Status::UnknownTask => 8,
            Status::NoWorker => 10,
            Status::NotStarted => 11,
        }
    }
}

//! How a call ended.
ghost use Rattle.std.specs.Prelude.{◌≡◌, if◌then◌else◌};
ghost use Rattle.delay_queue_c.specs.Statuses.{done, no_entry};
ghost use Rattle.delay_queue_c.specs.own.Told.{number_of};

/// How a call ended.
#[derive(Clone, Copy, Debug, PartialEq, Eq)]
pub enum Status {
    /// The call did what it says.
    Done,
    /// No entry is due, none is there, or none is of this task.
    NoEntry,
    /// The allocator refused.
    NoMemory,
    /// The slot is empty.
    NoQueue,
    /// The slot has a queue already.
    HasQueue,
    /// The task is not below the count of tasks.
    UnknownTask,
    /// The task has an entry already.
    HasEntry,
}

impl Status {
    /// The number by which C knows it.
    pub fn number(self) -> u32
        ensures { result ≡ number_of self }
    {
        match self {
            Status::Done => 0,
            Status::NoEntry => 1,
            Status::NoMemory => 2,
            Status::NoQueue => 3,
            Status::HasQueue => 4,
            Status::UnknownTask => 5,
            Status::HasEntry => 6,
        }
    }

    /// How a call ended that looked an entry up.
    pub(crate) fn found(there: bool) -> Status
        ensures { number_of result ≡ (if there then done else no_entry) }
    {
        if there { Status::Done } else { Status::NoEntry }
    }
}

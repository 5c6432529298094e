//! How far a run is, and what a thread does next that held the lock of a pool.
use crate::applied::{Applied, Work};
use crate::error::PoolError;
use crate::pool::hall::{Rest, WakeAll, WakeLeader, WakeWorker};
use sched_time::Ending;

/// How far a run is.
#[derive(Clone, Copy, Debug, PartialEq, Eq)]
pub enum Stage {
    /// No run is under way.
    Closed,
    /// Workers are made. None takes a start before the first clock.
    Opening,
    /// Workers take what is due.
    Open,
    /// Workers leave.
    Leaving,
}

/// Where a worker comes from to the lock.
#[derive(Clone, Copy, Debug, PartialEq, Eq)]
pub enum Came {
    /// It was just made.
    Made,
    /// It has run its job, which ended so.
    Done(Ending),
    /// It slept, and was woken, or woke by itself.
    Woken,
}

/// What a worker does next.
pub enum Next {
    /// It lets go of the lock, wakes one more worker where one is wanted for the work that it leaves behind, and does this job.
    Job { work: Work, call: WakeWorker },
    /// It lets go of the lock, wakes all other workers and who leads, and is gone.
    Leave(WakeAll),
    /// It wakes who leads where all is quiet, and sleeps until it is woken. It is counted as asleep.
    Sleep(Rest),
}

/// What who leads a run does next.
pub enum Lead {
    /// The clock moved. It wakes a worker where one is wanted; then it waits until all is quiet.
    Moves(WakeWorker),
    /// The run is to end: it lets go of the lock, wakes all workers, and is done.
    Ends(WakeAll),
}

/// What a clock from outside a run is answered, and whom it wakes.
pub struct Advanced {
    /// The answer of the book.
    pub applied: Result<Applied, PoolError>,
    /// There is work, some worker sleeps and none is counted as coming: one is woken.
    pub worker: WakeWorker,
    /// All is quiet: who leads is woken.
    pub leader: WakeLeader,
}

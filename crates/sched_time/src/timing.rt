ghost use Rattle.std.specs.Prelude.{◌≡◌, ◌≤◌};
ghost use Rattle.sched_time.specs.Times.{longest};
ghost use Rattle.sched_time.specs.Dues as dues;

use crate::spans::Span;

/// How often a task runs, and when it is due again.
///
/// A period and a delay are 0 to 2^62 nanoseconds, as each [`Span`] is. The type does not keep them from being 0, and
/// [`next_due`] adds 0 as any other number. What [`period`](crate::period) gives is at least 1 nanosecond.
#[derive(Clone, Copy, Debug, PartialEq, Eq)]
pub enum Timing {
    /// One run, as `ScheduledExecutorService.schedule` makes it.
    Once,
    /// Runs at a fixed rate, as `ScheduledExecutorService.scheduleAtFixedRate` makes them: each is
    /// due this period after the due moment of the one before.
    Rate(Span),
    /// Runs with a fixed delay, as `ScheduledExecutorService.scheduleWithFixedDelay` makes them:
    /// each is due this delay after the end of the one before.
    Fixed(Span),
}

/// How a run of a task ended.
#[derive(Clone, Copy, Debug, PartialEq, Eq)]
pub enum Ending {
    /// It returned a value.
    Value(u64),
    /// It failed, with this code.
    Fault(u32),
}

/// When the run after one is due, and none exactly when there is no run after it.
///
/// `due` is the due moment of the run that ended, and `finished_at` the moment at which it ended,
/// each 0 to 2^62 nanoseconds. The run after it is due at most at 2^63 nanoseconds. A task with
/// one run has none; one with a fixed rate is due its period after `due`, and one with a fixed
/// delay its delay after `finished_at`.
pub fn next_due(timing: Timing, due: u64, finished_at: u64) -> Option<u64>
    requires due { due ≤ longest }
    requires finished { finished_at ≤ longest }
    ensures { result ≡ dues.next_due timing due finished_at }
{
    match timing {
        Timing::Once => None,
        Timing::Rate(period) => Some(due + period.nanos()),
        Timing::Fixed(delay) => Some(finished_at + delay.nanos()),
    }
}

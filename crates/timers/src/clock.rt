//! The clock of a poll and of a finish.
ghost use Rattle.std.specs.Prelude.{◌≡◌, ◌<◌, OnOk, OnErr};
ghost use Rattle.sched_time.specs.Times.{longest};
ghost use Rattle.timers.specs.Calls.{Shows, shown};

use live_core::ScheduledExecutor;
use sched_time::LONGEST;
use std::alloc::Allocator;

/// A moment is above the limit.
#[derive(Clone, Copy, Debug, PartialEq, Eq)]
pub(crate) struct TooFar;

/// The clock shows a moment, or stays where it is, where it would go back.
///
/// # Errors
///
/// `TooFar` where the moment is above 2^62: nothing has happened then.
pub(crate) fn show_clock<A: Allocator>(
    executor: &mut ScheduledExecutor<A>,
    now: u64,
) -> Result<(), TooFar>
    ensures shown { OnOk result (Shows executor.old executor.new now) }
    ensures far { OnErr result (longest < shown executor.old now) }
    ensures refused { OnErr result (executor.new ≡ executor.old) }
{
    let moment = now.max(executor.now());
    if moment > LONGEST {
        return Err(TooFar);
    }
    match executor.clock(moment) {
        Ok(()) => Ok(()),
        Err(_) => unreachable!(),
    }
}

//! Submissions: room for the task, the call, and the data into the slot of the task.
ghost use Rattle.std.specs.Prelude.{◌≡◌, ◌+◌, ◌<◌, ◌≤◌, length, true, IfOk, IfErr, OnOk, OnErr};
ghost use Rattle.sched_time.specs.Times.{longest};
ghost use Rattle.sched_time.specs.declared.timing.Timing as timings;
ghost use Rattle.queue_code.specs.Calls.{IsTimed};
ghost use Rattle.live_core.specs.Lives.{StaysQuiet};
ghost use Rattle.live_core.specs.Said.{IsSubmitError};
ghost use Rattle.live_core.specs.Said as said;
ghost use Rattle.timers.specs.Timers.{Gives};
ghost use Rattle.timers.specs.Calls.{Submits};
ghost use Rattle.timers.specs.own.Rooms.{HasPlace, HasRoomFor, IsLegal, IsReady, MakesRoom, seen, stored};

use crate::room::make_room;
use live_core::{CallError, ScheduledExecutor, Submitted};
use sched_time::{LONGEST, Timing};
use std::alloc::Allocator;

/// A submission that is timed so, with these data.
///
/// # Errors
///
/// Those of the executor: nothing has changed then.
#[inline(always)]
pub(crate) fn submit<A: Allocator>(
    executor: &mut ScheduledExecutor<A>,
    user_data: &mut Vec<u64, A>,
    at: u64,
    timing: Timing,
    delay: u64,
    value: u64,
) -> Result<Submitted, CallError>
    requires size { length user_data.old.items ≡ length executor.old.table.slots }
    requires timed { IsTimed timing }
    requires legal { IsLegal timing }
    ensures size { length user_data.new.items ≡ length executor.new.table.slots }
    ensures made { IfOk result (λ s. Submits executor.old executor.new at timing delay s) }
    ensures gives { OnOk result
        (Gives (seen executor.old user_data.old.items) (seen executor.new user_data.new.items)
        value) }
    ensures stays { OnOk result (StaysQuiet executor.old executor.new (executor.old.count + 1)) }
    ensures executor { OnErr result (executor.new ≡ executor.old) }
    ensures user_data { OnErr result (user_data.new.items ≡ user_data.old.items) }
    ensures failed { IfErr result (λ error. IsSubmitError executor.old at timing delay error) }
{
    make_place(executor, user_data, at, delay)?;
    let submitted = make_call(executor, at, timing, delay)?;
    store(user_data, submitted, value);
    Ok(submitted)
}

/// Makes sure that a slot holds no task, where a submission at this moment asks for one.
#[inline(always)]
fn make_place<A: Allocator>(
    executor: &mut ScheduledExecutor<A>,
    user_data: &mut Vec<u64, A>,
    at: u64,
    delay: u64,
) -> Result<(), CallError>
    requires size { length user_data.old.items ≡ length executor.old.table.slots }
    ensures size { length user_data.new.items ≡ length executor.new.table.slots }
    ensures place { OnOk result
        (HasRoomFor (seen executor.old user_data.old.items)
        (seen executor.new user_data.new.items) at delay) }
    ensures executor { OnErr result (executor.new ≡ executor.old) }
    ensures user_data { OnErr result (user_data.new.items ≡ user_data.old.items) }
    ensures failed { IfErr result
        (λ error. (timing : timings.Timing) → IsTimed timing
        → IsSubmitError executor.old at timing delay error) }
{
    if !executor.is_full() {
        return Ok(());
    }
    prepare(executor, user_data, at, delay)
}

/// Makes ready for a submission at this moment: after it no error comes of one.
#[cold]
#[inline(never)]
fn prepare<A: Allocator>(
    executor: &mut ScheduledExecutor<A>,
    user_data: &mut Vec<u64, A>,
    at: u64,
    delay: u64,
) -> Result<(), CallError>
    requires size { length user_data.old.items ≡ length executor.old.table.slots }
    ensures size { length user_data.new.items ≡ length executor.new.table.slots }
    ensures made { MakesRoom (seen executor.old user_data.old.items)
        (seen executor.new user_data.new.items) }
    ensures ready { OnOk result (IsReady executor.new at delay) }
    ensures executor { OnErr result (executor.new ≡ executor.old) }
    ensures user_data { OnErr result (user_data.new.items ≡ user_data.old.items) }
    ensures failed { IfErr result
        (λ error. (timing : timings.Timing) → IsTimed timing
        → IsSubmitError executor.old at timing delay error) }
{
    if delay > LONGEST {
        return Err(CallError::TooLong);
    }
    if executor.moment_of(at) > LONGEST {
        return Err(CallError::TooFar);
    }
    if executor.numbers() == u64::MAX {
        return Err(CallError::Full);
    }
    if executor.is_shut() {
        return Ok(());
    }
    match make_room(executor, user_data) {
        Ok(()) => Ok(()),
        Err(_) => Err(CallError::Memory),
    }
}

/// Makes the call of a submission that is timed so.
#[inline(always)]
fn make_call<A: Allocator>(
    executor: &mut ScheduledExecutor<A>,
    at: u64,
    timing: Timing,
    delay: u64,
) -> Result<Submitted, CallError>
    requires legal { IsLegal timing }
    ensures made { IfOk result (λ s. said.Submits executor.old executor.new at timing delay s) }
    ensures stays { OnOk result (StaysQuiet executor.old executor.new (executor.old.count + 1)) }
    ensures refused { OnErr result (executor.new ≡ executor.old) }
    ensures failed { IfErr result (λ error. IsSubmitError executor.old at timing delay error) }
{
    match timing {
        Timing::Once => executor.schedule(at, delay),
        Timing::Rate(period) => executor.at_rate(at, delay, period.nanos()),
        Timing::Fixed(pause) => executor.with_delay(at, delay, pause.nanos()),
    }
}

/// Stores the data of a submission in the slot of its task, where it has one.
#[inline(always)]
fn store<A: Allocator>(user_data: &mut Vec<u64, A>, submitted: Submitted, value: u64)
    requires { HasPlace submitted user_data.old.items }
    ensures { user_data.new.items ≡ stored submitted value user_data.old.items }
{
    match submitted {
        Submitted::Accepted { task, .. } => user_data[task.slot as usize] = value,
        Submitted::Rejected { .. } => {}
    }
}

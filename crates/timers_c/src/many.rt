//! Many runs in one call.
ghost use Rattle.std.specs.Prelude.{◌≡◌, ◌≢◌, ◌≤◌, Some, length, take, drop};
ghost use Rattle.timers_c.specs.declared.status.Status.TheVariants as statuses;
ghost use Rattle.timers_c.specs.Calls.{holding, no_end};
ghost use Rattle.timers_c.specs.Many.{FinishesEach, FinishesMany, PollsEach, PollsMany, StopsFinishing, StopsPolling, TakesEnding};

use crate::running::{begin, end_run};
use crate::runs::{End, Ending, Run};
use crate::session::Session;
use crate::slot::Slot;
use crate::status::Status;
use std::alloc::Global;

/// Polls for the worker of each run in turn, until one begins none.
pub fn poll_many(
    alloc: Global,
    slot: &mut Slot,
    now: u64,
    runs: &mut [Run],
    begun: &mut usize,
) -> Status
    ensures { PollsMany result now runs.old runs.new begun.new
        (holding slot.old.full slot.old.held.value) (holding slot.new.full slot.new.held.value) }
{
    *begun = 0;
    let Some(mut session) = slot.take(alloc) else {
        return Status::NoTimers;
    };
    let (status, count) = poll_each(&mut session, now, runs);
    slot.put(session);
    *begun = count;
    status
}

/// Polls for the worker of each run in turn, until one begins none: what came of that one, and how many were begun.
fn poll_each(session: &mut Session, now: u64, runs: &mut [Run]) -> (Status, usize)
    ensures { PollsMany result.0 now runs.old runs.new result.1 (Some session.old)
        (Some session.new) }
{
    let mut count = 0;
    while count < runs.len() {
        let place = runs[count];
        let (status, run) = begin(session, now, place.worker);
        match status {
            Status::Done => {
                runs[count] = run;
                count += 1;
            }
            refused => return (refused, count),
        }
    }
    (Status::Done, count)
}

/// Ends the runs of workers in turn, until one is refused.
pub fn finish_many(
    alloc: Global,
    slot: &mut Slot,
    now: u64,
    endings: &[Ending],
    ends: &mut [End],
    ended: &mut usize,
) -> Status
    ensures { FinishesMany result now (take (length ends.old) endings.now) ends.old ends.new
        ended.new (holding slot.old.full slot.old.held.value)
        (holding slot.new.full slot.new.held.value) }
{
    *ended = 0;
    let Some(mut session) = slot.take(alloc) else {
        return Status::NoTimers;
    };
    let room = endings.len().min(ends.len());
    let (status, count) = finish_each(&mut session, now, &endings[..room], ends);
    slot.put(session);
    *ended = count;
    status
}

/// Ends the runs of workers in turn, until one is refused: what came of that one, and how many were ended.
fn finish_each(
    session: &mut Session,
    now: u64,
    endings: &[Ending],
    ends: &mut [End],
) -> (Status, usize)
    requires { length endings.now ≤ length ends.old }
    ensures { FinishesMany result.0 now endings.now ends.old ends.new result.1 (Some session.old)
        (Some session.new) }
{
    let mut count = 0;
    while count < endings.len() {
        let ending = endings[count];
        let (status, end) = end_as(session, now, ending);
        match status {
            Status::Done => {
                ends[count] = end;
                count += 1;
            }
            refused => return (refused, count),
        }
    }
    (Status::Done, count)
}

/// Ends the run of a worker: what came of it, and the end, or none.
fn end_as(session: &mut Session, now: u64, ending: Ending) -> (Status, End)
    ensures takes { TakesEnding result.0 now ending result.1 session.old session.new }
    ensures none { result.0 ≢ statuses.Done → result.1 ≡ no_end }
{
    if ending.failed == 0 {
        return end_run(
            session,
            now,
            ending.worker,
            sched_time::Ending::Value(ending.value),
        );
    }
    if ending.value >= 1 << 32 {
        return (Status::Illegal, End::none());
    }
    end_run(
        session,
        now,
        ending.worker,
        sched_time::Ending::Fault(ending.value as u32),
    )
}

//! The submissions, the cancels and the purges.
ghost use Rattle.std.specs.Prelude.{◌≡◌};
ghost use Rattle.timers_c.specs.Calls.{holding, TakesCancel, TakesPurge, TakesSubmission};
ghost use Rattle.timers_c.specs.Numbers.{number_of_effect};
ghost use Rattle.timers_c.specs.own.Submissions.{first_of, timing_of};

use crate::refs::Ref;
use crate::slot::Slot;
use crate::status::Status;
use crate::submission::Submission;
use executor_model::CancelEffect;
use live_core::{CallError, Submitted};
use std::alloc::Global;

/// A submission, with these data.
#[inline(always)]
pub fn submit(
    alloc: Global,
    slot: &mut Slot,
    now: u64,
    submission: Submission,
    user_data: u64,
    task: &mut Ref,
) -> Status
    ensures { TakesSubmission result now (timing_of submission) (first_of submission) user_data
        task.new (holding slot.old.full slot.old.held.value)
        (holding slot.new.full slot.new.held.value) }
{
    let Some(mut session) = slot.take(alloc) else {
        *task = Ref::none();
        return Status::NoTimers;
    };
    let submitted = session.submit(now, submission, user_data);
    slot.put(session);
    match submitted {
        Ok(submitted) => {
            *task = Ref::of_submitted(submitted);
            match submitted {
                Submitted::Accepted { .. } => Status::Done,
                Submitted::Rejected { .. } => Status::Shut,
            }
        }
        Err(error) => {
            *task = Ref::none();
            match error {
                CallError::Illegal => Status::Illegal,
                CallError::TooLong => Status::TooLong,
                CallError::TooFar => Status::TooFar,
                CallError::Full => Status::Full,
                CallError::Memory => Status::NoMemory,
                CallError::NoTask => unreachable!(),
            }
        }
    }
}

/// A cancel of the task of a number.
#[inline(always)]
pub fn cancel(alloc: Global, slot: &mut Slot, task: Ref, effect: &mut u32) -> Status
    ensures { TakesCancel result task effect.new (holding slot.old.full slot.old.held.value)
        (holding slot.new.full slot.new.held.value) }
{
    let Some(mut session) = slot.take(alloc) else {
        *effect = 0;
        return Status::NoTimers;
    };
    let cancelled = session.cancel(task.task());
    slot.put(session);
    match cancelled {
        Ok(done) => {
            *effect = effect_number(done);
            Status::Done
        }
        Err(_) => {
            *effect = 0;
            Status::NoTask
        }
    }
}

/// Takes the kept tasks out of the queue.
pub fn purge(alloc: Global, slot: &mut Slot) -> Status
    ensures { TakesPurge result (holding slot.old.full slot.old.held.value)
        (holding slot.new.full slot.new.held.value) }
{
    let Some(mut session) = slot.take(alloc) else {
        return Status::NoTimers;
    };
    session.purge();
    slot.put(session);
    Status::Done
}

/// The number of what a cancel did.
fn effect_number(effect: CancelEffect) -> u32
    ensures { result ≡ number_of_effect effect }
{
    match effect {
        CancelEffect::Absent => 0,
        CancelEffect::No => 1,
        CancelEffect::Yes => 2,
    }
}

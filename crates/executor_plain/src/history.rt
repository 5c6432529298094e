ghost use Rattle.std.specs.Prelude.{◌≡◌, slice_get};
ghost use Rattle.executor_model.specs.Histories as histories;
ghost use Rattle.executor_model.specs.Answers as answers;

use crate::policies::{default_policies, policies_after};
use crate::telling::{
    cancels, is_done_finish, is_failed_finish, is_finish, is_shutdown, is_start, is_stop,
    is_submit, work_after,
};
use executor_model::{Answer, Happening};
use queue_code::CodeCall;
use sched_time::{LONGEST, Policies};
use std::alloc::Allocator;
use std::marker::Model;

/// A happening with its answer, and the tasks that the answer ends.
///
/// A history is a slice of these, the newest first, so that what stands before one of them is the
/// rest of the slice.
#[derive(Debug, Drop)]
pub struct Past<A: Allocator> {
    pub happening: Happening,
    pub answer: Answer,
    /// The numbers of the tasks that the answer ends, ascending.
    pub ends: Vec<u32, A>,
}

impl<A: Allocator> Model for Past<A> {
    ghost use Rattle.executor_model.specs.Histories.{HistoryEntry};

    ghost Value = { HistoryEntry };

    ghost view = { λ p. record { happening = p.happening; answer = p.answer; ends = p.ends.items } };
}

/// Whether the next call of the plan is made.
fn is_call(happening: Happening) -> bool
    ensures { result ≡ histories.is_call happening }
{
    matches!(happening, Happening::Call)
}

/// How many calls were made.
pub(crate) fn made<A: Allocator>(past: &[Past<A>]) -> usize
    ensures { result ≡ histories.made (histories.happenings past.now) }
{
    match past {
        [] => 0,
        [newest, before @ ..] => {
            if is_call(newest.happening) {
                1 + made(before)
            } else {
                made(before)
            }
        }
    }
}

/// The call of this number, counted from 0.
pub(crate) fn call_at(calls: &[(u64, CodeCall)], number: usize) -> Option<(u64, CodeCall)>
    ensures { result ≡ slice_get calls.now number }
{
    calls.get(number).copied()
}

/// Whether a clock is accepted.
pub(crate) fn is_accepted(now: u64, moment: u64) -> bool
    ensures { result ≡ answers.is_accepted now moment }
{
    now <= moment && moment <= LONGEST
}

/// The moment after a happening, given the next call.
fn moment_after(now: u64, call: Option<(u64, CodeCall)>, happening: Happening) -> u64
    ensures { result ≡ answers.moment_after now call happening }
{
    match happening {
        Happening::Call => match call {
            Some((moment, _)) => now.max(moment),
            None => now,
        },
        Happening::Clock(moment) => {
            if is_accepted(now, moment) {
                moment
            } else {
                now
            }
        }
        Happening::Start(_) | Happening::Finish(..) | Happening::Cancel(_) | Happening::Purge =>
            now,
    }
}

/// The moment, in nanoseconds.
pub(crate) fn now_of<A: Allocator>(calls: &[(u64, CodeCall)], past: &[Past<A>]) -> u64
    ensures { result ≡ histories.now_of calls.now (histories.happenings past.now) }
{
    match past {
        [] => 0,
        [newest, before @ ..] => {
            let call = call_at(calls, made(before));
            moment_after(now_of(calls, before), call, newest.happening)
        }
    }
}

/// How often a task started.
pub(crate) fn starts<A: Allocator>(k: u32, past: &[Past<A>]) -> u64
    ensures { result ≡ histories.starts k past.now }
{
    match past {
        [] => 0,
        [newest, before @ ..] => {
            if is_start(k, newest.answer) {
                1 + starts(k, before)
            } else {
                starts(k, before)
            }
        }
    }
}

/// How often a task finished.
pub(crate) fn finishes<A: Allocator>(k: u32, past: &[Past<A>]) -> u64
    ensures { result ≡ histories.finishes k past.now }
{
    match past {
        [] => 0,
        [newest, before @ ..] => {
            if is_finish(k, newest.answer) {
                1 + finishes(k, before)
            } else {
                finishes(k, before)
            }
        }
    }
}

/// The moment of the last finish of a task.
pub(crate) fn last_finish<A: Allocator>(
    calls: &[(u64, CodeCall)],
    k: u32,
    past: &[Past<A>],
) -> Option<u64>
    ensures { result ≡ histories.last_finish calls.now k past.now }
{
    match past {
        [] => None,
        [newest, before @ ..] => {
            if is_finish(k, newest.answer) {
                Some(now_of(calls, before))
            } else {
                last_finish(calls, k, before)
            }
        }
    }
}

/// Whether the submission of a task was accepted.
pub(crate) fn was_accepted<A: Allocator>(k: u32, past: &[Past<A>]) -> bool
    ensures { result ≡ histories.was_accepted k past.now }
{
    match past {
        [] => false,
        [newest, before @ ..] => is_submit(k, newest.answer) || was_accepted(k, before),
    }
}

/// Whether a task was cancelled, or ended.
pub(crate) fn was_cancelled<A: Allocator>(k: u32, past: &[Past<A>]) -> bool
    ensures { result ≡ histories.was_cancelled k past.now }
{
    match past {
        [] => false,
        [newest, before @ ..] => {
            cancels(k, newest.answer, newest.ends.as_slice()) || was_cancelled(k, before)
        }
    }
}

/// Whether a run of a task failed.
pub(crate) fn was_failed<A: Allocator>(k: u32, past: &[Past<A>]) -> bool
    ensures { result ≡ histories.was_failed k past.now }
{
    match past {
        [] => false,
        [newest, before @ ..] => is_failed_finish(k, newest.answer) || was_failed(k, before),
    }
}

/// Whether the one run of a task ended with a value.
pub(crate) fn was_done<A: Allocator>(k: u32, past: &[Past<A>]) -> bool
    ensures { result ≡ histories.was_done k past.now }
{
    match past {
        [] => false,
        [newest, before @ ..] => is_done_finish(k, newest.answer) || was_done(k, before),
    }
}

/// The task that a worker started and has not finished.
pub(crate) fn work_of<A: Allocator>(worker: u8, past: &[Past<A>]) -> Option<u32>
    ensures { result ≡ histories.work_of worker past.now }
{
    match past {
        [] => None,
        [newest, before @ ..] => work_after(worker, newest.answer, work_of(worker, before)),
    }
}

/// The policies that were set last.
pub(crate) fn policies_of<A: Allocator>(past: &[Past<A>]) -> Policies
    ensures { result ≡ histories.policies_of past.now }
{
    match past {
        [] => default_policies(),
        [newest, before @ ..] => policies_after(newest.answer, policies_of(before)),
    }
}

/// Whether a call to shut down was made, orderly or at once.
pub(crate) fn was_shut<A: Allocator>(past: &[Past<A>]) -> bool
    ensures { result ≡ histories.was_shut past.now }
{
    match past {
        [] => false,
        [newest, before @ ..] => is_shutdown(newest.answer) || was_shut(before),
    }
}

/// Whether a call to shut down at once was made.
pub(crate) fn was_stopped<A: Allocator>(past: &[Past<A>]) -> bool
    ensures { result ≡ histories.was_stopped past.now }
{
    match past {
        [] => false,
        [newest, before @ ..] => is_stop(newest.answer) || was_stopped(before),
    }
}

ghost use Rattle.std.specs.Prelude.{◌≡◌};
ghost use Rattle.queue_code.specs.Calls.{IsPlanned};
ghost use Rattle.executor_model.specs.Histories as histories;
ghost use Rattle.executor_plain.specs.own.Plain.{IsAnsweredBySome};

use crate::history::{Past, policies_of, was_shut};
use crate::policies::is_sweep;
use crate::tasks::{is_reached, is_waiting, precedes};
use crate::telling::is_cancel;
use executor_model::Answer;
use queue_code::CodeCall;
use std::alloc::Allocator;

/// Whether a purge, or a start that has this answer, meets a task, where the task is kept.
fn meets<A: Allocator>(calls: &[(u64, CodeCall)], past: &[Past<A>], k: u32, answer: Answer) -> bool
    requires orderly { IsPlanned calls.now }
    requires answered { IsAnsweredBySome calls.now past.now }
    ensures { result
        ≡ histories.meets (histories.view_of_history calls.now past.now)
        (histories.due_of calls.now past.now k) k answer }
{
    match answer {
        Answer::Purge => true,
        Answer::Idle { .. } => is_reached(calls, past, k),
        Answer::Start { task, .. } => {
            is_reached(calls, past, k) && precedes(calls, past, k, task)
        }
        _ => false,
    }
}

/// Whether a task is kept after an answer, where it was kept before it or not.
fn kept_after<A: Allocator>(
    calls: &[(u64, CodeCall)],
    past: &[Past<A>],
    kept: bool,
    k: u32,
    answer: Answer,
) -> bool
    requires orderly { IsPlanned calls.now }
    requires answered { IsAnsweredBySome calls.now past.now }
    requires kept { kept ≡ histories.is_kept calls.now past.now k }
    ensures { result
        ≡ histories.kept_after (histories.view_of_history calls.now past.now) k answer }
{
    if is_sweep(was_shut(past), answer) {
        return false;
    }
    (kept && !meets(calls, past, k, answer))
        || (is_cancel(k, answer) && is_waiting(calls, past, k) && !policies_of(past).removes)
}

/// Whether a task was cancelled while it waited, and still stands in the queue.
pub(crate) fn is_kept<A: Allocator>(calls: &[(u64, CodeCall)], past: &[Past<A>], k: u32) -> bool
    requires orderly { IsPlanned calls.now }
    requires answered { IsAnsweredBySome calls.now past.now }
    ensures { result ≡ histories.is_kept calls.now past.now k }
{
    match past {
        [] => false,
        [newest, before @ ..] => {
            let kept = is_kept(calls, before, k);
            kept_after(calls, before, kept, k, newest.answer)
        }
    }
}

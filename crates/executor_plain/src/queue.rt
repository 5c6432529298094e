ghost use Rattle.std.specs.Prelude.{◌≡◌, ℕ, ◌+◌, ◌≤◌};
ghost use Rattle.std.specs.List.{range_with_len};
ghost use Rattle.queue_code.specs.declared.call.CodeCall.TheVariants as call;
ghost use Rattle.queue_code.specs.Calls.{IsPlanned, how_many, most_calls_of_code};
ghost use Rattle.executor_model.specs.View as views;
ghost use Rattle.executor_model.specs.Answers as answers;
ghost use Rattle.executor_model.specs.Histories as histories;
ghost use Rattle.executor_plain.specs.own.Plain.{IsAnsweredBySome};

use crate::history::{Past, was_shut};
use crate::kept::is_kept;
use crate::tasks::{count_tasks, is_running, is_waiting};
use executor_model::Answer;
use queue_code::CodeCall;
use std::alloc::Allocator;

/// Whether a task stands in the queue.
fn is_queued<A: Allocator>(calls: &[(u64, CodeCall)], past: &[Past<A>], k: u32) -> bool
    requires orderly { IsPlanned calls.now }
    requires answered { IsAnsweredBySome calls.now past.now }
    ensures { result ≡ answers.is_queued ((histories.view_of_history calls.now past.now).fate k) }
{
    is_waiting(calls, past, k) || is_kept(calls, past, k)
}

/// How many of the `count` tasks from `from` on stand in the queue.
fn count_queued<A: Allocator>(
    calls: &[(u64, CodeCall)],
    past: &[Past<A>],
    from: u32,
    count: u32,
) -> u32
    requires orderly { IsPlanned calls.now }
    requires answered { IsAnsweredBySome calls.now past.now }
    requires within { from + count ≤ most_calls_of_code }
    ensures { result
        ≡ how_many
        (λ k. answers.is_queued ((histories.view_of_history calls.now past.now).fate k))
        (range_with_len from count) }
{
    if count == 0 {
        return 0;
    }
    let rest = count_queued(calls, past, from + 1, count - 1);
    if is_queued(calls, past, from) {
        1 + rest
    } else {
        rest
    }
}

/// How many of the `count` tasks from `from` on have a run under way.
fn count_running<A: Allocator>(
    calls: &[(u64, CodeCall)],
    past: &[Past<A>],
    from: u32,
    count: u32,
) -> u32
    requires { from + count ≤ most_calls_of_code }
    ensures { result
        ≡ how_many (λ k. views.is_running ((histories.view_of_history calls.now past.now).fate k))
        (range_with_len from count) }
{
    if count == 0 {
        return 0;
    }
    let rest = count_running(calls, past, from + 1, count - 1);
    if is_running(calls, past, from) {
        1 + rest
    } else {
        rest
    }
}

/// Whether the executor is shut, and nothing is queued or run.
fn is_terminated(shut: bool, queue: u32, running: u32) -> bool
    ensures { result ≡ answers.is_terminated shut queue running }
{
    shut && queue == 0 && running == 0
}

/// How far the executor is.
pub(crate) fn answer_ask<A: Allocator>(calls: &[(u64, CodeCall)], past: &[Past<A>]) -> Answer
    requires orderly { IsPlanned calls.now }
    requires answered { IsAnsweredBySome calls.now past.now }
    ensures { (moment : ℕ)
        → result
        ≡ (answers.called calls.now
        (record (histories.view_of_history calls.now past.now) { moment = moment })
        call.Ask).answer }
{
    let count = count_tasks(calls);
    let queue = count_queued(calls, past, 0, count);
    let running = count_running(calls, past, 0, count);
    let shutdown = was_shut(past);
    Answer::Ask {
        queue,
        running,
        shutdown,
        terminated: is_terminated(shutdown, queue, running),
    }
}

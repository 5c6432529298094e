ghost use Rattle.std.specs.Prelude.{◌≡◌, ◌+◌, ◌≤◌, length, nat_le};
ghost use Rattle.std.specs.List.{range_with_len};
ghost use Rattle.queue_code.specs.Calls.{IsPlanned, most_calls_of_code, task_count, terms_of, due_at};
ghost use Rattle.executor_model.specs.View as views;
ghost use Rattle.executor_model.specs.Answers as answers;
ghost use Rattle.executor_model.specs.Histories as histories;
ghost use Rattle.executor_model.specs.Within.{latest_due};
ghost use Rattle.executor_plain.specs.own.Plain.{IsAnsweredBySome, IsOrderlyPart};

use crate::history::{
    Past, finishes, last_finish, now_of, starts, was_accepted, was_cancelled, was_done, was_failed,
};
use executor_model::CancelEffect;
use queue_code::CodeCall;
use sched_time::Timing;
use std::alloc::Allocator;

/// How a task is timed: by its submission.
pub(crate) fn timing_of(calls: &[(u64, CodeCall)], k: u32) -> Timing
    ensures { result ≡ (terms_of calls.now k).timing }
{
    match calls {
        [] => Timing::Once,
        [(_, CodeCall::Submit { task, timing, .. }), later @ ..] => {
            if *task == k {
                *timing
            } else {
                timing_of(later, k)
            }
        }
        [_, later @ ..] => timing_of(later, k),
    }
}

/// When the first run of a task is due: its submission's moment plus the delay.
fn first_due(calls: &[(u64, CodeCall)], k: u32) -> u64
    requires { IsOrderlyPart calls.now }
    ensures { result ≡ (terms_of calls.now k).first }
{
    match calls {
        [] => 0,
        [(moment, CodeCall::Submit { task, delay, .. }), later @ ..] => {
            if *task == k {
                *moment + *delay
            } else {
                first_due(later, k)
            }
        }
        [_, later @ ..] => first_due(later, k),
    }
}

/// When the next run of task `k` is due, after `starts` starts and with its last finish at `last`.
pub(crate) fn due_at(calls: &[(u64, CodeCall)], k: u32, starts: u64, last: Option<u64>) -> u64
    requires orderly { IsPlanned calls.now }
    requires within { due_at (terms_of calls.now k) starts last ≤ latest_due }
    ensures { result ≡ due_at (terms_of calls.now k) starts last }
{
    let first = first_due(calls, k);
    match timing_of(calls, k) {
        Timing::Once => first,
        Timing::Rate(period) => first + starts * period.nanos(),
        Timing::Fixed(delay) => match last {
            None => first,
            Some(finished_at) => finished_at + delay.nanos(),
        },
    }
}

/// When the next run of a task is due.
pub(crate) fn due_of<A: Allocator>(calls: &[(u64, CodeCall)], past: &[Past<A>], k: u32) -> u64
    requires orderly { IsPlanned calls.now }
    requires answered { IsAnsweredBySome calls.now past.now }
    ensures { result ≡ histories.due_of calls.now past.now k }
{
    due_at(calls, k, starts(k, past), last_finish(calls, k, past))
}

/// Whether a run of a task is under way.
pub(crate) fn is_running<A: Allocator>(calls: &[(u64, CodeCall)], past: &[Past<A>], k: u32) -> bool
    ensures { result ≡ views.is_running ((histories.view_of_history calls.now past.now).fate k) }
{
    starts(k, past) != finishes(k, past)
}

/// Whether a task was accepted, is not running and is not over.
pub(crate) fn is_waiting<A: Allocator>(calls: &[(u64, CodeCall)], past: &[Past<A>], k: u32) -> bool
    ensures { result ≡ views.is_waiting ((histories.view_of_history calls.now past.now).fate k) }
{
    was_accepted(k, past)
        && !is_running(calls, past, k)
        && !was_cancelled(k, past)
        && !was_failed(k, past)
        && !was_done(k, past)
}

/// What a cancel does to a task.
pub(crate) fn effect_on<A: Allocator>(
    calls: &[(u64, CodeCall)],
    past: &[Past<A>],
    k: u32,
) -> CancelEffect
    ensures { result ≡ answers.effect_on ((histories.view_of_history calls.now past.now).fate k) }
{
    if !was_accepted(k, past) {
        CancelEffect::Absent
    } else if is_live(calls, past, k) {
        CancelEffect::Yes
    } else {
        CancelEffect::No
    }
}

/// Whether a cancel of a task would have an effect.
fn is_live<A: Allocator>(calls: &[(u64, CodeCall)], past: &[Past<A>], k: u32) -> bool
    ensures { result
        ≡ views.is_cancellable ((histories.view_of_history calls.now past.now).fate k) }
{
    is_waiting(calls, past, k) || (is_running(calls, past, k) && !was_cancelled(k, past))
}

/// Whether a task waits and its due moment is reached.
fn is_enabled<A: Allocator>(calls: &[(u64, CodeCall)], past: &[Past<A>], k: u32) -> bool
    requires orderly { IsPlanned calls.now }
    requires answered { IsAnsweredBySome calls.now past.now }
    ensures { result ≡ views.is_enabled (histories.view_of_history calls.now past.now) k }
{
    is_waiting(calls, past, k) && is_reached(calls, past, k)
}

/// Whether the due moment of a task is reached.
pub(crate) fn is_reached<A: Allocator>(calls: &[(u64, CodeCall)], past: &[Past<A>], k: u32) -> bool
    requires orderly { IsPlanned calls.now }
    requires answered { IsAnsweredBySome calls.now past.now }
    ensures { result
        ≡ nat_le (histories.due_of calls.now past.now k)
        (histories.now_of calls.now (histories.happenings past.now)) }
{
    due_of(calls, past, k) <= now_of(calls, past)
}

/// Whether one task comes before another, by due moment and then by number.
pub(crate) fn precedes<A: Allocator>(
    calls: &[(u64, CodeCall)],
    past: &[Past<A>],
    j: u32,
    k: u32,
) -> bool
    requires orderly { IsPlanned calls.now }
    requires answered { IsAnsweredBySome calls.now past.now }
    ensures { result ≡ views.precedes (histories.view_of_history calls.now past.now) j k }
{
    let one = due_of(calls, past, j);
    let other = due_of(calls, past, k);
    one < other || (one == other && j < k)
}

/// The earlier one of a task and perhaps another.
fn earlier<A: Allocator>(
    calls: &[(u64, CodeCall)],
    past: &[Past<A>],
    k: u32,
    other: Option<u32>,
) -> u32
    requires orderly { IsPlanned calls.now }
    requires answered { IsAnsweredBySome calls.now past.now }
    ensures { result ≡ views.earlier (histories.view_of_history calls.now past.now) k other }
{
    match other {
        None => k,
        Some(j) => { if precedes(calls, past, j, k) { j } else { k } }
    }
}

/// The first enabled task of the `count` tasks from `from` on.
pub(crate) fn first_enabled<A: Allocator>(
    calls: &[(u64, CodeCall)],
    past: &[Past<A>],
    from: u32,
    count: u32,
) -> Option<u32>
    requires orderly { IsPlanned calls.now }
    requires answered { IsAnsweredBySome calls.now past.now }
    requires within { from + count ≤ most_calls_of_code }
    ensures { result
        ≡ views.first_enabled (histories.view_of_history calls.now past.now)
        (range_with_len from count) }
{
    if count == 0 {
        return None;
    }
    let rest = first_enabled(calls, past, from + 1, count - 1);
    if is_enabled(calls, past, from) {
        Some(earlier(calls, past, from, rest))
    } else {
        rest
    }
}

/// How many tasks the calls submit.
pub(crate) fn count_tasks(calls: &[(u64, CodeCall)]) -> u32
    requires { length calls.now ≤ most_calls_of_code }
    ensures { result ≡ task_count calls.now }
{
    match calls {
        [] => 0,
        [
            (_, CodeCall::Submit { .. } | CodeCall::Illegal { .. }),
            later @ ..,
        ] => { 1 + count_tasks(later) }
        [_, later @ ..] => count_tasks(later),
    }
}

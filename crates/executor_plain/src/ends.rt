ghost use Rattle.std.specs.Prelude.{◌≡◌, IfOk};
ghost use Rattle.queue_code.specs.Calls.{IsPlanned};
ghost use Rattle.executor_model.specs.Answers as answers;
ghost use Rattle.executor_model.specs.Histories as histories;
ghost use Rattle.executor_model.specs.Within.{IsAnsweredByTable};
ghost use Rattle.executor_plain.specs.own.Plain.{IsAnsweredBySome};

use crate::history::{Past, call_at, made, now_of, policies_of, was_shut, was_stopped};
use crate::policies::{is_ended_by, set_policy, setting_sweeps};
use crate::tasks::{count_tasks, due_of, is_waiting, timing_of};
use executor_model::Happening;
use queue_code::CodeCall;
use sched_time::Policies;
use std::alloc::{AllocError, Allocator};

/// The numbers of the tasks that the answer to a happening ends, ascending; the newest entry of the
/// history comes first.
///
/// Each answer of the history has to be that of [`answer_after`](crate::answer_after), and each of
/// its lists of tasks this one, for what stands before it. A growth that is refused for want of
/// memory is the only error. Only a call of the plan ends tasks: the first shutdown, one at once, and, where
/// the executor is shut, one that sets the continue or the execute policy to false (this project's rule).
pub fn ends_after<A: Allocator>(
    alloc: A,
    calls: &[(u64, CodeCall)],
    workers: u8,
    past: &[Past<A>],
    happening: Happening,
) -> Result<Vec<u32, A>, AllocError>
    requires orderly { IsPlanned calls.now }
    requires answered { IsAnsweredByTable calls.now workers past.now }
    ensures { IfOk result
        (λ ends. ends.items ≡ (histories.answer calls.now workers past.now happening).ends) }
{
    match happening {
        Happening::Call => match call_at(calls, made(past)) {
            Some((moment, call)) => {
                let now = now_of(calls, past).max(moment);
                ends_of_call(alloc, calls, past, now, call)
            }
            None => Ok(Vec::new(alloc)),
        },
        Happening::Clock(_)
        | Happening::Start(_)
        | Happening::Finish(..)
        | Happening::Cancel(_)
        | Happening::Purge => Ok(Vec::new(alloc)),
    }
}

/// The tasks that a call ends, which is made at the moment `now`.
fn ends_of_call<A: Allocator>(
    alloc: A,
    calls: &[(u64, CodeCall)],
    past: &[Past<A>],
    now: u64,
    call: CodeCall,
) -> Result<Vec<u32, A>, AllocError>
    requires orderly { IsPlanned calls.now }
    requires answered { IsAnsweredBySome calls.now past.now }
    ensures { IfOk result
        (λ ends. ends.items
        ≡ (answers.called calls.now
        (record (histories.view_of_history calls.now past.now) { moment = now }) call).ends) }
{
    let (shut, stopped) = (was_shut(past), was_stopped(past));
    let policies = policies_of(past);
    match call {
        CodeCall::SetPolicy { which, value } if setting_sweeps(shut, which, value) => {
            let policies = set_policy(which, value, policies);
            swept(alloc, calls, past, now, stopped, policies)
        }
        CodeCall::Shutdown if !shut => swept(alloc, calls, past, now, stopped, policies),
        CodeCall::ShutdownNow => swept(alloc, calls, past, now, true, policies),
        _ => Ok(Vec::new(alloc)),
    }
}

/// The tasks that a sweep under these policies ends, at the moment `now`, where the executor is stopped or not.
fn swept<A: Allocator>(
    alloc: A,
    calls: &[(u64, CodeCall)],
    past: &[Past<A>],
    now: u64,
    stopped: bool,
    policies: Policies,
) -> Result<Vec<u32, A>, AllocError>
    requires orderly { IsPlanned calls.now }
    requires answered { IsAnsweredBySome calls.now past.now }
    ensures { IfOk result
        (λ ends. ends.items
        ≡ answers.swept calls.now
        (record (histories.view_of_history calls.now past.now)
        { moment = now; stopped = stopped }) policies) }
{
    let mut ends = Vec::new(alloc);
    for k in 0..count_tasks(calls) {
        if is_swept(calls, past, now, stopped, policies, k) {
            ends.push(k)?;
        }
    }
    Ok(ends)
}

/// Whether a sweep under these policies ends a task, at the moment `now`, where the executor is stopped or not.
fn is_swept<A: Allocator>(
    calls: &[(u64, CodeCall)],
    past: &[Past<A>],
    now: u64,
    stopped: bool,
    policies: Policies,
    k: u32,
) -> bool
    requires orderly { IsPlanned calls.now }
    requires answered { IsAnsweredBySome calls.now past.now }
    ensures { result
        ≡ answers.is_swept calls.now
        (record (histories.view_of_history calls.now past.now)
        { moment = now; stopped = stopped }) policies k }
{
    is_waiting(calls, past, k)
        && is_ended_by(
            stopped,
            policies,
            now,
            timing_of(calls, k),
            due_of(calls, past, k),
        )
}

ghost use Rattle.std.specs.Prelude.{◌≡◌, ℕ};
ghost use Rattle.queue_code.specs.declared.call.CodeCall.TheVariants as call;
ghost use Rattle.executor_model.specs.declared.types.Happening.TheVariants as happening;
ghost use Rattle.queue_code.specs.Calls.{IsPlanned, terms_of};
ghost use Rattle.executor_model.specs.Answers as answers;
ghost use Rattle.executor_model.specs.Histories as histories;
ghost use Rattle.executor_model.specs.Within.{IsAnsweredByTable};
ghost use Rattle.executor_plain.specs.own.Plain.{IsAnsweredBySome};

use crate::history::{
    Past, call_at, made, now_of, policies_of, starts, was_cancelled, was_shut, was_stopped, work_of,
};
use crate::policies::stops_periodic;
use crate::queue::answer_ask;
use crate::tasks::{count_tasks, due_at, due_of, effect_on, first_enabled, timing_of};
use executor_model::{Answer, EventError, Happening, Kind, Outcome, Refusal};
use queue_code::CodeCall;
use sched_time::{Ending, LONGEST, Timing};
use std::alloc::Allocator;

/// The answer to a happening after a history, the newest entry first.
///
/// Each answer of the history has to be this one too, for what stands before it, and the tasks that it
/// ends those of [`ends_after`](crate::ends_after).
/// A call past the last one never comes in a history; it is answered as a clock is.
pub fn answer_after<A: Allocator>(
    calls: &[(u64, CodeCall)],
    workers: u8,
    past: &[Past<A>],
    happening: Happening,
) -> Answer
    requires orderly { IsPlanned calls.now }
    requires answered { IsAnsweredByTable calls.now workers past.now }
    ensures { result ≡ (histories.answer calls.now workers past.now happening).answer }
{
    match happening {
        Happening::Call => match call_at(calls, made(past)) {
            Some((_, call)) => answer_call(calls, past, call),
            None => Answer::Clock,
        },
        Happening::Clock(moment) => answer_clock(calls, past, moment),
        Happening::Start(worker) => answer_start(calls, workers, past, worker),
        Happening::Finish(worker, ending) => answer_finish(calls, workers, past, worker, ending),
        Happening::Cancel(task) => answer_cancel(calls, past, task),
        Happening::Purge => Answer::Purge,
    }
}

/// The answer to a call.
fn answer_call<A: Allocator>(calls: &[(u64, CodeCall)], past: &[Past<A>], call: CodeCall) -> Answer
    requires orderly { IsPlanned calls.now }
    requires answered { IsAnsweredBySome calls.now past.now }
    ensures { (moment : ℕ)
        → result
        ≡ (answers.called calls.now
        (record (histories.view_of_history calls.now past.now) { moment = moment }) call).answer }
{
    match call {
        CodeCall::Submit { task, timing, .. } => answer_submission(calls, past, task, timing),
        CodeCall::Illegal { task } => Answer::Refuse {
            task,
            refusal: Refusal::Illegal,
        },
        CodeCall::Cancel { task } => Answer::Cancel {
            task,
            effect: effect_on(calls, past, task),
        },
        CodeCall::SetPolicy { which, value } => Answer::Policy { which, value },
        CodeCall::Shutdown if was_shut(past) => Answer::ShutdownAgain,
        CodeCall::Shutdown => Answer::Shutdown,
        CodeCall::ShutdownNow => Answer::ShutdownNow,
        CodeCall::Ask => answer_ask(calls, past),
    }
}

/// The answer to a submission of a task of this timing.
fn answer_submission<A: Allocator>(
    calls: &[(u64, CodeCall)],
    past: &[Past<A>],
    task: u32,
    timing: Timing,
) -> Answer
    requires { IsPlanned calls.now }
    ensures { (delay : ℕ) → (moment : ℕ)
        → result
        ≡ (answers.called calls.now
        (record (histories.view_of_history calls.now past.now) { moment = moment })
        (call.Submit task timing delay)).answer }
{
    if was_shut(past) {
        return Answer::Refuse {
            task,
            refusal: Refusal::Rejected,
        };
    }
    Answer::Submit {
        task,
        kind: kind_of(timing),
        due: due_at(calls, task, 0, None),
    }
}

/// The answer to a cancel from outside the plan.
fn answer_cancel<A: Allocator>(calls: &[(u64, CodeCall)], past: &[Past<A>], task: u32) -> Answer
    requires { IsPlanned calls.now }
    ensures { (workers : ℕ)
        → result ≡ (histories.answer calls.now workers past.now (happening.Cancel task)).answer }
{
    if task >= count_tasks(calls) {
        return Answer::Error(EventError::NoTask);
    }
    Answer::Outside {
        task,
        effect: effect_on(calls, past, task),
    }
}

/// The answer to a clock.
fn answer_clock<A: Allocator>(calls: &[(u64, CodeCall)], past: &[Past<A>], moment: u64) -> Answer
    ensures { (workers : ℕ)
        → result ≡ (histories.answer calls.now workers past.now (happening.Clock moment)).answer }
{
    if moment < now_of(calls, past) {
        Answer::Error(EventError::Backward)
    } else if LONGEST < moment {
        Answer::Error(EventError::TooFar)
    } else {
        Answer::Clock
    }
}

/// The answer to a worker that asks for work.
fn answer_start<A: Allocator>(
    calls: &[(u64, CodeCall)],
    workers: u8,
    past: &[Past<A>],
    worker: u8,
) -> Answer
    requires orderly { IsPlanned calls.now }
    requires answered { IsAnsweredBySome calls.now past.now }
    ensures { result
        ≡ (histories.answer calls.now workers past.now (happening.Start worker)).answer }
{
    if worker >= workers {
        return Answer::Error(EventError::NoWorker);
    }
    if work_of(worker, past).is_some() {
        return Answer::Error(EventError::Busy);
    }
    match first_enabled(calls, past, 0, count_tasks(calls)) {
        None => Answer::Idle { worker },
        Some(task) => Answer::Start {
            worker,
            task,
            run: starts(task, past),
            due: due_of(calls, past, task),
        },
    }
}

/// The answer to the end of a worker's run.
fn answer_finish<A: Allocator>(
    calls: &[(u64, CodeCall)],
    workers: u8,
    past: &[Past<A>],
    worker: u8,
    ending: Ending,
) -> Answer
    requires orderly { IsPlanned calls.now }
    requires answered { IsAnsweredBySome calls.now past.now }
    ensures { result
        ≡ (histories.answer calls.now workers past.now (happening.Finish worker ending)).answer }
{
    if worker >= workers {
        return Answer::Error(EventError::NoWorker);
    }
    match work_of(worker, past) {
        None => Answer::Error(EventError::NotRunning),
        Some(task) => Answer::Finish {
            worker,
            task,
            run: starts(task, past).saturating_sub(1),
            outcome: outcome_in(calls, past, task, ending),
        },
    }
}

/// The due moment of the run of a task that would come after a finish now.
fn due_next<A: Allocator>(calls: &[(u64, CodeCall)], past: &[Past<A>], k: u32) -> u64
    requires orderly { IsPlanned calls.now }
    requires answered { IsAnsweredBySome calls.now past.now }
    ensures { result ≡ answers.due_next calls.now (histories.view_of_history calls.now past.now) k }
{
    due_at(calls, k, starts(k, past), Some(now_of(calls, past)))
}

/// The kind of a task of this timing.
fn kind_of(timing: Timing) -> Kind
    ensures { result ≡ answers.kind_of timing }
{
    match timing {
        Timing::Once => Kind::Schedule,
        Timing::Rate(_) => Kind::Rate,
        Timing::Fixed(_) => Kind::Fixed,
    }
}

/// What the end of a run of a task leads to now.
fn outcome_in<A: Allocator>(
    calls: &[(u64, CodeCall)],
    past: &[Past<A>],
    k: u32,
    ending: Ending,
) -> Outcome
    requires orderly { IsPlanned calls.now }
    requires answered { IsAnsweredBySome calls.now past.now }
    ensures { result
        ≡ answers.outcome_in (histories.was_cancelled k past.now)
        (answers.stops_periodic (histories.was_shut past.now) (histories.was_stopped past.now)
        (histories.policies_of past.now)) (terms_of calls.now k).timing
        (answers.due_next calls.now (histories.view_of_history calls.now past.now) k) ending }
{
    if was_cancelled(k, past) {
        return Outcome::Dropped;
    }
    let stops = stops_periodic(was_shut(past), was_stopped(past), policies_of(past));
    outcome_of(stops, timing_of(calls, k), due_next(calls, past, k), ending)
}

/// What the end of a run leads to, where the run after it would be due at a moment, and periodic tasks
/// maybe do not go on.
fn outcome_of(stops: bool, timing: Timing, due: u64, ending: Ending) -> Outcome
    ensures { result ≡ answers.outcome_of stops timing due ending }
{
    match ending {
        Ending::Fault(code) => Outcome::Failed(code),
        Ending::Value(value) => match timing {
            Timing::Once => Outcome::Done(value),
            Timing::Rate(_) | Timing::Fixed(_) => next_run(stops, due),
        },
    }
}

/// What comes after a run of a periodic task.
fn next_run(stops: bool, due: u64) -> Outcome
    ensures { result ≡ answers.next_run stops due }
{
    if stops {
        Outcome::Ended
    } else {
        Outcome::Again(due)
    }
}

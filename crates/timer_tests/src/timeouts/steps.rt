//! What is done with timers, and what is told then. A task that is told is its number.

use crate::told::{
    byte_of, call_error, cancelled, due_of, is_first, is_so, made, outcome_of, short_of, task_of,
    which_of,
};
use crate::words::{Words, lone, tell, with_one};
use sched_time::Ending;
use std::alloc::Allocator;
use timers::{CallError, FinishError, Finished, PollError, Run, Submitted, TaskRef, Timers};

/// Does one step. A call has its moment first, and a submission the data last.
pub fn do_step<A: Allocator>(timers: &mut Timers<A>, step: Words<'_>) -> Words<'static> {
    match step.word {
        "schedule" | "execute" | "at_rate" | "with_delay" => submit(timers, step),
        "poll" | "finish" | "fail" => run(timers, step),
        "cancel" | "set_remove" | "shut_down" | "shut_down_now" => call(timers, step),
        "purge" => purged(timers),
        _ => look(timers, step),
    }
}

/// Submits.
fn submit<A: Allocator>(timers: &mut Timers<A>, step: Words<'_>) -> Words<'static> {
    let (at, second, third, fourth) = (step.first, step.second, step.third, step.fourth);
    match step.word {
        "schedule" => submitted(timers.schedule(at, second, third)),
        "execute" => submitted(timers.execute(at, second)),
        "at_rate" => submitted(timers.at_rate(at, second, third, fourth)),
        _ => submitted(timers.with_delay(at, second, third, fourth)),
    }
}

/// Begins a run, or ends one.
fn run<A: Allocator>(timers: &mut Timers<A>, step: Words<'_>) -> Words<'static> {
    let (now, worker, value) = (step.first, step.second, step.third);
    let worker = byte_of(worker);
    match step.word {
        "poll" => begun(timers.poll(now, worker)),
        "finish" => ended(timers.finish(now, worker, Ending::Value(value))),
        _ => ended(timers.finish(now, worker, Ending::Fault(short_of(value)))),
    }
}

/// Makes another call.
fn call<A: Allocator>(timers: &mut Timers<A>, step: Words<'_>) -> Words<'static> {
    let (first, second) = (step.first, step.second);
    match step.word {
        "cancel" => cancelled(timers.cancel(task_of(first, second))),
        "shut_down" => is_first(timers.shut_down(first)),
        "shut_down_now" => made(timers.shut_down_now(first)),
        word => made(timers.set_policy(first, which_of(word), second == 1)),
    }
}

/// Purges.
fn purged<A: Allocator>(timers: &mut Timers<A>) -> Words<'static> {
    timers.purge();
    lone("purged")
}

/// Looks, and changes nothing.
fn look<A: Allocator>(timers: &Timers<A>, step: Words<'_>) -> Words<'static> {
    let (number, slot) = (step.first, step.second);
    match step.word {
        "now" => with_one("now", timers.now()),
        "numbers" => with_one("numbers", timers.numbers()),
        "len" => with_one("len", timers.len() as u64),
        "next_due" => due_of(timers.next_due()),
        "head_due" => due_of(timers.head_due()),
        "is_shut" => is_so("shut", timers.is_shut()),
        "data_of" => data_of(timers.user_data_of(task_of(number, slot))),
        "has_seat" => is_so("seat", timers.seat_of(task_of(number, slot)).is_some()),
        "first_ended" => number_of(timers.ended().first()),
        _ => lone("no such step"),
    }
}

/// What a submission tells: its task, and the due moment of the first run; or its number, where it is rejected.
fn submitted(answer: Result<Submitted, CallError>) -> Words<'static> {
    match answer {
        Ok(Submitted::Accepted { task, due }) => tell("accepted", task.number, due, 0, 0),
        Ok(Submitted::Rejected { number }) => with_one("rejected", number),
        Err(error) => call_error(error),
    }
}

/// What a poll tells: the task, the number of the run, its due moment, and the data; or that no task is due.
fn begun(answer: Result<Option<Run>, PollError>) -> Words<'static> {
    match answer {
        Ok(Some(run)) => tell("begun", run.task.number, run.run, run.due, run.user_data),
        Ok(None) => lone("idle"),
        Err(error) => poll_error(error),
    }
}

/// Why a poll begins no run.
fn poll_error(error: PollError) -> Words<'static> {
    match error {
        PollError::NoWorker => lone("no_worker"),
        PollError::Busy => lone("busy"),
        PollError::TooFar => lone("too_far"),
        PollError::Full => lone("full"),
    }
}

/// What the end of a run tells: the task, the number of the run, the data, and what the outcome is with.
fn ended(answer: Result<Finished, FinishError>) -> Words<'static> {
    match answer {
        Ok(finished) => parts_of(finished),
        Err(FinishError::NoWorker) => lone("no_worker"),
        Err(FinishError::NotRunning) => lone("not_running"),
        Err(FinishError::TooFar) => lone("too_far"),
    }
}

/// What a run that has ended tells.
fn parts_of(finished: Finished) -> Words<'static> {
    let (word, last) = outcome_of(finished.outcome);
    let (number, run) = (finished.task.number, finished.run);
    tell(word, number, run, finished.user_data, last)
}

/// The data of a task, if any.
fn data_of(data: Option<u64>) -> Words<'static> {
    match data {
        Some(data) => with_one("data", data),
        None => lone("none"),
    }
}

/// The number of a task, if any.
fn number_of(task: Option<&TaskRef>) -> Words<'static> {
    match task {
        Some(task) => with_one("task", task.number),
        None => lone("none"),
    }
}

//! What is done with an executor, and what is told then. A task is its number and its slot.

use crate::told::{
    byte_of, call_error, cancelled, due_of, effect_of, is_first, is_so, made, outcome_of, short_of,
    task_of, which_of,
};
use crate::words::{Words, lone, tell, with_one};
use executor_model::EventError;
use live_core::{
    Asked, Begun, CallError, Ended, ScheduledExecutor, StartError, Submitted, TaskRef,
};
use sched_time::Ending;
use std::alloc::Allocator;

/// Does one step. A call has its moment first.
pub fn do_step<A: Allocator>(
    executor: &mut ScheduledExecutor<A>,
    step: Words<'_>,
) -> Words<'static> {
    match step.word {
        "schedule" | "execute" | "at_rate" | "with_delay" => submit(executor, step),
        "clock" | "start" | "finish" | "fail" => meet(executor, step),
        "cancel" | "cancel_number" => cancel(executor, step),
        "cancel_by_call" | "cancel_number_by_call" => cancel_by_call(executor, step),
        "set_continue" | "set_execute" | "set_remove" => set_policy(executor, step),
        "shut_down" | "shut_down_now" | "ask" | "reserve" => shut(executor, step),
        "purge" => purged(executor),
        _ => look(executor, step),
    }
}

/// Submits.
fn submit<A: Allocator>(executor: &mut ScheduledExecutor<A>, step: Words<'_>) -> Words<'static> {
    let (at, first, period) = (step.first, step.second, step.third);
    match step.word {
        "schedule" => submitted(executor.schedule(at, first)),
        "execute" => submitted(executor.execute(at)),
        "at_rate" => submitted(executor.at_rate(at, first, period)),
        _ => submitted(executor.with_delay(at, first, period)),
    }
}

/// Meets what a clock shows, or what a worker does.
fn meet<A: Allocator>(executor: &mut ScheduledExecutor<A>, step: Words<'_>) -> Words<'static> {
    let (first, second) = (step.first, step.second);
    match step.word {
        "clock" => shown(executor.clock(first)),
        "start" => begun(executor.start(byte_of(first))),
        "finish" => ended(executor.finish(byte_of(first), Ending::Value(second))),
        _ => ended(executor.finish(byte_of(first), Ending::Fault(short_of(second)))),
    }
}

/// Cancels from outside.
fn cancel<A: Allocator>(executor: &mut ScheduledExecutor<A>, step: Words<'_>) -> Words<'static> {
    let (number, slot) = (step.first, step.second);
    let cancelled = match step.word {
        "cancel" => executor.cancel(task_of(number, slot)),
        _ => executor.cancel_number(number),
    };
    match cancelled {
        Ok(effect) => effect_of(effect),
        Err(error) => event_error(error),
    }
}

/// Cancels by a call.
fn cancel_by_call<A: Allocator>(
    executor: &mut ScheduledExecutor<A>,
    step: Words<'_>,
) -> Words<'static> {
    let (at, number, slot) = (step.first, step.second, step.third);
    match step.word {
        "cancel_by_call" => cancelled(executor.cancel_by_call(at, task_of(number, slot))),
        _ => cancelled(executor.cancel_number_by_call(at, number)),
    }
}

/// Sets a policy.
fn set_policy<A: Allocator>(
    executor: &mut ScheduledExecutor<A>,
    step: Words<'_>,
) -> Words<'static> {
    let (at, value) = (step.first, step.second);
    made(executor.set_policy(at, which_of(step.word), value == 1))
}

/// Shuts down, asks, or makes room.
fn shut<A: Allocator>(executor: &mut ScheduledExecutor<A>, step: Words<'_>) -> Words<'static> {
    let first = step.first;
    match step.word {
        "shut_down" => is_first(executor.shut_down(first)),
        "shut_down_now" => made(executor.shut_down_now(first)),
        "ask" => asked(executor.ask(first)),
        _ => made(executor.reserve(short_of(first))),
    }
}

/// Purges.
fn purged<A: Allocator>(executor: &mut ScheduledExecutor<A>) -> Words<'static> {
    executor.purge();
    lone("purged")
}

/// Looks, and changes nothing.
pub fn look<A: Allocator>(executor: &ScheduledExecutor<A>, step: Words<'_>) -> Words<'static> {
    let (number, slot) = (step.first, step.second);
    match step.word {
        "look" => tell("looks", executor.now(), executor.len() as u64, 0, 0),
        "next_due" => due_of(executor.next_due()),
        "head_due" => due_of(executor.head_due()),
        "is_waiting" => is_so("waits", executor.is_waiting(task_of(number, slot))),
        "holds" => is_so("holds", executor.holds(task_of(number, slot))),
        "policies" => policies(executor),
        "is_shut" => is_so("shut", executor.is_shut()),
        "numbers" => with_one("numbers", executor.numbers()),
        "is_full" => is_so("full", executor.is_full()),
        "ends" => ends(executor.ended()),
        _ => lone("no such step"),
    }
}

/// What a submission tells: its task, and the due moment of the first run; or its number, where it is rejected.
fn submitted(answer: Result<Submitted, CallError>) -> Words<'static> {
    match answer {
        Ok(Submitted::Accepted { task, due }) => {
            tell("accepted", task.number, u64::from(task.slot), due, 0)
        }
        Ok(Submitted::Rejected { number }) => with_one("rejected", number),
        Err(error) => call_error(error),
    }
}

/// What a clock tells.
fn shown(answer: Result<(), EventError>) -> Words<'static> {
    match answer {
        Ok(()) => lone("made"),
        Err(error) => event_error(error),
    }
}

/// What an ask tells: how many tasks are queued, how many run, and whether the executor is shut, and terminated.
fn asked(answer: Result<Asked, CallError>) -> Words<'static> {
    match answer {
        Ok(asked) => tell(
            "asked",
            asked.queue as u64,
            asked.running as u64,
            u64::from(asked.shutdown),
            u64::from(asked.terminated),
        ),
        Err(error) => call_error(error),
    }
}

/// What a start tells: the task, the number of the run, and its due moment; or that no task is due, or that no number is left for
/// one more run.
fn begun(answer: Result<Option<Begun>, StartError>) -> Words<'static> {
    match answer {
        Ok(Some(begun)) => {
            let TaskRef { number, slot } = begun.task;
            tell("begun", number, u64::from(slot), begun.run, begun.due)
        }
        Ok(None) => lone("idle"),
        Err(StartError::Refused(error)) => event_error(error),
        Err(StartError::Full) => lone("no_run"),
    }
}

/// What the end of a run tells.
fn ended(answer: Result<Ended, EventError>) -> Words<'static> {
    match answer {
        Ok(ended) => parts_of(ended),
        Err(error) => event_error(error),
    }
}

/// What a run that has ended tells: the task, the number of the run, and what the outcome is with.
fn parts_of(ended: Ended) -> Words<'static> {
    let (word, last) = outcome_of(ended.outcome);
    let TaskRef { number, slot } = ended.task;
    tell(word, number, u64::from(slot), ended.run, last)
}

/// Whether periodic tasks go on, delayed ones still run, and cancelled ones leave the queue.
fn policies<A: Allocator>(executor: &ScheduledExecutor<A>) -> Words<'static> {
    let policies = executor.policies();
    let continues = u64::from(policies.continues);
    let executes = u64::from(policies.executes);
    tell(
        "policies",
        continues,
        executes,
        u64::from(policies.removes),
        0,
    )
}

/// How many tasks the last happening ended, and their numbers as the digits of a number: 1 and then 2 is 12.
fn ends(tasks: &[TaskRef]) -> Words<'static> {
    let mut digits: u64 = 0;
    for task in tasks {
        digits = digits.saturating_mul(10).saturating_add(task.number);
    }
    tell("ends", tasks.len() as u64, digits, 0, 0)
}

/// Why an event is refused.
fn event_error(error: EventError) -> Words<'static> {
    match error {
        EventError::Backward => lone("backward"),
        EventError::TooFar => lone("too_far"),
        EventError::NoWorker => lone("no_worker"),
        EventError::Busy => lone("busy"),
        EventError::NotRunning => lone("not_running"),
        EventError::NoTask => lone("no_task"),
    }
}

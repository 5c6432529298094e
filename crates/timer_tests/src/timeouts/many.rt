//! A thousand tasks, whose slots are used again.

use executor_model::CancelEffect;
use sched_time::{Ending, Which};
use std::alloc::{Allocator, Global};
use std::process::Abort;
use std::test::Fail;
use timers::{CallError, Run, Submitted, TaskRef, Timers};

/// What is given with the submission of a number.
fn data_of(number: u64) -> u64 {
    number.wrapping_mul(0x9E37_79B9_7F4A_7C15)
}

/// The task of a submission that was accepted.
fn task_of(answer: Result<Submitted, CallError>) -> Result<TaskRef, Fail> {
    match answer? {
        Submitted::Accepted { task, .. } => Ok(task),
        Submitted::Rejected { .. } => Err("it was rejected".into()),
    }
}

/// Whether timers have the data of a task's number.
fn holds<A: Allocator>(timers: &Timers<A>, task: TaskRef) -> bool {
    timers.user_data_of(task) == Some(data_of(task.number))
}

/// Whether timers have no data of a task.
fn lacks<A: Allocator>(timers: &Timers<A>, task: TaskRef) -> bool {
    timers.user_data_of(task).is_none()
}

/// Submits a task that is due so many nanoseconds later, with the data of its number.
fn submit<A: Allocator>(
    rt: &impl Abort,
    timers: &mut Timers<A>,
    now: u64,
    delay: u64,
) -> Result<TaskRef, Fail> {
    let number = timers.numbers();
    let task = task_of(timers.schedule(now, delay, data_of(number)))?;
    assert!(rt; task.number == number, "{number}");
    assert!(rt; holds(timers, task), "{number}");
    Ok(task)
}

/// Runs a task of those that are due at a moment, and tells whether one was.
fn run_one<A: Allocator>(rt: &impl Abort, timers: &mut Timers<A>, now: u64) -> Result<bool, Fail> {
    match timers.poll(now, 0)? {
        None => Ok(false),
        Some(run) => {
            assert!(rt; run.user_data == data_of(run.task.number), "{now}");
            assert!(rt; holds(timers, run.task), "{now}");
            assert!(rt; finishes(timers, now, run)?, "{now}");
            assert!(rt; lacks(timers, run.task), "{now}");
            Ok(true)
        }
    }
}

/// Ends a run, and tells whether the task and the data are those of the run.
fn finishes<A: Allocator>(timers: &mut Timers<A>, now: u64, run: Run) -> Result<bool, Fail> {
    let finished = timers.finish(now, 0, Ending::Value(run.user_data))?;
    Ok(finished.task == run.task && finished.user_data == run.user_data)
}

/// Runs each task of those that are due at a moment, and tells how many there were.
fn run_all<A: Allocator>(rt: &impl Abort, timers: &mut Timers<A>, now: u64) -> Result<usize, Fail> {
    for ran in 0..2_000usize {
        if !run_one(rt, timers, now)? {
            return Ok(ran);
        }
    }
    Err("the runs do not end".into())
}

/// Timers with one worker, from which a task leaves once it is cancelled.
fn removing_timers(alloc: Global) -> Result<Timers<Global>, Fail> {
    let mut timers = Timers::new(alloc, 1)?;
    timers.set_policy(0, Which::Remove, true)?;
    Ok(timers)
}

/// Submits ten tasks, and cancels one of them.
fn submit_ten<A: Allocator>(
    rt: &impl Abort,
    timers: &mut Timers<A>,
    now: u64,
    round: u64,
) -> Result<(), Fail> {
    for place in 0..10u64 {
        let delay = (place * 7).wrapping_add(round) % 13;
        let task = submit(rt, timers, now, delay)?;
        if place == 4 {
            assert!(rt; timers.cancel(task) == Ok(CancelEffect::Yes), "{round}");
            assert!(rt; lacks(timers, task), "{round}");
        }
    }
    Ok(())
}

#[test]
fn data_come_back_with_each_of_a_thousand_tasks(rt: HostRuntime) -> Result<(), Fail> {
    let mut timers = removing_timers(rt.alloc())?;
    let mut ran = 0usize;
    for round in 0..100u64 {
        submit_ten(&rt, &mut timers, round * 5 + 1, round)?;
        ran = ran.saturating_add(run_all(&rt, &mut timers, round * 5 + 6)?);
    }
    ran = ran.saturating_add(run_all(&rt, &mut timers, 601)?);
    assert!(rt; ran == 900);
    assert!(rt; timers.len() == 0);
    assert!(rt; timers.numbers() == 1_000);
    Ok(())
}

/// Submits so many tasks at a moment, of which the first is due at once, and each other one a nanosecond behind the one before it.
fn submit_all<A: Allocator>(
    rt: &impl Abort,
    timers: &mut Timers<A>,
    now: u64,
    tasks: u64,
) -> Result<(), Fail> {
    for place in 0..tasks {
        submit(rt, timers, now, place)?;
    }
    Ok(())
}

/// How many tasks are submitted and run, one lot behind the other: from no slot on, and where slots are used again.
const LOTS: &[u64] = &[1, 4, 5, 600, 1_500];

#[test]
fn no_want_of_memory_is_told_where_it_is_ample(rt: HostRuntime) -> Result<(), Fail> {
    let mut timers = Timers::new(rt.alloc(), 1)?;
    let mut now = 0u64;
    for &tasks in LOTS {
        submit_all(&rt, &mut timers, now, tasks)?;
        now = now.wrapping_add(tasks);
        assert!(rt;
            run_all(&rt, &mut timers, now)? == tasks as usize,
            "{tasks}"
        );
    }
    Ok(())
}

#[test]
fn data_are_told_of_each_task_that_is_ended(rt: HostRuntime) -> Result<(), Fail> {
    let mut timers = Timers::new(rt.alloc(), 1)?;
    submit_all(&rt, &mut timers, 0, 20)?;
    run_all(&rt, &mut timers, 9)?;
    submit_all(&rt, &mut timers, 9, 10)?;
    timers.shut_down_now(9)?;
    twenty_are_ended(&rt, &timers);
    Ok(())
}

/// Checks that the last call ended twenty tasks, and what is told of each.
fn twenty_are_ended<A: Allocator>(rt: &impl Abort, timers: &Timers<A>) {
    assert!(rt; timers.ended().len() == 20);
    assert!(rt; timers.len() == 0);
    for (place, task) in timers.ended().iter().enumerate() {
        let data = timers.ended_user_data(place);
        assert!(rt; data == Some(data_of(task.number)), "{place}");
        assert!(rt; lacks(timers, *task), "{place}");
    }
}

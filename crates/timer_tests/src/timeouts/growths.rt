//! Want of memory: each growth is refused in turn, and all before and behind it granted.

use super::steps::do_step;
use crate::words::tell;
use refusing_allocator::Refusing;
use std::alloc::{Allocator, Global};
use std::process::Abort;
use std::test::Fail;
use timers::{CallError, MakeError, Submitted, TaskRef, Timers};

/// What timers show.
#[derive(Clone, Copy, PartialEq, Eq)]
struct Shown {
    now: u64,
    numbers: u64,
    len: usize,
    next_due: Option<u64>,
}

fn show<A: Allocator>(timers: &Timers<A>) -> Shown {
    Shown {
        now: timers.now(),
        numbers: timers.numbers(),
        len: timers.len(),
        next_due: timers.next_due(),
    }
}

/// The task of a submission, none where memory was wanted, and an error where it is refused for another reason.
fn task_of(answer: Result<Submitted, CallError>) -> Result<Option<TaskRef>, Fail> {
    match answer {
        Ok(Submitted::Accepted { task, .. }) => Ok(Some(task)),
        Ok(Submitted::Rejected { .. }) => Err("it was rejected".into()),
        Err(CallError::Memory) => Ok(None),
        Err(error) => Err(error.into()),
    }
}

/// Submits, and tells whether memory was wanted, where nothing has changed.
fn is_refused<A: Allocator>(
    rt: &impl Abort,
    timers: &mut Timers<A>,
    data: u64,
) -> Result<bool, Fail> {
    let before = show(timers);
    match task_of(timers.schedule(3, 5, data))? {
        Some(task) => {
            assert!(rt; timers.user_data_of(task) == Some(data), "{data}");
            Ok(false)
        }
        None => {
            assert!(rt; show(timers) == before, "{data}");
            Ok(true)
        }
    }
}

/// Submits 30 tasks, each again where memory was wanted, and tells whether it was.
fn submit_all<A: Allocator>(rt: &impl Abort, timers: &mut Timers<A>) -> Result<bool, Fail> {
    let mut refused = false;
    for data in 100..130u64 {
        if is_refused(rt, timers, data)? {
            let again = is_refused(rt, timers, data)?;
            assert!(rt; !again, "{data}");
            refused = true;
        }
    }
    Ok(refused)
}

/// Makes room, again where memory was wanted and nothing changed, and tells whether it was.
fn reserve<A: Allocator>(rt: &impl Abort, timers: &mut Timers<A>) -> Result<bool, Fail> {
    let before = show(timers);
    match timers.reserve(100) {
        Ok(()) => Ok(false),
        Err(error) => {
            assert!(rt; error == CallError::Memory);
            assert!(rt; show(timers) == before);
            timers.reserve(100)?;
            Ok(true)
        }
    }
}

/// Runs the 30 tasks, in their order.
fn run_all<A: Allocator>(rt: &impl Abort, timers: &mut Timers<A>) {
    for number in 0..30u64 {
        let data = number.saturating_add(100);
        let told = do_step(timers, tell("poll", 8, 0, 0, 0));
        assert!(rt; told == tell("begun", number, 0, 8, data), "{data}");
        let told = do_step(timers, tell("finish", 8, 0, 0, 0));
        assert!(rt; told == tell("done", number, 0, data, 0), "{data}");
    }
}

/// Submits 30 tasks, makes room, and runs them, and tells whether want of memory was told.
fn play<A: Allocator>(rt: &impl Abort, timers: &mut Timers<A>) -> Result<bool, Fail> {
    let submits = submit_all(rt, timers)?;
    let reserves = reserve(rt, timers)?;
    run_all(rt, timers);
    Ok(submits || reserves)
}

/// Makes timers and plays with them, with a growth refused, and tells whether want of memory was told.
fn play_refused(rt: &impl Abort, heap: &Refusing<Global>) -> Result<bool, Fail> {
    match Timers::new(heap, 2) {
        Ok(mut timers) => play(rt, &mut timers),
        Err(error) => {
            assert!(rt; error == MakeError::Memory);
            play(rt, &mut Timers::new(heap, 2)?)?;
            Ok(true)
        }
    }
}

#[test]
fn each_growth_may_be_refused(rt: HostRuntime) -> Result<(), Fail> {
    for number in 1..1_000u64 {
        let heap = Refusing::new(rt.alloc());
        heap.refuse(number);
        let refused = play_refused(&rt, &heap)?;
        assert!(rt; heap.used() == 0, "{number}");
        assert!(rt; heap.has_refused() == refused, "{number}");
        if !refused {
            assert!(rt; number > 10);
            return Ok(());
        }
    }
    Err("a growth was refused each time".into())
}

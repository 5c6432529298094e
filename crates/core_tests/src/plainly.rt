//! Calls that come where they are put, and not just before a clock. `trace_check` has the plain program answer the events of all
//! rows of the crate `scripted_runs`.
mod cores;
mod usage;

use crate::said::text_of_lines;
use cores::calls::{code_of, instrs_of};
use executor_model::{Happening, Line};
use executor_plain::{planned_calls, trace_of_happenings};
use queue_code::Code;
use std::alloc::{AllocError, Allocator, Global};
use std::process::Abort;
use std::test::Fail;

/// What is said of a task that is submitted and cancelled while its worker runs it.
const SAID: &str = "\
0 Answer(Idle { worker: 0 })
5 Answer(Submit { task: 0, kind: Schedule, due: 5 })
5 Answer(Start { worker: 0, task: 0, run: 0, due: 5 })
5 Answer(Cancel { task: 0, effect: Yes })
9 Answer(Clock)
";

/// A task that is submitted, and cancelled.
const CALLS: &str = "submit 5 0\ncancel 5 0";

/// What happens: each call comes behind a start.
const HAPPENED: &[Happening] = &[
    Happening::Start(0),
    Happening::Call,
    Happening::Start(0),
    Happening::Call,
    Happening::Clock(9),
];

/// The lines of what happens, as the plain program tells them of these calls.
fn plain_lines(alloc: Global, calls: &str, happened: &[Happening]) -> Result<Vec<Line>, Fail> {
    let code = code_of(alloc, &instrs_of(alloc, calls)?)?;
    // Its calls are in order, as the plain program asks.
    let _count = code.calls();
    let made = planned_calls(alloc, &code)?;
    Ok(trace_of_happenings(alloc, &made, 1, happened)?)
}

#[test]
fn calls_come_where_they_are_put(rt: HostRuntime) -> Result<(), Fail> {
    let lines = plain_lines(rt.alloc(), CALLS, HAPPENED)?;
    let said = text_of_lines(rt.alloc(), &lines)?;
    assert!(rt; said.as_str() == SAID, "{said}");
    Ok(())
}

/// What is said of two tasks that are cancelled while they wait, and of the purges that take them out of the queue.
const PURGED: &str = "\
0 Answer(Submit { task: 0, kind: Schedule, due: 4 })
0 Answer(Submit { task: 1, kind: Schedule, due: 6 })
0 Answer(Cancel { task: 0, effect: Yes })
0 Answer(Ask { queue: 2, running: 0, shutdown: false, terminated: false })
0 Answer(Purge)
0 Answer(Ask { queue: 1, running: 0, shutdown: false, terminated: false })
0 Answer(Shutdown)
0 Answer(Outside { task: 1, effect: Yes })
0 Answer(Purge)
0 Answer(Ask { queue: 0, running: 0, shutdown: true, terminated: true })
";

/// Two tasks, of which the first is cancelled by a call.
const PURGED_CALLS: &str = "submit 0 4\nsubmit 0 6\ncancel 0 0\nask 0\nask 0\nshut_down 0\nask 0";

/// What happens: a purge before a question, and one behind the shutdown.
const PURGES: &[Happening] = &[
    Happening::Call,
    Happening::Call,
    Happening::Call,
    Happening::Call,
    Happening::Purge,
    Happening::Call,
    Happening::Call,
    Happening::Cancel(1),
    Happening::Purge,
    Happening::Call,
];

#[test]
fn purges_take_what_is_kept(rt: HostRuntime) -> Result<(), Fail> {
    let lines = plain_lines(rt.alloc(), PURGED_CALLS, PURGES)?;
    let said = text_of_lines(rt.alloc(), &lines)?;
    assert!(rt; said.as_str() == PURGED, "{said}");
    Ok(())
}

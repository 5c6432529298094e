//! Room that is made ahead.

use super::steps::do_step;
use super::{play_cases, play_text};
use crate::words::with_one;
use live_core::ScheduledExecutor;
use refusing_allocator::Refusing;
use std::alloc::{AllocGlobal, Allocator, Global};
use std::process::Abort;
use std::test::Fail;

const CASES: &str = "\
room is made for so many tasks in all
reserve 0 | made
is_full | full true
reserve 3 | made
reserve 2 | made
reserve 3 | made
is_full | full false
look | looks 0 0
numbers | numbers 0
execute 0 | accepted 0 2 0
execute 0 | accepted 1 1 0
reserve 5 | made
execute 0 | accepted 2 4 0
execute 0 | accepted 3 3 0
execute 0 | accepted 4 0 0
is_full | full true
execute 0 | accepted 5 13 0
is_full | full false
look | looks 0 6
";

#[test]
fn each_room_is_told_as_its_rows_have_it(rt: HostRuntime) -> Result<(), Fail> {
    play_cases(&rt, CASES)
}

/// One task more than a room is for has none.
const FULL: &str = "a room that is taken\nexecute 0 | memory";

#[test]
fn a_reserved_room_is_taken_without_memory(rt: HostRuntime) -> Result<(), Fail> {
    let heap = Refusing::new(rt.alloc());
    let mut executor = ScheduledExecutor::new(&heap, 1)?;
    for tasks in [1u32, 2, 3, 10] {
        takes_no_memory(&rt, &heap, &mut executor, tasks);
        play_text(&rt, &mut executor, FULL)?;
        assert!(rt; empties(&mut executor, tasks), "{tasks}");
    }
    Ok(())
}

/// Makes room for so many tasks, and checks that it is taken, and taken again, without memory.
fn takes_no_memory<A: Allocator>(
    rt: &impl Abort,
    heap: &Refusing<Global>,
    executor: &mut ScheduledExecutor<A>,
    tasks: u32,
) {
    let told = do_step(executor, with_one("reserve", u64::from(tasks)));
    assert!(rt; told.word == "made", "{tasks}");
    heap.refuse(1);
    assert!(rt; fills(executor, tasks), "{tasks}");
    for round in 0..50 {
        assert!(rt; runs_one(executor), "{tasks} {round}");
    }
    assert!(rt; !heap.has_refused(), "{tasks}");
}

/// Does a step with a 0, and tells whether this is told.
fn tells<A: Allocator>(executor: &mut ScheduledExecutor<A>, step: &str, wanted: &str) -> bool {
    let told = do_step(executor, with_one(step, 0));
    told.word == wanted
}

/// Submits so many tasks, and tells whether each was accepted.
fn fills<A: Allocator>(executor: &mut ScheduledExecutor<A>, tasks: u32) -> bool {
    let mut accepted = true;
    for _ in 0..tasks {
        accepted = tells(executor, "execute", "accepted") && accepted;
    }
    accepted
}

/// Runs the first task, submits another, and tells whether that was accepted.
fn runs_one<A: Allocator>(executor: &mut ScheduledExecutor<A>) -> bool {
    run(executor) && tells(executor, "execute", "accepted")
}

/// Runs so many tasks, and tells whether each was run.
fn empties<A: Allocator>(executor: &mut ScheduledExecutor<A>, tasks: u32) -> bool {
    let mut ran = true;
    for _ in 0..tasks {
        ran = run(executor) && ran;
    }
    ran
}

/// Runs the first task, and tells whether there was one.
fn run<A: Allocator>(executor: &mut ScheduledExecutor<A>) -> bool {
    tells(executor, "start", "begun") && tells(executor, "finish", "done")
}

/// How many tasks are submitted and run, one lot behind the other: from no slot on, and where slots are used again.
const LOTS: &[u32] = &[1, 4, 5, 1_000, 5_000];

#[test]
fn no_want_of_memory_is_told_where_it_is_ample(rt: HostRuntime) -> Result<(), Fail> {
    let mut executor = ScheduledExecutor::new(rt.alloc(), 1)?;
    for tasks in LOTS {
        assert!(rt; fills(&mut executor, *tasks), "{tasks}");
        assert!(rt; empties(&mut executor, *tasks), "{tasks}");
    }
    Ok(())
}

//! Slots that are used again, and many tasks.

use super::steps::do_step;
use super::{play_cases, play_text};
use crate::words::tell;
use live_core::ScheduledExecutor;
use std::alloc::{AllocGlobal, Allocator};
use std::process::Abort;
use std::test::Fail;

const CASES: &str = "\
a stale name is answered of its own number
execute 0 | accepted 0 3 0
start 0 | begun 0 3 0 0
finish 0 1 | done 0 3 0 1
execute 0 | accepted 1 3 0
is_waiting 0 3 | waits false
is_waiting 1 3 | waits true
cancel 0 3 | no
cancel_by_call 0 0 3 | no
cancel_number 0 | no
is_waiting 1 3 | waits true
cancel_number 1 | yes
start 0 | idle
execute 0 | accepted 2 3 0
cancel_number 1 | no
is_waiting 2 3 | waits true

slots grow where all are taken
schedule 0 9 | accepted 0 3 9
schedule 0 8 | accepted 1 2 8
schedule 0 7 | accepted 2 1 7
schedule 0 6 | accepted 3 0 6
schedule 0 5 | accepted 4 11 5
look | looks 0 5
clock 9 | made
start 0 | begun 4 11 0 5
start 1 | begun 3 0 0 6
cancel_number 0 | yes
finish 1 1 | done 3 0 0 1
execute 0 | accepted 5 0 10
execute 0 | accepted 6 10 10
start 1 | begun 2 1 0 7

what is noted of tasks that are over makes room
schedule 0 9 | accepted 0 3 9
execute 0 | accepted 1 2 0
start 0 | begun 1 2 0 0
finish 0 1 | done 1 2 0 1
schedule 0 9 | accepted 2 2 9
schedule 0 9 | accepted 3 1 9
schedule 0 9 | accepted 4 0 9
schedule 0 9 | accepted 5 11 9
cancel_number 0 | yes
cancel_number 1 | no
cancel_number 2 | yes
cancel_number 3 | yes
cancel_number 4 | yes
cancel_number 5 | yes
";

#[test]
fn each_slot_is_told_as_its_rows_have_it(rt: HostRuntime) -> Result<(), Fail> {
    play_cases(&rt, CASES)
}

/// A task that waits long.
const FIRST: &str = "the first task\nschedule 0 1099511627776 | accepted 0 3 1099511627776";

/// It is found after all others.
const LAST: &str = "the first task again\ncancel_number 0 | yes\nlook | looks 0 1";

#[test]
fn a_task_finds_its_place_again_after_many_others(rt: HostRuntime) -> Result<(), Fail> {
    let mut executor = ScheduledExecutor::new(rt.alloc(), 2)?;
    play_text(&rt, &mut executor, FIRST)?;
    for number in 1..1_000u64 {
        runs_one(&rt, &mut executor, number)?;
    }
    play_text(&rt, &mut executor, LAST)
}

/// Submits a task, and runs it, in the slot that the one before it had.
fn runs_one<A: Allocator>(
    rt: &(impl AllocGlobal + Abort),
    executor: &mut ScheduledExecutor<A>,
    number: u64,
) -> Result<(), Fail> {
    let case = format!(in rt.alloc();
        "\
one task
execute 0 | accepted {number} 2 0
start 1 | begun {number} 2 0 0
finish 1 {number} | done {number} 2 0 {number}
cancel_number {number} | no
look | looks 0 1
"
    )?;
    play_text(rt, executor, &case)
}

#[test]
fn each_of_many_tasks_is_cancelled_by_its_number(rt: HostRuntime) -> Result<(), Fail> {
    let mut executor = ScheduledExecutor::new(rt.alloc(), 1)?;
    play_text(&rt, &mut executor, "a policy\nset_remove 0 true | made")?;
    for round in 0..3u64 {
        submits_thousand(&rt, &mut executor);
        play_text(&rt, &mut executor, "all\nlook | looks 0 1000")?;
        for place in 0..1_000u64 {
            // Each number of the round once, in no order.
            cancels_twice(&rt, &mut executor, round * 1_000 + place * 567 % 1_000)?;
        }
        play_text(&rt, &mut executor, "none\nlook | looks 0 0")?;
    }
    Ok(())
}

/// Submits a thousand tasks.
fn submits_thousand<A: Allocator>(rt: &impl Abort, executor: &mut ScheduledExecutor<A>) {
    for _ in 0..1_000 {
        let told = do_step(executor, tell("schedule", 0, 5, 0, 0));
        assert!(rt; told.word == "accepted");
    }
}

/// Cancels a task by its number, and again.
fn cancels_twice<A: Allocator>(
    rt: &(impl AllocGlobal + Abort),
    executor: &mut ScheduledExecutor<A>,
    number: u64,
) -> Result<(), Fail> {
    let case = format!(in rt.alloc();
        "\
cancels
cancel_number {number} | yes
cancel_number {number} | no
"
    )?;
    play_text(rt, executor, &case)
}

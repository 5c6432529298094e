//! Tests of the executor: cases of what is done with one, and what is told then.
mod cancels;
mod events;
mod growths;
mod lines;
mod moments;
mod purges;
mod restoring;
mod rooms;
mod shutting;
mod slots;
mod steps;
mod submissions;
mod tables;
mod usage;

use crate::words::{Row, compare, read_rows};
use growths::{refuse_each, refuse_firsts};
use live_core::{MakeError, ScheduledExecutor};
use restoring::play_restored;
use std::alloc::{AllocGlobal, Allocator};
use std::process::Abort;
use std::test::Fail;
use steps::do_step;

/// Does what stands in each row, one after the other, and compares what is told.
fn play_rows<A: Allocator>(rt: &impl Abort, executor: &mut ScheduledExecutor<A>, rows: &[Row<'_>]) {
    for row in rows {
        let told = do_step(executor, row.step);
        compare(rt, row, told);
    }
}

/// Does the same with the rows of a case.
fn play_text<A: Allocator>(
    rt: &(impl AllocGlobal + Abort),
    executor: &mut ScheduledExecutor<A>,
    case: &str,
) -> Result<(), Fail> {
    let rows = read_rows(rt.alloc(), case)?;
    play_rows(rt, executor, &rows);
    Ok(())
}

/// Does the same with new executors of two workers: with ample memory, with a new one for each row that is restored from the one
/// before, with the first growth of each step refused, and with each growth of all steps refused in turn.
fn play_case(rt: &(impl AllocGlobal + Abort), case: &str) -> Result<(), Fail> {
    let rows = read_rows(rt.alloc(), case)?;
    let mut executor = ScheduledExecutor::new(rt.alloc(), 2)?;
    play_rows(rt, &mut executor, &rows);
    play_restored(rt, &rows)?;
    refuse_firsts(rt, &rows)?;
    refuse_each(rt, &rows)
}

/// Does the same with each case.
fn play_cases(rt: &(impl AllocGlobal + Abort), cases: &str) -> Result<(), Fail> {
    for case in cases.split("\n\n") {
        play_case(rt, case)?;
    }
    Ok(())
}

/// Numbers of workers, and what is told where an executor is made for so many.
const WORKERS: &[(u8, &str)] = &[
    (0, "workers"),
    (1, "made"),
    (64, "made"),
    (65, "made"),
    (255, "made"),
];

/// What is told where an executor is made.
fn word_of(error: Option<MakeError>) -> &'static str {
    match error {
        None => "made",
        Some(MakeError::Workers) => "workers",
        Some(MakeError::Memory) => "memory",
    }
}

#[test]
fn workers_are_1_to_255(rt: HostRuntime) {
    for (workers, wanted) in WORKERS {
        let error = ScheduledExecutor::new(rt.alloc(), *workers).err();
        assert!(rt; word_of(error) == *wanted, "{workers}");
    }
}

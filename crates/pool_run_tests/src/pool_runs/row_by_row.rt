//! Rows of plans and events: a pool runs each plan through the clocks of its row, where there is nothing but clocks.
use super::{conforms, ran};
use sched_engine::RunError;
use scripted_runs::{Row, TOPICS, topic};
use std::process::Abort;
use std::sync::Wait;
use std::test::Fail;
use std::thread::Threads;

/// Checks that what a pool writes of a row is a trace of its plan, and the trace of the row where no task was started.
fn runs<R: Threads + Wait + Sync + AllocGlobal + Abort>(rt: &R, row: &Row) -> Result<(), Fail> {
    let alloc = rt.alloc();
    let (answer, text) = ran(rt, alloc, row.plan, row.workers, 10_000, row.events, 65_536);
    assert!(rt;
        matches!(answer, Ok(_) | Err(RunError::Full)),
        "{}",
        row.name
    );
    conforms(rt, row.plan, row.workers, &text)?;
    let text = str::from_utf8(&text)?;
    assert!(rt;
        text.contains(" start ") || text == row.trace,
        "{}",
        row.name
    );
    Ok(())
}

#[test]
fn a_pool_runs_each_row_of_clocks(rt: HostRuntime) -> Result<(), Fail> {
    let mut count = 0u32;
    for number in 0..TOPICS {
        for row in topic(number) {
            if row.events.lines().all(|line| line.starts_with("clock ")) {
                runs(&rt, row)?;
                count = count.saturating_add(1);
            }
        }
    }
    assert!(&rt; count > 0);
    Ok(())
}

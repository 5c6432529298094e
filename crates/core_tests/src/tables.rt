//! The example of the page.
use executor_core::plan_table::plan_table;
use sched_time::Timing;
use std::process::Abort;
use std::test::Fail;

#[test]
fn a_table_keeps_the_tasks_of_a_plan(rt: HostRuntime) -> Result<(), Fail> {
    let alloc = rt.alloc();
    // example: executor_core::plan_table
    let mut table = plan_table(alloc, 2, 1)?; // two tasks, one worker
    let due = table.admit(0, 0, 3, Timing::Once, 4);
    assert_eq!(rt; due, 7);
    assert!(rt; table.seat(0).is_some());
    assert!(rt; table.seat(1).is_none()); // not submitted yet
    assert_eq!(rt; table.stored().uncancelled(), 2);
    // end of example
    Ok(())
}

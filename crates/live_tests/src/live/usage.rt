//! The examples of the comments, as they stand there: `tools/docs` compares them.

use executor_model::{CancelEffect, Outcome};
use live_core::{CallError, ScheduledExecutor, Submitted};
use sched_time::Ending;
use std::alloc::Global;
use std::process::Abort;
use std::test::Fail;

#[test]
fn the_page_is_run(rt: HostRuntime) -> Result<(), Fail> {
    let alloc = rt.alloc();
    // example: live_core
    let mut executor = ScheduledExecutor::new(alloc, 2)?;
    // end of example
    submits(&rt, &mut executor)?;
    runs(&rt, &mut executor)?;
    goes_on(&rt, &mut executor)?;
    shuts(&rt, &mut executor)
}

fn submits(rt: &impl Abort, executor: &mut ScheduledExecutor<Global>) -> Result<(), Fail> {
    // example: live_core
    executor.schedule(0, 5)?; // task 0 is accepted, and due at 5
    executor.at_rate(0, 3, 10)?; // task 1 is due at 3, 13, 23 and so on
    assert_eq!(rt; executor.next_due(), Some(3));
    // end of example
    Ok(())
}

fn runs(rt: &impl Abort, executor: &mut ScheduledExecutor<Global>) -> Result<(), Fail> {
    // example: live_core
    executor.clock(3)?;
    let begun = executor.start(0)?;
    assert_eq!(rt; begun.map(|run| (run.task.number, run.due)), Some((1, 3)));
    let ended = executor.finish(0, Ending::Value(7))?;
    assert_eq!(rt; ended.outcome, Outcome::Again(13));
    // end of example
    Ok(())
}

fn goes_on(rt: &impl Abort, executor: &mut ScheduledExecutor<Global>) -> Result<(), Fail> {
    // example: live_core
    assert_eq!(rt; executor.cancel_number(0)?, CancelEffect::Yes); // task 0 is kept in the queue
    executor.clock(13)?;
    let begun = executor.start(1)?; // task 0 is met, and leaves
    assert_eq!(rt; begun.map(|run| (run.task.number, run.run)), Some((1, 1)));
    assert_eq!(rt; executor.len(), 1);
    // end of example
    Ok(())
}

fn shuts(rt: &impl Abort, executor: &mut ScheduledExecutor<Global>) -> Result<(), Fail> {
    // example: live_core
    assert!(rt; executor.shut_down(13)?); // the first call to shut down, at 14
    assert_eq!(rt; executor.execute(14)?, Submitted::Rejected { number: 2 });
    let ended = executor.finish(1, Ending::Value(8))?; // no run comes after it
    assert_eq!(rt; (ended.outcome, executor.len()), (Outcome::Ended, 0));
    // end of example
    Ok(())
}

#[test]
fn a_task_is_submitted(rt: HostRuntime) -> Result<(), Fail> {
    let alloc = rt.alloc();
    // example: live_core::ScheduledExecutor::schedule
    let mut executor = ScheduledExecutor::new(alloc, 1)?;
    executor.schedule(7, 5)?; // at moment 7, and due 5 nanoseconds later
    assert_eq!(rt; (executor.len(), executor.next_due()), (1, Some(12)));
    assert_eq!(rt;
        executor.schedule(7, u64::MAX).err(),
        Some(CallError::TooLong)
    );
    executor.shut_down(8)?;
    assert_eq!(rt; executor.schedule(8, 5)?, Submitted::Rejected { number: 1 });
    // end of example
    Ok(())
}

#[test]
fn an_executor_is_restored(rt: HostRuntime) -> Result<(), Fail> {
    let alloc = rt.alloc();
    // example: live_core::ScheduledExecutor::restore
    let mut executor = ScheduledExecutor::new(alloc, 1)?;
    executor.schedule(7, 5)?;
    let frame = executor.frame();
    let tasks = executor.images(alloc)?;
    let empty = executor.empty_slots();
    let other = ScheduledExecutor::restore(alloc, &frame, &tasks, empty)?;
    assert_eq!(rt;
        (other.now(), other.len(), other.next_due()),
        (7, 1, Some(12))
    );
    // end of example
    Ok(())
}

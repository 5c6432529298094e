//! The rows of the crate `scripted_runs`, from plan bytes to trace bytes.
use super::*;
use scripted_runs::{Row, TOPICS, topic};

/// Checks the run of a row, whose limit is the number of its events.
fn runs(rt: &(impl AllocGlobal + Abort), row: &Row) -> Result<(), Fail> {
    let events = u32::try_from(row.events.lines().count())?;
    let lines = u64::try_from(row.trace.lines().count())?;
    let limit = events.max(1);
    let told = (Ok(report(events, lines)), row.trace);
    answers(rt, row.name, row.plan, row.workers, limit, row.events, told);
    Ok(())
}

#[test]
fn each_row_is_run(rt: HostRuntime) -> Result<(), Fail> {
    for number in 0..TOPICS {
        for row in topic(number) {
            runs(&rt, row)?;
        }
    }
    Ok(())
}

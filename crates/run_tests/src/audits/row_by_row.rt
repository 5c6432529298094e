//! The rows of the crate `scripted_runs`, run and checked.
use super::*;
use scripted_runs::{Row, TOPICS, topic};

/// Checks the run of a row.
fn row_conforms(rt: &(impl AllocGlobal + Abort), row: &Row) -> Result<(), Fail> {
    let events = u32::try_from(row.events.lines().count())?;
    let lines = u64::try_from(row.trace.lines().count())?;
    let wanted = Run {
        name: row.name,
        plan: row.plan,
        workers: row.workers,
        limit: u32::MAX,
        events: row.events,
        answer: Ok(Report { events, lines }),
        trace: row.trace,
    };
    conforms(rt, &wanted)
}

#[test]
fn each_row_conforms(rt: HostRuntime) -> Result<(), Fail> {
    for number in 0..TOPICS {
        for row in topic(number) {
            row_conforms(&rt, row)?;
        }
    }
    Ok(())
}

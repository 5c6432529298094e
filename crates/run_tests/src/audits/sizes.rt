//! Sizes of real use: an answer of want of memory where memory is, and a limit that no page names, are met here.

use byte_ends::Writing;
use plan_list::write_listing;
use plan_read::read_plan;
use sched_audit::{Audit, run_and_check};
use sched_engine::{Report, RunError, run_in_memory};
use std::alloc::Global;
use std::process::Abort;
use std::test::Fail;
use trace_check::{Finding, MOST_BYTES, check};

/// The plan of one task that is due at 10 and then each 10 nanoseconds.
const RATE: &str =
    "version = 1\n\n[[block]]\n\n[[block.call]]\nop = \"rate\"\nname = \"a\"\nfirst = 10\nperiod = 10\n";

/// How often the task is run.
const RUNS: u32 = 1_000;

/// The events of one worker that takes each run in time.
fn events(alloc: Global) -> Result<String, Fail> {
    let mut events = String::new(alloc);
    for run in 0..RUNS {
        let now = 10 * u64::from(run) + 10;
        write!(events, "clock {now}\nstart 0\nfinish 0 ok {run}\n")?;
    }
    Ok(events)
}

/// What they are answered.
fn trace(alloc: Global) -> Result<String, Fail> {
    let mut trace = String::from_str(alloc, "0 submit 0 rate due 10\n")?;
    for run in 0..RUNS {
        let now = 10 * u64::from(run) + 10;
        let next = now + 10;
        write!(trace, "{now} clock\n")?;
        write!(trace, "{now} start 0 task 0 run {run} due {now}\n")?;
        write!(trace, "{now} finish 0 task 0 run {run} again due {next}\n")?;
    }
    Ok(trace)
}

/// The end of a run that took these events.
const REPORT: Result<Report, RunError> = Ok(Report {
    events: 3 * RUNS,
    lines: 3 * RUNS as u64 + 1,
});

#[test]
fn a_run_in_memory_is_whole(rt: HostRuntime) -> Result<(), Fail> {
    let alloc = rt.alloc();
    let events = events(alloc)?;
    let trace = trace(alloc)?;
    assert!(rt; trace.len() > 80_000);
    let (answer, output) = run_in_memory(alloc, RATE.as_bytes(), 1, 3 * RUNS, events.as_bytes());
    assert!(rt; answer == REPORT, "{answer:?}");
    assert!(rt; output.as_slice() == trace.as_bytes());
    Ok(())
}

#[test]
fn an_audit_is_whole(rt: HostRuntime) -> Result<(), Fail> {
    let alloc = rt.alloc();
    let events = events(alloc)?;
    let audit = run_and_check(alloc, RATE.as_bytes(), 1, 3 * RUNS, events.as_bytes())?;
    let Audit {
        answer,
        trace: output,
        finding,
    } = audit;
    assert!(rt; answer == REPORT, "{answer:?}");
    assert!(rt; output.as_slice() == trace(alloc)?.as_bytes());
    assert!(rt; finding == Finding::Conforms);
    Ok(())
}

#[test]
fn a_long_trace_is_checked_to_its_end(rt: HostRuntime) -> Result<(), Fail> {
    let alloc = rt.alloc();
    let plan = read_plan(alloc, RATE.as_bytes())?;
    let text = trace(alloc)?;
    let bytes = text.as_bytes();
    assert!(rt; bytes.len() <= MOST_BYTES);
    let whole = check(alloc, &plan, 1, bytes);
    assert!(rt; whole == Ok(Finding::Conforms), "{whole:?}");
    let (_, front) = bytes.split_last().ok_or("an empty trace")?;
    assert!(rt; front.len() <= MOST_BYTES);
    let cut = check(alloc, &plan, 1, front);
    assert!(rt; cut == Ok(Finding::Breaks(3_001)), "{cut:?}");
    Ok(())
}

/// How many blocks of 256 calls a long plan has.
const BLOCKS: usize = 64;

#[test]
fn a_long_listing_is_whole(rt: HostRuntime) -> Result<(), Fail> {
    let alloc = rt.alloc();
    let asks = "{op=\"ask\"},".repeat(alloc, 256)?;
    let block = format!(in alloc; "[[block]]\ncall = [{asks}]\n")?;
    let plan = format!(in alloc; "version = 1\n{}", block.repeat(alloc, BLOCKS)?)?;
    assert!(rt; plan.len() > 180_000);
    let mut listing = String::new(alloc);
    for index in 0..16_384u32 {
        write!(listing, "{index} ask 0\n")?;
    }
    listing.push_str("16384 halt\n")?;
    let mut writer = Writing::new(Vec::new(alloc));
    let answer = write_listing(alloc, plan.as_bytes(), &mut writer).map_err(RunError::from);
    assert!(rt; answer == Ok(()), "{answer:?}");
    assert!(rt; writer.into_inner().as_slice() == listing.as_bytes());
    Ok(())
}

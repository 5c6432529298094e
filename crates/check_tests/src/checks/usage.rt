//! The examples of the comments, as they stand there: `tools/docs` compares them.
use super::check;
use crate::plan_texts::read_plan;
use scripted_runs::runs::ONE_DELAY;
use std::test::Fail;
use trace_check::{CheckError, Finding, MOST_BYTES};

#[test]
fn the_page_is_run(rt: HostRuntime) -> Result<(), Fail> {
    let alloc = rt.alloc();
    // example: trace_check
    // One task, which is due at once.
    let text = "version = 2\n[[block]]\ncall = [ { op = \"execute\", name = \"a\" } ]\n";
    let plan = read_plan(alloc, text.as_bytes())?;
    let finding = check(alloc, &plan, 1, b"0 submit 0 schedule due 0\n0 clock\n")?;
    assert_eq!(rt; finding, Finding::Conforms);
    let finding = check(alloc, &plan, 1, b"0 submit 0 schedule due 6\n0 clock\n")?;
    assert_eq!(rt; finding, Finding::Breaks(1));
    // end of example
    Ok(())
}

#[test]
fn a_trace_breaks(rt: HostRuntime) -> Result<(), Fail> {
    let alloc = rt.alloc();
    // example: trace_check::check
    let plan = read_plan(alloc, b"version = 2\n")?; // of no calls
    let finding = check(alloc, &plan, 1, b"5 clock\n5 start 0 idle\n")?;
    assert_eq!(rt; finding, Finding::Conforms);
    let finding = check(alloc, &plan, 1, b"5 clock\n4 start 0 idle\n")?;
    assert_eq!(rt; finding, Finding::Breaks(2)); // moments do not fall
    let finding = check(alloc, &plan, 1, b"5 clock")?;
    assert_eq!(rt; finding, Finding::Breaks(1)); // its newline is wanting
    let error = check(alloc, &plan, 65, b"5 clock\n").err();
    assert_eq!(rt; error, Some(CheckError::Workers)); // there are 1 to 64
    // end of example
    Ok(())
}

#[test]
fn a_row_is_checked(rt: HostRuntime) -> Result<(), Fail> {
    let alloc = rt.alloc();
    // example: scripted_runs
    let row = ONE_DELAY; // of scripted_runs::runs
    let plan = read_plan(alloc, row.plan.as_bytes())?;
    assert!(rt; row.trace.len() <= MOST_BYTES);
    let finding = check(alloc, &plan, row.workers, row.trace.as_bytes())?;
    assert_eq!(rt; finding, Finding::Conforms, "{}", row.name);
    // end of example
    Ok(())
}

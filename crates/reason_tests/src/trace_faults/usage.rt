//! The examples of the comments, as they stand there: `tools/docs` compares them.
use super::reason_of_trace;
use plan_read::read_plan;
use std::test::Fail;

#[test]
fn the_page_is_run(rt: HostRuntime) -> Result<(), Fail> {
    let alloc = rt.alloc();
    // example: trace_reasons
    let plan = read_plan(alloc, b"version = 2\n")?; // of no calls
    assert!(rt; reason_of_trace(alloc, &plan, 1, b"5 clock\n")?.is_none());
    let reason = reason_of_trace(alloc, &plan, 1, b"5 clock\n4 clock\n")?;
    let reason = reason.ok_or("no reason")?;
    let told = reason.in_file("trace.txt").to_string(alloc)?;
    let wanted = "trace.txt:2: \"4 clock\": breaks; \
        \"5 error backward\" or \"5 clock\" could stand here";
    assert_eq!(rt; told.as_str(), wanted);
    // end of example
    Ok(())
}

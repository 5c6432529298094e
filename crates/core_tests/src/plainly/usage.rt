//! The examples of the comments, as they stand there: `tools/docs` compares them.
use executor_model::Event;
use executor_plain::trace;
use std::test::Fail;

#[test]
fn the_page_is_run(rt: HostRuntime) -> Result<(), Fail> {
    let alloc = rt.alloc();
    // example: executor_plain
    let lines = trace(alloc, &[], 1, &[Event::Clock(3), Event::Start(0)])?;
    assert_eq!(rt; lines.len(), 2); // the clock is at 3, and the worker gets no work
    // end of example
    Ok(())
}

//! The examples of the comments, as they stand there: `tools/docs` compares them.
use byte_ends::{Pieces, Writing};
use sched_engine::{run, run_in_memory};
use std::test::Fail;

#[test]
fn the_page_is_run(rt: HostRuntime) -> Result<(), Fail> {
    let alloc = rt.alloc();
    // example: sched_engine
    let plan = "version = 2\n[[block]]\ncall = [ { op = \"execute\", name = \"a\" } ]\n";
    let events = b"clock 5\nstart 0\nfinish 0 ok 7\n";
    let (answer, trace) = run_in_memory(alloc, plan.as_bytes(), 1, 1_000, events);
    assert_eq!(rt; answer.map(|report| report.events), Ok(3));
    let text = "0 submit 0 schedule due 0\n5 clock\n5 start 0 task 0 run 0 due 0\n\
        5 finish 0 task 0 run 0 done 7\n";
    assert_eq!(rt; trace.as_slice(), text.as_bytes());
    // end of example
    Ok(())
}

#[test]
fn a_plan_is_run(rt: HostRuntime) -> Result<(), Fail> {
    let alloc = rt.alloc();
    // example: sched_engine::run
    let mut reader = Pieces::new(b"clock 5\nstart 0\n", 64); // in place of `Reading::new(rt.stdin())`
    let mut writer = Writing::new(Vec::new(alloc)); // in place of `Writing::new(rt.stdout())`
    let report = run(alloc, b"version = 2\n", 1, 1_000, &mut reader, &mut writer)?;
    assert_eq!(rt; (report.events, report.lines), (2, 2));
    assert_eq!(rt;
        writer.into_inner().as_slice(),
        b"5 clock\n5 start 0 idle\n".as_slice()
    );
    // end of example
    Ok(())
}

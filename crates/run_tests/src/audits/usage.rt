//! The examples of the comments, as they stand there: `tools/docs` compares them.
use sched_audit::run_and_check;
use std::test::Fail;
use trace_check::Finding;

#[test]
fn the_page_is_run(rt: HostRuntime) -> Result<(), Fail> {
    let alloc = rt.alloc();
    // example: sched_audit
    let plan = "version = 2\n[[block]]\ncall = [ { op = \"execute\", name = \"a\" } ]\n";
    let audit = run_and_check(alloc, plan.as_bytes(), 1, 1_000, b"clock 5\nstart 0\n")?;
    assert_eq!(rt; audit.answer.map(|report| report.events), Ok(2));
    assert!(rt;
        audit
            .trace
            .starts_with(b"0 submit 0 schedule due 0\n5 clock\n5 start 0 task 0")
    );
    assert_eq!(rt; audit.finding, Finding::Conforms);
    // end of example
    Ok(())
}

//! The examples of the comments, as they stand there: `tools/docs` compares them.
use byte_ends::{Pieces, Writing};
use pool_engine::run_pool;
use std::test::Fail;

#[test]
fn the_page_is_run(rt: HostRuntime) -> Result<(), Fail> {
    let alloc = rt.alloc();
    // example: pool_engine
    let plan = "version = 2\n[[block]]\ncall = [ { op = \"execute\", name = \"a\" } ]\n";
    let mut reader = Pieces::new(b"clock 0\nclock 5\n", 64);
    let mut writer = Writing::new(Vec::new(alloc));
    let report = run_pool(
        &rt,
        alloc,
        plan.as_bytes(),
        1,
        100,
        &mut reader,
        &mut writer,
    )?;
    assert_eq!(rt; (report.events, report.lines), (4, 5)); // two clocks, a start and a finish
    let trace = writer.into_inner();
    assert!(rt; trace.starts_with(b"0 submit 0 schedule due 0\n0 clock\n0 start 0 task 0"));
    // end of example
    Ok(())
}

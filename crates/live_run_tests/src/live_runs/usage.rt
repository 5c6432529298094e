//! The examples of the comments, as they stand there: `tools/docs` compares them.
use byte_ends::{Pieces, Writing};
use call_journal::Journal;
use live_engine::run;
use std::test::Fail;

#[test]
fn the_page_is_run(rt: HostRuntime) -> Result<(), Fail> {
    let alloc = rt.alloc();
    // example: live_engine
    let mut journal = Journal::new(alloc, false);
    let mut reader = Pieces::new(b"call schedule 5\nclock 5\nstart 0\n", 64);
    let mut writer = Writing::new(Vec::new(alloc));
    let report = run(alloc, 2, &mut journal, &mut reader, &mut writer)?;
    assert_eq!(rt; (report.lines_read, report.lines_written), (3, 3));
    let trace = writer.into_inner();
    assert!(rt; trace.starts_with(b"0 submit 0 schedule due 5\n5 clock\n5 start 0 task 0"));
    // end of example
    Ok(())
}

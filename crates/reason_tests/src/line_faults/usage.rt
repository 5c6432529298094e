//! The examples of the comments, as they stand there: `tools/docs` compares them.
use super::live::reason_of_live_lines;
use super::reason_of_events;
use line_reasons::{LineFault, NumberFault, line_fault, number_fault};
use std::test::Fail;

#[test]
fn the_page_is_run(rt: HostRuntime) -> Result<(), Fail> {
    let alloc = rt.alloc();
    // example: line_reasons
    assert!(rt; reason_of_events(alloc, b"start 0\n").is_none());
    let reason = reason_of_events(alloc, b"start 0\nclock 05\n").ok_or("no reason")?;
    let told = reason.in_file("events.txt").to_string(alloc)?;
    let wanted = "events.txt:2: \"clock 05\": leading zero; a moment has none, as in \"clock 5\"";
    assert_eq!(rt; told.as_str(), wanted);

    assert!(rt; reason_of_live_lines(alloc, b"start 0\ncall ask\n").is_none());
    let reason = reason_of_live_lines(alloc, b"call rate 5\n").ok_or("no reason")?;
    let told = reason.to_string(alloc)?;
    let wanted = "line 1, \"call rate 5\": too short; call rate F P";
    assert_eq!(rt; told.as_str(), wanted);

    assert_eq!(rt; line_fault(b"5  clock\n"), LineFault::TwoSpaces);
    assert_eq!(rt; number_fault(b"5ms", 255), Some(NumberFault::Unit));
    // end of example
    Ok(())
}

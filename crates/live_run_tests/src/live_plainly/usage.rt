//! The example of the page, as it stands there: `tools/docs` compares them.

use super::text_of;
use call_text::CallLine;
use executor_model::Event;
use live_engine::LiveLine;
use live_plain::trace_of_lines;
use sched_time::LONGEST;
use std::process::Abort;
use std::test::Fail;

/// The lines that are told.
const TOLD: &[u8] = b"0 error no task\n3 clock\n4 submit 0 schedule due 9\n4 cancel 0 yes\n";

#[test]
fn the_page_is_run(rt: HostRuntime) -> Result<(), Fail> {
    let alloc = rt.alloc();
    // example: live_plain
    let none = LiveLine::Event(Event::Cancel(0));
    let clock = LiveLine::Event(Event::Clock(3));
    let submit = LiveLine::Call(CallLine::Schedule(5));
    let cancel = LiveLine::Call(CallLine::Cancel(0));

    // No task has the number 0 yet, the clock is at 3, task 0 is submitted at 4, and is cancelled.
    let told = trace_of_lines(alloc, 1, &[none, clock, submit, cancel])?;
    assert_eq!(rt; told.as_ref().map(|lines| lines.len()), Some(4));

    // The number 0 was not given out: a call that cancels it is as the event, also behind the last moment of calls.
    let last = LiveLine::Event(Event::Clock(LONGEST));
    let none_told = trace_of_lines(alloc, 1, &[last, cancel])?;
    assert_eq!(rt; none_told.map(|lines| lines.len()), Some(2));

    // Behind that no call is made.
    assert!(rt; trace_of_lines(alloc, 1, &[last, submit])?.is_none());
    // end of example
    let lines = told.ok_or("no lines")?;
    assert!(rt; text_of(alloc, &lines)?.as_slice() == TOLD);
    Ok(())
}

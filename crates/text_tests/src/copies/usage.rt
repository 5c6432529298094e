//! The examples of the comments, as they stand there: `tools/docs` compares them.
use executor_model::{Answer, Line, Message};
use line_copy::{LineCopy, put_lines};
use std::process::Abort;

#[test]
fn the_page_is_run(rt: HostRuntime) {
    // example: line_copy
    let clock = Line::new(5, Message::Answer(Answer::Clock));
    let end = Line::new(5, Message::End(3));
    let mut out = [0u8; 200];
    let copied = put_lines(&[clock, end], &mut out);
    assert_eq!(rt; (copied.lines, copied.bytes), (2, 16));
    assert!(rt; out.starts_with(b"5 clock\n5 end 3\n"));

    let mut copy = LineCopy::new();
    assert!(rt; copy.put(&mut out, &end));
    assert!(rt; out.starts_with(b"5 end 3\n"));
    // end of example
}

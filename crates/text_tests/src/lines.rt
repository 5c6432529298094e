//! The examples of the comments, as they stand there: `tools/docs` compares them; and what the tests of several modules check.
pub mod messages;

use executor_model::{Answer, Event, Line, Message, Outcome};
use messages::finish;
use sched_time::Ending;
use std::alloc::{AllocError, Global};
use std::process::Abort;
use std::test::Fail;
use trace_text::{
    Front, LINE_ROOM, Stamp, front_event, put_line_here, read_event, read_line, write_line,
};

/// The moment of a line, what it tells, and its text.
pub type Row = (u64, Message, &'static str);

/// The longest text of a line, which is that of `longest()`.
pub const LONGEST: &str =
    "18446744073709551615 finish 255 task 4294967295 run 18446744073709551615 again due 18446744073709551615\n";

/// What the line with the longest text tells.
const MOST: Message = finish!(u8::MAX, u32::MAX, u64::MAX, Outcome::Again(u64::MAX));

/// The line with the longest text.
pub fn longest() -> Line {
    Line::new(u64::MAX, MOST)
}

/// Checks that each text is read as its line, and that the line is written so.
pub fn are_lines(rt: &(impl AllocGlobal + Abort), rows: &[Row]) {
    for (moment, message, text) in rows {
        is_line(rt, Line::new(*moment, *message), text);
    }
}

/// Checks that a text is read as a line, and that the line is written so.
pub fn is_line(rt: &(impl AllocGlobal + Abort), line: Line, text: &str) {
    assert!(rt; read_line(text.as_bytes()) == Some(line), "{text}");
    let mut out = Vec::new(rt.alloc());
    assert!(rt; write_line(&mut out, &line).is_ok(), "{text}");
    assert!(rt; out.as_slice() == text.as_bytes(), "{text}");
    let mut buffer = [0u8; LINE_ROOM];
    let end = put_line_here(&mut buffer, 0, &mut Stamp::new(line.moment()), &line);
    assert!(rt; &buffer[..end] == text.as_bytes(), "{text}");
}

/// The text of a line by its form, which has no newline, and a letter in the place of each number: `W` of a worker, `C` of 32 bits,
/// and `L` of 64. These are the numbers in this order.
pub fn text_of(alloc: Global, form: &str, numbers: [&str; 3]) -> Result<String, AllocError> {
    let [worker, code, long] = numbers;
    let mut text = String::new(alloc);
    for letter in form.chars() {
        match letter {
            'W' => text.push_str(worker)?,
            'C' => text.push_str(code)?,
            'L' => text.push_str(long)?,
            _ => text.push(letter)?,
        }
    }
    text.push('\n')?;
    Ok(text)
}

/// Checks that none of the texts, between which `|` stands, is a line.
pub fn refuses(rt: &impl Abort, texts: &str) {
    for text in texts.split('|') {
        assert!(rt; read_line(text.as_bytes()).is_none(), "{text}");
    }
}

#[test]
fn the_page_is_run_with_events(rt: HostRuntime) {
    // example: trace_text
    let finish = Event::Finish(0, Ending::Value(7));
    assert_eq!(rt; read_event(b"finish 0 ok 7\n"), Some(finish));
    let clock = Front::Event(Event::Clock(5), 8); // the first 8 bytes
    assert_eq!(rt; front_event(b"clock 5\nstart"), clock);
    assert_eq!(rt; front_event(b"start"), Front::Part);
    assert_eq!(rt; front_event(b"clock 05\n"), Front::Refused);
    // end of example
}

#[test]
fn the_page_is_run_with_lines(rt: HostRuntime) -> Result<(), Fail> {
    let alloc = rt.alloc();
    // example: trace_text
    let line = Line::new(5, Message::Answer(Answer::Clock));
    assert_eq!(rt; read_line(b"5 clock\n"), Some(line));
    assert_eq!(rt; read_line(b"05 clock\n"), None);
    let mut text = Vec::new(alloc);
    write_line(&mut text, &line)?;
    assert_eq!(rt; text.as_slice(), b"5 clock\n".as_slice());
    // end of example
    Ok(())
}

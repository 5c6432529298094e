//! Lines of a trace by hand: what is read, and what is not.
use executor_model::{Answer, Line, Message};
use std::process::Abort;
use std::test::Fail;
use trace_text::{read_line, split_line};

mod forms;
mod near;
mod others;

#[test]
fn gives_what_follows_a_line(rt: HostRuntime) -> Result<(), Fail> {
    let Some(first) = split_line(b"5 clock\n5 start 0 idle\n5") else {
        return Err(Fail::from("a first line"));
    };
    assert!(rt; first.0 == Line::new(5, Message::Answer(Answer::Clock)));
    let Some(second) = split_line(first.1) else {
        return Err(Fail::from("a second line"));
    };
    let idle = Message::Answer(Answer::Idle { worker: 0 });
    assert!(rt; second.0 == Line::new(5, idle));
    assert!(rt; second.1 == b"5".as_slice());
    assert!(rt; split_line(second.1).is_none());
    Ok(())
}

#[test]
fn reads_no_line_of_one_byte(rt: HostRuntime) {
    for byte in 0..=255u8 {
        let alone = read_line(&[byte]);
        let line = read_line(&[byte, b'\n']);
        assert!(rt; alone.is_none() && line.is_none(), "{byte}");
    }
}

//! The examples of the comments, as they stand there: `tools/docs` compares them.
use call_text::{CallLine, LiveFront, front_line, read_call, split_call};
use executor_model::Event;

#[test]
fn the_page_is_run_with_calls(rt: HostRuntime) {
    // example: call_text
    let schedule = CallLine::Schedule(5);
    assert_eq!(rt; read_call(b"call schedule 5\n"), Some(schedule));
    assert_eq!(rt; read_call(b"call rate 5 0\n"), None); // no period
    let ask = Some((CallLine::Ask, b"clock 5\n".as_slice()));
    assert_eq!(rt; split_call(b"call ask\nclock 5\n"), ask);
    // end of example
}

#[test]
fn the_page_is_run_with_fronts(rt: HostRuntime) {
    // example: call_text
    let clock = LiveFront::Event(Event::Clock(5), 8); // the first 8 bytes
    assert_eq!(rt; front_line(b"clock 5\ncall"), clock);
    let cancel = LiveFront::Call(CallLine::Cancel(3), 14);
    assert_eq!(rt; front_line(b"call cancel 3\nstart"), cancel);
    assert_eq!(rt; front_line(b"call"), LiveFront::Part);
    assert_eq!(rt; front_line(b"call cancel 03\n"), LiveFront::Refused);
    // end of example
}

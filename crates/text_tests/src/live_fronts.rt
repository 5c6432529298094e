//! Fronts of bytes by hand, where lines of calls stand too.
use call_text::{CallLine, LiveFront, front_line};
use executor_model::Event;
use sched_time::{Ending, Which};
use std::process::Abort;
use trace_text::MOST_EVENT_BYTES;

/// Bytes by the event at their front, and where its line ends.
const EVENTS: &[(&str, Event, usize)] = &[
    ("clock 5\n", Event::Clock(5), 8),
    ("cancel 7\ncall cancel 7\n", Event::Cancel(7), 9),
    (
        "finish 0 fail 3\ncall",
        Event::Finish(0, Ending::Fault(3)),
        16,
    ),
];

/// Bytes by the call at their front, and where its line ends.
const CALLS: &[(&str, CallLine, usize)] = &[
    ("call cancel 7\ncancel 7\n", CallLine::Cancel(7), 14),
    (
        "call policy execute false\n\n",
        CallLine::Policy(Which::Execute, false),
        26,
    ),
    (
        "call fixed 4611686018427387904 4611686018427387904\nstart",
        CallLine::Fixed(1 << 62, 1 << 62),
        51,
    ),
];

/// Checks what stands at the front of some bytes.
fn is_front(rt: &impl Abort, bytes: &[u8], front: LiveFront) {
    assert!(rt; front_line(bytes) == front, "{bytes:?}");
}

/// Checks what stands at the front of each of the texts, between which `|` stands.
fn are_fronts(rt: &impl Abort, texts: &str, front: LiveFront) {
    for text in texts.split('|') {
        is_front(rt, text.as_bytes(), front);
    }
}

#[test]
fn finds_each_event(rt: HostRuntime) {
    for (bytes, event, end) in EVENTS {
        is_front(&rt, bytes.as_bytes(), LiveFront::Event(*event, *end));
    }
}

#[test]
fn finds_each_call(rt: HostRuntime) {
    for (bytes, call, end) in CALLS {
        is_front(&rt, bytes.as_bytes(), LiveFront::Call(*call, *end));
    }
}

#[test]
fn waits_for_more(rt: HostRuntime) {
    let parts = "|c|call|call ask|call shutdown_|call schedule 05|\
                 call fixed 4611686018427387904 4611686018427387904";
    are_fronts(&rt, parts, LiveFront::Part);
    is_front(&rt, &[b'x'; MOST_EVENT_BYTES - 1], LiveFront::Part);
}

#[test]
fn refuses_the_rest(rt: HostRuntime) {
    let others = "\n|call\n|call ask\r\n|call rate 1 0\ncall ask\n|clock 05\ncall ask\n";
    are_fronts(&rt, others, LiveFront::Refused);
    is_front(&rt, &[b'x'; MOST_EVENT_BYTES], LiveFront::Refused);
    is_front(&rt, &[b'0'; 1_000], LiveFront::Refused);
}

//! Fronts of bytes by hand.
use executor_model::Event;
use sched_time::Ending;
use std::process::Abort;
use trace_text::{Front, MOST_EVENT_BYTES, front_event, is_part};

/// Bytes by the event at their front, and where its line ends.
const EVENTS: &[(&str, Event, usize)] = &[
    ("clock 5\n", Event::Clock(5), 8),
    ("start 255\nstart", Event::Start(255), 10),
    ("cancel 7\n\n", Event::Cancel(7), 9),
    (
        "finish 0 fail 3\nclock 5\n",
        Event::Finish(0, Ending::Fault(3)),
        16,
    ),
    (
        "finish 255 ok 18446744073709551615\n",
        Event::Finish(255, Ending::Value(u64::MAX)),
        35,
    ),
];

/// Checks what stands at the front of some bytes.
fn is_front(rt: &impl Abort, bytes: &[u8], front: Front) {
    assert!(rt; front_event(bytes) == front, "{bytes:?}");
    assert!(rt; is_part(bytes) == (front == Front::Part), "{bytes:?}");
}

/// Checks what stands at the front of each of the texts, between which `|` stands.
fn are_fronts(rt: &impl Abort, texts: &str, front: Front) {
    for text in texts.split('|') {
        is_front(rt, text.as_bytes(), front);
    }
}

#[test]
fn finds_each_event(rt: HostRuntime) {
    for (bytes, event, end) in EVENTS {
        is_front(&rt, bytes.as_bytes(), Front::Event(*event, *end));
    }
}

#[test]
fn waits_for_more(rt: HostRuntime) {
    are_fronts(&rt, "|clock 5|clock 05|nothing", Front::Part);
    is_front(&rt, &[b'x'; MOST_EVENT_BYTES - 1], Front::Part);
}

#[test]
fn refuses_the_rest(rt: HostRuntime) {
    let others = "\n|clock 05\n|clock 05\nstart|clock 5\r\n|start 256\nstart 0\n";
    are_fronts(&rt, others, Front::Refused);
    is_front(&rt, &[b'x'; MOST_EVENT_BYTES], Front::Refused);
    is_front(&rt, &[b'0'; 1_000], Front::Refused);
}

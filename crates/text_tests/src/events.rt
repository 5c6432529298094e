//! Lines of events by hand.
mod changes;

use executor_model::Event;
use sched_time::Ending;
use std::process::Abort;
use trace_text::read_event;

/// Lines by what they spell.
const EVENTS: &[(&str, Event)] = &[
    ("clock 0\n", Event::Clock(0)),
    ("clock 18446744073709551615\n", Event::Clock(u64::MAX)),
    ("start 255\n", Event::Start(255)),
    ("finish 0 ok 7\n", Event::Finish(0, Ending::Value(7))),
    (
        "finish 255 ok 18446744073709551615\n",
        Event::Finish(255, Ending::Value(u64::MAX)),
    ),
    ("finish 0 fail 3\n", Event::Finish(0, Ending::Fault(3))),
    ("finish 3 fail 0\n", Event::Finish(3, Ending::Fault(0))),
    (
        "finish 3 fail 4294967295\n",
        Event::Finish(3, Ending::Fault(u32::MAX)),
    ),
    ("cancel 0\n", Event::Cancel(0)),
    ("cancel 4294967295\n", Event::Cancel(u32::MAX)),
];

/// Lines of clocks, with one newline too many, by their moment: numbers of each length.
const LENGTHS: &[(&str, u64)] = &[
    ("clock 1\n\n", 1),
    ("clock 12\n\n", 12),
    ("clock 123\n\n", 123),
    ("clock 1234\n\n", 1_234),
    ("clock 12345\n\n", 12_345),
    ("clock 123456\n\n", 123_456),
    ("clock 1234567\n\n", 1_234_567),
    ("clock 12345678\n\n", 12_345_678),
    ("clock 123456789\n\n", 123_456_789),
    ("clock 1234567890\n\n", 1_234_567_890),
    ("clock 12345678901\n\n", 12_345_678_901),
    ("clock 123456789012\n\n", 123_456_789_012),
    ("clock 1234567890123\n\n", 1_234_567_890_123),
    ("clock 12345678901234\n\n", 12_345_678_901_234),
    ("clock 123456789012345\n\n", 123_456_789_012_345),
    ("clock 1234567890123456\n\n", 1_234_567_890_123_456),
    ("clock 12345678901234567\n\n", 12_345_678_901_234_567),
    ("clock 123456789012345678\n\n", 123_456_789_012_345_678),
    ("clock 1234567890123456789\n\n", 1_234_567_890_123_456_789),
];

/// Checks that none of the lines, between which `|` stands, is an event.
fn refuses(rt: &impl Abort, lines: &str) {
    for line in lines.split('|') {
        assert!(rt; read_event(line.as_bytes()).is_none(), "{line}");
    }
}

/// Checks that bytes are a clock's line without their last newline alone.
fn reads_one_newline(rt: &impl Abort, bytes: &[u8], moment: u64) {
    let length = bytes.len();
    assert!(rt; length >= 2 && read_event(bytes).is_none(), "{moment}");
    let read = read_event(&bytes[..length - 1]);
    assert!(rt; read == Some(Event::Clock(moment)), "{moment}");
    assert!(rt; read_event(&bytes[..length - 2]).is_none(), "{moment}");
}

#[test]
fn reads_each_event(rt: HostRuntime) {
    for (line, event) in EVENTS {
        assert!(rt; read_event(line.as_bytes()) == Some(*event), "{line}");
    }
}

#[test]
fn refuses_other_clocks_and_starts(rt: HostRuntime) {
    refuses(
        &rt,
        "|\n|clock\n|clock \n|clock 05\n|clock +5\n|clock 5 \n|clock  5\n| clock 5\n|clock 5\
         |clock 5\n\n|clock 5\nclock 6\n|clock 5\r\n|clock\t5\n|Clock 5\n\
         |clock 18446744073709551616\n|start 256\n|start -1\n",
    );
}

#[test]
fn refuses_other_cancels(rt: HostRuntime) {
    refuses(
        &rt,
        "cancel\n|cancel \n|cancel 07\n|cancel -1\n|cancel  1\n|cancel 1 \n|cancel 1 yes\n\
         | cancel 1\n|Cancel 1\n|cancels 1\n|cancel1\n|cancel 4294967296\n\
         |cancel 18446744073709551616\n",
    );
}

#[test]
fn refuses_other_finishes(rt: HostRuntime) {
    refuses(
        &rt,
        "finish 3\n|finish 3 ok\n|finish 3 ok \n|finish 256 ok 1\n|finish 03 ok 1\n\
         |finish 3  ok 1\n|finish 3 ok 1 \n|finish 3 ok 18446744073709551616\n",
    );
}

#[test]
fn refuses_other_failures(rt: HostRuntime) {
    refuses(
        &rt,
        "finish 3 fail 4294967296\n|finish 3 fail 18446744073709551616\n|finish 3 fail\n\
         |finish 3 fail \n|finish 3 fail 01\n|finish 3 fail -1\n|finish 3 fail  1\n\
         |finish 3 fail 1 \n|finish 3 fail1\n|finish 3 failed 1\n|finish 3 Fail 1\n\
         |finish 256 fail 1\n|finish fail 1\n",
    );
}

#[test]
fn reads_numbers_of_each_length(rt: HostRuntime) {
    for (line, moment) in LENGTHS {
        reads_one_newline(&rt, line.as_bytes(), *moment);
    }
}

#[test]
fn reads_no_number_of_another_form(rt: HostRuntime) {
    refuses(
        &rt,
        "clock 18446744073709551616\n|clock 18446744073709551620\n|clock 28446744073709551615\n\
         |clock 99999999999999999999\n|clock 184467440737095516150\n|clock 000000000000000000001\n\
         |clock 00\n|clock 1844674407370955161:\n|clock 1844674407370955161/\n|start 007\n\
         |start  7\n|start\t7\n|start 7\r\n|start 7\n |start 7|finish 0\tok 1\n|finish 0 ok  1\n\
         |finish 0 ok 01\n|finish 0 ok 1|finish 0 ok 1\n\n",
    );
}

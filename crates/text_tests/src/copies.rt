//! Lines that are copied, into buffers of all sizes.
mod usage;

use executor_model::{Answer, Line, Message};
use line_copy::{Copied, LineCopy, put_lines};
use std::process::Abort;

/// The text of the lines, in which they begin at 0, 8, 23 and 31.
const TEXT: [u8; 47] = *b"5 clock\n5 start 0 idle\n5 end 3\n77 start 1 idle\n";

/// How many bytes of room are enough for each number of lines, and how many lines and bytes are copied then.
const STEPS: [(usize, usize, usize); 5] = [
    (0, 0, 0),
    (128, 1, 8),
    (136, 2, 23),
    (151, 3, 31),
    (159, 4, 47),
];

/// Four lines, of two moments.
fn lines() -> [Line; 4] {
    [
        answer(5, Answer::Clock),
        answer(5, Answer::Idle { worker: 0 }),
        Line::new(5, Message::End(3)),
        answer(77, Answer::Idle { worker: 1 }),
    ]
}

/// So many lines and bytes.
fn copied(lines: usize, bytes: usize) -> Copied {
    Copied { lines, bytes }
}

/// The line of an answer.
fn answer(moment: u64, answer: Answer) -> Line {
    Line::new(moment, Message::Answer(answer))
}

/// What is copied where there are so many bytes.
fn fits(size: usize) -> Copied {
    let mut most = copied(0, 0);
    for (least, lines, bytes) in &STEPS {
        if *least <= size {
            most = copied(*lines, *bytes);
        }
    }
    most
}

#[test]
fn nothing_is_copied_at_first(rt: HostRuntime) {
    assert!(rt; Copied::none() == copied(0, 0));
    assert!(rt; LineCopy::new().copied() == Copied::none());
}

#[test]
fn a_slice_is_copied_as_far_as_there_is_room(rt: HostRuntime) {
    let lines = lines();
    for size in 0..201 {
        let mut out = [b'x'; 200];
        let copied = put_lines(&lines, &mut out[..size]);
        assert!(rt; copied == fits(size), "{size}");
        assert!(rt; TEXT.starts_with(&out[..copied.bytes]), "{size}");
        assert!(rt; out[size..] == [b'x'; 200][size..], "{size}");
    }
}

#[test]
fn no_lines_come_to_nothing(rt: HostRuntime) {
    let mut out = [b'x'; 200];
    assert!(rt; put_lines(&[], &mut out) == Copied::none());
    assert!(rt; out == [b'x'; 200]);
}

/// Checks that one more line is put, so that so much is copied, in all.
fn puts_one(rt: &impl Abort, copy: &mut LineCopy, out: &mut [u8], line: &Line, copied: Copied) {
    assert!(rt; copy.copied().bytes <= out.len());
    assert!(rt; copy.put(out, line));
    assert!(rt; copy.copied() == copied, "{copied:?}");
    assert!(rt; copied.bytes <= TEXT.len());
    assert!(rt; out.starts_with(&TEXT[..copied.bytes]), "{copied:?}");
}

/// Checks that a line is not put, and that nothing changes.
fn puts_none(rt: &impl Abort, copy: &mut LineCopy, out: &mut [u8; 158], line: &Line) {
    let before = (copy.copied(), *out);
    assert!(rt; before.0.bytes <= out.len());
    assert!(rt; !copy.put(out, line));
    assert!(rt; copy.copied() == before.0);
    assert!(rt; *out == before.1);
}

#[test]
fn lines_are_copied_one_at_a_time(rt: HostRuntime) {
    let all = lines();
    let lines = &all[..];
    let mut out = [b'x'; 158];
    let mut copy = LineCopy::new();
    for place in 0..3 {
        let (_, count, bytes) = STEPS[place + 1];
        puts_one(
            &rt,
            &mut copy,
            &mut out,
            &lines[place],
            copied(count, bytes),
        );
    }
    puts_none(&rt, &mut copy, &mut out, &lines[3]);
}

#[test]
fn the_last_line_is_copied_where_there_is_just_enough_room(rt: HostRuntime) {
    let all = lines();
    let lines = &all[..];
    let mut out = [b'x'; 128];
    let mut copy = LineCopy::new();
    assert!(rt; copy.put(&mut out, &lines[3]));
    assert!(rt; copy.copied() == copied(1, 16));
    assert!(rt; TEXT.ends_with(&out[..16]));
}

#[test]
fn the_last_line_is_not_copied_where_a_byte_of_room_is_missing(rt: HostRuntime) {
    let all = lines();
    let lines = &all[..];
    let mut out = [b'x'; 127];
    assert!(rt; !LineCopy::new().put(&mut out, &lines[3]));
    assert!(rt; out == [b'x'; 127]);
}

#[test]
fn what_is_left_is_copied_by_a_further_call(rt: HostRuntime) {
    let all = lines();
    let lines = &all[..];
    let mut out = [0u8; 128];
    let mut done = Copied::none();
    for (_, count, bytes) in &STEPS {
        assert!(rt; done == copied(*count, *bytes), "{count}");
        assert!(rt; done.lines <= 4 && done.bytes <= TEXT.len());
        let more = put_lines(&lines[done.lines..], &mut out);
        assert!(rt; TEXT[done.bytes..].starts_with(&out[..more.bytes]));
        done.lines += more.lines;
        done.bytes += more.bytes;
    }
    assert!(rt; done == copied(4, 47));
}

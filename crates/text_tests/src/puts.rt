//! Words and numbers at a place of a buffer.
use crate::lines::{is_line, text_of};
use executor_model::{Answer, Line, Message, Outcome};
use std::process::Abort;
use std::test::Fail;
use trace_text::{LINE_ROOM, LineText, Stamp, put_line};

/// Numbers and their digits.
const NUMBERS: &[(u64, &str)] = &[
    (0, "0"),
    (9, "9"),
    (10, "10"),
    (99, "99"),
    (100, "100"),
    (999, "999"),
    (1_000, "1000"),
    (9_999, "9999"),
    (10_000, "10000"),
    (120_034, "120034"),
    (1_234_567, "1234567"),
    (99_999_999, "99999999"),
    (100_000_000, "100000000"),
    (1_234_567_890, "1234567890"),
    (12_345_678_901, "12345678901"),
    (999_999_999_999, "999999999999"),
    (1_000_000_000_000, "1000000000000"),
    (12_345_678_901_234, "12345678901234"),
    (123_456_789_012_345, "123456789012345"),
    (9_999_999_999_999_999, "9999999999999999"),
    (10_000_000_000_000_000, "10000000000000000"),
    (123_456_789_012_345_678, "123456789012345678"),
    (1_234_567_890_123_456_789, "1234567890123456789"),
    (u64::MAX, "18446744073709551615"),
];

/// A line that has a number as its moment, in the middle and at its end.
fn line_with(number: u64) -> Line {
    let start = Answer::Start {
        worker: 1,
        task: 2,
        run: number,
        due: number,
    };
    Line::new(number, Message::Answer(start))
}

/// Checks that a line is put behind another byte, which stays, and is shown so.
fn is_put(rt: &(impl AllocGlobal + Abort), line: Line, text: &str) {
    let mut buffer = [b'x'; 1 + LINE_ROOM];
    let end = put_line(&mut buffer, 1, &mut Stamp::new(0), &line);
    assert!(rt;
        buffer[..end].strip_prefix(b"x") == Some(text.as_bytes()),
        "{text}"
    );
    let shown = format!(in rt.alloc(); "{}", LineText(line));
    assert!(rt; shown.is_ok_and(|shown| shown.as_str() == text), "{text}");
}

#[test]
fn puts_numbers_of_each_length(rt: HostRuntime) -> Result<(), Fail> {
    for (number, digits) in NUMBERS {
        let text = text_of(
            rt.alloc(),
            "L start W task C run L due L",
            ["1", "2", digits],
        )?;
        is_line(&rt, line_with(*number), &text);
        is_put(&rt, line_with(*number), &text);
    }
    Ok(())
}

#[test]
fn puts_words_behind_one_another(rt: HostRuntime) {
    let ended = Answer::Finish {
        worker: 1,
        task: 2,
        run: 3,
        outcome: Outcome::Ended,
    };
    let line = Line::new(5, Message::Answer(ended));
    let mut buffer = [b'x'; LINE_ROOM];
    let end = put_line(&mut buffer, 0, &mut Stamp::new(5), &line);
    assert!(rt; &buffer[..end] == b"5 finish 1 task 2 run 3 ended\n".as_slice());
    // It is longer than the moment of any line: what stands behind its words is left.
    assert!(rt; buffer[end..] == [b'x'; LINE_ROOM][end..]);
}

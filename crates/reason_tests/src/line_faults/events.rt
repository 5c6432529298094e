//! Texts of events, and where in a text its first other line is.

use super::reason_of_events;
use std::alloc::{AllocError, Global};
use std::process::Abort;
use std::test::Fail;

/// Texts of events.
pub const FINE: &[(&[u8], &str)] = &[
    (b"", "fine"),
    (b"clock 5\n", "fine"),
    (b"clock 0\nstart 0\nfinish 0 ok 7\n", "fine"),
    (b"start 255\nfinish 255 fail 4294967295\n", "fine"),
    (b"cancel 4294967295\nclock 18446744073709551615\n", "fine"),
    (b"finish 0 ok 18446744073709551615\n", "fine"),
];

/// Texts of which the first other line is told.
pub const FIRST_OTHER_LINES: &[(&[u8], &str)] = &[
    (
        b"clock 05\n",
        "line 1, \"clock 05\": leading zero; a moment has none, as in \"clock 5\"",
    ),
    (
        b"clock 5\nclock 06\nclock 07\n",
        "line 2, \"clock 06\": leading zero; a moment has none, as in \"clock 5\"",
    ),
    (
        b"clock 5\nstart 0\n\nclock 6\n",
        "line 3, \"\": empty; one of clock, start, finish, cancel",
    ),
    (
        b"clock 5\nclock 6",
        "line 2, \"clock 6\": no newline; each line ends with one",
    ),
    (
        b"clock 5\n\n",
        "line 2, \"\": empty; one of clock, start, finish, cancel",
    ),
    (
        b"clock 5\r\nclock 6\r\n",
        "line 1, \"clock 5\\r\": carriage return; a line ends with a newline alone",
    ),
];

/// Texts of lines with other bytes.
pub const OTHER_BYTES: &[(&[u8], &str)] = &[
    (
        b"clock 5\0\n",
        "line 1, \"clock 5\\u0000\": no number; a moment is wanted, as in \"clock 5\"",
    ),
    (
        b"\0\n",
        "line 1, \"\\u0000\": \"\\u0000\" is no event; one of clock, start, finish, cancel",
    ),
    (
        b"\xFF 5\n",
        "line 1, \"\\xFF 5\": \"\\xFF\" is no event; one of clock, start, finish, cancel",
    ),
    (
        b"start 0\nclock \xFF\n",
        "line 2, \"clock \\xFF\": no number; a moment is wanted, as in \"clock 5\"",
    ),
    (
        b"\xEF\xBB\xBFclock 5\n",
        "line 1, \"\\uFEFFclock 5\": \"\\uFEFFclock\" is no event; clock may be meant; one of clock, start, finish, cancel",
    ),
    (
        b"clock\xC2\xA05\n",
        "line 1, \"clock\\u00A05\": \"clock\\u00A05\" is no event; clock may be meant; one of clock, start, finish, cancel",
    ),
];

/// Texts of long lines, which are cut.
pub const LONG_LINES: &[(&[u8], &str)] = &[
    (
        b"clock 123456789012345678901234567890123x\n",
        "line 1, \"clock 123456789012345678901234567890123x\": no number; a moment is wanted, as in \"clock 5\"",
    ),
    (
        b"clock 1234567890123456789012345678901234x\n",
        "line 1, \"clock 1234567890123456789012345678901234\"...: no number; a moment is wanted, as in \"clock 5\"",
    ),
];

/// The text of a hundred clocks.
fn hundred_clocks(alloc: Global) -> Result<String, AllocError> {
    let mut text = String::new(alloc);
    for _line in 0..100 {
        text.push_str("clock 5\n")?;
    }
    Ok(text)
}

#[test]
fn a_line_far_behind(rt: HostRuntime) -> Result<(), Fail> {
    let mut text = hundred_clocks(rt.alloc())?;
    assert!(rt; reason_of_events(rt.alloc(), text.as_bytes()).is_none());
    text.push_str("clock\nclock 5\n")?;
    let Some(reason) = reason_of_events(rt.alloc(), text.as_bytes()) else {
        return Err(Fail::from("fine"));
    };
    assert!(rt; reason.number == 101 && reason.line == b"clock\n".as_slice());
    Ok(())
}

/// Names of files, and what is told of a text of theirs.
const FILES: &[(&str, &str)] = &[
    (
        "events.txt",
        "events.txt:2: \"clock 05\": leading zero; a moment has none, as in \"clock 5\"",
    ),
    (
        "a\n\u{1B}[31m.txt",
        "a\\n\\u001B[31m.txt:2: \"clock 05\": leading zero; a moment has none, as in \"clock 5\"",
    ),
];

#[test]
fn files_are_named(rt: HostRuntime) -> Result<(), Fail> {
    let Some(reason) = reason_of_events(rt.alloc(), b"clock 5\nclock 05\n") else {
        return Err(Fail::from("fine"));
    };
    for (file, wanted) in FILES {
        let told = reason.in_file(file).to_string(rt.alloc())?;
        assert!(rt; told.as_str() == *wanted, "{told}");
    }
    Ok(())
}

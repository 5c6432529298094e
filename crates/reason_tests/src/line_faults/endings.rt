//! How lines end, and how long they are.

use super::{Kind, reason_of_events, told_fault};
use line_reasons::{EventFault, LineFault};
use std::alloc::{AllocError, Global};
use std::process::Abort;
use std::test::Fail;

/// Texts by the fault of their first lines, with `|` between them.
const TEXTS: &[(&str, LineFault<'static>)] = &[
    ("\n|\n\n|\nclock 5\n", LineFault::Empty),
    (
        "clock 5\r\n|\r\n|clock 5\r|clok\r 05  \n|clock 5\rclock 6\r",
        LineFault::CarriageReturn,
    ),
    (
        "clock 5|c|clok  05| |clock 5\nstart 0",
        LineFault::NoNewline,
    ),
    (" clock 5\n|  clock 5\n| \n|   \n", LineFault::SpaceInFront),
];

/// Whether the first line of a text that is not fine has this fault.
fn has_fault(alloc: Global, text: &str, wanted: LineFault<'_>) -> bool {
    match reason_of_events(alloc, text.as_bytes()) {
        Some(reason) => reason.fault == EventFault::Line(wanted),
        None => false,
    }
}

#[test]
fn ends_and_fronts_of_lines(rt: HostRuntime) {
    for (texts, wanted) in TEXTS {
        for text in texts.split('|') {
            assert!(rt; has_fault(rt.alloc(), text, *wanted), "{text}");
        }
    }
}

/// What is told of a line that is too long.
const TOO_LONG: &str = "too long; at most 63 bytes with its newline";

/// The lengths of lines, what ends them, and what is told of them.
const LENGTHS: &[(usize, &str, &str)] = &[
    (62, "", "no newline; each line ends with one"),
    (
        62,
        "\n",
        "leading zero; a moment has none, as in \"clock 5\"",
    ),
    (63, "", TOO_LONG),
    (63, "\r\n", TOO_LONG),
    (64, "", TOO_LONG),
    (64, "\r\n", TOO_LONG),
    (1000, "", TOO_LONG),
    (1000, "\r\n", TOO_LONG),
];

/// A line of so many bytes, which begins as a clock does, and what ends it.
fn line_of_length(alloc: Global, length: usize, end: &str) -> Result<String, AllocError> {
    let mut text = String::from_str(alloc, "clock ")?;
    for _byte in text.len()..length {
        text.push('0')?;
    }
    text.push_str(end)?;
    Ok(text)
}

#[test]
fn long_lines(rt: HostRuntime) -> Result<(), Fail> {
    for (length, end, wanted) in LENGTHS {
        let line = line_of_length(rt.alloc(), *length, end)?;
        let told = told_fault(rt.alloc(), Kind::Events, line.as_bytes())?;
        assert!(rt; told.as_str() == *wanted, "{length}: {told}");
    }
    Ok(())
}

pub const SPACES: &str = "\
clock\t5 | tab; one space stands between two words
clock 5\t | tab; one space stands between two words
\tclock  5 | tab; one space stands between two words
clock  5 | two spaces; one space stands between two words
finish 0  ok 7 | two spaces; one space stands between two words
clok  05 | two spaces; one space stands between two words
clock 5  | space at the end; a line ends with a word
clock  | space at the end; a line ends with a word
clock 05   | space at the end; a line ends with a word
";

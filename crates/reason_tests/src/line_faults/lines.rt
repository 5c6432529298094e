//! Faults of any line.

use line_reasons::{FileName, LineFault, NumberFault, Quoted, line_fault, number_fault};
use std::process::Abort;
use std::test::Fail;

pub const SPACES_AND_ENDS: &str = "\
5 clok | no such line
 | empty; a line has a word at least
5\tclock | tab; one space stands between two words
5  clock | two spaces; one space stands between two words
5 clock  | space at the end; a line ends with a word
 5 clock | space in front; a line begins with a word
  | space in front; a line begins with a word
  5 clock\t | tab; one space stands between two words
";

pub const NUMBERS: &str = "\
+5 clock | sign in \"+5\"; a number has none
5 end -3 | sign in \"-3\"; a number has none
05 clock | leading zero in \"05\"; a number has none
5 start 00 idle | leading zero in \"00\"; a number has none
5ns clock | unit in \"5ns\"; a number has none
5 ms clock | unit in \"ms\"; a number has none
18446744073709551616 clock | \"18446744073709551616\" is too large; a number is at most 18446744073709551615
18446744073709551615 clok | no such line
5x clock | no such line
0 0x10 | no such line
";

/// Lines by how they end, or do not.
const ENDS: &[(&[u8], LineFault<'static>)] = &[
    (b"", LineFault::Empty),
    (b"\n", LineFault::Empty),
    (b"5 clock", LineFault::NoNewline),
    (b"05  clock", LineFault::NoNewline),
    (b"5 clock\r\n", LineFault::CarriageReturn),
    (b"5 clock\r", LineFault::CarriageReturn),
    (b"\r\n", LineFault::CarriageReturn),
];

#[test]
fn ends_of_lines(rt: HostRuntime) {
    for (line, wanted) in ENDS {
        assert!(rt; line_fault(line) == *wanted, "{line:?}");
    }
}

/// Words in the place of a number that is at most 255.
const NUMBER_WORDS: &[(&str, Option<NumberFault>)] = &[
    ("0", None),
    ("255", None),
    ("256", Some(NumberFault::TooLarge)),
    ("99999999999999999999999", Some(NumberFault::TooLarge)),
    ("-0", Some(NumberFault::Sign)),
    ("+0x", Some(NumberFault::Sign)),
    ("-", Some(NumberFault::NoNumber)),
    ("007", Some(NumberFault::LeadingZero)),
    ("0min", Some(NumberFault::Unit)),
    ("5sec", Some(NumberFault::NoNumber)),
    ("1e3", Some(NumberFault::NoNumber)),
    ("", Some(NumberFault::NoNumber)),
    ("ns", Some(NumberFault::NoNumber)),
];

#[test]
fn words_that_are_numbers(rt: HostRuntime) {
    for (word, fault) in NUMBER_WORDS {
        assert!(rt; number_fault(word.as_bytes(), 255) == *fault, "{word}");
    }
}

/// Bytes, and how they are told.
const QUOTED: &[(&[u8], &str)] = &[
    (b"", "\"\""),
    (b"clock 5\r", "\"clock 5\\r\""),
    (b"\0\t\x1B\x7F", "\"\\u0000\\t\\u001B\\u007F\""),
    (b"a\xFFb\xE2\x82", "\"a\\xFFb\\xE2\\x82\""),
    (b"\"\\\"", "\"\\\"\\\\\\\"\""),
    (
        b"\xC3\xA4 \xC2\xA0\xEF\xBB\xBF",
        "\"\u{E4} \\u00A0\\uFEFF\"",
    ),
    // The longest that is whole.
    (
        b"a234567890b234567890c234567890d234567890",
        "\"a234567890b234567890c234567890d234567890\"",
    ),
    (
        b"a234567890b234567890c234567890d234567890\xFF",
        "\"a234567890b234567890c234567890d234567890\"...",
    ),
    (
        b"\xC3\xA4234567890b234567890c234567890d234567\xFF\xFF\xFF!",
        "\"\u{E4}234567890b234567890c234567890d234567\\xFF\\xFF\\xFF\"...",
    ),
];

#[test]
fn bytes_in_quotes(rt: HostRuntime) -> Result<(), Fail> {
    for (bytes, wanted) in QUOTED {
        let told = Quoted(bytes).to_string(rt.alloc())?;
        assert!(rt; told.as_str() == *wanted, "{told}");
    }
    Ok(())
}

#[test]
fn names_of_files(rt: HostRuntime) -> Result<(), Fail> {
    let name = FileName("a\nb \"c\".txt").to_string(rt.alloc())?;
    assert!(rt; name.as_str() == "a\\nb \"c\".txt", "{name}");
    Ok(())
}

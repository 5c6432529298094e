//! Texts that hardly differ from a line.
use std::process::Abort;
use trace_text::read_line;

/// What stands in the place of a space.
const SPACES: &[&[u8]] = &[b"  ", b"\t"];

/// What stands in the place of the newline.
const NEWLINES: &[&[u8]] = &[b" \n", b"\r\n", b"\n\n", b"\n "];

/// Checks that three pieces, one behind the other, are no line.
fn refuses_with(rt: &(impl AllocGlobal + Abort), front: &[u8], other: &[u8], rest: &[u8]) {
    let changed = [front, other, rest].concat(rt.alloc()).expect(rt, "memory");
    assert!(rt; read_line(&changed).is_none(), "{changed:?}");
}

/// As `refuses_with`, with each of the bytes in the middle.
fn refuses_each(rt: &(impl AllocGlobal + Abort), front: &[u8], others: &[&[u8]], rest: &[u8]) {
    for other in others {
        refuses_with(rt, front, other, rest);
    }
}

/// Checks that no text is a line in which a digit is the first of a number behind a zero, or the last one is one greater.
fn refuses_digits(
    rt: &(impl AllocGlobal + Abort),
    front: &[u8],
    digit: u8,
    rest: &[u8],
    in_number: bool,
) {
    if !in_number {
        refuses_with(rt, front, &[b'0', digit], rest);
    }
    let is_last = matches!(rest, [next, ..] if !next.is_ascii_digit());
    if is_last {
        refuses_with(rt, front, b"6", rest);
    }
}

/// Checks that a text, whose numbers are the greatest ones, is a line, and that it is none once it is cut, or has one byte more
/// at its end, another space, a tab or a carriage return, a leading zero, or a number that is one too large.
pub fn reads_no_other(rt: &(impl AllocGlobal + Abort), text: &[u8]) {
    assert!(rt; read_line(text).is_some(), "{text:?}");
    let mut in_number = false;
    for at in 0..text.len() {
        let (front, rest) = text.split_at(at);
        assert!(rt; read_line(front).is_none(), "{front:?}");
        if let [code, rest @ ..] = rest {
            match *code {
                b' ' => refuses_each(rt, front, SPACES, rest),
                b'\n' => refuses_each(rt, front, NEWLINES, rest),
                b'0'..=b'9' => refuses_digits(rt, front, *code, rest, in_number),
                _ => {}
            }
            in_number = code.is_ascii_digit();
        }
    }
}

//! Where a line of a text stands.

ghost use Rattle.std.specs.Prelude.{◌≡◌, ◌≤◌, length, option_map};
ghost use Rattle.std.specs.List.{after_first};
ghost use Rattle.trace_reasons.specs.Standing.{is_newline, first_line, behind_lines, lines_before, line_at};

use memchr::memchr;

/// The lines of a text before this one, counted from 1.
pub fn lines_before(text: &[u8], line: u64) -> &[u8]
    ensures { result.now ≡ lines_before line text.now }
{
    let rest = behind_lines(text, line.saturating_sub(1));
    &text[..text.len() - rest.len()]
}

/// The line of this number, counted from 1, with its newline where it has one; none where the text ends before it.
pub fn line_at(text: &[u8], line: u64) -> Option<&[u8]>
    ensures { option_map (λ found. found.now) result ≡ line_at line text.now }
{
    let rest = behind_lines(text, line.saturating_sub(1));
    if rest.is_empty() {
        return None;
    }
    let (found, _) = split_line(rest);
    Some(found)
}

/// What stands behind the first `count` lines of a text.
fn behind_lines(text: &[u8], count: u64) -> &[u8]
    ensures rest { result.now ≡ behind_lines count text.now }
    ensures few { length result.now ≤ length text.now }
{
    let mut rest = text;
    for _ in 0..count {
        (_, rest) = split_line(rest);
    }
    rest
}

/// The first line of a text, with its newline where it has one, and what stands behind it.
fn split_line(text: &[u8]) -> (&[u8], &[u8])
    ensures line { result.0.now ≡ first_line text.now }
    ensures rest { result.1.now ≡ after_first is_newline text.now }
    ensures few { length result.1.now ≤ length text.now }
{
    match memchr(b'\n', text) {
        Some(end) => text.split_at(end + 1),
        None => (text, &[]),
    }
}

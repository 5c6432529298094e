//! Bytes of others in one line of ours.

use near_words::write_escaped;
use std::fmt;

/// How many characters of a line are shown.
const MOST_SHOWN: usize = 40;

/// Bytes in quotes. Quotes, backslashes, control characters and those that cannot be seen stand there as escapes, and a byte that
/// is no UTF-8 as `\xFF`. After 40 characters they are cut, and three dots stand behind the quotes.
#[derive(Clone, Copy)]
pub struct Quoted<'a>(pub &'a [u8]);

impl fmt::Display for Quoted<'_> {
    fn fmt<W: fmt::Write>(&self, f: &mut fmt::Formatter<W>) -> fmt::Result {
        f.write_str("\"")?;
        let mut left = MOST_SHOWN;
        for chunk in self.0.utf8_chunks() {
            for character in chunk.valid().chars() {
                if left == 0 {
                    return f.write_str("\"...");
                }
                left -= 1;
                write_quoted(f, character)?;
            }
            for byte in chunk.invalid() {
                if left == 0 {
                    return f.write_str("\"...");
                }
                left -= 1;
                write!(f, "\\x{byte:02X}")?;
            }
        }
        f.write_str("\"")
    }
}

/// Writes a character that stands in quotes.
fn write_quoted<W: fmt::Write>(f: &mut fmt::Formatter<W>, character: char) -> fmt::Result {
    match character {
        '"' => f.write_str("\\\""),
        '\\' => f.write_str("\\\\"),
        _ => write_escaped(f, character),
    }
}

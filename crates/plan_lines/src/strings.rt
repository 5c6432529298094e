//! The strings of a TOML document.

use crate::tokens::Token;

/// The string that begins at a place of a text with this quote, `"` or `'`, and where it ends.
pub fn string_at(text: &[u8], begin: usize, quote: u8) -> (Token<'_>, usize) {
    let inside = begin.saturating_add(1);
    match text.get(inside..) {
        Some([second, third, ..]) if *second == quote && *third == quote => {
            (
                Token::Unread,
                long_end(text, begin.saturating_add(3), quote),
            )
        }
        _ => short_string(text, inside, quote),
    }
}

/// The string of one line whose inside begins at a place of a text, and where it ends. Where its line ends before it does, it ends
/// there.
fn short_string(text: &[u8], inside: usize, quote: u8) -> (Token<'_>, usize) {
    let mut is_plain = true;
    let mut is_escaped = false;
    for index in inside..text.len() {
        let byte = text[index];
        if byte == b'\n' {
            return (Token::Unread, index);
        }
        if is_escaped {
            is_escaped = false;
        } else if byte == quote {
            return (
                token_of(text, inside, index, is_plain),
                index.saturating_add(1),
            );
        } else if begins_escape(byte, quote) {
            is_plain = false;
            is_escaped = true;
        }
    }
    (Token::Unread, text.len())
}

/// The token of a string whose inside goes from a place of a text to another. It is plain where it has no escape.
fn token_of(text: &[u8], inside: usize, end: usize, is_plain: bool) -> Token<'_> {
    match text.get(inside..end) {
        Some(word) if is_plain => Token::Word(word),
        _ => Token::Unread,
    }
}

/// Where a string of several lines ends, whose inside begins at a place of a text: behind three quotes, and behind two more where
/// they follow, which then belong to what it spells.
fn long_end(text: &[u8], inside: usize, quote: u8) -> usize {
    let mut quotes = 0u8;
    let mut is_escaped = false;
    for index in inside..text.len() {
        let byte = text[index];
        if is_escaped {
            is_escaped = false;
        } else if byte == quote {
            quotes = quotes.saturating_add(1);
            if quotes == 5 {
                return index.saturating_add(1);
            }
        } else if quotes >= 3 {
            return index;
        } else {
            quotes = 0;
            is_escaped = begins_escape(byte, quote);
        }
    }
    text.len()
}

/// Whether a byte begins an escape in a string with this quote.
fn begins_escape(byte: u8, quote: u8) -> bool {
    byte == b'\\' && quote == b'"'
}

//! The tokens of a TOML document, as far as its tables and keys are told by them.

ghost use Rattle.std.specs.Prelude.{◌<◌, ◌≤◌, length};

use crate::strings::string_at;

/// A token of a TOML document.
#[derive(Clone, Copy)]
pub enum Token<'t> {
    /// A bare word, or what stands in the quotes of a string that is spelled without escapes: a key, or a part of a value.
    Word(&'t [u8]),
    /// A string with an escape, or of several lines: no key that could be compared.
    Unread,
    /// `[`
    OpenArray,
    /// `{`
    OpenTable,
    /// `]` or `}`
    Close,
    Equals,
    Comma,
    Dot,
    Newline,
}

/// A token with the places in the text where it begins and where it ends.
#[derive(Clone, Copy)]
pub struct Stretch<'t> {
    pub token: Token<'t>,
    pub begin: usize,
    pub end: usize,
}

/// The first token at a place of a text or behind it; none where only blanks and comments follow.
pub fn next_token(text: &[u8], from: usize) -> Option<Stretch<'_>> {
    let begin = behind_blanks(text, from);
    let Some(first) = text.get(begin) else {
        return None;
    };
    let (token, end) = match *first {
        b'"' | b'\'' => string_at(text, begin, *first),
        byte => match mark_of(byte) {
            Some(token) => (token, begin.saturating_add(1)),
            None => word_at(text, begin),
        },
    };
    Some(Stretch { token, begin, end })
}

/// Where a token may begin, at a place of a text or behind it: behind blanks and a comment.
fn behind_blanks(text: &[u8], from: usize) -> usize {
    let mut is_comment = false;
    for index in from..text.len() {
        match text[index] {
            b'\n' => return index,
            b' ' | b'\t' | b'\r' => {}
            b'#' => is_comment = true,
            _ if is_comment => {}
            _ => return index,
        }
    }
    text.len()
}

/// The token that a byte is by itself, if it is one.
fn mark_of(byte: u8) -> Option<Token<'static>> {
    match byte {
        b'[' => Some(Token::OpenArray),
        b'{' => Some(Token::OpenTable),
        b']' | b'}' => Some(Token::Close),
        b'=' => Some(Token::Equals),
        b',' => Some(Token::Comma),
        b'.' => Some(Token::Dot),
        b'\n' => Some(Token::Newline),
        _ => None,
    }
}

/// The word that begins at a place of a text, and where it ends.
fn word_at(text: &[u8], begin: usize) -> (Token<'_>, usize) {
    let end = word_end(text, begin);
    match text.get(begin..end) {
        Some(word) => (Token::Word(word), end),
        None => (Token::Unread, end),
    }
}

/// Where the word that begins at a place of a text ends.
fn word_end(text: &[u8], begin: usize) -> usize {
    for index in begin..text.len() {
        if ends_word(text[index]) {
            return index;
        }
    }
    text.len()
}

/// Whether a byte cannot stand in a word.
fn ends_word(byte: u8) -> bool {
    matches!(byte, b' ' | b'\t' | b'\r' | b'#' | b'"' | b'\'') || mark_of(byte).is_some()
}

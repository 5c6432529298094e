//! Texts of others in one line of ours.

use near_words::write_escaped;
use std::fmt;

/// How many characters of a text are shown.
const MOST_SHOWN: usize = 40;

/// A text in quotes, as TOML spells it: with escapes for quotes, backslashes and characters that cannot be seen. One of more than
/// 40 characters is cut there, and three dots stand behind the quotes.
#[derive(Clone, Copy)]
pub struct Quoted<'a>(pub &'a str);

impl fmt::Display for Quoted<'_> {
    fn fmt<W: fmt::Write>(&self, f: &mut fmt::Formatter<W>) -> fmt::Result {
        f.write_str("\"")?;
        for character in self.0.chars().take(MOST_SHOWN) {
            match character {
                '"' => f.write_str("\\\"")?,
                '\\' => f.write_str("\\\\")?,
                _ => write_escaped(f, character)?,
            }
        }
        f.write_str("\"")?;
        if is_cut(self.0) {
            f.write_str("...")
        } else {
            Ok(())
        }
    }
}

/// A text as it stands, with escapes for characters that cannot be seen. One of more than 40 characters is cut there, and three
/// dots stand behind it.
#[derive(Clone, Copy)]
pub struct Plain<'a>(pub &'a str);

impl fmt::Display for Plain<'_> {
    fn fmt<W: fmt::Write>(&self, f: &mut fmt::Formatter<W>) -> fmt::Result {
        for character in self.0.chars().take(MOST_SHOWN) {
            write_escaped(f, character)?;
        }
        if is_cut(self.0) {
            f.write_str("...")
        } else {
            Ok(())
        }
    }
}

/// A key as TOML spells it: bare, or in quotes.
#[derive(Clone, Copy)]
pub struct KeyName<'a>(pub &'a str);

impl fmt::Display for KeyName<'_> {
    fn fmt<W: fmt::Write>(&self, f: &mut fmt::Formatter<W>) -> fmt::Result {
        if is_bare(self.0) {
            write!(f, "{}", Plain(self.0))
        } else {
            write!(f, "{}", Quoted(self.0))
        }
    }
}

/// Whether a key needs no quotes.
fn is_bare(key: &str) -> bool {
    !key.is_empty()
        && key.bytes().all(|byte| byte.is_ascii_alphanumeric() || byte == b'-' || byte == b'_')
}

/// Whether a text has more characters than are shown.
fn is_cut(text: &str) -> bool {
    text.chars().nth(MOST_SHOWN).is_some()
}

//! Texts of others in one line of ours.

use std::fmt;

/// The name of a file as it stands, with escapes for characters that cannot be seen.
#[derive(Clone, Copy)]
pub struct FileName<'a>(pub &'a str);

impl fmt::Display for FileName<'_> {
    fn fmt<W: fmt::Write>(&self, f: &mut fmt::Formatter<W>) -> fmt::Result {
        write_text(f, self.0)
    }
}

/// Writes a text as it stands, with escapes for characters that cannot be seen.
pub fn write_text<W: fmt::Write>(f: &mut fmt::Formatter<W>, text: &str) -> fmt::Result {
    for character in text.chars() {
        write_escaped(f, character)?;
    }
    Ok(())
}

/// Writes a character, and one that cannot be seen as an escape, as TOML has it.
pub fn write_escaped<W: fmt::Write>(f: &mut fmt::Formatter<W>, character: char) -> fmt::Result {
    match character {
        '\n' => f.write_str("\\n"),
        '\r' => f.write_str("\\r"),
        '\t' => f.write_str("\\t"),
        _ if is_unseen(character) => {
            let code = u32::from(character);
            write!(f, "\\u{code:04X}")
        }
        _ => f.write_char(character),
    }
}

/// Whether a character cannot be seen, or cannot be told from a space.
pub fn is_unseen(character: char) -> bool {
    match character {
        ' ' => false,
        '\u{AD}'
        | '\u{200B}'..='\u{200F}'
        | '\u{202A}'..='\u{202E}'
        | '\u{2060}'..='\u{206F}'
        | '\u{FEFF}' => true,
        _ => character.is_control() || character.is_whitespace(),
    }
}

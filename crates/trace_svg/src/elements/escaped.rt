//! Text as it may stand between tags and between quotes.

ghost use Rattle.std.specs.Prelude.{◌≡◌, option_map};
ghost use Rattle.trace_svg.specs.elements.Escapes.{reference_of};

use std::fmt;

/// A text, of which `&`, `<`, `>`, `"` and `'` are shown as references to them. All else stays.
#[derive(Clone, Copy, Debug)]
pub struct Escaped<'a>(pub &'a str);

impl<'a> fmt::Display for Escaped<'a> {
    ghost use Rattle.std.specs.Prelude.{Some};
    ghost use Rattle.trace_svg.specs.elements.Escapes.{escaped};

    ghost output = { λ text. Some (escaped text.0.now) };

    fn fmt<W: fmt::Write>(&self, f: &mut fmt::Formatter<W>) -> fmt::Result {
        for c in self.0.chars() {
            match reference(c) {
                Some(text) => f.write_str(text)?,
                None => f.write_char(c)?,
            }
        }
        Ok(())
    }
}

/// The reference to a character that may be markup.
fn reference(c: char) -> Option<&'static str>
    ensures { option_map (λ text. text.now) result ≡ reference_of c }
{
    match c {
        '&' => Some("&amp;"),
        '<' => Some("&lt;"),
        '>' => Some("&gt;"),
        '"' => Some("&quot;"),
        '\'' => Some("&#39;"),
        _ => None,
    }
}

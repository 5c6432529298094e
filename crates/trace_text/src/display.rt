//! Lines and words of traces as `{}` shows them.
ghost use Rattle.std.specs.Prelude.{◌≡◌};
ghost use Rattle.trace_text.specs.Spelling.{kind_text};

use crate::line_text::{LINE_ROOM, put_line};
use crate::stamp::Stamp;
use crate::words::{DUE, FIXED_DUE, RATE_DUE, SCHEDULE_DUE};
use executor_model::{Kind, Line};
use std::fmt;

/// The text of a line, with its newline, as [`put_line`] puts it.
#[derive(Clone, Copy, Debug)]
pub struct LineText(pub Line);

impl fmt::Display for LineText {
    ghost use Rattle.std.specs.Prelude.{Some};
    ghost use Rattle.trace_text.specs.Spelling.{line_text};

    ghost output = { λ text. Some (line_text text.0) };

    fn fmt<W: fmt::Write>(&self, f: &mut fmt::Formatter<W>) -> fmt::Result {
        let line = self.0;
        let mut buffer = [0; LINE_ROOM];
        let end = put_line(&mut buffer, 0, &mut Stamp::new(line.moment()), &line);
        match str::from_utf8(&buffer[..end]) {
            Ok(text) => f.write_str(text),
            Err(_) => Err(fmt::Error),
        }
    }
}

/// The word of a kind of task, as the line of a submission has it.
pub fn kind_word(kind: Kind) -> &'static str
    ensures { result.now ≡ kind_text kind }
{
    let words: &[u8] = match kind {
        Kind::Schedule => &SCHEDULE_DUE,
        Kind::Rate => &RATE_DUE,
        Kind::Fixed => &FIXED_DUE,
    };
    match str::from_utf8(&words[..words.len() - DUE]) {
        Ok(word) => word,
        Err(_) => unreachable!(),
    }
}

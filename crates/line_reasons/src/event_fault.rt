//! Why a line is no event's and no call's, in words.

use crate::choice::Choice;
use crate::form::{EventNumber, Form};
use crate::line::LineFault;
use crate::number::NumberFault;
use crate::shown::Quoted;
use std::fmt;
use trace_text::MOST_EVENT_BYTES;

/// Why a line is no event's, or is no event's and no call's.
///
/// It prints as `WHAT IS WRONG; WHAT IS WANTED`, as `leading zero; a moment has none, as in "clock 5"`.
#[derive(Clone, Copy, Debug, PartialEq, Eq)]
pub enum EventFault<'l> {
    /// It has more than [`MOST_EVENT_BYTES`] bytes, with its newline.
    TooLong,
    /// What is wrong is so whatever forms of lines there are, and no word of it is.
    Line(LineFault<'l>),
    /// A word is none of those that can stand there. One of them may be meant. The word has no bytes where a line of a live run
    /// has none.
    NoWord {
        word: &'l [u8],
        choice: Choice,
        near: Option<&'static str>,
    },
    /// The word that stands in the place of a number is none, or one that does not fit.
    Number {
        number: EventNumber,
        fault: NumberFault,
    },
    /// The number is below the least one that fits.
    TooSmall(EventNumber),
    /// Words are missing at its end, which lines of this form have.
    Missing(Form),
    /// Words stand behind the last one that lines of this form have.
    Surplus(Form),
}

impl fmt::Display for EventFault<'_> {
    fn fmt<W: fmt::Write>(&self, f: &mut fmt::Formatter<W>) -> fmt::Result {
        match self {
            EventFault::TooLong => {
                write!(
                    f,
                    "too long; at most {MOST_EVENT_BYTES} bytes with its newline"
                )
            }
            EventFault::Line(LineFault::Empty) => write_no_word(f, b"", Choice::Event, None),
            EventFault::Line(fault) => write!(f, "{fault}"),
            EventFault::NoWord { word, choice, near } => write_no_word(f, word, *choice, *near),
            EventFault::Number { number, fault } => write_no_number(f, *number, *fault),
            EventFault::TooSmall(number) => write_too_small(f, *number),
            EventFault::Missing(form) => write!(f, "too short; {form}"),
            EventFault::Surplus(form) => write!(f, "more behind its end; {form}"),
        }
    }
}

/// Writes that a word is none of some words, or that there is none.
fn write_no_word<W: fmt::Write>(
    f: &mut fmt::Formatter<W>,
    word: &[u8],
    choice: Choice,
    near: Option<&str>,
) -> fmt::Result {
    if word.is_empty() {
        return write!(f, "empty; {choice}");
    }
    write!(f, "{} is no {}; ", Quoted(word), choice.name())?;
    if let Some(near) = near {
        write!(f, "{near} may be meant; ")?;
    }
    write!(f, "{choice}")
}

/// Writes why a word is not the number that is wanted.
fn write_no_number<W: fmt::Write>(
    f: &mut fmt::Formatter<W>,
    number: EventNumber,
    fault: NumberFault,
) -> fmt::Result {
    let (name, example) = (number.name(), number.example());
    match fault {
        NumberFault::TooLarge => {
            write!(f, "{fault}; a {name} is at most {}", number.most_of_use())
        }
        NumberFault::NoNumber => write!(f, "{fault}; a {name} is wanted, as in \"{example}\""),
        NumberFault::Unit if number.is_in_nanoseconds() => {
            write!(
                f,
                "{fault}; a {name} has none and is in nanoseconds, as in \"{example}\""
            )
        }
        _ => write!(f, "{fault}; a {name} has none, as in \"{example}\""),
    }
}

/// Writes that a number is below the least one that fits.
fn write_too_small<W: fmt::Write>(f: &mut fmt::Formatter<W>, number: EventNumber) -> fmt::Result {
    let (name, least, example) = (number.name(), number.least(), number.example());
    write!(
        f,
        "too small; a {name} is at least {least}, as in \"{example}\""
    )
}

//! What is wanted where a fault is.

use crate::keys::Shape;
use crate::limits::MOST_CALLS;
use crate::spelled::Plain;
use crate::versions::word_of_unit;
use near_words::write_text;
use sched_time::{LONGEST, Unit};
use std::fmt;

/// One of some words.
#[derive(Debug, Drop)]
pub struct Choice {
    /// Those of the words that may be meant.
    pub near: Vec<String>,
    pub words: Vec<&'static str>,
}

/// A submission that bears a name.
#[derive(Clone, Copy, Debug, PartialEq, Eq)]
pub struct Namesake {
    /// Its block, numbered from 1.
    pub block: u32,
    /// Its call in that block, numbered from 1.
    pub call: u32,
    /// The line of its name in the text, where it can be told.
    pub line: Option<usize>,
}

/// What is wanted where a fault is.
#[derive(Debug, Drop)]
pub enum Wanted {
    /// Nothing that is told beside what is wrong.
    Unsaid,
    /// A TOML document, which the text is not for this reason.
    Document(String),
    /// A text of at most so many bytes.
    Bytes(usize),
    /// A value of this shape.
    Shape(Shape),
    /// One of some words.
    OneOf(Choice),
    /// A number in a range; in this unit, where it is that of a time.
    Number {
        least: Option<u64>,
        most: u64,
        unit: Option<Unit>,
    },
    /// An `every`, since the calls are made so often.
    Every {
        times: i64,
    },
    /// At least so much: the call before is made then.
    NotBefore {
        least: u64,
        unit: Unit,
    },
    /// At most so much: the next iteration begins then.
    NotAfter {
        most: u64,
        unit: Unit,
    },
    /// An earlier call: in the last iteration it is made at this moment, in nanoseconds.
    Earlier {
        last: u128,
    },
    /// At most so many.
    AtMost(u64),
    /// Fewer calls: with repetitions there are so many up to here.
    Fewer {
        calls: u64,
    },
    /// The form of a name.
    Name,
    /// A name other than that of this submission.
    Other(Namesake),
    /// The name of a submission before: one of these may be meant, or this one, which stands behind.
    Before {
        near: Vec<String>,
        behind: Option<Namesake>,
    },
    /// The name of a submission in a block that is made once, which this one is not.
    MadeOnce {
        namesake: Namesake,
        times: u64,
    },
}

impl fmt::Display for Wanted {
    fn fmt<W: fmt::Write>(&self, f: &mut fmt::Formatter<W>) -> fmt::Result {
        match self {
            Wanted::Unsaid => Ok(()),
            Wanted::Document(why) => write_text(f, why.as_str()),
            Wanted::Bytes(most) => write!(f, "at most {most} bytes"),
            Wanted::Shape(shape) => write!(f, "{shape}"),
            Wanted::OneOf(choice) => write_choice(f, choice),
            Wanted::Number { least, most, unit } => write_range(f, *least, *most, *unit),
            Wanted::Every { times } => write!(f, "an integer, since times is {times}"),
            Wanted::AtMost(most) => write!(f, "at most {most}"),
            Wanted::Fewer { calls } => {
                write!(
                    f,
                    "at most {MOST_CALLS} calls in all, and these make {calls}"
                )
            }
            Wanted::NotBefore { .. } | Wanted::NotAfter { .. } | Wanted::Earlier { .. } => {
                self.write_order(f)
            }
            Wanted::Name | Wanted::Other(_) | Wanted::Before { .. } | Wanted::MadeOnce { .. } =>
                self.write_name(f),
        }
    }
}

impl Wanted {
    /// Writes what is wanted of a moment.
    fn write_order<W: fmt::Write>(&self, f: &mut fmt::Formatter<W>) -> fmt::Result {
        match self {
            Wanted::NotBefore { least, unit } => {
                let unit = word_of_unit(*unit);
                write!(
                    f,
                    "at least {least} {unit}, when the call before it is made"
                )
            }
            Wanted::NotAfter { most, unit } => {
                let unit = word_of_unit(*unit);
                write!(f, "at most {most} {unit}, when the next iteration begins")
            }
            Wanted::Earlier { last } => {
                write!(
                    f,
                    "at most {LONGEST} ns, and in the last iteration it is {last} ns"
                )
            }
            _ => Ok(()),
        }
    }

    /// Writes what is wanted of a name.
    fn write_name<W: fmt::Write>(&self, f: &mut fmt::Formatter<W>) -> fmt::Result {
        match self {
            Wanted::Name => f.write_str("1 to 32 ASCII letters, digits, - and _"),
            Wanted::Other(namesake) => write!(f, "another one than that of {namesake}"),
            Wanted::Before { near, behind } => {
                write_near(f, near.as_slice())?;
                f.write_str("that of a submission before it")?;
                match behind {
                    Some(namesake) => write!(f, ", and {namesake} stands behind it"),
                    None => Ok(()),
                }
            }
            Wanted::MadeOnce { namesake, times } => {
                write!(
                    f,
                    "that of a block which is made once, and {namesake} is made {times} times"
                )
            }
            _ => Ok(()),
        }
    }
}

impl fmt::Display for Namesake {
    fn fmt<W: fmt::Write>(&self, f: &mut fmt::Formatter<W>) -> fmt::Result {
        let Namesake { block, call, line } = *self;
        write!(f, "block {block}, call {call}")?;
        match line {
            Some(line) => write!(f, " in line {line}"),
            None => Ok(()),
        }
    }
}

/// Writes some words, those that may be meant first.
fn write_choice<W: fmt::Write>(f: &mut fmt::Formatter<W>, choice: &Choice) -> fmt::Result {
    write_near(f, choice.near.as_slice())?;
    let mut before = "one of ";
    for word in choice.words.as_slice() {
        write!(f, "{before}{word}")?;
        before = ", ";
    }
    Ok(())
}

/// Writes the words that may be meant, where there are some.
fn write_near<W: fmt::Write>(f: &mut fmt::Formatter<W>, near: &[String]) -> fmt::Result {
    let mut before = "";
    for word in near {
        write!(f, "{before}{}", Plain(word.as_str()))?;
        before = " or ";
    }
    if near.is_empty() {
        Ok(())
    } else {
        f.write_str(" may be meant; ")
    }
}

/// Writes a range.
fn write_range<W: fmt::Write>(
    f: &mut fmt::Formatter<W>,
    least: Option<u64>,
    most: u64,
    unit: Option<Unit>,
) -> fmt::Result {
    match least {
        Some(least) => write!(f, "{least} to {most}")?,
        None => write!(f, "at most {most}")?,
    }
    match unit {
        Some(unit) => write!(f, " {}", word_of_unit(unit)),
        None => Ok(()),
    }
}

//! What is wrong with a line, whatever forms of lines there are.

ghost use Rattle.std.specs.Prelude.{◌<◌, IsTrue, MatchOption, length};
ghost use Rattle.line_reasons.specs.declared.number.NumberFault.{NumberFault};
ghost use Rattle.line_reasons.specs.Lines.{IsFirstFault, form_faults, space_faults, IsLineFault, IsWordsFault, words_of, IsWordFault};

use crate::number::{NumberFault, is_unit, number_fault};
use crate::shown::Quoted;
use memchr::memmem;
use std::fmt;

/// Why a line cannot be read, as far as it shows whatever forms of lines there are.
///
/// It prints as `WHAT IS WRONG; WHAT IS WANTED`, as `leading zero in "05"; a number has none`.
#[derive(Clone, Copy, Debug, PartialEq, Eq)]
pub enum LineFault<'l> {
    /// Nothing stands before its newline.
    Empty,
    CarriageReturn,
    /// It is the last line of its text, and no newline ends it.
    NoNewline,
    Tab,
    TwoSpaces,
    SpaceInFront,
    SpaceAtEnd,
    /// This word would be a number.
    Number(&'l [u8], NumberFault),
    /// None of these: its words stand in no form of a line.
    NoSuchLine,
}

impl fmt::Display for LineFault<'_> {
    fn fmt<W: fmt::Write>(&self, f: &mut fmt::Formatter<W>) -> fmt::Result {
        match self {
            LineFault::Empty => f.write_str("empty; a line has a word at least"),
            LineFault::CarriageReturn => {
                f.write_str("carriage return; a line ends with a newline alone")
            }
            LineFault::NoNewline => f.write_str("no newline; each line ends with one"),
            LineFault::Tab => f.write_str("tab; one space stands between two words"),
            LineFault::TwoSpaces => f.write_str("two spaces; one space stands between two words"),
            LineFault::SpaceInFront => f.write_str("space in front; a line begins with a word"),
            LineFault::SpaceAtEnd => f.write_str("space at the end; a line ends with a word"),
            LineFault::Number(word, fault) => write_number(f, word, *fault),
            LineFault::NoSuchLine => f.write_str("no such line"),
        }
    }
}

/// Writes why a word is no number.
fn write_number<W: fmt::Write>(
    f: &mut fmt::Formatter<W>,
    word: &[u8],
    fault: NumberFault,
) -> fmt::Result {
    let word = Quoted(word);
    match fault {
        NumberFault::TooLarge => write!(f, "{word} is too large; a number is at most {}", u64::MAX),
        NumberFault::NoNumber => write!(f, "{word} is no number; a number has digits alone"),
        _ => write!(f, "{fault} in {word}; a number has none"),
    }
}

/// Why a line cannot be read, given with its newline, of what shows whatever forms of lines there are: the first of these that
/// is so.
///
/// A word is told of as a number where it is one but for a sign, a leading zero, a unit or its size, and the first such word is.
pub fn line_fault(line: &[u8]) -> LineFault<'_>
    ensures { IsLineFault line.now result }
{
    match form_fault(line) {
        Some(fault) => fault,
        None => words_fault(line),
    }
}

/// What is wrong with a line whatever its words are: the first fault of its form that is so. `None` exactly where none is.
pub fn form_fault(line: &[u8]) -> Option<LineFault<'_>>
    ensures { IsFirstFault form_faults line.now result }
{
    if line.is_empty() || line == b"\n".as_slice() {
        return Some(LineFault::Empty);
    }
    if line.contains(&b'\r') {
        return Some(LineFault::CarriageReturn);
    }
    if !line.ends_with(b"\n") {
        return Some(LineFault::NoNewline);
    }
    spaces_fault(line)
}

/// What is wrong with what stands between the words of a line: the first fault that is so. `None` exactly where none is.
fn spaces_fault(line: &[u8]) -> Option<LineFault<'_>>
    ensures { IsFirstFault space_faults line.now result }
{
    if line.contains(&b'\t') {
        return Some(LineFault::Tab);
    }
    if line.starts_with(b" ") {
        return Some(LineFault::SpaceInFront);
    }
    if line.ends_with(b" \n") {
        return Some(LineFault::SpaceAtEnd);
    }
    if memmem::find(line, b"  ").is_some() {
        return Some(LineFault::TwoSpaces);
    }
    None
}

/// What is wrong with the words of a line, given with its newline.
fn words_fault(line: &[u8]) -> LineFault<'_>
    requires { 0 < length line.now }
    ensures { IsWordsFault (words_of line.now) result }
{
    let words = &line[..line.len() - 1];
    let mut is_behind_number = false;
    for word in words.split(|byte| *byte == b' ') {
        if let Some(fault) = word_fault(word, is_behind_number) {
            return LineFault::Number(word, fault);
        }
        is_behind_number = number_fault(word, u64::MAX).is_none();
    }
    LineFault::NoSuchLine
}

/// Why a word is no number, where it would be one. Behind a number a unit would be.
fn word_fault(word: &[u8], is_behind_number: bool) -> Option<NumberFault>
    ensures { MatchOption result
        ((why : NumberFault) → ¬ (IsWordFault (IsTrue is_behind_number) word.now why))
        (IsWordFault (IsTrue is_behind_number) word.now) }
{
    if is_behind_number && is_unit(word) {
        return Some(NumberFault::Unit);
    }
    match number_fault(word, u64::MAX) {
        Some(NumberFault::NoNumber) => None,
        fault => fault,
    }
}

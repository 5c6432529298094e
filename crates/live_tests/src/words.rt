//! Cases that are written as text: rows of what is done, and what is told of it.
//!
//! A case is a name on a line of its own, and a row a line: a step, ` | `, and what is told. A line behind a `#` is a remark. A step,
//! and what is told, is a word and up to four numbers. An empty line stands between two cases.
use std::alloc::Global;
use std::process::Abort;
use std::test::Fail;

/// The limit of moments and spans, in nanoseconds.
const MOST: u64 = 1 << 62;

/// A nanosecond past it.
const LATE: u64 = MOST + 1;

/// Twice as much.
const DOUBLE: u64 = 1 << 63;

/// A word, and the numbers behind it; those that are not written are 0.
#[derive(Clone, Copy, Debug, PartialEq, Eq)]
pub struct Words<'a> {
    pub word: &'a str,
    pub first: u64,
    pub second: u64,
    pub third: u64,
    pub fourth: u64,
}

/// A row, with the name of its case.
#[derive(Clone, Copy)]
pub struct Row<'a> {
    case: &'a str,
    pub line: &'a str,
    pub step: Words<'a>,
    pub told: Words<'a>,
}

/// The number that has this name.
fn named(word: &str) -> Option<u64> {
    match word {
        "false" => Some(0),
        "true" => Some(1),
        "most" => Some(MOST),
        "late" => Some(LATE),
        "double" => Some(DOUBLE),
        "max" => Some(u64::MAX),
        _ => None,
    }
}

/// The number of a word: that which has its name, or its digits. Where there is no word it is 0.
fn number_of(word: Option<&str>) -> Result<u64, Fail> {
    let Some(word) = word else {
        return Ok(0);
    };
    match named(word) {
        Some(number) => Ok(number),
        None => Ok(word.parse::<u64>()?),
    }
}

/// A word and its numbers.
pub fn read_words(text: &str) -> Result<Words<'_>, Fail> {
    let mut words = text.split(' ');
    let word = words.next().ok_or("no word")?;
    let first = number_of(words.next())?;
    let second = number_of(words.next())?;
    let third = number_of(words.next())?;
    let fourth = number_of(words.next())?;
    match words.next() {
        None => Ok(tell(word, first, second, third, fourth)),
        Some(_) => Err("a fifth number".into()),
    }
}

/// A row of a case.
fn read_row<'a>(case: &'a str, line: &'a str) -> Result<Row<'a>, Fail> {
    let (step, told) = line.split_once(" | ").ok_or("nothing told")?;
    Ok(Row {
        case,
        line,
        step: read_words(step)?,
        told: read_words(told)?,
    })
}

/// The rows of a case.
pub fn read_rows<'a>(alloc: Global, text: &'a str) -> Result<Vec<Row<'a>>, Fail> {
    let (case, lines) = text.split_once('\n').ok_or("no rows")?;
    let mut rows = Vec::new(alloc);
    for line in lines.lines() {
        if !line.starts_with('#') {
            rows.push(read_row(case, line)?)?;
        }
    }
    Ok(rows)
}

/// Compares what is told with what is to be told.
pub fn compare(rt: &impl Abort, row: &Row<'_>, told: Words<'_>) {
    assert!(rt; told == row.told, "{}: {}: {told:?}", row.case, row.line);
}

/// A word without numbers.
pub fn lone(word: &str) -> Words<'_> {
    tell(word, 0, 0, 0, 0)
}

/// A word and one number.
pub fn with_one(word: &str, number: u64) -> Words<'_> {
    tell(word, number, 0, 0, 0)
}

/// A word and its numbers.
pub fn tell(word: &str, first: u64, second: u64, third: u64, fourth: u64) -> Words<'_> {
    Words {
        word,
        first,
        second,
        third,
        fourth,
    }
}

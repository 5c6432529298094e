//! Calls that are written as text: a word and up to four numbers.
use std::test::Fail;

/// The limit of moments and spans, in nanoseconds.
const MOST: u64 = 1 << 62;

/// A nanosecond past it.
const LATE: u64 = MOST + 1;

/// Twice as much.
const DOUBLE: u64 = 1 << 63;

/// A word, and the numbers behind it; those that are not written are 0.
#[derive(Clone, Copy, Debug, PartialEq, Eq)]
pub struct Words<'a> {
    pub word: &'a str,
    pub first: u64,
    pub second: u64,
    pub third: u64,
    pub fourth: u64,
}

/// The number that has this name.
fn named(word: &str) -> Option<u64> {
    match word {
        "false" => Some(0),
        "true" => Some(1),
        "most" => Some(MOST),
        "late" => Some(LATE),
        "double" => Some(DOUBLE),
        "max" => Some(u64::MAX),
        _ => None,
    }
}

/// The number of a word: that which has its name, or its digits. Where there is no word it is 0.
fn number_of(word: Option<&str>) -> Result<u64, Fail> {
    let Some(word) = word else {
        return Ok(0);
    };
    match named(word) {
        Some(number) => Ok(number),
        None => Ok(word.parse::<u64>()?),
    }
}

/// A word and its numbers.
pub fn read_words(text: &str) -> Result<Words<'_>, Fail> {
    let mut words = text.split(' ');
    let word = words.next().ok_or("no word")?;
    let first = number_of(words.next())?;
    let second = number_of(words.next())?;
    let third = number_of(words.next())?;
    let fourth = number_of(words.next())?;
    match words.next() {
        None => Ok(Words {
            word,
            first,
            second,
            third,
            fourth,
        }),
        Some(_) => Err("a fifth number".into()),
    }
}

//! What a line is about, as far as its words tell it.

use executor_model::Happening;
use sched_time::{Ending, LONGEST};
use std::alloc::{AllocError, Allocator};

/// How many words of a line are looked at.
const MOST_WORDS: usize = 12;

/// What a line is about, as far as its words tell it.
#[derive(Clone, Copy, Debug, PartialEq, Eq)]
pub struct Asked {
    /// The moment in front, in nanoseconds.
    pub moment: Option<u64>,
    /// The happening that it answers.
    pub happening: Option<Happening>,
}

impl Asked {
    /// Nothing is told.
    pub const NOTHING: Asked = Asked {
        moment: None,
        happening: None,
    };

    /// What a line is about, which need not be one that can be read. `Err` is a refused growth.
    pub fn of_line<A: Allocator>(alloc: A, line: &[u8]) -> Result<Asked, AllocError> {
        let Ok(line) = str::from_utf8(line) else {
            return Ok(Asked::NOTHING);
        };
        let mut words = Vec::new(alloc);
        for word in line.split_whitespace().take(MOST_WORDS) {
            words.push(word)?;
        }
        Ok(Asked::of_words(&words))
    }

    /// What the words of a line are about.
    fn of_words(words: &[&str]) -> Asked {
        let Some((first, rest)) = words.split_first() else {
            return Asked::NOTHING;
        };
        match first.parse() {
            Ok(moment) => Asked {
                moment: Some(moment),
                happening: happening_of(Some(moment), rest),
            },
            Err(_) => Asked {
                moment: None,
                happening: happening_of(None, words),
            },
        }
    }
}

/// The happening that the words behind a moment answer.
fn happening_of(moment: Option<u64>, words: &[&str]) -> Option<Happening> {
    let (first, rest) = words.split_first()?;
    let next = rest.first().copied().unwrap_or("");
    match *first {
        "clock" => moment.or(next.parse().ok()).map(Happening::Clock),
        "start" => next.parse().ok().map(Happening::Start),
        "finish" => {
            let worker = next.parse().ok()?;
            Some(Happening::Finish(worker, ending_of(rest)))
        }
        "outside" => next.parse().ok().map(Happening::Cancel),
        "purge" => Some(Happening::Purge),
        "error" => event_of_error(rest),
        "submit" | "refuse" | "cancel" | "policy" | "shutdown" | "ask" => Some(Happening::Call),
        _ => None,
    }
}

/// The ending of a run that the words tell: the value 0 where they tell none.
fn ending_of(words: &[&str]) -> Ending {
    let mut ending = Ending::Value(0);
    let mut before = "";
    for word in words {
        match before {
            "done" => ending = word.parse().map(Ending::Value).unwrap_or(ending),
            "failed" => ending = word.parse().map(Ending::Fault).unwrap_or(ending),
            _ => {}
        }
        before = word;
    }
    ending
}

/// An event that may get the error of these words.
fn event_of_error(words: &[&str]) -> Option<Happening> {
    match words {
        ["backward", ..] => Some(Happening::Clock(0)),
        ["too", "far", ..] => Some(Happening::Clock(LONGEST + 1)),
        ["no", "worker", ..] => Some(Happening::Start(u8::MAX)),
        ["no", "task", ..] => Some(Happening::Cancel(u32::MAX)),
        ["busy", ..] => Some(Happening::Start(0)),
        ["not", "running", ..] => Some(Happening::Finish(0, Ending::Value(0))),
        _ => None,
    }
}

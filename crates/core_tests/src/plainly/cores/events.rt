//! What happens, as text: each is a line.
use crate::told::{byte_of, short_of};
use crate::words::read_words;
use executor_model::{Event, Happening};
use sched_time::Ending;
use std::alloc::Global;
use std::test::Fail;

/// The event of a line.
pub fn event_of(line: &str) -> Result<Event, Fail> {
    let words = read_words(line)?;
    let (first, second) = (words.first, words.second);
    match words.word {
        "clock" => Ok(Event::Clock(first)),
        "start" => Ok(Event::Start(byte_of(first))),
        "finish" => Ok(Event::Finish(byte_of(first), Ending::Value(second))),
        "fail" => Ok(Event::Finish(byte_of(first), Ending::Fault(short_of(second)))),
        "cancel" => Ok(Event::Cancel(short_of(first))),
        _ => Err("no event".into()),
    }
}

/// The events of these lines.
pub fn events_of(alloc: Global, lines: &str) -> Result<Vec<Event>, Fail> {
    let mut events = Vec::new(alloc);
    for line in lines.lines() {
        let event = event_of(line)?;
        events.push(event)?;
    }
    Ok(events)
}

/// What happens by a line: the next call, a purge, or an event.
pub fn happening_of(line: &str) -> Result<Happening, Fail> {
    match line {
        "call" => Ok(Happening::Call),
        "purge" => Ok(Happening::Purge),
        _ => Ok(event_of(line)?.happening()),
    }
}

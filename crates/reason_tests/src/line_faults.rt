//! Tests of reasons, each fault by itself and their order.
mod endings;
mod events;
mod lines;
mod live;
mod memory;
mod numbers;
mod places;
mod usage;
mod words;

use crate::tables::{before_bar, behind_bar};
use line_reasons::{EventsReason, line_fault};
use std::alloc::{AllocError, Allocator, Global};
use std::process::Abort;
use std::test::Fail;

/// That of the crate. All tests find reasons through it: what it ensures is then looked at once.
fn reason_of_events<A: Allocator + Copy>(alloc: A, text: &[u8]) -> Option<EventsReason<'_>> {
    line_reasons::reason_of_events(alloc, text)
}

/// What the lines of a text are.
#[derive(Clone, Copy)]
enum Kind {
    /// Events.
    Events,
    /// Events and calls.
    Live,
    /// Any lines, which have the faults that lines of all kinds have.
    Any,
}

/// The first line of a text that is not fine, with its fault.
fn reason(alloc: Global, kind: Kind, text: &[u8]) -> Option<EventsReason<'_>> {
    match kind {
        Kind::Live => live::reason_of_live_lines(alloc, text),
        _ => reason_of_events(alloc, text),
    }
}

/// What is told of a text: `fine`, or the reason in one line.
fn told(alloc: Global, kind: Kind, text: &[u8]) -> Result<String, AllocError> {
    match reason(alloc, kind, text) {
        None => String::from_str(alloc, "fine"),
        Some(reason) => reason.to_string(alloc),
    }
}

/// The fault that is told of the first line of a text that is not fine, or `fine`.
fn told_fault(alloc: Global, kind: Kind, text: &[u8]) -> Result<String, AllocError> {
    if matches!(kind, Kind::Any) {
        return line_fault(text).to_string(alloc);
    }
    match reason(alloc, kind, text) {
        None => String::from_str(alloc, "fine"),
        Some(reason) => reason.fault.to_string(alloc),
    }
}

/// All tables of lines of events. A row of a table is a line without its newline, then ` | `, and then the fault that is to be told.
const OF_EVENTS: &[&str] = &[
    endings::SPACES,
    numbers::SIGNS,
    numbers::LEADING_ZEROS,
    numbers::UNITS,
    numbers::LARGE_NUMBERS,
    numbers::NO_NUMBERS,
    places::MISSING_WORDS,
    places::FURTHER_WORDS,
    words::OF_NO_EVENT,
    words::NEAR_THOSE_OF_EVENTS,
    words::IN_OTHER_LETTERS,
    words::OF_NO_ENDING,
];

/// Those of lines of a live run.
const OF_LIVE_RUNS: &[&str] = &[
    live::WORDS,
    live::SPANS,
    live::TASKS_AND_WORKERS,
    live::ENDS_OF_LINES,
];

/// Those of any lines.
const OF_ANY: &[&str] = &[lines::SPACES_AND_ENDS, lines::NUMBERS];

/// The fault that is told of a row's line, which stands by itself in its text.
fn told_of_row(alloc: Global, kind: Kind, row: &str) -> Result<String, AllocError> {
    let text = [before_bar(row), "\n"].concat(alloc)?;
    told_fault(alloc, kind, text.as_bytes())
}

/// Tells of each line of a table.
fn tell(rt: &(impl AllocGlobal + Abort), kind: Kind, table: &str) -> Result<(), Fail> {
    assert!(rt; !table.is_empty());
    for row in table.lines() {
        let told = told_of_row(rt.alloc(), kind, row)?;
        assert!(rt; told.as_str() == behind_bar(row), "{row}: {told}");
    }
    Ok(())
}

/// Tells of each line of some tables.
fn tell_all(rt: &(impl AllocGlobal + Abort), kind: Kind, tables: &[&str]) -> Result<(), Fail> {
    for table in tables {
        tell(rt, kind, table)?;
    }
    Ok(())
}

#[test]
fn each_line_is_told(rt: HostRuntime) -> Result<(), Fail> {
    tell_all(&rt, Kind::Events, OF_EVENTS)?;
    tell_all(&rt, Kind::Live, OF_LIVE_RUNS)?;
    tell_all(&rt, Kind::Any, OF_ANY)
}

/// Tells of each text of some rows.
fn tell_texts(
    rt: &(impl AllocGlobal + Abort),
    kind: Kind,
    rows: &[(&[u8], &str)],
) -> Result<(), Fail> {
    for (text, wanted) in rows {
        let told = told(rt.alloc(), kind, text)?;
        assert!(rt; told.as_str() == *wanted, "{wanted}: {told}");
    }
    Ok(())
}

#[test]
fn each_text_is_told(rt: HostRuntime) -> Result<(), Fail> {
    tell_texts(&rt, Kind::Events, events::FINE)?;
    tell_texts(&rt, Kind::Events, events::FIRST_OTHER_LINES)?;
    tell_texts(&rt, Kind::Events, events::OTHER_BYTES)?;
    tell_texts(&rt, Kind::Events, events::LONG_LINES)?;
    tell_texts(&rt, Kind::Live, live::TEXTS)
}

//! Why words are not those of an event's line.

use crate::call_words::call_fault;
use crate::choice::Choice;
use crate::event_fault::EventFault;
use crate::form::{EventNumber, Form};
use crate::line::{LineFault, form_fault};
use crate::lines::Lines;
use crate::word_fault::{behind_number, last_fault, no_word};
use crate::words::split_word;
use std::alloc::Allocator;
use trace_text::MOST_EVENT_BYTES;

/// Why a line is of another kind, given with its newline where it has one. It is of another.
pub fn event_fault<A: Allocator + Copy>(alloc: A, lines: Lines, line: &[u8]) -> EventFault<'_> {
    let body = line.strip_suffix(b"\n").unwrap_or(line);
    if body.len() >= MOST_EVENT_BYTES {
        return EventFault::TooLong;
    }
    match form_fault(line) {
        Some(LineFault::Empty) if lines == Lines::Live => EventFault::NoWord {
            word: body,
            choice: lines.first_words(),
            near: None,
        },
        Some(fault) => EventFault::Line(fault),
        None => words_fault(alloc, lines, body),
    }
}

/// Why some words, with one space between two of them, are not those of such a line.
fn words_fault<A: Allocator + Copy>(alloc: A, lines: Lines, words: &[u8]) -> EventFault<'_> {
    let (word, behind) = split_word(words);
    match word {
        b"clock" => last_fault(EventNumber::Moment, behind),
        b"start" => last_fault(EventNumber::Starter, behind),
        b"finish" => finish_fault(alloc, behind),
        b"cancel" => last_fault(EventNumber::Task, behind),
        b"call" if lines == Lines::Live => call_fault(alloc, behind),
        _ => no_word(alloc, word, lines.first_words()),
    }
}

/// Why the words behind `finish` are not those of a finish.
fn finish_fault<A: Allocator + Copy>(alloc: A, words: Option<&[u8]>) -> EventFault<'_> {
    let words = match behind_number(EventNumber::Finisher, words) {
        Err(fault) => return fault,
        Ok(None) => return EventFault::Missing(Form::Finish),
        Ok(Some(words)) => words,
    };
    let (word, behind) = split_word(words);
    match word {
        b"ok" => last_fault(EventNumber::Value, behind),
        b"fail" => last_fault(EventNumber::Code, behind),
        _ => no_word(alloc, word, Choice::Ending),
    }
}

//! The events that lines spell.
ghost use Rattle.std.specs.Prelude.{◌≡◌, ◌≢◌, ℕ, ◌^◌, ◌++◌, MatchOption, codes};
ghost use Rattle.trace_text.specs.Spelling.{Spells, event_line, ending_line, FitsEvent, FitsEnding};
ghost use Rattle.trace_text.specs.Reading.{IsRead, IsUnread, number_then, Below};

use crate::scan::{split_number, strip, strip_short_word};
use executor_model::Event;
use sched_time::Ending;

/// The event that a line spells, given with its newline and nothing after it. `None` exactly when it spells none whose moment
/// and value are below 2^64, whose worker is below 256 and whose code and task are below 2^32.
pub fn read_event(line: &[u8]) -> Option<Event>
    ensures { Spells line.now result }
{
    let Some((event, rest)) = split_event(line) else {
        return None;
    };
    if !rest.is_empty() {
        return None;
    }
    Some(event)
}

/// The event whose line stands at the front of some bytes, and what follows its newline. `None` exactly when no event's line
/// stands there; the limits of its numbers are those of [`read_event`].
#[inline(always)]
pub fn split_event(bytes: &[u8]) -> Option<(Event, &[u8])>
    ensures { MatchOption result (IsUnread event_line FitsEvent bytes.now)
        (λ r. IsRead event_line FitsEvent bytes.now r.0 r.1.now) }
{
    if let Some(rest) = strip_short_word(bytes, *b"start ") {
        let Some((worker, rest)) = last_worker(rest) else {
            return None;
        };
        return Some((Event::Start(worker), rest));
    }
    if let Some(rest) = strip_short_word(bytes, *b"finish ") {
        return split_finish(rest);
    }
    if let Some(rest) = strip_short_word(bytes, *b"clock ") {
        let Some((moment, rest)) = last_number(rest) else {
            return None;
        };
        return Some((Event::Clock(moment), rest));
    }
    if let Some(rest) = strip_short_word(bytes, *b"cancel ") {
        let Some((task, rest)) = last_code(rest) else {
            return None;
        };
        return Some((Event::Cancel(task), rest));
    }
    None
}

/// The event of a line that begins with `finish `, of which these bytes are what follows.
#[inline(always)]
fn split_finish(bytes: &[u8]) -> Option<(Event, &[u8])>
    ensures { MatchOption result (IsUnread event_line FitsEvent (codes "finish " ++ bytes.now))
        (λ r. IsRead event_line FitsEvent (codes "finish " ++ bytes.now) r.0 r.1.now) }
{
    let Some((number, rest)) = split_number(bytes) else {
        return None;
    };
    if number > u8::MAX as u64 {
        return None;
    }
    let Some((ending, rest)) = split_ending(rest) else {
        return None;
    };
    Some((Event::Finish(number as u8, ending), rest))
}

/// How a run ended, to the newline, and what follows it.
#[inline(always)]
fn split_ending(bytes: &[u8]) -> Option<(Ending, &[u8])>
    ensures { MatchOption result (IsUnread ending_line FitsEnding bytes.now)
        (λ r. IsRead ending_line FitsEnding bytes.now r.0 r.1.now) }
{
    if let Some(rest) = strip_short_word(bytes, *b" ok ") {
        let Some((value, rest)) = last_number(rest) else {
            return None;
        };
        return Some((Ending::Value(value), rest));
    }
    if let Some(rest) = strip_short_word(bytes, *b" fail ") {
        let Some((code, rest)) = last_code(rest) else {
            return None;
        };
        return Some((Ending::Fault(code), rest));
    }
    None
}

/// The number at the end of a line, below 2^64, and what follows the newline behind it. `None` exactly when they
/// are not there.
#[inline(always)]
fn last_number(bytes: &[u8]) -> Option<(u64, &[u8])>
    ensures { MatchOption result (IsUnread (number_then (codes "\n")) (Below (2 ^ 64)) bytes.now)
        (λ r. IsRead (number_then (codes "\n")) (Below (2 ^ 64)) bytes.now r.0 r.1.now) }
{
    let Some((number, rest)) = split_number(bytes) else {
        return None;
    };
    let Some(rest) = strip(rest, b"\n") else {
        return None;
    };
    Some((number, rest))
}

/// The code or task at the end of a line, below 2^32, and what follows the newline behind it. `None` exactly when they
/// are not there.
#[inline(always)]
fn last_code(bytes: &[u8]) -> Option<(u32, &[u8])>
    ensures { MatchOption result (IsUnread (number_then (codes "\n")) (Below (2 ^ 32)) bytes.now)
        (λ r. IsRead (number_then (codes "\n")) (Below (2 ^ 32)) bytes.now r.0 r.1.now) }
{
    let Some((number, rest)) = last_number(bytes) else {
        return None;
    };
    if number > u32::MAX as u64 {
        return None;
    }
    Some((number as u32, rest))
}

/// The worker at the end of a line, below 2^8, and what follows the newline behind it. `None` exactly when they
/// are not there.
#[inline(always)]
fn last_worker(bytes: &[u8]) -> Option<(u8, &[u8])>
    ensures { MatchOption result (IsUnread (number_then (codes "\n")) (Below (2 ^ 8)) bytes.now)
        (λ r. IsRead (number_then (codes "\n")) (Below (2 ^ 8)) bytes.now r.0 r.1.now) }
{
    let Some((number, rest)) = last_number(bytes) else {
        return None;
    };
    if number > u8::MAX as u64 {
        return None;
    }
    Some((number as u8, rest))
}

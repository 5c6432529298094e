//! The calls that lines spell.
ghost use Rattle.std.specs.Prelude.{◌++◌, MatchOption, codes};
ghost use Rattle.trace_text.specs.Reading.{IsRead, IsUnread, Any};
ghost use Rattle.call_text.specs.Spelling.{SpellsCall, call_line, spans_text, set_text, FitsCall, FitsSpans};

use crate::spans::{last_period, span_before};
use sched_time::Which;
use trace_text::{code_before, split_truth, split_which, strip_word};

/// A call on an executor that is live, as its line tells it. Spans are in nanoseconds, from the moment of the call on.
#[derive(Clone, Copy, Debug, PartialEq, Eq)]
pub enum CallLine {
    /// A task that runs once, when this span is over: 0 to 2^62.
    Schedule(u64),
    /// A task that runs once, with no delay.
    Execute,
    /// A task that runs at a fixed rate: the span to its first run, 0 to 2^62, and its period, 1 to 2^62.
    Rate(u64, u64),
    /// A task that runs with a fixed delay: the span to its first run, 0 to 2^62, and its delay, 1 to 2^62.
    Fixed(u64, u64),
    /// The cancel of a task.
    Cancel(u32),
    /// A policy, and what it is set to.
    Policy(Which, bool),
    /// A shutdown.
    Shutdown,
    /// A shutdown at once.
    ShutdownNow,
    /// How far the executor is, is asked.
    Ask,
}

/// The call that a line spells, given with its newline and nothing after it. `None` exactly when it spells none whose spans are
/// at most 2^62, whose period or delay is 1 to 2^62 and whose task is below 2^32.
pub fn read_call(line: &[u8]) -> Option<CallLine>
    ensures { SpellsCall line.now result }
{
    let Some((call, rest)) = split_call(line) else {
        return None;
    };
    if !rest.is_empty() {
        return None;
    }
    Some(call)
}

/// The call whose line stands at the front of some bytes, and what follows its newline. `None` exactly when no call's line stands
/// there; the limits of its numbers are those of [`read_call`].
#[inline(always)]
pub fn split_call(bytes: &[u8]) -> Option<(CallLine, &[u8])>
    ensures { MatchOption result (IsUnread call_line FitsCall bytes.now)
        (λ r. IsRead call_line FitsCall bytes.now r.0 r.1.now) }
{
    let Some(rest) = strip_word(bytes, *b"call ") else {
        return None;
    };
    split_named(rest)
}

/// The call of a line that begins with `call `, of which these bytes are what follows.
#[inline(always)]
fn split_named(bytes: &[u8]) -> Option<(CallLine, &[u8])>
    ensures { MatchOption result (IsUnread call_line FitsCall (codes "call " ++ bytes.now))
        (λ r. IsRead call_line FitsCall (codes "call " ++ bytes.now) r.0 r.1.now) }
{
    if let Some(rest) = strip_word(bytes, *b"schedule ") {
        let (span, rest) = span_before(rest, b"\n")?;
        return Some((CallLine::Schedule(span), rest));
    }
    if let Some(rest) = strip_word(bytes, *b"execute\n") {
        return Some((CallLine::Execute, rest));
    }
    if let Some(rest) = strip_word(bytes, *b"rate ") {
        let ((first, period), rest) = split_spans(rest)?;
        return Some((CallLine::Rate(first, period), rest));
    }
    if let Some(rest) = strip_word(bytes, *b"fixed ") {
        let ((first, delay), rest) = split_spans(rest)?;
        return Some((CallLine::Fixed(first, delay), rest));
    }
    if let Some(rest) = strip_word(bytes, *b"cancel ") {
        let (task, rest) = code_before(rest, b"\n")?;
        return Some((CallLine::Cancel(task), rest));
    }
    if let Some(rest) = strip_word(bytes, *b"policy ") {
        let ((which, value), rest) = split_set(rest)?;
        return Some((CallLine::Policy(which, value), rest));
    }
    if let Some(rest) = strip_word(bytes, *b"shutdown\n") {
        return Some((CallLine::Shutdown, rest));
    }
    if let Some(rest) = strip_word(bytes, *b"shutdown_now\n") {
        return Some((CallLine::ShutdownNow, rest));
    }
    if let Some(rest) = strip_word(bytes, *b"ask\n") {
        return Some((CallLine::Ask, rest));
    }
    None
}

/// The span to a first run, at most 2^62 nanoseconds, and a period or a delay, 1 to 2^62, to the newline, and what follows it.
/// `None` exactly when they are not there.
fn split_spans(bytes: &[u8]) -> Option<((u64, u64), &[u8])>
    ensures { MatchOption result (IsUnread spans_text FitsSpans bytes.now)
        (λ r. IsRead spans_text FitsSpans bytes.now r.0 r.1.now) }
{
    let Some((first, rest)) = span_before(bytes, b" ") else {
        return None;
    };
    let Some((period, rest)) = last_period(rest) else {
        return None;
    };
    Some(((first, period), rest))
}

/// A policy and what it is set to, to the newline, and what follows it. `None` exactly when they are not there.
fn split_set(bytes: &[u8]) -> Option<((Which, bool), &[u8])>
    ensures { MatchOption result (IsUnread set_text Any bytes.now)
        (λ r. IsRead set_text Any bytes.now r.0 r.1.now) }
{
    let Some((which, rest)) = split_which(bytes) else {
        return None;
    };
    let Some((value, rest)) = split_truth(rest) else {
        return None;
    };
    Some(((which, value), rest))
}

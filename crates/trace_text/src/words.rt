//! Words that lines of a trace end with, or that stand between two numbers of them, with what is fixed behind them.
ghost use Rattle.std.specs.Prelude.{MatchOption, ◌^◌, ◌++◌, codes};
ghost use Rattle.executor_model.specs.Said.{message_of};
ghost use Rattle.trace_text.specs.Spelling.{message_text, FitsMessage, outcome_text, FitsOutcome, kind_text, refusal_text, effect_text, whether_text};
ghost use Rattle.sched_time.specs.Policies.{policy_text, truth_text};
ghost use Rattle.trace_text.specs.Reading.{IsRead, IsUnread, Any, Below, number_then, text_then};

use crate::scan::{code_before, number_before, strip, strip_short_word, strip_word};
use executor_model::{CancelEffect, EventError, Kind, Outcome, Refusal, Said};
use sched_time::Which;

/// The word of [`Kind::Schedule`], to the due moment that stands behind it in a line.
pub const SCHEDULE_DUE: [u8; 13] = *b"schedule due ";
/// The word of [`Kind::Rate`], to the due moment.
pub const RATE_DUE: [u8; 9] = *b"rate due ";
/// The word of [`Kind::Fixed`], to the due moment.
pub const FIXED_DUE: [u8; 10] = *b"fixed due ";

/// How many bytes stand in these between the word and the due moment.
pub const DUE: usize = 5;

/// The word of [`Which::Continue`].
pub const CONTINUE: [u8; 8] = *b"continue";
/// The word of [`Which::Execute`].
pub const EXECUTE: [u8; 7] = *b"execute";
/// The word of [`Which::Remove`].
pub const REMOVE: [u8; 6] = *b"remove";

/// What a finished run led to, of which these bytes follow the space, to the newline, and what follows it.
#[inline(always)]
pub fn split_outcome(bytes: &[u8]) -> Option<(Outcome, &[u8])>
    ensures { MatchOption result (IsUnread outcome_text FitsOutcome (codes " " ++ bytes.now))
        (λ r. IsRead outcome_text FitsOutcome (codes " " ++ bytes.now) r.0 r.1.now) }
{
    if let Some(rest) = strip_word(bytes, *b"done ") {
        let Some((value, rest)) = number_before(rest, b"\n") else {
            return None;
        };
        return Some((Outcome::Done(value), rest));
    }
    // Two short words take fewer steps than the long one that they make.
    if let Some(rest) = strip_short_word(bytes, *b"again ") {
        let Some(rest) = strip_short_word(rest, *b"due ") else {
            return None;
        };
        let Some((due, rest)) = number_before(rest, b"\n") else {
            return None;
        };
        return Some((Outcome::Again(due), rest));
    }
    if let Some(rest) = strip_word(bytes, *b"failed ") {
        let Some((code, rest)) = code_alone(rest) else {
            return None;
        };
        return Some((Outcome::Failed(code), rest));
    }
    if let Some(rest) = strip_word(bytes, *b"dropped\n") {
        return Some((Outcome::Dropped, rest));
    }
    if let Some(rest) = strip_word(bytes, *b"ended\n") {
        return Some((Outcome::Ended, rest));
    }
    None
}

/// The code at the front, to the newline, and what follows it: by a call, since few runs fail, which keeps the reading of a line
/// small.
#[cold]
fn code_alone(bytes: &[u8]) -> Option<(u32, &[u8])>
    ensures { MatchOption result (IsUnread (number_then (codes "\n")) (Below (2 ^ 32)) bytes.now)
        (λ r. IsRead (number_then (codes "\n")) (Below (2 ^ 32)) bytes.now r.0 r.1.now) }
{
    code_before(bytes, b"\n")
}

/// The kind of a task, to ` due `, and what follows that.
#[inline(always)]
pub fn split_kind(bytes: &[u8]) -> Option<(Kind, &[u8])>
    ensures { MatchOption result (IsUnread (text_then kind_text (codes " due ")) Any bytes.now)
        (λ r. IsRead (text_then kind_text (codes " due ")) Any bytes.now r.0 r.1.now) }
{
    if let Some(rest) = strip_word(bytes, SCHEDULE_DUE) {
        return Some((Kind::Schedule, rest));
    }
    if let Some(rest) = strip_word(bytes, RATE_DUE) {
        return Some((Kind::Rate, rest));
    }
    if let Some(rest) = strip_word(bytes, FIXED_DUE) {
        return Some((Kind::Fixed, rest));
    }
    None
}

/// Why a task was refused, to the newline, and what follows it.
pub fn split_refusal(bytes: &[u8]) -> Option<(Refusal, &[u8])>
    ensures { MatchOption result (IsUnread (text_then refusal_text (codes "\n")) Any bytes.now)
        (λ r. IsRead (text_then refusal_text (codes "\n")) Any bytes.now r.0 r.1.now) }
{
    if let Some(rest) = strip_short_word(bytes, *b"illegal\n") {
        return Some((Refusal::Illegal, rest));
    }
    if let Some(rest) = strip_word(bytes, *b"rejected\n") {
        return Some((Refusal::Rejected, rest));
    }
    None
}

/// What a cancel did, to the newline, and what follows it.
pub fn split_effect(bytes: &[u8]) -> Option<(CancelEffect, &[u8])>
    ensures { MatchOption result (IsUnread (text_then effect_text (codes "\n")) Any bytes.now)
        (λ r. IsRead (text_then effect_text (codes "\n")) Any bytes.now r.0 r.1.now) }
{
    if let Some(rest) = strip_short_word(bytes, *b"yes\n") {
        return Some((CancelEffect::Yes, rest));
    }
    if let Some(rest) = strip(bytes, b"no\n") {
        return Some((CancelEffect::No, rest));
    }
    if let Some(rest) = strip_short_word(bytes, *b"none\n") {
        return Some((CancelEffect::Absent, rest));
    }
    None
}

/// A policy, to the space behind it, and what follows that. `None` exactly when they are not there.
pub fn split_which(bytes: &[u8]) -> Option<(Which, &[u8])>
    ensures { MatchOption result (IsUnread (text_then policy_text (codes " ")) Any bytes.now)
        (λ r. IsRead (text_then policy_text (codes " ")) Any bytes.now r.0 r.1.now) }
{
    let (which, rest) = split_policy_word(bytes)?;
    let rest = strip(rest, b" ")?;
    Some((which, rest))
}

/// A policy, and what follows its word.
fn split_policy_word(bytes: &[u8]) -> Option<(Which, &[u8])>
    ensures { MatchOption result (IsUnread policy_text Any bytes.now)
        (λ r. IsRead policy_text Any bytes.now r.0 r.1.now) }
{
    if let Some(rest) = strip_short_word(bytes, CONTINUE) {
        return Some((Which::Continue, rest));
    }
    if let Some(rest) = strip_short_word(bytes, EXECUTE) {
        return Some((Which::Execute, rest));
    }
    if let Some(rest) = strip_short_word(bytes, REMOVE) {
        return Some((Which::Remove, rest));
    }
    None
}

/// What a policy is set to, to the newline, and what follows it. `None` exactly when they are not there.
pub fn split_truth(bytes: &[u8]) -> Option<(bool, &[u8])>
    ensures { MatchOption result (IsUnread (text_then truth_text (codes "\n")) Any bytes.now)
        (λ r. IsRead (text_then truth_text (codes "\n")) Any bytes.now r.0 r.1.now) }
{
    if let Some(rest) = strip_short_word(bytes, *b"true\n") {
        return Some((true, rest));
    }
    if let Some(rest) = strip_short_word(bytes, *b"false\n") {
        return Some((false, rest));
    }
    None
}

/// Whether something is so, and what follows the word behind it.
pub fn split_whether<'a>(bytes: &'a [u8], word: &[u8]) -> Option<(bool, &'a [u8])>
    ensures { MatchOption result (IsUnread (text_then whether_text word.now) Any bytes.now)
        (λ r. IsRead (text_then whether_text word.now) Any bytes.now r.0 r.1.now) }
{
    if let Some(rest) = strip(bytes, b"yes") {
        let rest = strip(rest, word)?;
        return Some((true, rest));
    }
    if let Some(rest) = strip(bytes, b"no") {
        let rest = strip(rest, word)?;
        return Some((false, rest));
    }
    None
}

/// An event that had no effect, of which these bytes follow ` error `, to the newline, and what follows it.
pub fn split_error(bytes: &[u8]) -> Option<(Said, &[u8])>
    ensures { MatchOption result (IsUnread message_text FitsMessage (codes " error " ++ bytes.now))
        (λ r. IsRead message_text FitsMessage (codes " error " ++ bytes.now) (message_of r.0)
        r.1.now) }
{
    if let Some(rest) = strip_short_word(bytes, *b"busy\n") {
        return Some((Said::Error(EventError::Busy), rest));
    }
    if let Some(rest) = strip_word(bytes, *b"backward\n") {
        return Some((Said::Error(EventError::Backward), rest));
    }
    if let Some(rest) = strip_short_word(bytes, *b"too far\n") {
        return Some((Said::Error(EventError::TooFar), rest));
    }
    if let Some(rest) = strip_word(bytes, *b"no worker\n") {
        return Some((Said::Error(EventError::NoWorker), rest));
    }
    if let Some(rest) = strip_word(bytes, *b"not running\n") {
        return Some((Said::Error(EventError::NotRunning), rest));
    }
    if let Some(rest) = strip_short_word(bytes, *b"no task\n") {
        return Some((Said::Error(EventError::NoTask), rest));
    }
    None
}

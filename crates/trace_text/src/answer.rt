//! Answers that lines of a trace tell, read behind their first word. Each function here answers what a line says that begins
//! with that word, of which the bytes are what follows, and what follows its newline; `None` exactly when there is no such line.
ghost use Rattle.std.specs.Prelude.{MatchOption, ◌++◌, codes};
ghost use Rattle.executor_model.specs.Said.{message_of};
ghost use Rattle.trace_text.specs.Spelling.{message_text, FitsMessage, cancel_text};
ghost use Rattle.trace_text.specs.own.Spelling.{FitsCancel};
ghost use Rattle.trace_text.specs.Reading.{IsRead, IsUnread};

use crate::scan::{
    code_before, code_before_short_word, number_before, number_before_short_word, strip,
    strip_short_word, worker_before, worker_before_short_word,
};
use crate::words::{
    split_effect, split_kind, split_outcome, split_refusal, split_truth, split_whether, split_which,
};
use executor_model::{CancelEffect, Said};

/// A worker that starts a run, or gets no work.
#[inline(always)]
pub fn split_start(bytes: &[u8]) -> Option<(Said, &[u8])>
    ensures { MatchOption result (IsUnread message_text FitsMessage (codes " start " ++ bytes.now))
        (λ r. IsRead message_text FitsMessage (codes " start " ++ bytes.now) (message_of r.0)
        r.1.now) }
{
    let Some((worker, rest)) = worker_before(bytes, b" ") else {
        return None;
    };
    if let Some(rest) = strip_short_word(rest, *b"idle\n") {
        return Some((Said::Idle { worker }, rest));
    }
    let Some(rest) = strip_short_word(rest, *b"task ") else {
        return None;
    };
    let Some((task, rest)) = code_before_short_word(rest, *b" run ") else {
        return None;
    };
    let Some((run, rest)) = number_before_short_word(rest, *b" due ") else {
        return None;
    };
    let Some((due, rest)) = number_before(rest, b"\n") else {
        return None;
    };
    Some((
        Said::Start {
            worker,
            task,
            run,
            due,
        },
        rest,
    ))
}

/// A worker whose run ended.
#[inline(always)]
pub fn split_finish(bytes: &[u8]) -> Option<(Said, &[u8])>
    ensures { MatchOption result (IsUnread message_text FitsMessage (codes " finish " ++ bytes.now))
        (λ r. IsRead message_text FitsMessage (codes " finish " ++ bytes.now) (message_of r.0)
        r.1.now) }
{
    let Some((worker, rest)) = worker_before_short_word(bytes, *b" task ") else {
        return None;
    };
    let Some((task, rest)) = code_before_short_word(rest, *b" run ") else {
        return None;
    };
    let Some((run, rest)) = number_before(rest, b" ") else {
        return None;
    };
    let Some((outcome, rest)) = split_outcome(rest) else {
        return None;
    };
    Some((Said::finish(worker, task, run, outcome), rest))
}

/// A task that was accepted.
#[inline(always)]
pub fn split_submit(bytes: &[u8]) -> Option<(Said, &[u8])>
    ensures { MatchOption result (IsUnread message_text FitsMessage (codes " submit " ++ bytes.now))
        (λ r. IsRead message_text FitsMessage (codes " submit " ++ bytes.now) (message_of r.0)
        r.1.now) }
{
    let Some((task, rest)) = code_before(bytes, b" ") else {
        return None;
    };
    let Some((kind, rest)) = split_kind(rest) else {
        return None;
    };
    let Some((due, rest)) = number_before(rest, b"\n") else {
        return None;
    };
    Some((Said::Submit { kind, task, due }, rest))
}

/// A task that was not accepted.
pub fn split_refuse(bytes: &[u8]) -> Option<(Said, &[u8])>
    ensures { MatchOption result (IsUnread message_text FitsMessage (codes " refuse " ++ bytes.now))
        (λ r. IsRead message_text FitsMessage (codes " refuse " ++ bytes.now) (message_of r.0)
        r.1.now) }
{
    let Some((task, rest)) = code_before(bytes, b" ") else {
        return None;
    };
    let Some((refusal, rest)) = split_refusal(rest) else {
        return None;
    };
    Some((Said::Refuse { refusal, task }, rest))
}

/// A task of which a cancel was asked for, by the plan or from outside, and what that did. Both words have this behind them, so
/// that these bytes alone are told of.
pub fn split_cancel(bytes: &[u8]) -> Option<((u32, CancelEffect), &[u8])>
    ensures { MatchOption result (IsUnread cancel_text FitsCancel bytes.now)
        (λ r. IsRead cancel_text FitsCancel bytes.now r.0 r.1.now) }
{
    let Some((task, rest)) = code_before(bytes, b" ") else {
        return None;
    };
    let Some((effect, rest)) = split_effect(rest) else {
        return None;
    };
    Some(((task, effect), rest))
}

/// A policy, and what it was set to.
pub fn split_policy(bytes: &[u8]) -> Option<(Said, &[u8])>
    ensures { MatchOption result (IsUnread message_text FitsMessage (codes " policy " ++ bytes.now))
        (λ r. IsRead message_text FitsMessage (codes " policy " ++ bytes.now) (message_of r.0)
        r.1.now) }
{
    let Some((which, rest)) = split_which(bytes) else {
        return None;
    };
    let Some((value, rest)) = split_truth(rest) else {
        return None;
    };
    Some((Said::Policy { which, value }, rest))
}

/// How far the executor is.
pub fn split_ask(bytes: &[u8]) -> Option<(Said, &[u8])>
    ensures { MatchOption result
        (IsUnread message_text FitsMessage (codes " ask queue " ++ bytes.now))
        (λ r. IsRead message_text FitsMessage (codes " ask queue " ++ bytes.now) (message_of r.0)
        r.1.now) }
{
    let Some((queue, rest)) = code_before(bytes, b" running ") else {
        return None;
    };
    let Some((running, rest)) = code_before(rest, b" shutdown ") else {
        return None;
    };
    let Some((shutdown, rest)) = split_whether(rest, b" terminated ") else {
        return None;
    };
    let Some((terminated, rest)) = split_whether(rest, b"\n") else {
        return None;
    };
    Some((
        Said::Ask {
            shutdown,
            terminated,
            queue,
            running,
        },
        rest,
    ))
}

/// The executor was shut, or was shut before, or was shut at once.
pub fn split_shutdown(bytes: &[u8]) -> Option<(Said, &[u8])>
    ensures { MatchOption result
        (IsUnread message_text FitsMessage (codes " shutdown" ++ bytes.now))
        (λ r. IsRead message_text FitsMessage (codes " shutdown" ++ bytes.now) (message_of r.0)
        r.1.now) }
{
    if let Some(rest) = strip(bytes, b"\n") {
        return Some((Said::Shutdown, rest));
    }
    if let Some(rest) = strip(bytes, b" again\n") {
        return Some((Said::ShutdownAgain, rest));
    }
    if let Some(rest) = strip(bytes, b" now\n") {
        return Some((Said::ShutdownNow, rest));
    }
    None
}

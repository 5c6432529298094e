//! The text of an answer as it stands behind its moment, with the newline. Each function here puts a part of it at a place of
//! a buffer and returns where it ends: at most [`ANSWER_ROOM`] bytes on, which have to be there.

ghost use Rattle.std.specs.Prelude.{◌≡◌, ℕ, ◌+◌, ◌≤◌, ◌<◌, ◌++◌, length, take, codes};
ghost use Rattle.std.specs.Fmt.{decimal};
ghost use Rattle.trace_text.specs.Spelling.{kind_text, refusal_text, effect_text, whether_text, outcome_text, cancel_text, answer_text};
ghost use Rattle.sched_time.specs.Policies.{policy_text, truth_text};
ghost use Rattle.trace_text.specs.Writing.{Puts};
ghost use Rattle.executor_model.specs.declared.Answer.TheVariants as a;
ghost use Rattle.executor_model.specs.declared.Outcome.TheVariants as o;

use crate::put::{put_number, put_text};
use crate::words::{CONTINUE, EXECUTE, FIXED_DUE, RATE_DUE, REMOVE, SCHEDULE_DUE};
use executor_model::{CancelEffect, EventError, Kind, Outcome, Refusal};
use sched_time::Which;

/// How many bytes there have to be for an answer.
pub const ANSWER_ROOM: usize = 108;

/// Puts a task that was accepted: by a call, which keeps small what one line in a while is put by.
#[inline(never)]
pub fn put_submit(buffer: &mut [u8], at: usize, task: u32, kind: Kind, due: u64) -> usize
    requires { at + ANSWER_ROOM ≤ length buffer.old }
    ensures end { result ≤ at + ANSWER_ROOM }
    ensures put { Puts (take at buffer.old) (take result buffer.new)
        (answer_text (a.Submit task kind due)) }
{
    put_submit_here(buffer, at, task, kind, due)
}

/// Puts a task that was accepted, where it is called: for a loop over many lines.
#[inline(always)]
pub fn put_submit_here(buffer: &mut [u8], at: usize, task: u32, kind: Kind, due: u64) -> usize
    requires { at + ANSWER_ROOM ≤ length buffer.old }
    ensures end { result ≤ at + ANSWER_ROOM }
    ensures put { Puts (take at buffer.old) (take result buffer.new)
        (answer_text (a.Submit task kind due)) }
{
    let at = put_text(buffer, at, *b" submit ");
    let at = put_number(buffer, at, task as u64);
    let at = put_kind(buffer, at, kind);
    let at = put_number(buffer, at, due);
    put_text(buffer, at, *b"\n")
}

/// Puts a task that was not accepted.
#[cold]
pub fn put_refuse(buffer: &mut [u8], at: usize, task: u32, refusal: Refusal) -> usize
    requires { at + ANSWER_ROOM ≤ length buffer.old }
    ensures end { result ≤ at + ANSWER_ROOM }
    ensures put { Puts (take at buffer.old) (take result buffer.new)
        (answer_text (a.Refuse task refusal)) }
{
    let at = put_text(buffer, at, *b" refuse ");
    let at = put_number(buffer, at, task as u64);
    let at = put_text(buffer, at, *b" ");
    let at = put_refusal(buffer, at, refusal);
    put_text(buffer, at, *b"\n")
}

/// Puts a task of which a cancel was asked for, and what that did.
pub fn put_effect(buffer: &mut [u8], at: usize, task: u32, effect: CancelEffect) -> usize
    requires { at + 60 ≤ length buffer.old }
    ensures end { result ≤ at + 60 }
    ensures put { Puts (take at buffer.old) (take result buffer.new) (cancel_text (task, effect)) }
{
    let at = put_number(buffer, at, task as u64);
    match effect {
        CancelEffect::Yes => put_text(buffer, at, *b" yes\n"),
        CancelEffect::No => put_text(buffer, at, *b" no\n"),
        CancelEffect::Absent => put_text(buffer, at, *b" none\n"),
    }
}

/// Puts a policy, and what it was set to.
#[cold]
pub fn put_policy(buffer: &mut [u8], at: usize, which: Which, value: bool) -> usize
    requires { at + ANSWER_ROOM ≤ length buffer.old }
    ensures end { result ≤ at + ANSWER_ROOM }
    ensures put { Puts (take at buffer.old) (take result buffer.new)
        (answer_text (a.Policy which value)) }
{
    let at = put_text(buffer, at, *b" policy ");
    let at = put_policy_text(buffer, at, which);
    put_truth(buffer, at, value)
}

/// Puts how far the executor is.
#[cold]
pub fn put_ask(
    buffer: &mut [u8],
    at: usize,
    queue: u32,
    running: u32,
    shutdown: bool,
    terminated: bool,
) -> usize
    requires { at + ANSWER_ROOM ≤ length buffer.old }
    ensures end { result ≤ at + ANSWER_ROOM }
    ensures put { Puts (take at buffer.old) (take result buffer.new)
        (answer_text (a.Ask queue running shutdown terminated)) }
{
    let at = put_text(buffer, at, *b" ask queue ");
    let at = put_number(buffer, at, queue as u64);
    let at = put_text(buffer, at, *b" running ");
    let at = put_number(buffer, at, running as u64);
    let at = put_shutdown(buffer, at, shutdown);
    put_terminated(buffer, at, terminated)
}

/// Puts a worker that starts a run: by a call, which keeps small what one line in a while is put by.
#[inline(never)]
pub fn put_start(buffer: &mut [u8], at: usize, worker: u8, task: u32, run: u64, due: u64) -> usize
    requires { at + ANSWER_ROOM ≤ length buffer.old }
    ensures end { result ≤ at + ANSWER_ROOM }
    ensures put { Puts (take at buffer.old) (take result buffer.new)
        (answer_text (a.Start worker task run due)) }
{
    put_start_here(buffer, at, worker, task, run, due)
}

/// Puts a worker that starts a run, where it is called: for a loop over many lines.
#[inline(always)]
pub fn put_start_here(
    buffer: &mut [u8],
    at: usize,
    worker: u8,
    task: u32,
    run: u64,
    due: u64,
) -> usize
    requires { at + ANSWER_ROOM ≤ length buffer.old }
    ensures end { result ≤ at + ANSWER_ROOM }
    ensures put { Puts (take at buffer.old) (take result buffer.new)
        (answer_text (a.Start worker task run due)) }
{
    let at = put_text(buffer, at, *b" start ");
    let at = put_number(buffer, at, worker as u64);
    let at = put_text(buffer, at, *b" task ");
    let at = put_number(buffer, at, task as u64);
    let at = put_text(buffer, at, *b" run ");
    let at = put_number(buffer, at, run);
    let at = put_text(buffer, at, *b" due ");
    let at = put_number(buffer, at, due);
    put_text(buffer, at, *b"\n")
}

/// Puts a worker that gets no work.
pub fn put_idle(buffer: &mut [u8], at: usize, worker: u8) -> usize
    requires { at + ANSWER_ROOM ≤ length buffer.old }
    ensures end { result ≤ at + ANSWER_ROOM }
    ensures put { Puts (take at buffer.old) (take result buffer.new) (answer_text (a.Idle worker)) }
{
    let at = put_text(buffer, at, *b" start ");
    let at = put_number(buffer, at, worker as u64);
    put_text(buffer, at, *b" idle\n")
}

/// Puts a worker whose run ended, by which its task is done.
#[inline(never)]
pub fn put_done(buffer: &mut [u8], at: usize, worker: u8, task: u32, run: u64, value: u64) -> usize
    requires { at + ANSWER_ROOM ≤ length buffer.old }
    ensures end { result ≤ at + ANSWER_ROOM }
    ensures put { Puts (take at buffer.old) (take result buffer.new)
        (answer_text (a.Finish worker task run (o.Done value))) }
{
    let at = put_text(buffer, at, *b" finish ");
    let at = put_number(buffer, at, worker as u64);
    let at = put_text(buffer, at, *b" task ");
    let at = put_number(buffer, at, task as u64);
    let at = put_text(buffer, at, *b" run ");
    let at = put_number(buffer, at, run);
    let at = put_text(buffer, at, *b" done ");
    let end = put_number(buffer, at, value);
    put_text(buffer, end, *b"\n")
}

/// Puts a worker whose run ended, after which its task waits for its next run: by a call, as [`put_start`].
#[inline(never)]
pub fn put_again(buffer: &mut [u8], at: usize, worker: u8, task: u32, run: u64, due: u64) -> usize
    requires { at + ANSWER_ROOM ≤ length buffer.old }
    ensures end { result ≤ at + ANSWER_ROOM }
    ensures put { Puts (take at buffer.old) (take result buffer.new)
        (answer_text (a.Finish worker task run (o.Again due))) }
{
    put_again_here(buffer, at, worker, task, run, due)
}

/// Puts a worker whose run ended, after which its task waits for its next run, where it is called: for a loop over many lines.
#[inline(always)]
pub fn put_again_here(
    buffer: &mut [u8],
    at: usize,
    worker: u8,
    task: u32,
    run: u64,
    due: u64,
) -> usize
    requires { at + ANSWER_ROOM ≤ length buffer.old }
    ensures end { result ≤ at + ANSWER_ROOM }
    ensures put { Puts (take at buffer.old) (take result buffer.new)
        (answer_text (a.Finish worker task run (o.Again due))) }
{
    let at = put_text(buffer, at, *b" finish ");
    let at = put_number(buffer, at, worker as u64);
    let at = put_text(buffer, at, *b" task ");
    let at = put_number(buffer, at, task as u64);
    let at = put_text(buffer, at, *b" run ");
    let at = put_number(buffer, at, run);
    let at = put_text(buffer, at, *b" again due ");
    let end = put_number(buffer, at, due);
    put_text(buffer, end, *b"\n")
}

/// Puts a worker whose run ended, and what it led to.
#[cold]
pub fn put_finish(
    buffer: &mut [u8],
    at: usize,
    worker: u8,
    task: u32,
    run: u64,
    outcome: Outcome,
) -> usize
    requires { at + ANSWER_ROOM ≤ length buffer.old }
    ensures end { result ≤ at + ANSWER_ROOM }
    ensures put { Puts (take at buffer.old) (take result buffer.new)
        (answer_text (a.Finish worker task run outcome)) }
{
    let at = put_text(buffer, at, *b" finish ");
    let at = put_number(buffer, at, worker as u64);
    let at = put_text(buffer, at, *b" task ");
    let at = put_number(buffer, at, task as u64);
    let at = put_text(buffer, at, *b" run ");
    let at = put_number(buffer, at, run);
    put_outcome(buffer, at, outcome)
}

/// Puts what a finished run led to, with the newline.
#[inline(always)]
fn put_outcome(buffer: &mut [u8], at: usize, outcome: Outcome) -> usize
    requires { at + 40 ≤ length buffer.old }
    ensures end { result ≤ at + 40 }
    ensures put { Puts (take at buffer.old) (take result buffer.new) (outcome_text outcome) }
{
    match outcome {
        Outcome::Done(value) => {
            let at = put_text(buffer, at, *b" done ");
            let at = put_number(buffer, at, value);
            put_text(buffer, at, *b"\n")
        }
        Outcome::Failed(code) => {
            let at = put_text(buffer, at, *b" failed ");
            let at = put_number(buffer, at, code as u64);
            put_text(buffer, at, *b"\n")
        }
        Outcome::Again(due) => {
            let at = put_text(buffer, at, *b" again due ");
            let at = put_number(buffer, at, due);
            put_text(buffer, at, *b"\n")
        }
        Outcome::Dropped => put_text(buffer, at, *b" dropped\n"),
        Outcome::Ended => put_text(buffer, at, *b" ended\n"),
    }
}

/// Puts an event that had no effect.
#[cold]
pub fn put_error(buffer: &mut [u8], at: usize, error: EventError) -> usize
    requires { at + ANSWER_ROOM ≤ length buffer.old }
    ensures end { result ≤ at + ANSWER_ROOM }
    ensures put { Puts (take at buffer.old) (take result buffer.new) (answer_text (a.Error error)) }
{
    match error {
        EventError::Backward => put_text(buffer, at, *b" error backward\n"),
        EventError::TooFar => put_text(buffer, at, *b" error too far\n"),
        EventError::NoWorker => put_text(buffer, at, *b" error no worker\n"),
        EventError::Busy => put_text(buffer, at, *b" error busy\n"),
        EventError::NotRunning => put_text(buffer, at, *b" error not running\n"),
        EventError::NoTask => put_text(buffer, at, *b" error no task\n"),
    }
}

/// Puts the word of a kind of task, with what stands before and behind it.
#[inline(always)]
fn put_kind(buffer: &mut [u8], at: usize, kind: Kind) -> usize
    requires { at + 20 ≤ length buffer.old }
    ensures end { result ≤ at + 20 }
    ensures put { Puts (take at buffer.old) (take result buffer.new)
        (codes " " ++ (kind_text kind ++ codes " due ")) }
{
    let at = put_text(buffer, at, *b" ");
    match kind {
        Kind::Schedule => put_text(buffer, at, SCHEDULE_DUE),
        Kind::Rate => put_text(buffer, at, RATE_DUE),
        Kind::Fixed => put_text(buffer, at, FIXED_DUE),
    }
}

/// Puts the word of a refusal.
#[inline(always)]
fn put_refusal(buffer: &mut [u8], at: usize, refusal: Refusal) -> usize
    requires { at + 10 ≤ length buffer.old }
    ensures end { result ≤ at + 10 }
    ensures put { Puts (take at buffer.old) (take result buffer.new) (refusal_text refusal) }
{
    match refusal {
        Refusal::Illegal => put_text(buffer, at, *b"illegal"),
        Refusal::Rejected => put_text(buffer, at, *b"rejected"),
    }
}

/// Puts the word of a policy.
#[inline(always)]
fn put_policy_text(buffer: &mut [u8], at: usize, which: Which) -> usize
    requires { at + 10 ≤ length buffer.old }
    ensures end { result ≤ at + 10 }
    ensures put { Puts (take at buffer.old) (take result buffer.new) (policy_text which) }
{
    match which {
        Which::Continue => put_text(buffer, at, CONTINUE),
        Which::Execute => put_text(buffer, at, EXECUTE),
        Which::Remove => put_text(buffer, at, REMOVE),
    }
}

/// Puts what a policy was set to, in a word, with the space before it and the newline: one text is put in fewer steps than three.
#[inline(always)]
fn put_truth(buffer: &mut [u8], at: usize, value: bool) -> usize
    requires { at + 10 ≤ length buffer.old }
    ensures end { result ≤ at + 10 }
    ensures put { Puts (take at buffer.old) (take result buffer.new)
        (codes " " ++ (truth_text value ++ codes "\n")) }
{
    if value {
        put_text(buffer, at, *b" true\n")
    } else {
        put_text(buffer, at, *b" false\n")
    }
}

/// Puts whether the executor is shut, in a word, with what stands before and behind it.
#[inline(always)]
fn put_shutdown(buffer: &mut [u8], at: usize, shutdown: bool) -> usize
    requires { at + 30 ≤ length buffer.old }
    ensures end { result ≤ at + 30 }
    ensures put { Puts (take at buffer.old) (take result buffer.new)
        (codes " shutdown " ++ (whether_text shutdown ++ codes " terminated ")) }
{
    if shutdown {
        put_text(buffer, at, *b" shutdown yes terminated ")
    } else {
        put_text(buffer, at, *b" shutdown no terminated ")
    }
}

/// Puts whether the executor has terminated, in a word, with the newline.
#[inline(always)]
fn put_terminated(buffer: &mut [u8], at: usize, terminated: bool) -> usize
    requires { at + 10 ≤ length buffer.old }
    ensures end { result ≤ at + 10 }
    ensures put { Puts (take at buffer.old) (take result buffer.new)
        (whether_text terminated ++ codes "\n") }
{
    if terminated {
        put_text(buffer, at, *b"yes\n")
    } else {
        put_text(buffer, at, *b"no\n")
    }
}

//! The text of what a line of a trace says, as it stands behind the line's moment, with the newline.
ghost use Rattle.std.specs.Prelude.{◌≡◌, ℕ, ◌+◌, ◌≤◌, length, take, false};
ghost use Rattle.trace_text.specs.Spelling.{message_text};
ghost use Rattle.trace_text.specs.Writing.{Puts};
ghost use Rattle.trace_text.specs.own.Messages.{is_common};
ghost use Rattle.executor_model.specs.declared.types.Message.TheVariants as m;
ghost use Rattle.executor_model.specs.Said.{message_of};

use crate::answer_text::{
    ANSWER_ROOM, put_again, put_again_here, put_ask, put_done, put_effect, put_error, put_finish,
    put_idle, put_policy, put_refuse, put_start, put_start_here, put_submit, put_submit_here,
};
use crate::put::{put_number, put_text};
use executor_model::{Outcome, Said};

/// Puts what a line says at a place of a buffer, and returns where it ends: at most [`ANSWER_ROOM`] bytes on, which have to be
/// there. What few lines say, and what takes many steps, is put by a call: so this stays small enough for the compiler to put it
/// where it is called.
#[inline(always)]
pub fn put_said(buffer: &mut [u8], at: usize, said: &Said) -> usize
    requires { at + ANSWER_ROOM ≤ length buffer.old }
    ensures end { result ≤ at + ANSWER_ROOM }
    ensures put { Puts (take at buffer.old) (take result buffer.new)
        (message_text (message_of said.now)) }
{
    match *said {
        Said::Submit { kind, task, due } => put_submit(buffer, at, task, kind, due),
        Said::Cancel { effect, task } => {
            let at = put_text(buffer, at, *b" cancel ");
            put_effect(buffer, at, task, effect)
        }
        Said::Outside { effect, task } => {
            let at = put_text(buffer, at, *b" outside ");
            put_effect(buffer, at, task, effect)
        }
        Said::Clock => put_text(buffer, at, *b" clock\n"),
        Said::Start {
            worker,
            task,
            run,
            due,
        } => put_start(buffer, at, worker, task, run, due),
        Said::Idle { worker } => put_idle(buffer, at, worker),
        Said::Done {
            worker,
            task,
            run,
            value,
        } => put_done(buffer, at, worker, task, run, value),
        Said::Again {
            worker,
            task,
            run,
            due,
        } => put_again(buffer, at, worker, task, run, due),
        Said::Error(error) => put_error(buffer, at, error),
        _ => put_rare(buffer, at, said),
    }
}

/// As [`put_said`], with a submission, a start, a run whose task waits again and an end put where it is called: for a loop over
/// many lines, which are mostly these.
#[inline(always)]
pub fn put_said_here(buffer: &mut [u8], at: usize, said: &Said) -> usize
    requires { at + ANSWER_ROOM ≤ length buffer.old }
    ensures end { result ≤ at + ANSWER_ROOM }
    ensures put { Puts (take at buffer.old) (take result buffer.new)
        (message_text (message_of said.now)) }
{
    match *said {
        Said::Submit { kind, task, due } => put_submit_here(buffer, at, task, kind, due),
        Said::Start {
            worker,
            task,
            run,
            due,
        } => put_start_here(buffer, at, worker, task, run, due),
        Said::Again {
            worker,
            task,
            run,
            due,
        } => put_again_here(buffer, at, worker, task, run, due),
        Said::End(task) => put_end(buffer, at, task),
        _ => put_said(buffer, at, said),
    }
}

/// Puts what few lines say.
#[inline(never)]
fn put_rare(buffer: &mut [u8], at: usize, said: &Said) -> usize
    requires rare { is_common said.now ≡ false }
    requires room { at + ANSWER_ROOM ≤ length buffer.old }
    ensures end { result ≤ at + ANSWER_ROOM }
    ensures put { Puts (take at buffer.old) (take result buffer.new)
        (message_text (message_of said.now)) }
{
    match *said {
        Said::Refuse { refusal, task } => put_refuse(buffer, at, task, refusal),
        Said::Purge => put_text(buffer, at, *b" purge\n"),
        Said::Policy { which, value } => put_policy(buffer, at, which, value),
        Said::Shutdown => put_text(buffer, at, *b" shutdown\n"),
        Said::ShutdownAgain => put_text(buffer, at, *b" shutdown again\n"),
        Said::ShutdownNow => put_text(buffer, at, *b" shutdown now\n"),
        Said::Ask {
            shutdown,
            terminated,
            queue,
            running,
        } => put_ask(buffer, at, queue, running, shutdown, terminated),
        Said::Failed {
            worker,
            task,
            run,
            code,
        } => put_finish(buffer, at, worker, task, run, Outcome::Failed(code)),
        Said::Dropped { worker, task, run } => {
            put_finish(buffer, at, worker, task, run, Outcome::Dropped)
        }
        Said::Ended { worker, task, run } => {
            put_finish(buffer, at, worker, task, run, Outcome::Ended)
        }
        Said::End(task) => put_end(buffer, at, task),
        _ => unreachable!(),
    }
}

/// Puts a task that ends: of what few lines say the one that many lines in a row may say, so it is put where it is called.
#[inline(always)]
fn put_end(buffer: &mut [u8], at: usize, task: u32) -> usize
    requires { at + ANSWER_ROOM ≤ length buffer.old }
    ensures end { result ≤ at + ANSWER_ROOM }
    ensures put { Puts (take at buffer.old) (take result buffer.new) (message_text (m.End task)) }
{
    let at = put_text(buffer, at, *b" end ");
    let at = put_number(buffer, at, task as u64);
    put_text(buffer, at, *b"\n")
}

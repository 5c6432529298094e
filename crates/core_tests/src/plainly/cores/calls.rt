//! The calls of a plan, as text: each is a line, with its moment first.
use crate::told::{short_of, which_of};
use crate::words::{Words, read_words};
use executor_core::Core;
use queue_code::{Code, Instr};
use sched_time::{Span, Timing, Unit, span};
use std::alloc::{Allocator, Global};
use std::test::Fail;

/// A span of `value` nanoseconds.
fn nanos(value: u64) -> Result<Span, Fail> {
    Ok(span(i64::try_from(value)?, Unit::Ns)?)
}

/// A submission: with one run, or with a period or a fixed delay and then the delay of the first run.
fn submission_of(words: Words<'_>) -> Result<Instr, Fail> {
    let (moment, second, third) = (words.first, words.second, words.third);
    match words.word {
        "rate" => Ok(Instr::Submit(moment, Timing::Rate(nanos(second)?), third)),
        "fixed" => Ok(Instr::Submit(moment, Timing::Fixed(nanos(second)?), third)),
        _ => Ok(Instr::Submit(moment, Timing::Once, second)),
    }
}

/// Another instruction.
fn other_of(words: Words<'_>) -> Option<Instr> {
    let (moment, second) = (words.first, words.second);
    match words.word {
        "illegal" => Some(Instr::Illegal(moment)),
        "cancel" => Some(Instr::CancelFixed(moment, short_of(second))),
        "ask" => Some(Instr::Ask(moment)),
        "shut_down" => Some(Instr::Shutdown(moment)),
        "shut_down_now" => Some(Instr::ShutdownNow(moment)),
        "set_continue" | "set_execute" | "set_remove" => {
            Some(Instr::SetPolicy(moment, which_of(words.word), second == 1))
        }
        _ => None,
    }
}

/// The instruction of a line.
fn instr_of(words: Words<'_>) -> Result<Instr, Fail> {
    match words.word {
        "submit" | "rate" | "fixed" => submission_of(words),
        _ => Ok(other_of(words).ok_or("no call")?),
    }
}

/// Adds the instruction of a line.
fn add_instr(instrs: &mut Vec<Instr>, line: &str) -> Result<(), Fail> {
    let instr = instr_of(read_words(line)?)?;
    instrs.extend_from_slice(&[instr])?;
    Ok(())
}

/// The instructions of these calls.
pub fn instrs_of(alloc: Global, calls: &str) -> Result<Vec<Instr>, Fail> {
    let mut instrs = Vec::new(alloc);
    for line in calls.lines() {
        add_instr(&mut instrs, line)?;
    }
    Ok(instrs)
}

/// `count` submissions, each of them at moment 0.
pub fn submissions(alloc: Global, count: u32) -> Result<Vec<Instr>, Fail> {
    let task = Instr::Submit(0, Timing::Once, 0);
    Ok(Vec::from_elem(alloc, task, count as usize)?)
}

/// The code of these instructions and a halt.
pub fn code_of<A: Allocator + Copy>(alloc: A, instrs: &[Instr]) -> Result<Code<A>, Fail> {
    let mut list = Vec::with_capacity(alloc, instrs.len() + 1)?;
    list.extend_from_slice(instrs)?;
    list.push(Instr::Halt)?;
    Ok(Code::check(alloc, list)?)
}

/// A core of the code of these instructions and a halt.
pub fn core_over<A: Allocator + Copy>(
    alloc: A,
    instrs: &[Instr],
    workers: u8,
    limit: u32,
) -> Result<Core<A>, Fail> {
    Ok(Core::new(alloc, code_of(alloc, instrs)?, workers, limit)?)
}

/// A core of these calls with one worker, which takes 100 events.
pub fn core_of(alloc: Global, calls: &str) -> Result<Core<Global>, Fail> {
    core_over(alloc, &instrs_of(alloc, calls)?, 1, 100)
}

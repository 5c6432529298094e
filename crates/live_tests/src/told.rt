//! What is told of the answers of an executor, in words.

use crate::words::{Words, lone, with_one};
use executor_model::{CancelEffect, Outcome};
use live_core::{CallError, TaskRef};
use sched_time::Which;

/// The policy that a word sets.
pub fn which_of(word: &str) -> Which {
    match word {
        "set_continue" => Which::Continue,
        "set_execute" => Which::Execute,
        _ => Which::Remove,
    }
}

/// The byte that a number is, and 255 for each that is none.
pub fn byte_of(number: u64) -> u8 {
    u8::try_from(number).unwrap_or(u8::MAX)
}

/// The number of 32 bits that a number is, and the largest for each that is none.
pub fn short_of(number: u64) -> u32 {
    u32::try_from(number).unwrap_or(u32::MAX)
}

pub fn task_of(number: u64, slot: u64) -> TaskRef {
    TaskRef {
        number,
        slot: short_of(slot),
    }
}

/// A word, and whether it is so.
pub fn is_so(word: &'static str, value: bool) -> Words<'static> {
    with_one(word, u64::from(value))
}

/// What a call tells that has nothing else to tell.
pub fn made(answer: Result<(), CallError>) -> Words<'static> {
    match answer {
        Ok(()) => lone("made"),
        Err(error) => call_error(error),
    }
}

/// What a shutdown tells: whether it was the first.
pub fn is_first(answer: Result<bool, CallError>) -> Words<'static> {
    match answer {
        Ok(first) => is_so("first", first),
        Err(error) => call_error(error),
    }
}

/// What a cancel by a call tells.
pub fn cancelled(answer: Result<CancelEffect, CallError>) -> Words<'static> {
    match answer {
        Ok(effect) => effect_of(effect),
        Err(error) => call_error(error),
    }
}

/// The word of an outcome, and the value, the code of the fault, or the due moment of the next run.
pub fn outcome_of(outcome: Outcome) -> (&'static str, u64) {
    match outcome {
        Outcome::Done(value) => ("done", value),
        Outcome::Failed(fault) => ("failed", u64::from(fault)),
        Outcome::Again(due) => ("again", due),
        Outcome::Dropped => ("dropped", 0),
        Outcome::Ended => ("ended", 0),
    }
}

/// The moment of the next run that is due, if any.
pub fn due_of(due: Option<u64>) -> Words<'static> {
    match due {
        Some(due) => with_one("due", due),
        None => lone("none"),
    }
}

/// What a cancel did.
pub fn effect_of(effect: CancelEffect) -> Words<'static> {
    match effect {
        CancelEffect::Yes => lone("yes"),
        CancelEffect::No => lone("no"),
        CancelEffect::Absent => lone("absent"),
    }
}

/// Why a call is refused.
pub fn call_error(error: CallError) -> Words<'static> {
    match error {
        CallError::Illegal => lone("illegal"),
        CallError::TooLong => lone("too_long"),
        CallError::TooFar => lone("too_far"),
        CallError::Full => lone("full"),
        CallError::NoTask => lone("no_task"),
        CallError::Memory => lone("memory"),
    }
}

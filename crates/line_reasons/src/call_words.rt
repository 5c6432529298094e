//! Why words are not those of a call's line.

use crate::call_form::{CallForm, CallNumber};
use crate::choice::Choice;
use crate::event_fault::EventFault;
use crate::form::{EventNumber, Form};
use crate::word_fault::{behind_bare_number, behind_word, last_fault, no_word};
use crate::words::split_word;
use std::alloc::Allocator;

/// Why the words behind `call` are not those of a call.
pub fn call_fault<A: Allocator + Copy>(alloc: A, words: Option<&[u8]>) -> EventFault<'_> {
    let Some(words) = words else {
        return EventFault::Missing(Form::AnyCall);
    };
    let (word, behind) = split_word(words);
    match word {
        b"schedule" => last_fault(EventNumber::Call(CallNumber::Delay), behind),
        b"execute" => EventFault::Surplus(Form::Call(CallForm::Execute)),
        b"rate" => spans_fault(CallNumber::RateFirst, CallNumber::Period, behind),
        b"fixed" => spans_fault(CallNumber::FixedFirst, CallNumber::FixedDelay, behind),
        b"cancel" => last_fault(EventNumber::Call(CallNumber::Task), behind),
        b"policy" => policy_fault(alloc, behind),
        b"shutdown" => EventFault::Surplus(Form::Call(CallForm::Shutdown)),
        b"shutdown_now" => EventFault::Surplus(Form::Call(CallForm::ShutdownNow)),
        b"ask" => EventFault::Surplus(Form::Call(CallForm::Ask)),
        _ => no_word(alloc, word, Choice::Call),
    }
}

/// Why some words are not these two numbers, which end a line.
fn spans_fault(first: CallNumber, second: CallNumber, words: Option<&[u8]>) -> EventFault<'_> {
    match behind_bare_number(EventNumber::Call(first), words) {
        Err(fault) => fault,
        Ok(behind) => last_fault(EventNumber::Call(second), behind),
    }
}

/// Why some words are not a policy and what it is set to, which end a line.
fn policy_fault<A: Allocator + Copy>(alloc: A, words: Option<&[u8]>) -> EventFault<'_> {
    let form = Form::Call(CallForm::Policy);
    let behind = match behind_word(alloc, Choice::Policy, form, words) {
        Err(fault) => return fault,
        Ok(behind) => behind,
    };
    match behind_word(alloc, Choice::Truth, form, behind) {
        Err(fault) => fault,
        Ok(_) => EventFault::Surplus(form),
    }
}

//! Why a word is not what is wanted in its place.

ghost use Rattle.std.specs.Prelude.{IfSome, MatchOption};
ghost use Rattle.near_words.specs.Near.{IsNear};
ghost use Rattle.line_reasons.specs.own.Places.{IsPlaced};

use crate::choice::Choice;
use crate::event_fault::EventFault;
use crate::form::{EventNumber, Form};
use crate::number::{NumberFault, is_unit, number_fault};
use crate::words::split_word;
use near_words::near;
use std::alloc::Allocator;

/// What stands behind a number, which is the first of some words. `Err` where that is none, or one that does not fit.
pub fn behind_number(
    number: EventNumber,
    words: Option<&[u8]>,
) -> Result<Option<&[u8]>, EventFault<'_>> {
    let Some(words) = words else {
        return Err(EventFault::Missing(number.form()));
    };
    let (word, behind) = split_word(words);
    match place_fault(number, word) {
        Some(fault) => Err(fault),
        None => Ok(behind),
    }
}

/// What stands behind a number, as [`behind_number`] has it. `Err` where a unit does, too.
pub fn behind_bare_number(
    number: EventNumber,
    words: Option<&[u8]>,
) -> Result<Option<&[u8]>, EventFault<'_>> {
    match behind_number(number, words)? {
        Some(words) if is_unit(split_word(words).0) => Err(EventFault::Number {
            number,
            fault: NumberFault::Unit,
        }),
        behind => Ok(behind),
    }
}

/// Why a word is no number that fits in this place; `None` exactly where it is one.
fn place_fault<'l>(number: EventNumber, word: &[u8]) -> Option<EventFault<'l>>
    ensures { MatchOption result (IsPlaced number word.now) (λ fault. ¬ (IsPlaced number word.now)) }
{
    match number_fault(word, number.most()) {
        Some(fault) => Some(EventFault::Number { number, fault }),
        None if number.least() > 0 && word == b"0".as_slice() => Some(EventFault::TooSmall(number)),
        None => None,
    }
}

/// Why some words are not one number, which ends a line.
pub fn last_fault(number: EventNumber, words: Option<&[u8]>) -> EventFault<'_> {
    match behind_bare_number(number, words) {
        Err(fault) => fault,
        Ok(_) => EventFault::Surplus(number.form()),
    }
}

/// What stands behind one of some words, which is the first of others in a line of this form. `Err` where that is none of them.
pub fn behind_word<A: Allocator + Copy>(
    alloc: A,
    choice: Choice,
    form: Form,
    words: Option<&[u8]>,
) -> Result<Option<&[u8]>, EventFault<'_>> {
    let Some(words) = words else {
        return Err(EventFault::Missing(form));
    };
    let (word, behind) = split_word(words);
    for other in choice.words() {
        if other.as_bytes() == word {
            return Ok(behind);
        }
    }
    Err(no_word(alloc, word, choice))
}

/// That a word is none of some words.
pub fn no_word<A: Allocator + Copy>(alloc: A, word: &[u8], choice: Choice) -> EventFault<'_> {
    EventFault::NoWord {
        word,
        choice,
        near: meant(alloc, word, choice.words()),
    }
}

/// That of some words that may be meant by another one, of several the first. None too where there is no memory, or where the
/// other one is no UTF-8.
fn meant<A: Allocator + Copy>(alloc: A, word: &[u8], words: &[&'static str]) -> Option<&'static str>
    ensures { IfSome result (λ other. IsNear word.now words.now other.now) }
{
    let Ok(word) = std::str::from_utf8(word) else {
        return None;
    };
    match near(alloc, word, words) {
        Ok(those) => those.first().copied(),
        Err(_) => None,
    }
}

//! Cores by themselves, as their callers see them.
pub mod calls;
mod events;
mod foreseen;
mod heap;
mod loops;
mod needs;
mod scripts;
mod shapes;
mod singles;
mod sizes;
mod sweeps;
mod tells;
mod usage;
mod words;

use executor_core::{Core, CoreError};
use executor_model::{Event, Line};
use std::alloc::{AllocGlobal, Allocator, Global};
use std::process::Abort;
use std::test::Fail;

/// Gives a core these events, which it takes.
fn give<A: Allocator, B: Allocator>(
    core: &mut Core<A>,
    events: &[Event],
    out: &mut Vec<Line, B>,
) -> Result<(), Fail> {
    for event in events {
        core.event(*event, out)?;
    }
    Ok(())
}

/// Why a core does not take this event, and none where it does.
fn refusal_of<A: Allocator, B: Allocator>(
    core: &mut Core<A>,
    event: Event,
    out: &mut Vec<Line, B>,
) -> Option<CoreError> {
    match core.event(event, out) {
        Ok(()) => None,
        Err(error) => Some(error),
    }
}

/// The lines with which a core answers these events, which it takes.
fn lines_of(
    rt: &(impl AllocGlobal + Abort),
    core: &mut Core<Global>,
    events: &[Event],
) -> Result<Vec<Line>, Fail> {
    let mut out = Vec::new(rt.alloc());
    give(core, events, &mut out)?;
    assert!(rt; core.taken() as usize == events.len());
    Ok(out)
}

/// Errors, and the text of each.
const ERRORS: &[(CoreError, &str)] = &[
    (CoreError::Workers, "the number of workers is not 1 to 64"),
    (CoreError::Limit, "the limit on events is 0"),
    (CoreError::Full, "the limit on events is reached"),
    (CoreError::Memory, "out of memory"),
];

#[test]
fn each_error_says_what_is_wrong(rt: HostRuntime) -> Result<(), Fail> {
    for (error, text) in ERRORS {
        let said = format!(in rt.alloc(); "{error}")?;
        assert!(rt; said.as_str() == *text, "{said}");
    }
    Ok(())
}

//! Events that are refused for want of memory, and given again.

use super::{PLAN, TRACE};
use executor_core::{Core, CoreError};
use executor_model::{Event, Line};
use plan_compile::compile;
use plan_read::read_plan;
use refusing_allocator::Refusing;
use sched_time::Ending;
use std::alloc::{Allocator, Global};
use std::process::Abort;
use std::test::Fail;
use trace_text::write_line;

/// Where a core and the lines that it told stand.
fn standing<A: Allocator>(core: &Core<A>, lines: &Vec<Line, A>) -> [u64; 5] {
    [
        core.now(),
        u64::from(core.taken()),
        core.room() as u64,
        lines.len() as u64,
        lines.capacity() as u64,
    ]
}

/// Gives a core an event, and once more where memory was wanting, which left core and lines as they were; tells whether it was.
fn is_given_again<A: Allocator>(
    rt: &impl Abort,
    core: &mut Core<A>,
    lines: &mut Vec<Line, A>,
    event: Event,
) -> Result<bool, Fail> {
    let before = standing(core, lines);
    let Err(error) = core.event(event, lines) else {
        return Ok(false);
    };
    assert!(rt; error == CoreError::Memory);
    assert!(rt; standing(core, lines).as_slice() == before.as_slice());
    core.event(event, lines)?;
    Ok(true)
}

/// The events of which a growth is refused.
const GIVEN: &[Event] = &[
    Event::Clock(6),
    Event::Start(0),
    Event::Finish(0, Ending::Value(9)),
];

/// Checks that lines are those of the trace.
fn are_told(rt: &(impl AllocGlobal + Abort), lines: &[Line]) -> Result<(), Fail> {
    let mut text = Vec::new(rt.alloc());
    for line in lines {
        write_line(&mut text, line)?;
    }
    assert!(rt; text.as_slice() == TRACE.as_bytes());
    Ok(())
}

/// Gives a core the events, each again where it was refused, and tells whether one was; the lines are then those of the trace.
fn gives_again<A: Allocator>(
    rt: &(impl AllocGlobal + Abort),
    core: &mut Core<A>,
    lines: &mut Vec<Line, A>,
) -> Result<bool, Fail> {
    let mut is_again = false;
    for event in GIVEN {
        is_again |= is_given_again(rt, core, lines, *event)?;
    }
    are_told(rt, lines)?;
    Ok(is_again)
}

/// Makes a core, and tells whether one of the events was refused, where a growth after that is.
pub fn takes_events(
    rt: &(impl AllocGlobal + Abort),
    heap: &Refusing<Global>,
    number: u64,
) -> Result<bool, Fail> {
    let plan = read_plan(rt.alloc(), PLAN.as_bytes())?;
    let mut core = Core::new(heap, compile(heap, &plan)?, 1, 100)?;
    heap.refuse(number);
    gives_again(rt, &mut core, &mut Vec::new(heap))
}

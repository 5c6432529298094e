//! The lines of what happened last.

use super::play_text;
use crate::said::text_of_lines;
use executor_model::{Answer, Line};
use live_core::{LinesError, ScheduledExecutor};
use refusing_allocator::Refusing;
use std::alloc::{AllocGlobal, Allocator, Global};
use std::process::Abort;
use std::test::Fail;

/// Adds the lines of what happened last.
pub fn add<A: Allocator, B: Allocator>(
    executor: &ScheduledExecutor<A>,
    answer: Answer,
    lines: &mut Vec<Line, B>,
) -> Result<(), LinesError> {
    executor.add_lines(answer, lines)
}

/// Three tasks, and a shutdown that ends the first and the last.
const SHUTTING: &str = "\
a shutdown
at_rate 0 1 1 | accepted 0 3 1
schedule 0 1 | accepted 1 2 1
with_delay 0 1 1 | accepted 2 1 1
shut_down 3 | first true
look | looks 3 1
";

const SHUTTING_AT_ONCE: &str = "a shutdown at once\nshut_down_now 4 | made";

const SHUTTING_AGAIN: &str = "a second shutdown\nshut_down 5 | first false";

/// What the lines say.
const SAID: &str = "\
3 Answer(Shutdown)
3 End(0)
3 End(2)
4 Answer(ShutdownNow)
4 End(1)
5 Answer(ShutdownAgain)
";

/// Shuts down, at once and again, and adds the lines of each.
fn shut_down(
    rt: &(impl AllocGlobal + Abort),
    executor: &mut ScheduledExecutor<Global>,
    lines: &mut Vec<Line>,
) -> Result<(), Fail> {
    play_text(rt, executor, SHUTTING)?;
    add(executor, Answer::Shutdown, lines)?;
    play_text(rt, executor, SHUTTING_AT_ONCE)?;
    add(executor, Answer::ShutdownNow, lines)?;
    play_text(rt, executor, SHUTTING_AGAIN)?;
    add(executor, Answer::ShutdownAgain, lines)?;
    Ok(())
}

#[test]
fn the_lines_of_a_shutdown_name_what_it_ends(rt: HostRuntime) -> Result<(), Fail> {
    let mut executor = ScheduledExecutor::new(rt.alloc(), 1)?;
    let text = text_of_shutdowns(&rt, &mut executor)?;
    assert!(rt; text.as_str() == SAID);
    Ok(())
}

/// What the lines of the shutdowns say.
fn text_of_shutdowns(
    rt: &(impl AllocGlobal + Abort),
    executor: &mut ScheduledExecutor<Global>,
) -> Result<String, Fail> {
    let mut lines = Vec::new(rt.alloc());
    shut_down(rt, executor, &mut lines)?;
    text_of_lines(rt.alloc(), &lines)
}

/// Adds lines where there is no room, and then where there is.
fn adds_with_room(
    rt: &impl Abort,
    executor: &ScheduledExecutor<Global>,
    heap: &Refusing<Global>,
) -> Result<(), Fail> {
    let mut lines = Vec::new(heap);
    heap.refuse(1);
    let refused = add(executor, Answer::Shutdown, &mut lines);
    assert!(rt; refused == Err(LinesError::Memory));
    assert!(rt; lines.len() == 0);
    add(executor, Answer::Shutdown, &mut lines)?;
    assert!(rt; lines.len() == 3);
    Ok(())
}

#[test]
fn lines_that_have_no_room_are_not_added(rt: HostRuntime) -> Result<(), Fail> {
    let mut executor = ScheduledExecutor::new(rt.alloc(), 1)?;
    play_text(&rt, &mut executor, SHUTTING)?;
    adds_with_room(&rt, &executor, &Refusing::new(rt.alloc()))
}

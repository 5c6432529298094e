//! Want of memory: rows are played with each growth of a call refused in turn, and all before and behind it granted.
//!
//! What is refused, and counted, is what the words, the core, the lists of a book and the notes ask of their allocator. The
//! boxes of verdicts are asked of the heap to which the allocator leads, which grants them, and cells give them back to it.
ghost use Rattle.std.specs.Prelude.{◌≡◌};

use super::{
    Handles, Played, Refused, Row, Step, Told, check_played, play_code, read_steps, step_of,
};
use heap_allocator::HeapAllocator;
use plan_compile::compile;
use plan_read::read_plan;
use refusing_allocator::Refusing;
use std::alloc::{AllocError, AllocGlobal, Global};
use std::process::Abort;
use std::test::Fail;
use worker_pool::{Book, Named, PoolError, Shared};

/// A row has so many tasks at most.
const MOST_TASKS: u32 = 2;

/// Plays a row with its first growth refused, then with its second and so on, until no growth of that number is asked for.
/// Each time the call that was refused tells want of memory and changes nothing that is shown, and is made again; all else that is told, and the lines,
/// are those with ample memory, and all memory is given back. Over all plays these calls were refused, in their order.
pub fn refuse_each(
    rt: &(impl AllocGlobal + Abort),
    row: &Row<'_>,
    asking: &str,
) -> Result<(), Fail> {
    let calls = refused_calls(rt, row)?;
    assert!(rt; calls.as_str() == asking, "{}: {calls}", row.name);
    Ok(())
}

/// The calls that were refused a growth over all plays of a row, each once, in their order.
fn refused_calls(rt: &(impl AllocGlobal + Abort), row: &Row<'_>) -> Result<String, Fail> {
    let mut last = None;
    let mut calls = String::new(rt.alloc());
    for number in 1..1_000u64 {
        let Some(call) = refused_call(rt, row, number)? else {
            return Ok(calls);
        };
        if last != Some(call) {
            write!(calls, "{call:?} ")?;
            last = Some(call);
        }
    }
    Err("a growth was refused each time".into())
}

/// Plays a row with its growth of this number refused, and tells which call asked for it, if any did. All memory is given back.
fn refused_call(
    rt: &(impl AllocGlobal + Abort),
    row: &Row<'_>,
    number: u64,
) -> Result<Option<Refused>, Fail> {
    let heap = Refusing::new(rt.alloc());
    let refused = call_refused_by(rt, &heap, row, number)?;
    let name = row.name;
    assert!(rt; heap.used() == 0, "{name}: {number}");
    assert!(rt; heap.has_refused() == refused.is_some(), "{name}: {number}");
    Ok(refused)
}

/// Plays a row over a heap.
fn play_over(
    alloc: Global,
    heap: &Refusing<Global>,
    row: &Row<'_>,
    number: u64,
) -> Result<Played, Fail> {
    let steps = read_steps(alloc, row.script)?;
    let plan = read_plan(alloc, row.plan.as_bytes())?;
    let code = compile(heap, &plan)?;
    heap.refuse(number);
    play_code(alloc, heap, code, 1, 100, &steps, true)
}

/// Does so over this heap.
fn call_refused_by(
    rt: &(impl AllocGlobal + Abort),
    heap: &Refusing<Global>,
    row: &Row<'_>,
    number: u64,
) -> Result<Option<Refused>, Fail> {
    let played = play_over(rt.alloc(), heap, row, number)?;
    let refused = played.refused;
    if matches!(refused, Some(Refused::Shared | Refused::Book)) {
        // What was handed in is dropped, so all is made anew.
        assert!(rt; matches!(played.told.first(), Some(Told::Refused(PoolError::Memory))));
        let again = play_over(rt.alloc(), heap, row, 0)?;
        assert!(rt; again.refused.is_none());
        check_played(rt, row, &again)?;
    } else {
        check_played(rt, row, &played)?;
    }
    Ok(refused)
}

/// The text of what happened in a book, of its lines, and of whether a task is due.
fn book_shows<N: Named, A: HeapAllocator>(
    alloc: Global,
    book: &Book<N, A>,
) -> Result<String, AllocError> {
    let mut shown = format!(in alloc; "{} ", book.ripe())?;
    for kept in book.happenings() {
        write!(shown, "{:?} ", kept.happening())?;
    }
    for line in book.lines() {
        write!(shown, "{line:?} ")?;
    }
    Ok(shown)
}

/// The text of what a book shows, and of the states of the first tasks, as each handle tells them.
fn shown_by<N: Named, A: HeapAllocator>(
    alloc: Global,
    book: &Book<N, A>,
    handles: &mut Handles<'_, N, A>,
) -> Result<String, AllocError> {
    let mut shown = book_shows(alloc, book)?;
    for handle in handles.iter_mut().flatten() {
        for task in 0..MOST_TASKS {
            write!(shown, "{:?} ", handle.state(task))?;
        }
    }
    Ok(shown)
}

/// Does a step, and once more where memory was wanting: until then all is shown as before.
pub fn step_again<'s, N: Named, A: HeapAllocator>(
    alloc: Global,
    book: &mut Book<N, A>,
    shared: &'s Shared<A>,
    handles: &mut Handles<'s, N, A>,
    step: Step,
    played: &mut Played,
) -> Result<Told, Fail>
    requires { (shared.now.table ≡ N.table) × (shared.now.cells ≡ N.cells) }
{
    let before = shown_by(alloc, book, handles)?;
    let told = step_of(book, shared, handles, step)?;
    if !matches!(told, Told::Refused(PoolError::Memory)) {
        return Ok(told);
    }
    played.refused = Some(Refused::Step(played.told.len()));
    let after = shown_by(alloc, book, handles)?;
    if after.as_str() != before.as_str() {
        return Err("a refused call has changed what is shown".into());
    }
    Ok(step_of(book, shared, handles, step)?)
}

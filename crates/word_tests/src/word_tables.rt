//! Tables of many sizes, all handles out at once, and what memory the calls take.
ghost use Rattle.std.specs.Prelude.{◌≡◌, ◌<◌, ◌≤◌};

use crate::moves::{Move, cut_off, is_moved, submit_vacant};
use linked_list_allocator::LocalHeap;
use std::alloc::Allocator;
use std::test::Fail;
use task_word::*;

// The words of a table of `tasks` tasks, of which the last one was submitted.
fn with_the_last_submitted<A: Allocator + Copy>(
    alloc: A,
    tasks: u32,
) -> Result<Vec<u64, A>, WordError> {
    let (words, mut core) = TaskWords::new(alloc, tasks)?;
    if tasks > 0 {
        submit_vacant(&words, &mut core, tasks - 1);
    }
    words.close(alloc, core)
}

// Whether these are the words of `tasks` tasks of which the last one waits and the others are vacant.
fn is_last_submitted(words: &[u64], tasks: u32) -> bool {
    match words.split_last() {
        Some((last, others)) => {
            words.len() == tasks as usize && *last == 1 && others.iter().all(|word| *word == 0)
        }
        None => tasks == 0,
    }
}

#[test]
fn tables_of_any_size_are_closed(rt: HostRuntime) -> Result<(), Fail> {
    for tasks in 0..=70 {
        let words = with_the_last_submitted(rt.alloc(), tasks)?;
        assert!(rt; is_last_submitted(words.as_slice(), tasks), "{tasks} tasks");
        assert!(rt; words.capacity() == tasks as usize, "{tasks} tasks");
    }
    let words = with_the_last_submitted(rt.alloc(), 65_537)?;
    assert!(rt; is_last_submitted(words.as_slice(), 65_537));
    Ok(())
}

// Submits the task, runs it as often as it goes, up to three times, and cancels it: every fourth is done with its first
// run, and every fourth fails. Whether it was cancelled.
fn live<A: Allocator>(words: &TaskWords<A>, core: &mut CoreSeat<A>, task: u32) -> bool
    requires { (core.old.table ≡ words.now.table) × (task < words.now.tasks) }
    ensures { core.new.table ≡ core.old.table }
{
    submit_vacant(words, core, task);
    let end = match task % 4 {
        1 => Move::Done,
        3 => Move::Fail,
        _ => Move::Rearm,
    };
    for _ in 0..3 {
        if !is_moved(words, core, task, Move::Start) || !is_moved(words, core, task, end) {
            break;
        }
    }
    core.cancel(words, task) == CoreCancel::Won
}

// Does so with the tasks below `tasks`. The number that was cancelled.
fn live_all<A: Allocator>(words: &TaskWords<A>, core: &mut CoreSeat<A>, tasks: u32) -> u32
    requires { (core.old.table ≡ words.now.table) × (tasks ≤ words.now.tasks) }
    ensures { core.new.table ≡ core.old.table }
{
    let mut cancelled = 0u32;
    for task in 0..tasks {
        if live(words, core, task) {
            cancelled = cancelled.saturating_add(1);
        }
    }
    cancelled
}

// Asks a handle for the states of the tasks below `tasks`, and cancels them. The number that it cancelled.
fn cancel_all(words: &TaskWords<&LocalHeap>, handle: &mut HandleSeat, tasks: u32) -> u32
    requires { handle.old.table ≡ words.now.table }
    ensures { handle.new.table ≡ handle.old.table }
{
    let mut won = 0u32;
    for task in 0..tasks {
        let waits = handle.state(words, task) == TaskState::Waiting;
        if waits && handle.cancel(words, task) == CancelAnswer::Yes {
            won = won.saturating_add(1);
        }
    }
    won
}

// The tasks of the table over a small heap.
const TASKS: u32 = 70;

// Lets all tasks live but the last one, which a handle cancels. Whether the heap holds what it held, and 35 were cancelled
// by the core and one by the handle.
fn lives_in_place<'h>(
    heap: &'h LocalHeap,
    words: &TaskWords<&'h LocalHeap>,
    core: &mut CoreSeat<&'h LocalHeap>,
) -> Result<bool, WordError>
    requires { (core.old.table ≡ words.now.table) × (words.now.tasks ≡ 70) }
    ensures { core.new.table ≡ core.old.table }
{
    let held = heap.used();
    let cancelled = live_all(words, core, TASKS - 1);
    let is_in_place = heap.used() == held;
    submit_vacant(words, core, TASKS - 1);
    let mut handle = core.split(words)?;
    let won = cancel_all(words, &mut handle, TASKS);
    core.join(words, handle);
    Ok(cancelled == 35 && won == 1 && is_in_place && heap.used() == held)
}

#[test]
fn seat_calls_take_no_memory(rt: HostRuntime) -> Result<(), Fail> {
    let heap = LocalHeap::new(rt.alloc(), 8_192)?;
    let before = heap.used();
    let (words, mut core) = TaskWords::new(&heap, TASKS)?;
    assert!(rt; before < heap.used());
    assert!(rt; lives_in_place(&heap, &words, &mut core)?);
    let last = words.close(&heap, core)?;
    assert!(rt; last.len() == 70 && last.get(69) == Some(&((1 << 63) + 1)));
    drop(last);
    assert!(rt; heap.used() == before);
    Ok(())
}

#[test]
fn what_is_refused_holds_nothing(rt: HostRuntime) -> Result<(), Fail> {
    let heap = LocalHeap::new(rt.alloc(), 2_048)?;
    let before = heap.used();
    assert!(rt; TaskWords::new(&heap, 100_000).err() == Some(WordError::Memory));
    assert!(rt; heap.used() == before);
    let (words, core) = TaskWords::new(rt.alloc(), 1_000)?;
    assert!(rt; words.close(&heap, core).err() == Some(WordError::Memory));
    assert!(rt; heap.used() == before);
    Ok(())
}

// Cuts off handles up to `left` at once, and takes each back: the error of the last, if there was one.
fn with_handles_out<A: Allocator>(
    words: &TaskWords<A>,
    core: &mut CoreSeat<A>,
    left: u8,
) -> Option<WordError>
    requires { core.old.table ≡ words.now.table }
    ensures { core.new.table ≡ core.old.table }
{
    let handle = match core.split(words) {
        Ok(handle) => handle,
        Err(error) => return Some(error),
    };
    let error = if left > 1 {
        with_handles_out(words, core, left - 1)
    } else {
        None
    };
    core.join(words, handle);
    error
}

#[test]
fn handles_that_are_back_may_be_cut_off_again(rt: HostRuntime) -> Result<(), Fail> {
    let (words, mut core) = TaskWords::new(rt.alloc(), 1)?;
    assert!(rt; with_handles_out(&words, &mut core, MOST_HANDLES).is_none());
    let error = with_handles_out(&words, &mut core, MOST_HANDLES + 1);
    assert!(rt; error == Some(WordError::Seats));
    assert!(rt; with_handles_out(&words, &mut core, MOST_HANDLES).is_none());
    Ok(())
}

#[test]
fn sixty_three_handles_may_be_out(rt: HostRuntime) -> Result<(), Fail> {
    let (words, mut core) = TaskWords::new(rt.alloc(), 1)?;
    let kept = core.split(&words)?;
    assert!(rt; cut_off(&words, &mut core, 62));
    assert!(rt; core.split(&words).err() == Some(WordError::Seats));
    core.join(&words, kept);
    assert!(rt; cut_off(&words, &mut core, 1));
    assert!(rt; core.split(&words).err() == Some(WordError::Seats));
    Ok(())
}

#[test]
fn handles_that_are_out_are_counted(rt: HostRuntime) -> Result<(), Fail> {
    let (words, mut core) = TaskWords::new(rt.alloc(), 1)?;
    assert!(rt; core.handles() == 0);
    let first = core.split(&words)?;
    let second = core.split(&words)?;
    assert!(rt; core.handles() == 2);
    core.join(&words, first);
    assert!(rt; core.handles() == 1);
    core.join(&words, second);
    assert!(rt; core.handles() == 0);
    Ok(())
}

#[test]
fn all_handles_that_are_out_are_counted(rt: HostRuntime) -> Result<(), Fail> {
    let (words, mut core) = TaskWords::new(rt.alloc(), 1)?;
    assert!(rt; cut_off(&words, &mut core, 63));
    assert!(rt; core.split(&words).is_err() && core.handles() == MOST_HANDLES);
    Ok(())
}

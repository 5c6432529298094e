//! Tests of the words and their table: what a word says, who cancels a task, and what two threads may do at once.
mod usage;

ghost use Rattle.std.specs.Prelude.{◌≡◌, ◌<◌, ◌∷◌, true, false, IfSome};
ghost use Rattle.task_word.specs.declared.phases.Phase.TheVariants.{New};
ghost use Rattle.task_word.specs.Words.{started, marked, is_live, is_cancelled};
ghost use Rattle.task_word.specs.Views.{entry, with_entry};

use crate::moves::submit_vacant;
use std::alloc::{Allocator, Global};
use std::test::Fail;
use std::thread;
use std::thread::Threads;
use task_word::*;

// Whether a word has this number and this rank.
fn is(word: Word, value: u64, rank: u64) -> bool {
    word.value() == value && word.rank() == rank
}

#[test]
fn words_have_their_values_and_ranks(rt: HostRuntime) {
    let new = Word::new_run(0);
    let running = new.started();
    assert!(rt; is(Word::vacant(), 0, 0));
    assert!(rt; is(new, 1, 1));
    assert!(rt; is(running, 2, 2));
    assert!(rt; is(running.done(), 3, 3));
    assert!(rt; is(running.failed(), 4, 3));
    assert!(rt; is(running.rearmed(), 9, 3));
}

#[test]
fn words_with_the_bit_have_their_values_and_ranks(rt: HostRuntime) {
    let late = Word::new_run(3).started();
    let cancelled = late.with_cancel_bit();
    assert!(rt; is(late, 26, 8));
    assert!(rt; is(cancelled, 9223372036854775834, 8) && cancelled.is_cancelled());
    let done = Word::new_run(0).started().done();
    assert!(rt; !done.with_cancel_bit().is_cancelled());
    assert!(rt; Word::vacant().with_cancel_bit().submitted() == Word::new_run(0));
}

// Cancels a task that waits or is run and is not cancelled, as the core knows it. Whether this cancelled it: if not,
// a handle did, and nothing but the bit of the entry changed.
fn cancel_live<A: Allocator>(words: &TaskWords<A>, core: &mut CoreSeat<A>, task: u32) -> bool
    requires table { core.old.table ≡ words.now.table }
    requires task { task < words.now.tasks }
    requires live { is_live (entry core.old.view task).phase ≡ true }
    ensures table { core.new.table ≡ core.old.table }
    ensures won { result ≡ true → core.new.view.own ≡ task ∷ core.old.view.own }
    ensures late { result ≡ false
        → core.new.view ≡ with_entry core.old.view task (marked (entry core.old.view task)) }
{
    match core.cancel(words, task) {
        CoreCancel::Won => true,
        CoreCancel::Late => false,
        CoreCancel::Over | CoreCancel::Vacant => unreachable!(),
    }
}

// Begins a task's run. Whether it began: if not, nothing but the bit of the entry changed.
fn begin<A: Allocator>(words: &TaskWords<A>, core: &mut CoreSeat<A>, task: u32) -> bool
    requires table { core.old.table ≡ words.now.table }
    requires task { task < words.now.tasks }
    requires phase { (entry core.old.view task).phase ≡ New }
    requires live { is_cancelled (entry core.old.view task) ≡ false }
    ensures table { core.new.table ≡ core.old.table }
    ensures yes { result ≡ true
        → core.new.view ≡ with_entry core.old.view task (started (entry core.old.view task)) }
    ensures cancelled { result ≡ false
        → core.new.view ≡ with_entry core.old.view task (marked (entry core.old.view task)) }
{
    match core.start(words, task) {
        Moved::Yes => true,
        Moved::Cancelled => false,
    }
}

#[test]
fn the_core_cancels_or_comes_late(rt: HostRuntime) -> Result<(), Fail> {
    let (words, mut core) = TaskWords::new(rt.alloc(), 1)?;
    core.submit(&words, 0);
    assert!(rt; begin(&words, &mut core, 0));
    assert!(rt; cancel_live(&words, &mut core, 0));
    let (words, mut core) = TaskWords::new(rt.alloc(), 1)?;
    let mut handle = core.split(&words)?;
    core.submit(&words, 0);
    assert!(rt; handle.cancel(&words, 0) == CancelAnswer::Yes);
    assert!(rt; !cancel_live(&words, &mut core, 0));
    Ok(())
}

#[test]
fn errors_say_what_is_wanting(rt: HostRuntime) -> Result<(), Fail> {
    let memory = WordError::Memory;
    let seats = WordError::Seats;
    assert!(rt; format!(in rt.alloc(); "{memory}")?.as_str() == "out of memory");
    let text = format!(in rt.alloc(); "{MOST_HANDLES} handles are out")?;
    assert!(rt;
        format!(in rt.alloc(); "{seats}")? == text && text.as_str() == "63 handles are out"
    );
    Ok(())
}

// The tasks that the two threads cancel are those below this number.
const TASKS: u32 = 1000;

// Cancels all tasks through the handle, and says of each whether this cancelled it.
fn cancel_all(
    alloc: Global,
    words: &TaskWords<Global>,
    mut handle: HandleSeat,
) -> Option<(HandleSeat, Vec<bool>)>
    requires { handle.table ≡ words.now.table }
    ensures { IfSome result (λ r. r.0.table ≡ words.now.table) }
{
    let mut won = Vec::with_capacity(alloc, TASKS as usize).ok()?;
    for task in 0..TASKS {
        let answer = handle.cancel(words, task);
        won.push(answer == CancelAnswer::Yes).ok()?;
    }
    Some((handle, won))
}

// Submits all tasks that are vacant.
fn submit_all(words: &TaskWords<Global>, core: &mut CoreSeat<Global>)
    requires { (core.old.table ≡ words.now.table) × (words.now.tasks ≡ 1000) }
    ensures { core.new.table ≡ words.now.table }
{
    for task in 0..TASKS {
        submit_vacant(words, core, task);
    }
}

// Whether of each task one of two alone says that it cancelled it.
fn is_shared_out(first: &[bool], second: &[bool]) -> bool {
    for (one, two) in first.iter().zip(second) {
        if one == two {
            return false;
        }
    }
    first.len() == TASKS as usize && second.len() == TASKS as usize
}

// Cancels all tasks through two handles, in two threads; the core then has them back. Whether one alone cancelled each
// task, or `None` for want of memory.
fn cancel_by_two<R: Threads + Sync>(
    rt: &R,
    alloc: Global,
    words: &TaskWords<Global>,
    core: &mut CoreSeat<Global>,
) -> Option<bool>
    requires { core.old.table ≡ words.now.table }
    ensures { core.new.table ≡ core.old.table }
{
    let one = core.split(words).ok()?;
    let two = core.split(words).ok()?;
    let (first, second) = thread::join(
        rt,
        move || -> Option<(HandleSeat, Vec<bool>)>
            requires { one.table ≡ words.now.table }
            ensures { IfSome result (λ r. r.0.table ≡ words.entry.now.table) }
        { cancel_all(alloc, words, one) },
        move || -> Option<(HandleSeat, Vec<bool>)>
            requires { two.table ≡ words.now.table }
            ensures { IfSome result (λ r. r.0.table ≡ words.entry.now.table) }
        { cancel_all(alloc, words, two) },
    );
    let (one, first) = first?;
    let (two, second) = second?;
    core.join(words, one);
    core.join(words, two);
    Some(is_shared_out(&first, &second))
}

#[test]
fn each_task_is_cancelled_by_one_of_two_threads(rt: HostRuntime) -> Result<(), Fail> {
    let alloc = rt.alloc();
    let (words, mut core) = TaskWords::new(alloc, TASKS)?;
    submit_all(&words, &mut core);
    assert!(rt; cancel_by_two(&rt, alloc, &words, &mut core) == Some(true));
    let last = words.close(alloc, core)?;
    assert!(rt; last.iter().all(|word| *word == (1 << 63) + 1) && last.len() == 1000);
    Ok(())
}

// Only for their bounds.
fn may_cross<T: Send>(_it: &T) {}

fn may_be_shared<T: Sync>(_it: &T) {}

#[test]
fn words_and_seats_may_go_to_other_threads(rt: HostRuntime) -> Result<(), Fail> {
    let (words, mut core) = TaskWords::new(rt.alloc(), 1)?;
    let handle = core.split(&words)?;
    may_cross(&words);
    may_be_shared(&words);
    may_cross(&core);
    may_cross(&handle);
    Ok(())
}

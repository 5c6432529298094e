//! The journal of calls, and where its room is refused.
mod plans;

use crate::calls::read_plan;
use call_journal::{CallLine, Journal, MadeCall, plan_text};
use refusing_allocator::Refusing;
use std::alloc::{AllocError, Allocator, Global};
use std::process::Abort;
use std::test::Fail;

/// A question at this moment.
fn ask(moment: u64) -> MadeCall {
    MadeCall {
        moment,
        call: CallLine::Ask,
    }
}

/// Notes questions at the moments from 0 on, so many of them.
fn note_asks<A: Allocator>(journal: &mut Journal<A>, count: u64) -> Result<(), Fail> {
    for moment in 0..count {
        journal.make_room()?;
        journal.note(ask(moment));
    }
    Ok(())
}

#[test]
fn the_page_is_run(rt: HostRuntime) -> Result<(), Fail> {
    let alloc = rt.alloc();
    // example: call_journal
    let mut journal = Journal::new(alloc, true);
    let call = CallLine::Schedule(5);
    journal.make_room()?; // before the call is made
    journal.note(MadeCall { moment: 7, call }); // once it is made
    assert_eq!(rt; (journal.calls().len(), journal.is_over()), (1, false));

    let text = plan_text(alloc, journal.calls())?;
    assert!(rt; text.starts_with("version = 2\n\n[[block]]\n"));
    let plan = read_plan(alloc, text.as_bytes())?; // of `plan_read`
    assert_eq!(rt; plan.blocks().len(), 1);
    // end of example
    Ok(())
}

/// Whether a journal has so many calls, whether its calls are wanted, and whether there were more.
fn stands<A: Allocator>(
    journal: &Journal<A>,
    calls: usize,
    is_wanted: bool,
    is_over: bool,
) -> bool {
    journal.calls().len() == calls
        && journal.is_wanted() == is_wanted
        && journal.is_over() == is_over
}

#[test]
fn calls_are_kept_in_order(rt: HostRuntime) -> Result<(), Fail> {
    let mut journal = Journal::new(rt.alloc(), true);
    note_asks(&mut journal, 3)?;
    assert!(rt; journal.calls() == [ask(0), ask(1), ask(2)].as_slice());
    assert!(rt; stands(&journal, 3, true, false));
    Ok(())
}

#[test]
fn an_unwanted_call_is_not_kept(rt: HostRuntime) -> Result<(), Fail> {
    let heap = Refusing::new(rt.alloc());
    let mut journal = Journal::new(&heap, false);
    heap.refuse(1);
    note_asks(&mut journal, 70_000)?;
    assert!(rt; stands(&journal, 0, false, false));
    assert!(rt; heap.used() == 0 && !heap.has_refused());
    Ok(())
}

#[test]
fn there_are_more_behind_65_536_calls(rt: HostRuntime) -> Result<(), Fail> {
    let mut journal = Journal::new(rt.alloc(), true);
    note_asks(&mut journal, 65_536)?;
    assert!(rt; stands(&journal, 65_536, true, false));
    note_asks(&mut journal, 1)?;
    assert!(rt; stands(&journal, 65_536, true, true));
    assert!(rt; journal.calls().last().copied() == Some(ask(65_535)));
    note_asks(&mut journal, 1)?;
    assert!(rt; stands(&journal, 65_536, true, true));
    Ok(())
}

/// Notes a question, whose room is asked for once more where it was refused, and tells whether it was. What is refused changes
/// nothing, and a call is noted without a growth.
fn notes_at_last(
    rt: &impl Abort,
    heap: &Refusing<Global>,
    journal: &mut Journal<&Refusing<Global>>,
    moment: u64,
) -> Result<bool, AllocError> {
    let mut is_refused = false;
    let before = (journal.calls().len(), heap.used());
    if journal.make_room().is_err() {
        assert!(rt; (journal.calls().len(), heap.used()) == before);
        journal.make_room()?;
        is_refused = true;
    }
    let used = heap.used();
    journal.note(ask(moment));
    assert!(rt; heap.used() == used);
    Ok(is_refused)
}

/// Notes questions where the growth of this number is refused, and tells whether it was.
fn is_refused_at(rt: &(impl AllocGlobal + Abort), number: u64) -> Result<bool, AllocError> {
    let heap = Refusing::new(rt.alloc());
    let mut journal = Journal::new(&heap, true);
    let mut is_refused = false;
    heap.refuse(number);
    for moment in 0..1000 {
        is_refused |= notes_at_last(rt, &heap, &mut journal, moment)?;
    }
    assert!(rt; journal.calls().len() == 1000 && is_refused == heap.has_refused());
    drop(journal);
    assert!(rt; heap.used() == 0);
    Ok(is_refused)
}

#[test]
fn room_that_is_refused_changes_nothing(rt: HostRuntime) -> Result<(), Fail> {
    let mut refused = 0u32;
    for number in 1..100 {
        if is_refused_at(&rt, number)? {
            refused = refused.saturating_add(1);
        }
    }
    assert!(rt; refused > 1 && refused < 20, "{refused}");
    Ok(())
}

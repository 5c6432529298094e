//! Want of memory: rows are played with each growth refused in turn, and all before and behind it granted.

use super::lines::add;
use super::steps::{do_step, look};
use super::{play_case, play_rows};
use crate::said::text_of_lines;
use crate::words::{Row, Words, compare, lone};
use executor_model::{Answer, Line};
use live_core::{MakeError, ScheduledExecutor};
use refusing_allocator::Refusing;
use std::alloc::{AllocGlobal, Allocator, Global};
use std::process::Abort;
use std::test::Fail;

/// Plays rows with the first growth refused, then with the second and so on, until no growth of that number is asked for. Each time
/// what is refused tells want of memory and changes nothing that is shown, and is done again; all else is told as with ample
/// memory, and all memory is given back.
pub fn refuse_each(rt: &(impl AllocGlobal + Abort), rows: &[Row<'_>]) -> Result<(), Fail> {
    for number in 1..1_000u64 {
        let heap = Refusing::new(rt.alloc());
        heap.refuse(number);
        let refused = play_refused(rt, &heap, rows)?;
        assert!(rt; heap.used() == 0, "{number}");
        assert!(rt; heap.has_refused() == refused, "{number}");
        if !refused {
            return Ok(());
        }
    }
    Err("a growth was refused each time".into())
}

/// Plays rows with ample memory, but that of each step the first growth is refused: that of one that is no submission, and makes no
/// room, is never asked for.
pub fn refuse_firsts(rt: &(impl AllocGlobal + Abort), rows: &[Row<'_>]) -> Result<(), Fail> {
    let heap = Refusing::new(rt.alloc());
    let mut executor = ScheduledExecutor::new(&heap, 2)?;
    for row in rows {
        heap.refuse(1);
        refuse_first(rt, &heap, &mut executor, row);
    }
    Ok(())
}

/// Does what stands in a row, where the next growth is refused, and again where that was asked for.
fn refuse_first<A: Allocator>(
    rt: &impl Abort,
    heap: &Refusing<Global>,
    executor: &mut ScheduledExecutor<A>,
    row: &Row<'_>,
) {
    let mut told = do_step(executor, row.step);
    let wants = is_want(row.step, told);
    assert!(rt; wants == heap.has_refused(), "{}", row.line);
    if wants {
        told = do_step(executor, row.step);
    }
    compare(rt, row, told);
}

/// Plays rows with a growth refused, and tells whether want of memory was told.
fn play_refused(
    rt: &(impl AllocGlobal + Abort),
    heap: &Refusing<Global>,
    rows: &[Row<'_>],
) -> Result<bool, Fail> {
    match ScheduledExecutor::new(heap, 2) {
        Ok(mut executor) => play_again(rt, &mut executor, rows),
        Err(error) => {
            assert!(rt; error == MakeError::Memory);
            let mut executor = ScheduledExecutor::new(heap, 2)?;
            play_rows(rt, &mut executor, rows);
            Ok(true)
        }
    }
}

/// Does what stands in each row, again where memory was wanted, and tells whether it was.
fn play_again<A: Allocator>(
    rt: &(impl AllocGlobal + Abort),
    executor: &mut ScheduledExecutor<A>,
    rows: &[Row<'_>],
) -> Result<bool, Fail> {
    let mut refused = false;
    for row in rows {
        if is_refused(rt, executor, row)? {
            let told = do_step(executor, row.step);
            compare(rt, row, told);
            refused = true;
        }
    }
    Ok(refused)
}

/// Does what stands in a row, and tells whether memory was wanted, where nothing that is shown has changed.
fn is_refused<A: Allocator>(
    rt: &(impl AllocGlobal + Abort),
    executor: &mut ScheduledExecutor<A>,
    row: &Row<'_>,
) -> Result<bool, Fail> {
    let before = show(rt, executor)?;
    let told = do_step(executor, row.step);
    let wants = is_want(row.step, told);
    if wants {
        let after = show(rt, executor)?;
        assert!(rt; after == before, "{}", row.line);
    } else {
        compare(rt, row, told);
    }
    Ok(wants)
}

/// What is looked at to see that nothing has changed.
const LOOKS: &[&str] = &["look", "next_due", "policies", "is_shut", "numbers"];

/// What an executor shows now, and the lines that it would add.
fn show<A: Allocator>(
    rt: &impl AllocGlobal,
    executor: &ScheduledExecutor<A>,
) -> Result<String, Fail> {
    let mut text = String::new(rt.alloc());
    for word in LOOKS {
        let looks = look(executor, lone(*word));
        writeln!(text, "{looks:?}")?;
    }
    let lines = lines_of(rt.alloc(), executor)?;
    text.push_str(&text_of_lines(rt.alloc(), &lines)?)?;
    Ok(text)
}

/// The lines that an executor would add.
fn lines_of<A: Allocator>(
    alloc: Global,
    executor: &ScheduledExecutor<A>,
) -> Result<Vec<Line>, Fail> {
    let mut lines = Vec::new(alloc);
    add(executor, Answer::Clock, &mut lines)?;
    Ok(lines)
}

/// Whether memory was wanted by a step that may want it.
fn is_want(step: Words<'_>, told: Words<'_>) -> bool {
    told.word == "memory" && may_want(step.word)
}

/// The steps that may want memory.
const GROWING: &[&str] = &["schedule", "execute", "at_rate", "with_delay", "reserve"];

/// Whether a step may want memory.
fn may_want(word: &str) -> bool {
    for growing in GROWING {
        if *growing == word {
            return true;
        }
    }
    false
}

/// Each kind of submission, from no slot on, and room that is made.
const GROWTHS: &str = "\
each growth may be refused
execute 0 | accepted 0 3 0
schedule 0 5 | accepted 1 2 5
at_rate 0 6 10 | accepted 2 1 6
with_delay 0 7 10 | accepted 3 0 7
execute 0 | accepted 4 11 0
reserve 30 | made
";

#[test]
fn each_growth_may_be_refused(rt: HostRuntime) -> Result<(), Fail> {
    play_case(&rt, GROWTHS)
}

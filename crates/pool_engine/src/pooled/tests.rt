//! What is told of ended books, also of such as no pool leaves.
ghost use Rattle.std.specs.Prelude.{◌≡◌};
ghost use Rattle.queue_code.specs.Calls.{task_count};
ghost use Rattle.queue_code.specs.Codes.{calls_of};
ghost use Rattle.task_word.specs.Views.{new_core};

use super::{Asked, write_full, write_rested};
use byte_ends::Writing;
use executor_model::Event;
use queue_code::{Code, Instr};
use sched_engine::{Draft, Report, RunError};
use sched_time::{Ending, Timing};
use std::alloc::Global;
use std::marker::Brand;
use std::process::Abort;
use std::test::Fail;
use task_word::CoreSeat;
use worker_pool::{Book, Named, Shared};

/// The text of a book after a clock, a start and a finish.
const TEXT: &str = "\
0 submit 0 schedule due 0
0 clock
0 start 0 task 0 run 0 due 0
0 finish 0 task 0 run 0 done 0
";

/// What is told of a book whose pool ended well, with the text that is written.
fn told_rested<N: Named>(
    alloc: Global,
    book: &Book<N, Global>,
    limit: u32,
    moments: &[u64],
) -> Result<(Result<Report, RunError>, Vec<u8>), Fail> {
    let asked = Asked {
        workers: 1,
        limit,
        moments,
    };
    let mut draft = Draft::new(alloc)?;
    let mut writer = Writing::new(Vec::new(alloc));
    let told = match write_rested(book, &asked, &mut draft, &mut writer) {
        Ok(report) => Ok(report),
        Err(error) => Err(RunError::from(error.stop())),
    };
    Ok((told, writer.into_inner()))
}

/// What is told of a book whose pool ended at its limit, with the text that is written.
fn told_full<N: Named>(
    alloc: Global,
    book: &Book<N, Global>,
    limit: u32,
    moments: &[u64],
) -> Result<(Result<Report, RunError>, Vec<u8>), Fail> {
    let asked = Asked {
        workers: 1,
        limit,
        moments,
    };
    let mut draft = Draft::new(alloc)?;
    let mut writer = Writing::new(Vec::new(alloc));
    let told = match write_full(book, &asked, &mut draft, &mut writer) {
        Ok(()) => Err(RunError::Full),
        Err(error) => Err(RunError::from(error.stop())),
    };
    Ok((told, writer.into_inner()))
}

/// Checks what is told of a book that shows the moment 0 and has a task due then, before and after its run, and once something
/// happened that is by no pool of one worker.
fn tells<N: Named>(
    rt: &(impl AllocGlobal + Abort),
    shared: &Shared<Global>,
    seat: CoreSeat<Global>,
    code: Code<Global>,
    foreign: Event,
) -> Result<(), Fail>
    requires shared { (shared.now.table ≡ N.table) × (shared.now.cells ≡ N.cells) }
    requires seat { (seat.table ≡ shared.now.table) × (seat.view ≡ new_core shared.now.tasks) }
    requires tasks { shared.now.tasks ≡ task_count (calls_of code) }
    requires named { (calls_of code ≡ N.calls) × (1 ≡ N.workers) }
{
    let mut book = Book::<N, Global>::new(rt.alloc(), shared, seat, code, 1, 100)?;
    tells_of(rt, shared, &mut book, foreign)
}

/// Checks what is told of that book.
fn tells_of<N: Named>(
    rt: &(impl AllocGlobal + Abort),
    shared: &Shared<Global>,
    book: &mut Book<N, Global>,
    foreign: Event,
) -> Result<(), Fail>
    requires shared { (shared.now.table ≡ N.table) × (shared.now.cells ≡ N.cells) }
{
    let alloc = rt.alloc();
    // Something is due, and then a run is under way.
    for event in [Event::Clock(0), Event::Start(0)] {
        book.apply(shared, event)?;
        let (told, text) = told_rested(alloc, book, 100, &[0])?;
        assert!(rt; told == Err(RunError::Lost) && text.is_empty());
    }
    book.apply(shared, Event::Finish(0, Ending::Value(0)))?;
    tells_rested(rt, book)?;
    tells_full(rt, book)?;
    book.apply(shared, foreign)?;
    let (told, text) = told_rested(alloc, book, 100, &[0])?;
    assert!(rt; told == Err(RunError::Lost) && text.is_empty());
    for limit in 3..=4 {
        let (told, text) = told_full(alloc, book, limit, &[0])?;
        assert!(rt; told == Err(RunError::Lost) && text.is_empty());
    }
    Ok(())
}

/// Checks what is told of a book with the moment 0, a start and a finish, whose pool ended well.
fn tells_rested<N: Named>(
    rt: &(impl AllocGlobal + Abort),
    book: &Book<N, Global>,
) -> Result<(), Fail> {
    let alloc = rt.alloc();
    let report = Report {
        events: 3,
        lines: 4,
    };
    let lost = (Err(RunError::Lost), "");
    let moments: [(u32, &[u64], (Result<Report, RunError>, &str)); 6] = [
        (100, &[], lost),
        (100, &[1], lost),
        (100, &[0, 0], lost),
        (100, &[0, 1], lost),
        (2, &[0], lost),
        (3, &[0], (Ok(report), TEXT)),
    ];
    for (limit, moments, (answer, written)) in moments {
        let (told, text) = told_rested(alloc, book, limit, moments)?;
        assert!(rt; told == answer && text.as_slice() == written.as_bytes());
    }
    Ok(())
}

/// Checks what is told of that book, where its pool ended at its limit.
fn tells_full<N: Named>(
    rt: &(impl AllocGlobal + Abort),
    book: &Book<N, Global>,
) -> Result<(), Fail> {
    let rows: [(u32, &[u64], RunError, &str); 6] = [
        (2, &[0], RunError::Lost, ""),
        (3, &[0], RunError::Full, TEXT),
        (3, &[0, 5], RunError::Full, TEXT),
        (3, &[], RunError::Lost, ""),
        (3, &[5, 0], RunError::Lost, ""),
        (4, &[0], RunError::Lost, ""),
    ];
    for (limit, moments, fault, written) in rows {
        let (told, text) = told_full(rt.alloc(), book, limit, moments)?;
        assert!(rt; told == Err(fault) && text.as_slice() == written.as_bytes());
    }
    Ok(())
}

#[test]
fn lost_books_are_told_so(rt: HostRuntime) -> Result<(), Fail> {
    // No worker of the pool is number 1, and no handle of it is out.
    tells_with(&rt, Event::Start(1))?;
    tells_with(&rt, Event::Cancel(0))
}

/// The same of a new book.
fn tells_with(rt: &(impl AllocGlobal + Abort), foreign: Event) -> Result<(), Fail> {
    let alloc = rt.alloc();
    let instrs = vec![in alloc; Instr::Submit(0, Timing::Once, 0), Instr::Halt]?;
    let code = Code::check(alloc, instrs)?;
    let (shared, seat) = Shared::new(alloc, code.tasks())?;
    tells::<Brand>(rt, &shared, seat, code, foreign)
}

//! The examples of the comments, as they stand there: `tools/docs` compares them.
ghost use Rattle.std.specs.Prelude.{◌≡◌};
ghost use Rattle.queue_code.specs.Calls.{task_count};
ghost use Rattle.queue_code.specs.Codes.{calls_of};
ghost use Rattle.task_word.specs.Views.{new_core};

use super::code_of;
use executor_model::Event;
use queue_code::Code;
use std::alloc::{AllocGlobal, Global};
use std::marker::Brand;
use std::process::Abort;
use std::test::Fail;
use task_word::{CancelAnswer, CoreSeat, TaskState};
use worker_pool::{Book, Named, PoolError, Shared};

// example: worker_pool
/// A book for a code that submits one task, at moment 0 and due then.
fn run_code(rt: &(impl AllocGlobal + Abort), code: Code<Global>) -> Result<(), PoolError> {
    let (shared, seat) = Shared::new(rt.alloc(), code.tasks())?;
    run_book::<Brand>(rt, &shared, seat, code)
}

/// The task is submitted, and cancelled before it starts.
fn run_book<N: Named>(
    rt: &(impl AllocGlobal + Abort),
    shared: &Shared<Global>,
    seat: CoreSeat<Global>,
    code: Code<Global>,
) -> Result<(), PoolError>
    requires shared { (shared.now.table ≡ N.table) × (shared.now.cells ≡ N.cells) }
    requires seat { (seat.table ≡ shared.now.table) × (seat.view ≡ new_core shared.now.tasks) }
    requires tasks { shared.now.tasks ≡ task_count (calls_of code) }
    requires named { (calls_of code ≡ N.calls) × (1 ≡ N.workers) }
{
    let mut book = Book::<N, Global>::new(rt.alloc(), shared, seat, code, 1, 100)?;
    let mut handle = book.admit(shared)?;
    // `submit 0 schedule due 0` and `clock`.
    assert!(rt; book.apply(shared, Event::Clock(0))?.count == 2);
    assert!(rt; handle.cancel(0) == CancelAnswer::Yes);
    // `outside 0 yes` and `start 0 idle`.
    assert!(rt; book.apply(shared, Event::Start(0))?.count == 2);
    assert!(rt; handle.state(0) == TaskState::Cancelled);
    assert!(rt; book.lines().len() == 4);
    book.retire(shared, handle).map_err(|(error, _)| error)
}
// end of example

/// The plan of a task that is submitted at once.
const AT_ONCE: &str = "version = 1\n[[block]]\ncall = [{ op = 'execute', name = 'a' }]\n";

#[test]
fn the_page_is_run(rt: HostRuntime) -> Result<(), Fail> {
    Ok(run_code(&rt, code_of(rt.alloc(), AT_ONCE)?)?)
}

/// The same code without a handle.
fn start_code(rt: &(impl AllocGlobal + Abort), code: Code<Global>) -> Result<(), PoolError> {
    let (shared, seat) = Shared::new(rt.alloc(), code.tasks())?;
    start_book::<Brand>(rt, &shared, seat, code)
}

/// The task is submitted, and starts.
fn start_book<N: Named>(
    rt: &(impl AllocGlobal + Abort),
    shared: &Shared<Global>,
    seat: CoreSeat<Global>,
    code: Code<Global>,
) -> Result<(), PoolError>
    requires shared { (shared.now.table ≡ N.table) × (shared.now.cells ≡ N.cells) }
    requires seat { (seat.table ≡ shared.now.table) × (seat.view ≡ new_core shared.now.tasks) }
    requires tasks { shared.now.tasks ≡ task_count (calls_of code) }
    requires named { (calls_of code ≡ N.calls) × (1 ≡ N.workers) }
{
    let mut book = Book::<N, Global>::new(rt.alloc(), shared, seat, code, 1, 2)?;
    // example: worker_pool::Book::apply
    let clock = book.apply(shared, Event::Clock(0))?;
    assert_eq!(rt; clock.count, 2); // the lines of the submission of task 0, and of the clock
    let start = book.apply(shared, Event::Start(0))?;
    assert_eq!(rt; start.work.map(|work| work.task), Some(0));
    // Two events are as many as the book takes.
    let more = book.apply(shared, Event::Clock(5));
    assert_eq!(rt; more, Err(PoolError::Full));
    // end of example
    Ok(())
}

#[test]
fn a_task_is_started(rt: HostRuntime) -> Result<(), Fail> {
    Ok(start_code(&rt, code_of(rt.alloc(), AT_ONCE)?)?)
}

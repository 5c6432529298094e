//! A new pool, what is done with it, its end, and what the book and the handles know then.
ghost use Rattle.std.specs.Prelude.{◌≡◌};
ghost use Rattle.queue_code.specs.Calls.{task_count};
ghost use Rattle.queue_code.specs.Codes.{calls_of};
ghost use Rattle.task_word.specs.Views.{new_core};

use super::beside::Beside;
use super::growths::Refused;
use super::race::Raced;
use super::scripts::Scripted;
use super::seats::Seats;
use super::{beside, growths, in_time, race, scripts, seats};
use executor_model::Line;
use heap_allocator::HeapAllocator;
use queue_code::Code;
use result_cell::Verdict;
use std::alloc::{AllocError, Allocator, Global};
use std::marker::Brand;
use std::process::Abort;
use std::sync::Wait;
use std::test::Fail;
use std::thread::Threads;
use std::time::Clock;
use task_word::{CoreSeat, TaskState};
use worker_pool::{Book, Handle, Job, Named, Pool, PoolError, Shared};

/// How many handles may be out at once.
pub const MOST_HANDLES: usize = 63;

/// What is done with a pool, and what comes of it.
#[derive(Drop)]
pub enum Play<'p, 'a, J> {
    Script(&'p mut Scripted<'a, J>),
    Beside(&'p mut Beside<'a>),
    Race(&'p mut Raced<'a>),
    Refused(&'p mut Refused<'a>),
    Seats(&'p mut Seats),
}

/// Does it. Gives the handles that are out.
fn play_in<
    's,
    N: Named + Send + Sync,
    A: HeapAllocator + Send + Sync,
    R: Threads + Wait + Sync,
    J: Job + Sync,
>(
    rt: &R,
    alloc: Global,
    pool: &Pool<'s, N, A>,
    doing: Play<'_, '_, J>,
) -> Result<Vec<Handle<'s, N, A>>, Fail> {
    match doing {
        Play::Script(scripted) => scripts::play_in(rt, alloc, pool, scripted),
        Play::Beside(beside) => beside::play_in(rt, alloc, pool, beside),
        Play::Race(raced) => race::play_in(rt, alloc, pool, raced),
        Play::Refused(refused) => growths::play_in(rt, alloc, pool, refused),
        Play::Seats(seats) => seats::play_in(rt, alloc, pool, seats),
    }
}

/// What a handle, and handle and book, know of a task once the pool has ended.
#[derive(Clone, Copy)]
pub struct Known {
    pub state: TaskState,
    pub result: Option<Verdict>,
    pub agreed: Option<Verdict>,
}

/// What is known once a pool has ended.
#[derive(Drop)]
pub struct Came {
    /// What each handle knows, in the order of the handles, and of the tasks for each.
    pub known: Vec<Known>,
    /// Where as many handles as may be are out: what the book answers who asks it for one more, and for two once the first one
    /// is back.
    pub more: Vec<Option<PoolError>>,
    pub lines: Vec<Line>,
    /// Whether a task is due.
    pub is_ripe: bool,
    /// Whether some cell held a verdict before the book's.
    pub is_forestalled: bool,
}

impl Came {
    /// Of a book of which nothing is told yet.
    fn new(alloc: Global) -> Came {
        Came {
            known: Vec::new(alloc),
            more: Vec::new(alloc),
            lines: Vec::new(alloc),
            is_ripe: false,
            is_forestalled: false,
        }
    }
}

/// What a book answers who asks it for a handle, which is let go.
fn admits<N: Named, A: HeapAllocator>(
    book: &mut Book<N, A>,
    shared: &Shared<A>,
) -> Option<PoolError>
    requires { (shared.now.table ≡ N.table) × (shared.now.cells ≡ N.cells) }
{
    book.admit(shared).err()
}

/// Gives a handle back to its book.
fn give_back<'s, N: Named, A: Allocator>(
    book: &mut Book<N, A>,
    shared: &'s Shared<A>,
    handle: Handle<'s, N, A>,
) -> Result<(), PoolError>
    requires { (shared.now.table ≡ N.table) × (shared.now.cells ≡ N.cells) }
{
    match book.retire(shared, handle) {
        Ok(()) => Ok(()),
        Err((error, _)) => Err(error),
    }
}

/// What a handle knows of a task, alone and with the book.
fn known_of<N: Named, A: Allocator>(
    book: &mut Book<N, A>,
    shared: &Shared<A>,
    handle: &mut Handle<'_, N, A>,
    task: u32,
) -> Known
    requires { (shared.now.table ≡ N.table) × (shared.now.cells ≡ N.cells) }
{
    Known {
        state: handle.state(task),
        result: handle.result(task),
        agreed: book.agrees(shared, handle, task),
    }
}

/// Reads what a handle knows of so many tasks.
fn read_all<N: Named, A: Allocator>(
    book: &mut Book<N, A>,
    shared: &Shared<A>,
    handle: &mut Handle<'_, N, A>,
    tasks: u32,
    known: &mut Vec<Known>,
) -> Result<(), AllocError>
    requires { (shared.now.table ≡ N.table) × (shared.now.cells ≡ N.cells) }
{
    for task in 0..tasks {
        known.push(known_of(book, shared, handle, task))?;
    }
    Ok(())
}

/// Asks the book for so many handles, where as many as may be are out.
fn ask_for_more<N: Named, A: HeapAllocator>(
    book: &mut Book<N, A>,
    shared: &Shared<A>,
    times: u8,
    more: &mut Vec<Option<PoolError>>,
) -> Result<(), AllocError>
    requires { (shared.now.table ≡ N.table) × (shared.now.cells ≡ N.cells) }
{
    for _time in 0..times {
        more.push(admits(book, shared))?;
    }
    Ok(())
}

/// Reads what each handle knows, and gives it back.
fn give_all_back<'s, N: Named, A: HeapAllocator>(
    book: &mut Book<N, A>,
    shared: &'s Shared<A>,
    handles: Vec<Handle<'s, N, A>>,
    tasks: u32,
    came: &mut Came,
) -> Result<(), Fail>
    requires { (shared.now.table ≡ N.table) × (shared.now.cells ≡ N.cells) }
{
    let mut asks = handles.len() == MOST_HANDLES;
    for mut handle in handles {
        read_all(book, shared, &mut handle, tasks, &mut came.known)?;
        if asks {
            ask_for_more(book, shared, 1, &mut came.more)?;
        }
        give_back(book, shared, handle)?;
        if asks {
            ask_for_more(book, shared, 2, &mut came.more)?;
        }
        asks = false;
    }
    Ok(())
}

/// What the book shows.
fn show<N: Named, A: Allocator>(book: &Book<N, A>, came: &mut Came) -> Result<(), AllocError> {
    came.lines.extend_from_slice(book.lines())?;
    came.is_ripe = book.ripe();
    came.is_forestalled = book.is_forestalled();
    Ok(())
}

/// What is known once a pool has ended, whose book this is.
fn came_of<'s, N: Named, A: HeapAllocator>(
    alloc: Global,
    shared: &'s Shared<A>,
    mut book: Book<N, A>,
    handles: Vec<Handle<'s, N, A>>,
    tasks: u32,
) -> Result<Came, Fail>
    requires { (shared.now.table ≡ N.table) × (shared.now.cells ≡ N.cells) }
{
    let mut came = Came::new(alloc);
    give_all_back(&mut book, shared, handles, tasks, &mut came)?;
    show(&book, &mut came)?;
    Ok(came)
}

/// Does it with a pool of these names.
fn pool_of<
    N: Named + Send + Sync,
    A: HeapAllocator + Send + Sync,
    R: Threads + Wait + Sync,
    J: Job + Sync,
>(
    rt: &R,
    alloc: Global,
    heap: A,
    shared: &Shared<A>,
    seat: CoreSeat<A>,
    code: Code<A>,
    workers: u8,
    limit: u32,
    doing: Play<'_, '_, J>,
) -> Result<Came, Fail>
    requires shared { (shared.now.table ≡ N.table) × (shared.now.cells ≡ N.cells) }
    requires seat { (seat.table ≡ shared.now.table) × (seat.view ≡ new_core shared.now.tasks) }
    requires tasks { shared.now.tasks ≡ task_count (calls_of code) }
    requires named { (calls_of code ≡ N.calls) × (workers ≡ N.workers) }
{
    let tasks = code.tasks();
    let pool = Pool::<N, A>::new(heap, shared, seat, code, workers, limit)?;
    let handles = play_in(rt, alloc, &pool, doing)?;
    came_of(alloc, shared, pool.end(), handles, tasks)
}

/// Does it with a new pool for a code.
pub fn play_once<A: HeapAllocator + Send + Sync, R: Threads + Wait + Sync, J: Job + Sync>(
    rt: &R,
    alloc: Global,
    heap: A,
    code: Code<A>,
    workers: u8,
    limit: u32,
    doing: Play<'_, '_, J>,
) -> Result<Came, Fail> {
    let (shared, seat) = Shared::new(heap, code.tasks())?;
    pool_of::<Brand, _, _, _>(rt, alloc, heap, &shared, seat, code, workers, limit, doing)
}

/// Does so, in time.
pub fn play_in_time<
    A: HeapAllocator + Send + Sync,
    R: Threads + Wait + Sync + Clock + Abort,
    J: Job + Sync,
>(
    rt: &R,
    alloc: Global,
    heap: A,
    code: Code<A>,
    workers: u8,
    limit: u32,
    doing: Play<'_, '_, J>,
) -> Result<Came, Fail> {
    in_time(
        rt,
        || play_once(rt, alloc, heap, code, workers, limit, doing),
    )
}

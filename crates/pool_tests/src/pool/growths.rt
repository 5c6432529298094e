//! Want of memory in a run: each growth is refused in turn, on whichever thread it is asked for.
use super::plays::{Came, Play, play_in_time};
use super::{Counting, RunNumber};
use crate::told::conforms;
use executor_model::{Answer, Line, Message};
use heap_allocator::HeapAllocator;
use plan_compile::compile;
use plan_read::{Plan, read_plan};
use refusing_allocator::Refusing;
use std::alloc::{AllocGlobal, Global};
use std::process::Abort;
use std::sync::Wait;
use std::sync::atomic::Ordering;
use std::test::Fail;
use std::thread::Threads;
use std::time::Clock;
use worker_pool::{Applied, Handle, Named, Pool, PoolError};

/// Tasks with so many runs that the lists of a book grow while they are run.
const PLAN: &str = "version = 1\n[[block]]\ntimes = 16\nevery = 0\n\
                    call = [{ op = \"schedule\", name = \"a\", delay = 0 },\n\
                    { op = \"rate\", name = \"b\", first = 0, period = 1 }]\n";

/// How many of some lines start a run.
fn count_starts(lines: &[Line]) -> u64 {
    lines
        .iter()
        .filter(|line| matches!(line.message(), Message::Answer(Answer::Start { .. })))
        .count() as u64
}

/// What came of the calls behind a run that was refused a growth.
#[derive(Clone, Copy)]
struct Later {
    /// How many jobs were begun before these calls, and behind them.
    begun: [u64; 2],
    /// What was told of a clock before the runs, and of one behind them.
    clocks: [Applied; 2],
    /// What a run with a moment was answered, and one with none.
    ran: [Result<(), PoolError>; 2],
}

/// Runs a pool twice more, where the clock shows a moment at which tasks are due.
fn run_again<N: Named + Send + Sync, A: HeapAllocator + Send + Sync, R: Threads + Wait + Sync>(
    rt: &R,
    pool: &Pool<'_, N, A>,
    job: &Counting,
) -> Result<Later, PoolError> {
    let begun = job.runs.load(Ordering::SeqCst);
    let before = pool.advance(rt, 10)?;
    let ran = [pool.run(rt, job, &[11]), pool.run(rt, job, &[])];
    let behind = pool.advance(rt, 12)?;
    Ok(Later {
        begun: [begun, job.runs.load(Ordering::SeqCst)],
        clocks: [before, behind],
        ran,
    })
}

/// A run whose growth of this number is refused. There are later calls where it asks for that growth.
#[derive(Drop)]
pub struct Refused<'h> {
    heap: &'h Refusing<Global>,
    number: u64,
    ran: Result<(), PoolError>,
    later: Option<Later>,
}

/// Does it with a pool.
pub fn play_in<
    's,
    N: Named + Send + Sync,
    A: HeapAllocator + Send + Sync,
    R: Threads + Wait + Sync,
>(
    rt: &R,
    alloc: Global,
    pool: &Pool<'s, N, A>,
    refused: &mut Refused<'_>,
) -> Result<Vec<Handle<'s, N, A>>, Fail> {
    let job = Counting::new();
    refused.heap.refuse(refused.number);
    refused.ran = pool.run(rt, &job, &[0, 9]);
    if refused.heap.has_refused() {
        refused.later = Some(run_again(rt, pool, &job)?);
    }
    Ok(Vec::new(alloc))
}

/// Checks that a run that was refused a growth has ended so, that no later one has added a line or begun a job, though tasks are
/// due, and that there is a start for each job. Gives how many jobs were begun before the growth was refused.
fn check_refused(
    rt: &(impl Abort + AllocGlobal),
    plan: &Plan<Global>,
    came: &Came,
    ran: Result<(), PoolError>,
    later: &Later,
) -> Result<u64, Fail> {
    let memory = Err(PoolError::Memory);
    assert!(rt; ran == memory);
    assert!(rt; later.ran == [memory, memory]);
    let [before, behind] = later.clocks;
    assert!(rt; behind.first == before.first.saturating_add(before.count));
    assert!(rt; came.is_ripe);
    let starts = count_starts(&came.lines);
    assert!(rt; later.begun == [starts, starts]);
    conforms(rt, plan, 2, &came.lines)?;
    Ok(starts)
}

/// Runs a new pool whose growth of this number is refused, and checks what comes of it. All memory is given back. Gives how many jobs
/// were begun before, and nothing where the growth was not asked for.
fn begun_before<R: Threads + Wait + Sync + Clock + Abort + AllocGlobal>(
    rt: &R,
    plan: &Plan<Global>,
    number: u64,
) -> Result<Option<u64>, Fail> {
    let heap = Refusing::new(rt.alloc());
    let mut refused = Refused {
        heap: &heap,
        number,
        ran: Ok(()),
        later: None,
    };
    let code = compile(&heap, plan)?;
    let came = play_in_time(
        rt,
        rt.alloc(),
        &heap,
        code,
        2,
        10_000,
        Play::Refused::<RunNumber>(&mut refused),
    )?;
    assert!(rt; heap.used() == 0);
    match refused.later {
        Some(later) => Ok(Some(check_refused(rt, plan, &came, refused.ran, &later)?)),
        None => {
            assert!(rt; refused.ran == Ok(()));
            Ok(None)
        }
    }
}

/// Each growth is refused in turn. Over all runs some growth is refused before a job is begun, and some after that.
#[test]
fn want_of_memory_ends_this_run_and_each_later_one(rt: HostRuntime) -> Result<(), Fail> {
    let plan = read_plan(rt.alloc(), PLAN.as_bytes())?;
    let mut before = false;
    let mut meanwhile = false;
    for number in 1..1_000u64 {
        let Some(begun) = begun_before(&rt, &plan, number)? else {
            assert!(rt; before && meanwhile);
            return Ok(());
        };
        before |= begun == 0;
        meanwhile |= begun > 0;
    }
    Err("a growth was refused each time".into())
}

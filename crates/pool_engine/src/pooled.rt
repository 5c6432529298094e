//! A run by a pool: it reads all of its input, runs the plan, and writes the trace.
ghost use Rattle.std.specs.Prelude.{◌≡◌, ◌<◌, ◌≤◌, ◌↔◌, [], Ok, Err, IsErrOf, MatchResult};
ghost use Rattle.queue_code.specs.Calls.{task_count};
ghost use Rattle.queue_code.specs.Codes.{calls_of};
ghost use Rattle.task_word.specs.Views.{new_core};
ghost use Rattle.executor_model.specs.Counts.{IsWorkerCount};
ghost use Rattle.sched_engine.specs.Running.{CountsReader, CountsWriter};
ghost use Rattle.pool_engine.specs.PoolRuns.{LeavesWriter, PoolRan, PoolWrote, event_count};
ghost use Rattle.pool_engine.specs.own.Ended.{CountsLast, CountsStop, IsFilled, IsRested, StopLeaves, stop_of_last};

use crate::clocks::read_clocks;
use crate::ended::{look_back, write_lines};
use crate::stops::{LastError, PoolStop};
use byte_ends::{Sink, Source};
use executor_model::MOST_WORKERS;
use queue_code::Code;
use sched_engine::{Draft, HeapAllocator, Report, RunError, code_of};
use sched_time::Ending;
use std::alloc::Allocator;
use std::marker::Brand;
use std::sync::Wait;
use std::thread::Threads;
use task_word::CoreSeat;
use worker_pool::{Book, Job, Named, Pool, PoolError, Shared};

/// The job of each run: its value is the number of the run.
struct RunNumber;

impl Job for RunNumber {
    fn run(&self, _task: u32, run: u64) -> Ending
        ensures { result ≡ Ending.Value run }
    {
        Ending::Value(run)
    }
}

/// How many workers a pool has, how many events it takes at most, and which moments its clock shows.
#[derive(Clone, Copy)]
struct Asked<'m> {
    workers: u8,
    limit: u32,
    moments: &'m [u64],
}

/// Runs a plan by a pool of workers over the clock lines of the reader, and writes its trace once the pool has ended.
///
/// `plan_text` is the plan's TOML, at most 1,048,576 bytes; `workers` is the number of workers, 1 to 64, and `limit` the
/// greatest number of events, 1 to 4,294,967,295: clocks, starts and finishes. Moments are nanoseconds. All of the input is read
/// before a worker starts. The job of a run is done at once, and its value is the number of the run.
///
/// On [`RunError::Plan`], [`RunError::Workers`] and [`RunError::Limit`], found in this order, nothing is read or written. On
/// [`RunError::EventLine`] and [`RunError::Read`] nothing was run or written. On [`RunError::Full`] a further clock line follows
/// `limit` of them, and nothing was run or written; or the pool took `limit` events, and their text was written. On
/// [`RunError::Write`] a front of the text was written. On [`RunError::Memory`] and [`RunError::Lost`] nothing was written.
///
/// A read or write that fails by `Interrupted` is tried again, up to the 1,000th in a row. That one, any other fault, and a write
/// that takes nothing, is [`RunError::Read`] or [`RunError::Write`], and that end is not called again.
#[tactic(auto, using(crate::proofs::Whole::uncalled))]
pub fn run_pool<A: HeapAllocator + Send + Sync, R: Threads + Wait + Sync, S: Source, W: Sink>(
    rt: &R,
    alloc: A,
    plan_text: &[u8],
    workers: u8,
    limit: u32,
    reader: &mut S,
    writer: &mut W,
) -> Result<Report, RunError>
    ensures ran { PoolRan result plan_text.now workers limit (S.remaining reader.old)
        (S.remaining reader.new) (W.contents writer.old) (W.contents writer.new) }
    ensures read { CountsReader result (S.failed reader.old) (S.fruitless reader.old)
        (S.failed reader.new) (S.fruitless reader.new) }
    ensures write { CountsWriter result (W.failed writer.old) (W.fruitless writer.old)
        (W.failed writer.new) (W.fruitless writer.new) }
    ensures uncalled { LeavesWriter result (W.failed writer.old) (W.fruitless writer.old)
        (W.failed writer.new) (W.fruitless writer.new) }
{
    let code = code_of(alloc, plan_text)?;
    if workers == 0 || workers > MOST_WORKERS {
        return Err(RunError::Workers);
    }
    if limit == 0 {
        return Err(RunError::Limit);
    }
    let moments = read_clocks(alloc, limit, reader)?;
    let mut draft = Draft::new(alloc)?;
    let Ok((shared, seat)) = Shared::new(alloc, code.tasks()) else {
        return Err(RunError::Memory);
    };
    let asked = Asked {
        workers,
        limit,
        moments: &moments,
    };
    let report = run_named::<Brand, A, R, W>(
        rt, alloc, &shared, seat, code, &asked, &mut draft, writer,
    )?;
    Ok(report)
}

/// Runs a code by a pool of these names, and writes the trace.
fn run_named<
    N: Named + Send + Sync,
    A: HeapAllocator + Send + Sync,
    R: Threads + Wait + Sync,
    W: Sink,
>(
    rt: &R,
    alloc: A,
    shared: &Shared<A>,
    seat: CoreSeat<A>,
    code: Code<A>,
    asked: &Asked<'_>,
    draft: &mut Draft<A>,
    writer: &mut W,
) -> Result<Report, PoolStop>
    requires shared { (shared.now.table ≡ N.table) × (shared.now.cells ≡ N.cells) }
    requires seat { (seat.table ≡ shared.now.table) × (seat.view ≡ new_core shared.now.tasks) }
    requires tasks { shared.now.tasks ≡ task_count (calls_of code) }
    requires named { (calls_of code ≡ N.calls) × (asked.now.workers ≡ N.workers) }
    requires draft { draft.old ≡ [] }
    ensures wrote { PoolWrote result N.calls N.workers asked.now.limit asked.now.moments.now
        (W.contents writer.old) (W.contents writer.new) }
    ensures write { CountsStop result (W.failed writer.old) (W.fruitless writer.old)
        (W.failed writer.new) (W.fruitless writer.new) }
    ensures uncalled { StopLeaves result (W.failed writer.old) (W.fruitless writer.old)
        (W.failed writer.new) (W.fruitless writer.new) }
{
    let made = Pool::<N, A>::new(alloc, shared, seat, code, asked.workers, asked.limit);
    let Ok(pool) = made else {
        // The numbers are in range, so this is want of memory.
        return Err(PoolStop::Memory);
    };
    let ran = pool.run(rt, &RunNumber, asked.moments);
    let book = pool.end();
    match ran {
        Ok(()) => match write_rested(&book, asked, draft, writer) {
            Ok(report) => Ok(report),
            Err(error) => Err(error.stop()),
        },
        Err(PoolError::Full) => match write_full(&book, asked, draft, writer) {
            Ok(()) => Err(PoolStop::Full),
            Err(error) => Err(error.stop()),
        },
        Err(PoolError::Memory) => Err(PoolStop::Memory),
        Err(_) => Err(PoolStop::Lost),
    }
}

/// Writes the trace of a book whose pool ended well, if it has come to what it was to come to.
fn write_rested<N: Named, A: Allocator, W: Sink>(
    book: &Book<N, A>,
    asked: &Asked<'_>,
    draft: &mut Draft<A>,
    writer: &mut W,
) -> Result<Report, LastError>
    requires draft { draft.old ≡ [] }
    ensures wrote { MatchResult result
        (λ report. PoolWrote (Ok report) N.calls N.workers asked.now.limit asked.now.moments.now
        (W.contents writer.old) (W.contents writer.new))
        (λ e. PoolWrote (Err (stop_of_last e)) N.calls N.workers asked.now.limit
        asked.now.moments.now (W.contents writer.old) (W.contents writer.new)) }
    ensures write { CountsLast result (W.failed writer.old) (W.fruitless writer.old)
        (W.failed writer.new) (W.fruitless writer.new) }
    ensures uncalled { IsErrOf result LastError.Lost
        → (W.failed writer.new ≡ W.failed writer.old)
        × (W.fruitless writer.new ≡ W.fruitless writer.old) }
    ensures lost { IsErrOf result LastError.Lost
        ↔ ¬
        (IsRested book.now asked.now.moments.now
        × (event_count book.now.happened ≤ asked.now.limit)) }
{
    let told = look_back(book.happenings(), asked.moments, book.workers());
    if !told.shows_all || !told.by_pool || told.events > asked.limit as usize {
        return Err(LastError::Lost);
    }
    if book.ripe() || !book.is_idle() {
        return Err(LastError::Lost);
    }
    let lines = book.lines();
    if !write_lines(draft, lines, writer) {
        return Err(LastError::Write);
    }
    Ok(Report {
        events: told.events as u32,
        lines: lines.len() as u64,
    })
}

/// Writes the trace of a book whose pool ended at its limit, if it has as many events, and is what the pool was to come to so far.
fn write_full<N: Named, A: Allocator, W: Sink>(
    book: &Book<N, A>,
    asked: &Asked<'_>,
    draft: &mut Draft<A>,
    writer: &mut W,
) -> Result<(), LastError>
    requires draft { draft.old ≡ [] }
    ensures wrote { MatchResult result
        (λ _. PoolWrote (Err PoolStop.Full) N.calls N.workers asked.now.limit
        asked.now.moments.now (W.contents writer.old) (W.contents writer.new))
        (λ e. PoolWrote (Err (stop_of_last e)) N.calls N.workers asked.now.limit
        asked.now.moments.now (W.contents writer.old) (W.contents writer.new)) }
    ensures write { CountsLast result (W.failed writer.old) (W.fruitless writer.old)
        (W.failed writer.new) (W.fruitless writer.new) }
    ensures uncalled { IsErrOf result LastError.Lost
        → (W.failed writer.new ≡ W.failed writer.old)
        × (W.fruitless writer.new ≡ W.fruitless writer.old) }
    ensures lost { IsErrOf result LastError.Lost
        ↔ ¬ IsFilled book.now asked.now.limit asked.now.moments.now }
{
    let told = look_back(book.happenings(), asked.moments, book.workers());
    if !told.shows_first || !told.by_pool || told.events != asked.limit as usize {
        return Err(LastError::Lost);
    }
    if !write_lines(draft, book.lines(), writer) {
        return Err(LastError::Write);
    }
    Ok(())
}

#[cfg(test)]
mod tests;

//! What each command does with its files, and which fault it tells.

ghost use Rattle.std.specs.Prelude.{◌≡◌, ◌≤◌, IsErrOf, MatchResult, Result, Some};
ghost use Rattle.std.specs.declared.io.Error.{Error};
ghost use Rattle.command_work.specs.Answers.{ListedAsAsked, PooledAsAsked, RanAsAsked, ToldTasksAsAsked};
ghost use Rattle.command_work.specs.EndCounts.{CountsInput, CountsOutput};
ghost use Rattle.command_work.specs.Errors.{status_of};
ghost use Rattle.command_work.specs.Fronts.{IsReadOf, most_of_plan, most_of_trace};
ghost use Rattle.command_work.specs.Order.{AnswersCheck, AnswersCode, AnswersMigrate, AnswersPool, AnswersRun, AnswersTasks};

use crate::error::ProgramError;
use crate::files::{plan_text, trace_text};
use crate::finding::write_finding;
use byte_ends::{Sink, Source, write_text};
use command_line::{CheckArguments, RunArguments};
use plan_list::{write_listing, write_tasks};
use plan_read::{migrate, read_plan};
use pool_engine::run_pool;
use sched_engine::{HeapAllocator, RunError, run};
use std::alloc::Global;
use std::io;
use std::sync::Wait;
use std::thread::Threads;

/// Runs the plan of a file, as the system opened it, as asked: events from the reader and the trace to the writer. `Ok` is
/// the exit status, 0. At a fault of the file, the plan or the numbers, the first in this order, nothing is read or written.
pub fn run_file<A: HeapAllocator, P: Source + Drop, S: Source, W: Sink>(
    alloc: A,
    asked: &RunArguments<'_>,
    plan: io::Result<P>,
    reader: &mut S,
    writer: &mut W,
) -> Result<u8, ProgramError>
    ensures answers { AnswersRun result
        (IsReadOf P.remaining P.failed P.fruitless most_of_plan plan) asked.now
        (S.remaining reader.old) (S.remaining reader.new) (W.contents writer.old)
        (W.contents writer.new) }
    ensures read { CountsInput result (S.failed reader.old) (S.fruitless reader.old)
        (S.failed reader.new) (S.fruitless reader.new) }
    ensures write { CountsOutput result (W.failed writer.old) (W.fruitless writer.old)
        (W.failed writer.new) (W.fruitless writer.new) }
    ensures status { MatchResult result (λ s. s ≡ 0) (λ e. status_of e ≡ 1) }
{
    let text = plan_text(alloc, plan)?;
    run_text(alloc, asked, &text, reader, writer)
}

/// Runs a plan's text as asked, events from the reader and the trace to the writer. `Ok` is the
/// exit status, 0.
fn run_text<A: HeapAllocator, S: Source, W: Sink>(
    alloc: A,
    asked: &RunArguments<'_>,
    text: &[u8],
    reader: &mut S,
    writer: &mut W,
) -> Result<u8, ProgramError>
    ensures ran { RanAsAsked result asked.now text.now (S.remaining reader.old)
        (S.remaining reader.new) (W.contents writer.old) (W.contents writer.new) }
    ensures read { CountsInput result (S.failed reader.old) (S.fruitless reader.old)
        (S.failed reader.new) (S.fruitless reader.new) }
    ensures write { CountsOutput result (W.failed writer.old) (W.fruitless writer.old)
        (W.failed writer.new) (W.fruitless writer.new) }
    ensures status { MatchResult result (λ s. s ≡ 0) (λ e. status_of e ≡ 1) }
{
    run(alloc, text, asked.workers, asked.limit, reader, writer)?;
    Ok(0)
}

/// Runs the plan of a file by a pool, as the system opened it, as asked: clocks from the reader, and the trace to the writer.
/// `Ok` is the exit status, 0. At a fault of the file, the plan or the numbers, the first in this order, nothing is read or
/// written.
pub fn pool_file<R: Threads + Wait + Sync, P: Source + Drop, S: Source, W: Sink>(
    rt: &R,
    alloc: Global,
    asked: &RunArguments<'_>,
    plan: io::Result<P>,
    reader: &mut S,
    writer: &mut W,
) -> Result<u8, ProgramError>
    ensures answers { AnswersPool result
        (IsReadOf P.remaining P.failed P.fruitless most_of_plan plan) asked.now
        (S.remaining reader.old) (S.remaining reader.new) (W.contents writer.old)
        (W.contents writer.new) }
    ensures read { CountsInput result (S.failed reader.old) (S.fruitless reader.old)
        (S.failed reader.new) (S.fruitless reader.new) }
    ensures write { CountsOutput result (W.failed writer.old) (W.fruitless writer.old)
        (W.failed writer.new) (W.fruitless writer.new) }
    ensures status { MatchResult result (λ s. s ≡ 0) (λ e. status_of e ≡ 1) }
{
    let text = plan_text(alloc, plan)?;
    pool_text(rt, alloc, asked, &text, reader, writer)
}

/// Runs a plan's text by a pool as asked, clocks from the reader and the trace to the writer. `Ok` is the exit status, 0.
fn pool_text<R: Threads + Wait + Sync, A: HeapAllocator + Send + Sync, S: Source, W: Sink>(
    rt: &R,
    alloc: A,
    asked: &RunArguments<'_>,
    text: &[u8],
    reader: &mut S,
    writer: &mut W,
) -> Result<u8, ProgramError>
    ensures ran { PooledAsAsked result asked.now text.now (S.remaining reader.old)
        (S.remaining reader.new) (W.contents writer.old) (W.contents writer.new) }
    ensures read { CountsInput result (S.failed reader.old) (S.fruitless reader.old)
        (S.failed reader.new) (S.fruitless reader.new) }
    ensures write { CountsOutput result (W.failed writer.old) (W.fruitless writer.old)
        (W.failed writer.new) (W.fruitless writer.new) }
    ensures status { MatchResult result (λ s. s ≡ 0) (λ e. status_of e ≡ 1) }
{
    run_pool(rt, alloc, text, asked.workers, asked.limit, reader, writer)?;
    Ok(0)
}

/// Writes the listing of the plan of a file, as the system opened it. `Ok` is the exit status, 0. At a fault of the file or
/// the plan, the first in this order, nothing is written.
pub fn list_file<A: HeapAllocator, P: Source + Drop, W: Sink>(
    alloc: A,
    plan: io::Result<P>,
    writer: &mut W,
) -> Result<u8, ProgramError>
    ensures answers { AnswersCode result
        (IsReadOf P.remaining P.failed P.fruitless most_of_plan plan) (W.contents writer.old)
        (W.contents writer.new) }
    ensures write { CountsOutput result (W.failed writer.old) (W.fruitless writer.old)
        (W.failed writer.new) (W.fruitless writer.new) }
    ensures unread { IsErrOf result (ProgramError.Run RunError.Read) → ⊥ }
    ensures status { MatchResult result (λ s. s ≡ 0) (λ e. status_of e ≡ 1) }
{
    list_text(alloc, &plan_text(alloc, plan)?, writer)
}

/// Writes the listing of a plan's text. `Ok` is the exit status, 0.
fn list_text<A: HeapAllocator, W: Sink>(
    alloc: A,
    text: &[u8],
    writer: &mut W,
) -> Result<u8, ProgramError>
    ensures listed { ListedAsAsked result text.now (W.contents writer.old) (W.contents writer.new) }
    ensures write { CountsOutput result (W.failed writer.old) (W.fruitless writer.old)
        (W.failed writer.new) (W.fruitless writer.new) }
    ensures unread { IsErrOf result (ProgramError.Run RunError.Read) → ⊥ }
    ensures status { MatchResult result (λ s. s ≡ 0) (λ e. status_of e ≡ 1) }
{
    write_listing(alloc, text, writer).map_err(RunError::from)?;
    Ok(0)
}

/// Writes the tasks of the plan of a file, as the system opened it. `Ok` is the exit status, 0. At a fault of the file or the
/// plan, the first in this order, nothing is written.
pub fn tasks_file<A: HeapAllocator, P: Source + Drop, W: Sink>(
    alloc: A,
    plan: io::Result<P>,
    writer: &mut W,
) -> Result<u8, ProgramError>
    ensures answers { AnswersTasks result
        (IsReadOf P.remaining P.failed P.fruitless most_of_plan plan) (W.contents writer.old)
        (W.contents writer.new) }
    ensures write { CountsOutput result (W.failed writer.old) (W.fruitless writer.old)
        (W.failed writer.new) (W.fruitless writer.new) }
    ensures unread { IsErrOf result (ProgramError.Run RunError.Read) → ⊥ }
    ensures status { MatchResult result (λ s. s ≡ 0) (λ e. status_of e ≡ 1) }
{
    tasks_text(alloc, &plan_text(alloc, plan)?, writer)
}

/// Writes the tasks of a plan's text. `Ok` is the exit status, 0.
fn tasks_text<A: HeapAllocator, W: Sink>(
    alloc: A,
    text: &[u8],
    writer: &mut W,
) -> Result<u8, ProgramError>
    ensures told { ToldTasksAsAsked result text.now (W.contents writer.old)
        (W.contents writer.new) }
    ensures write { CountsOutput result (W.failed writer.old) (W.fruitless writer.old)
        (W.failed writer.new) (W.fruitless writer.new) }
    ensures unread { IsErrOf result (ProgramError.Run RunError.Read) → ⊥ }
    ensures status { MatchResult result (λ s. s ≡ 0) (λ e. status_of e ≡ 1) }
{
    write_tasks(alloc, text, writer).map_err(RunError::from)?;
    Ok(0)
}

/// Checks the trace of a file against the plan of a file, as the system opens them, and writes what is found, as asked. The
/// trace's is opened where the plan is one. `Ok` is the exit status: 0 where the trace conforms, 1 where it breaks. At a fault of a file,
/// the plan or the number of workers, the first in this order, nothing is written.
pub fn check_files<
    A: HeapAllocator,
    P: Source + Drop,
    O: Fn(&str) -> io::Result<P> + Drop,
    W: Sink,
>(
    alloc: A,
    asked: &CheckArguments<'_>,
    plan: io::Result<P>,
    open_file: O,
    writer: &mut W,
) -> Result<u8, ProgramError>
    requires { O.IsAlwaysCallable open_file }
    ensures answers { AnswersCheck result
        (IsReadOf P.remaining P.failed P.fruitless most_of_plan plan)
        (λ text. (trace : Result P Error) × O.post open_file asked.now.trace trace
        × IsReadOf P.remaining P.failed P.fruitless most_of_trace trace text) asked.now.workers
        (W.contents writer.old) (W.contents writer.new) }
    ensures write { CountsOutput result (W.failed writer.old) (W.fruitless writer.old)
        (W.failed writer.new) (W.fruitless writer.new) }
    ensures unread { IsErrOf result (ProgramError.Run RunError.Read) → ⊥ }
    ensures status { MatchResult result (λ s. s ≤ 1) (λ e. status_of e ≡ 1) }
{
    let text = plan_text(alloc, plan)?;
    let plan = match read_plan(alloc, &text) {
        Ok(plan) => plan,
        Err(fault) => return Err(ProgramError::from(RunError::Plan(fault))),
    };
    let trace = trace_text(alloc, open_file(asked.trace))?;
    write_finding(alloc, &plan, asked.workers, &trace, writer)
}

/// Writes the plan of a file, as the system opened it, as `migrate` prints it. `Ok` is the exit status, 0. At a fault of the
/// file or the plan, the first in this order, nothing is written.
pub fn migrate_file<A: HeapAllocator, P: Source + Drop, W: Sink>(
    alloc: A,
    plan: io::Result<P>,
    writer: &mut W,
) -> Result<u8, ProgramError>
    ensures answers { AnswersMigrate result
        (IsReadOf P.remaining P.failed P.fruitless most_of_plan plan) (W.contents writer.old)
        (W.contents writer.new) }
    ensures write { CountsOutput result (W.failed writer.old) (W.fruitless writer.old)
        (W.failed writer.new) (W.fruitless writer.new) }
    ensures unread { IsErrOf result (ProgramError.Run RunError.Read) → ⊥ }
    ensures status { MatchResult result (λ s. s ≡ 0) (λ e. status_of e ≡ 1) }
{
    migrate_text(alloc, &plan_text(alloc, plan)?, writer)
}

/// Writes a plan's text as `migrate` prints it. `Ok` is the exit status, 0.
fn migrate_text<A: HeapAllocator, W: Sink>(
    alloc: A,
    text: &[u8],
    writer: &mut W,
) -> Result<u8, ProgramError>
    ensures answers { AnswersMigrate result (λ plan. plan ≡ Some text.now) (W.contents writer.old)
        (W.contents writer.new) }
    ensures write { CountsOutput result (W.failed writer.old) (W.fruitless writer.old)
        (W.failed writer.new) (W.fruitless writer.new) }
    ensures unread { IsErrOf result (ProgramError.Run RunError.Read) → ⊥ }
    ensures status { MatchResult result (λ s. s ≡ 0) (λ e. status_of e ≡ 1) }
{
    let printed = match migrate(alloc, text) {
        Ok(printed) => printed,
        Err(fault) => return Err(ProgramError::from(RunError::Plan(fault))),
    };
    if !write_text(writer, printed.as_bytes()) {
        return Err(ProgramError::Run(RunError::Write));
    }
    Ok(0)
}

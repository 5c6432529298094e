//! What is wrong with the lines of a file: with events, with events and calls, or with a trace.

ghost use Rattle.std.specs.Prelude.{◌≡◌, ◌⊎◌, IfErr, IfOk, MatchOption, MatchResult};
ghost use Rattle.executor_model.specs.Counts.{IsWorkerCount};
ghost use Rattle.command_work.specs.Fronts.{IsReadOf, most_of_trace};
ghost use Rattle.command_work.specs.Linting.{CallsFound, EventsRight, EventsWrong, IsTaken, IsUntaken, TraceRight, TraceWrong};
ghost use Rattle.command_work.specs.declared.error.ProgramError.TheVariants.{Run};
ghost use Rattle.sched_engine.specs.declared.report.RunError.TheVariants.{Memory, Workers};

use crate::error::ProgramError;
use crate::files::MOST_OF_TRACE;
use crate::lint::Found;
use crate::lint_files::read_file;
use crate::refusal::Refusal;
use byte_ends::Source;
use line_reasons::{FileName, reason_of_events, reason_of_live_lines};
use plan_read::Plan;
use sched_engine::RunError;
use std::alloc::{AllocError, Global};
use std::io;
use trace_check::{CheckError, MOST_BYTES};
use trace_reasons::reason_of_trace;

/// The line that says why a file of events, as the system opened it, is refused; none where it is not. `Err` is want of memory.
pub fn events_wrong<P: Source + Drop>(
    heap: Global,
    name: &str,
    opened: io::Result<P>,
) -> Result<Option<Refusal>, ProgramError>
    ensures finds { IfOk result
        (λ told. MatchOption told
        (EventsRight (IsReadOf P.remaining P.failed P.fruitless most_of_trace opened))
        (λ line. EventsWrong (IsReadOf P.remaining P.failed P.fruitless most_of_trace opened))) }
    ensures fault { IfErr result (λ e. e ≡ Run Memory) }
{
    let text = match read_lines(heap, name, opened)? {
        Ok(text) => text,
        Err(untaken) => return Ok(Some(untaken)),
    };
    match reason_of_events(heap, &text) {
        Some(reason) => { Ok(Some(Refusal::of(heap, &reason.in_file(name))?)) }
        None => Ok(None),
    }
}

/// What is found of a file of events and calls, as the system opened it. `Err` is want of memory.
pub fn calls_wrong<P: Source + Drop>(
    heap: Global,
    name: &str,
    opened: io::Result<P>,
) -> Result<Found, ProgramError>
    ensures finds { IfOk result
        (CallsFound (IsReadOf P.remaining P.failed P.fruitless most_of_trace opened)) }
    ensures fault { IfErr result (λ e. e ≡ Run Memory) }
{
    let text = match read_lines(heap, name, opened)? {
        Ok(text) => text,
        Err(untaken) => return Ok(Found::Wrong(untaken)),
    };
    match reason_of_live_lines(heap, &text) {
        Some(reason) => { Ok(Found::Wrong(Refusal::of(heap, &reason.in_file(name))?)) }
        None => Ok(Found::Fine(Vec::new(heap))),
    }
}

/// The line that says why the trace of a file, as the system opened it, is none of a plan with so many workers, 1 to 64; none where it
/// is one. `Err` is want of memory, or another number of workers.
pub fn trace_wrong<P: Source + Drop>(
    heap: Global,
    plan: &Plan<Global>,
    name: &str,
    workers: u8,
    opened: io::Result<P>,
) -> Result<Option<Refusal>, ProgramError>
    ensures finds { IfOk result
        (λ told. MatchOption told
        (TraceRight (IsReadOf P.remaining P.failed P.fruitless most_of_trace opened) plan.now
        workers)
        (λ line. TraceWrong (IsReadOf P.remaining P.failed P.fruitless most_of_trace opened)
        plan.now workers)) }
    ensures fault { IfErr result
        (λ e. (e ≡ Run Memory) ⊎ ((e ≡ Run Workers) × ¬ IsWorkerCount workers)) }
{
    let text = match read_lines(heap, name, opened)? {
        Ok(text) => text,
        Err(untaken) => return Ok(Some(untaken)),
    };
    match reason_of_trace(heap, plan, workers, &text) {
        Ok(Some(reason)) => { Ok(Some(Refusal::of(heap, &reason.in_file(name))?)) }
        Ok(None) => Ok(None),
        Err(CheckError::Workers) => Err(ProgramError::Run(RunError::Workers)),
        Err(CheckError::Memory) => Err(ProgramError::Run(RunError::Memory)),
    }
}

/// The text of a file of lines as the system opened it; or, where it can't be read or has more than 67,108,864 bytes, the line that says
/// so. `Err` is want of memory.
fn read_lines<P: Source + Drop>(
    heap: Global,
    name: &str,
    opened: io::Result<P>,
) -> Result<Result<Vec<u8>, Refusal>, ProgramError>
    ensures text { IfOk result
        (λ r. MatchResult r
        (λ text. IsTaken (IsReadOf P.remaining P.failed P.fruitless most_of_trace opened)
        text.items)
        (λ line. IsUntaken (IsReadOf P.remaining P.failed P.fruitless most_of_trace opened))) }
    ensures fault { IfErr result (λ e. e ≡ Run Memory) }
{
    let text = match read_file(heap, name, opened, MOST_OF_TRACE)? {
        Ok(text) => text,
        Err(unread) => return Ok(Err(unread)),
    };
    if text.len() > MOST_BYTES {
        return Ok(Err(too_long(heap, name)?));
    }
    Ok(Ok(text))
}

/// The line that says that a file is longer than it may be.
fn too_long(heap: Global, name: &str) -> Result<Refusal, AllocError> {
    let name = FileName(name);
    let told = format!(in heap; "{name}: too long; at most {MOST_BYTES} bytes")?;
    Refusal::new(heap, told.as_str())
}

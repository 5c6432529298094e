//! A run over memory, and the check of the trace that it wrote.
ghost use Rattle.std.specs.Prelude.{◌≡◌, ◌≤◌, length, IfOk, IfErr, MatchOption, Err};
ghost use Rattle.sched_engine.specs.Running.{RanInMemory};
ghost use Rattle.trace_check.specs.Standing.{most_bytes};
ghost use Rattle.sched_audit.specs.Audits.{IsWhole, FindsByText, HasNoAudit};

use crate::error::AuditError;
use plan_compile::calls_are_in_order;
use plan_read::{HeapAllocator, read_plan};
use sched_engine::{Report, RunError, run_in_memory};
use std::alloc::Allocator;
use trace_check::{Finding, MOST_BYTES, check};

/// A run that wrote a whole trace, and what the check of this trace found.
#[derive(Drop)]
pub struct Audit<A: Allocator> {
    /// What the run answered: its report, or that it ended at a line that is no event's, or at its limit.
    pub answer: Result<Report, RunError>,
    /// The trace that it wrote.
    pub trace: Vec<u8, A>,
    /// What was found of the trace.
    pub finding: Finding,
}

/// Runs a plan over the event lines `input`, and checks the trace that this wrote with the same plan and
/// as many workers. The trace conforms, always.
///
/// The numbers are those of [`run`](sched_engine::run): `workers` is 1 to 64, `limit`, the greatest number of
/// events, 1 to 4,294,967,295. A run that ends at a line that is no event's, or at its limit, wrote the trace of
/// the events before, and this is checked as well. On [`AuditError::Run`] there is no whole trace,
/// on [`AuditError::TooLong`] it has more than [`MOST_BYTES`] bytes, and [`AuditError::Memory`] says nothing of the
/// run. Nothing is kept after an error.
pub fn run_and_check<A: HeapAllocator>(
    alloc: A,
    plan_text: &[u8],
    workers: u8,
    limit: u32,
    input: &[u8],
) -> Result<Audit<A>, AuditError>
    ensures ran { IfOk result
        (λ audit. RanInMemory audit.answer plan_text.now workers limit input.now
        audit.trace.items) }
    ensures whole { IfOk result (λ audit. IsWhole audit.answer) }
    ensures finds { IfOk result
        (λ audit. FindsByText plan_text.now workers audit.trace.items audit.finding) }
    ensures conforms { IfOk result (λ audit. audit.finding ≡ Finding.Conforms) }
    ensures fails { IfErr result (λ e. HasNoAudit e plan_text.now workers limit input.now) }
{
    calls_are_in_order();
    let (answer, trace) = run_in_memory(alloc, plan_text, workers, limit, input);
    if let Some(error) = unfinished(answer) {
        return Err(AuditError::Run(error));
    }
    if trace.len() > MOST_BYTES {
        return Err(AuditError::TooLong);
    }
    let finding = found(alloc, plan_text, workers, &trace)?;
    Ok(Audit {
        answer,
        trace,
        finding,
    })
}

/// The error of a run that wrote no whole trace.
fn unfinished(answer: Result<Report, RunError>) -> Option<RunError>
    ensures { MatchOption result (IsWhole answer) (λ e. (answer ≡ Err e) × (¬ IsWhole answer)) }
{
    match answer {
        Ok(_) | Err(RunError::EventLine(_) | RunError::Full) => None,
        Err(error) => Some(error),
    }
}

/// What is found of a trace, by the plan of a text that was read before: memory alone may be wanting.
fn found<A: HeapAllocator>(
    alloc: A,
    plan_text: &[u8],
    workers: u8,
    trace: &[u8],
) -> Result<Finding, AuditError>
    requires { length trace.now ≤ most_bytes }
    ensures finds { IfOk result (FindsByText plan_text.now workers trace.now) }
    ensures fails { IfErr result (λ e. e ≡ AuditError.Memory) }
{
    let Ok(plan) = read_plan(alloc, plan_text) else {
        return Err(AuditError::Memory);
    };
    match check(alloc, &plan, workers, trace) {
        Ok(finding) => Ok(finding),
        Err(_) => Err(AuditError::Memory),
    }
}

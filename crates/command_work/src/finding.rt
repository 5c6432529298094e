//! What is found of a trace, as a line and as an exit status.

ghost use Rattle.std.specs.Prelude.{◌≡◌, ◌≤◌, ◌↔◌, IfOk, IsErrOf, MatchResult, length, string_bytes};
ghost use Rattle.executor_model.specs.Counts.{IsWorkerCount};
ghost use Rattle.command_work.specs.EndCounts.{CountsOutput};
ghost use Rattle.command_work.specs.Errors.{status_of as fault_status};
ghost use Rattle.command_work.specs.Findings.{IsCheckedAsAsked, IsFindingTold, finding_text};
ghost use Rattle.trace_check.specs.Standing.{most_bytes};

use crate::error::ProgramError;
use byte_ends::{Sink, write_text};
use plan_read::Plan;
use sched_engine::RunError;
use std::alloc::{AllocError, Allocator};
use trace_check::{CheckError, Finding, check};

/// Checks a trace's text against a plan, and writes what was found: `conforms` or `breaks N`. `Ok` is the
/// exit status: 0 where the trace conforms, 1 where it breaks. Nothing is written but at `Ok` and where the
/// writer is at fault.
pub fn write_finding<A: Allocator + Copy, B: Allocator, W: Sink>(
    alloc: A,
    plan: &Plan<B>,
    workers: u8,
    trace: &[u8],
    writer: &mut W,
) -> Result<u8, ProgramError>
    requires { length trace.now ≤ most_bytes }
    ensures found { IsCheckedAsAsked result plan.now workers trace.now (W.contents writer.old)
        (W.contents writer.new) }
    ensures write { CountsOutput result (W.failed writer.old) (W.fruitless writer.old)
        (W.failed writer.new) (W.fruitless writer.new) }
    ensures unread { IsErrOf result (ProgramError.Run RunError.Read) → ⊥ }
    ensures workers { IsErrOf result (ProgramError.Run RunError.Workers) ↔ ¬ IsWorkerCount workers }
    ensures status { MatchResult result (λ s. s ≤ 1) (λ e. fault_status e ≡ 1) }
{
    match check(alloc, plan, workers, trace) {
        Ok(finding) => tell_finding(alloc, finding, writer),
        Err(CheckError::Workers) => Err(ProgramError::Run(RunError::Workers)),
        Err(CheckError::Memory) => Err(ProgramError::Run(RunError::Memory)),
    }
}

/// Writes a finding: `conforms` or `breaks N`. `Ok` is the exit status that tells it. Nothing is written but at
/// `Ok` and where the writer is at fault.
pub fn tell_finding<A: Allocator, W: Sink>(
    alloc: A,
    finding: Finding,
    writer: &mut W,
) -> Result<u8, ProgramError>
    ensures told { IsFindingTold result finding (W.contents writer.old) (W.contents writer.new) }
    ensures write { CountsOutput result (W.failed writer.old) (W.fruitless writer.old)
        (W.failed writer.new) (W.fruitless writer.new) }
    ensures unread { IsErrOf result (ProgramError.Run RunError.Read) → ⊥ }
    ensures workers { IsErrOf result (ProgramError.Run RunError.Workers) → ⊥ }
    ensures status { MatchResult result (λ s. s ≤ 1) (λ e. fault_status e ≡ 1) }
{
    let line = line_of(alloc, finding)?;
    if !write_text(writer, line.as_bytes()) {
        return Err(ProgramError::Run(RunError::Write));
    }
    match finding {
        Finding::Conforms => Ok(0),
        Finding::Breaks(_) => Ok(1),
    }
}

/// The line that tells a finding, with its newline.
fn line_of<A: Allocator>(alloc: A, finding: Finding) -> Result<String<A>, AllocError>
    ensures { IfOk result (λ line. string_bytes line ≡ finding_text finding) }
{
    match finding {
        Finding::Conforms => String::from_str(alloc, "conforms\n"),
        Finding::Breaks(line) => format!(in alloc; "breaks {line}\n"),
    }
}

//! What the drawing of a trace shows, as a text and as an exit status.

ghost use Rattle.std.specs.Prelude.{◌≡◌, ◌≤◌, ◌↔◌, IsErrOf, MatchResult, Result, length};
ghost use Rattle.std.specs.declared.io.Error.{Error};
ghost use Rattle.executor_model.specs.Counts.{IsWorkerCount};
ghost use Rattle.command_work.specs.Drawings.{IsDrawnAsAsked};
ghost use Rattle.command_work.specs.EndCounts.{CountsOutput};
ghost use Rattle.command_work.specs.Errors.{status_of};
ghost use Rattle.command_work.specs.Fronts.{IsReadOf, most_of_plan, most_of_trace};
ghost use Rattle.command_work.specs.Order.{AnswersDraw};
ghost use Rattle.trace_check.specs.Standing.{most_bytes};

use crate::error::ProgramError;
use crate::files::{plan_text, trace_text};
use crate::finding::tell_finding;
use byte_ends::{Sink, Source};
use command_line::DrawArguments;
use plan_read::{Plan, read_plan};
use sched_engine::{HeapAllocator, RunError};
use std::alloc::Allocator;
use std::io;
use trace_check::Finding;
use trace_svg::{Drawn, draw};

/// Draws the trace of a file, which is one of the plan of a file, as the system opens them, and writes the picture, as asked. The
/// trace's is opened where the plan is one. `Ok` is the exit status: 0 where the picture was written, and 1 where the trace breaks,
/// which is told as [`check_files`](crate::work::check_files) does. At a fault of a file, of the plan, of the number of workers or
/// of what is to be shown, the first in this order, nothing is written.
pub fn draw_files<A: HeapAllocator, P: Source + Drop, O: Fn(&str) -> io::Result<P> + Drop, W: Sink>(
    alloc: A,
    asked: &DrawArguments<'_>,
    plan: io::Result<P>,
    open_file: O,
    writer: &mut W,
) -> Result<u8, ProgramError>
    requires { O.IsAlwaysCallable open_file }
    ensures answers { AnswersDraw result
        (IsReadOf P.remaining P.failed P.fruitless most_of_plan plan)
        (λ text. (trace : Result P Error) × O.post open_file asked.now.check.trace trace
        × IsReadOf P.remaining P.failed P.fruitless most_of_trace trace text)
        asked.now.check.workers asked.now.view (W.contents writer.old) (W.contents writer.new) }
    ensures write { CountsOutput result (W.failed writer.old) (W.fruitless writer.old)
        (W.failed writer.new) (W.fruitless writer.new) }
    ensures unread { IsErrOf result (ProgramError.Run RunError.Read) → ⊥ }
    ensures status { MatchResult result (λ s. s ≤ 1) (λ e. status_of e ≡ 1) }
{
    let text = plan_text(alloc, plan)?;
    let plan = match read_plan(alloc, &text) {
        Ok(plan) => plan,
        Err(fault) => return Err(ProgramError::from(RunError::Plan(fault))),
    };
    let trace = trace_text(alloc, open_file(asked.check.trace))?;
    write_drawing(alloc, &plan, asked, &trace, writer)
}

/// Writes the picture of a trace's text as asked, or the line at which it is no trace of the plan: `breaks N`. `Ok` is the exit
/// status: 0 at a picture, and 1 where the trace breaks. Nothing is written but at `Ok` and where the writer is at fault.
fn write_drawing<A: Allocator + Copy, B: Allocator, W: Sink>(
    alloc: A,
    plan: &Plan<B>,
    asked: &DrawArguments<'_>,
    trace: &[u8],
    writer: &mut W,
) -> Result<u8, ProgramError>
    requires { length trace.now ≤ most_bytes }
    ensures drawn { IsDrawnAsAsked result plan.now asked.now.check.workers trace.now asked.now.view
        (W.contents writer.old) (W.contents writer.new) }
    ensures write { CountsOutput result (W.failed writer.old) (W.fruitless writer.old)
        (W.failed writer.new) (W.fruitless writer.new) }
    ensures unread { IsErrOf result (ProgramError.Run RunError.Read) → ⊥ }
    ensures workers { IsErrOf result (ProgramError.Run RunError.Workers)
        ↔ ¬ IsWorkerCount asked.now.check.workers }
    ensures status { MatchResult result (λ s. s ≤ 1) (λ e. status_of e ≡ 1) }
{
    match draw(alloc, plan, asked.check.workers, trace, asked.view, writer) {
        Ok(Drawn::Drawn) => Ok(0),
        Ok(Drawn::Breaks(line)) => tell_finding(alloc, Finding::Breaks(line), writer),
        Err(fault) => Err(ProgramError::from(fault)),
    }
}

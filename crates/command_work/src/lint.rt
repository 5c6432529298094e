//! Why a plan is refused, or the events or the trace that go with it, or the lines of a live run, as a line.

ghost use Rattle.std.specs.Prelude.{◌≡◌, ◌⊎◌, None, IfErr, IfOk, MatchOption};
ghost use Rattle.plan_read.specs.Texts.{TextFails};
ghost use Rattle.plan_read.specs.declared.faults.PlanFault.{PlanFault};
ghost use Rattle.command_work.specs.Fronts.{IsReadOf, most_of_trace};
ghost use Rattle.command_work.specs.Linting.{AsksUncounted, BesideRight, BesideWrong, Finds, FindsAsked, IsFileOf, IsUncounted, asked_of};
ghost use Rattle.command_work.specs.declared.error.ProgramError.TheVariants.{LintOptions, Run};
ghost use Rattle.sched_engine.specs.declared.report.RunError.TheVariants.{Memory, Workers};

use crate::error::ProgramError;
use crate::files::MOST_OF_PLAN;
use crate::lint_files::read_file;
use crate::lint_lines::{calls_wrong, events_wrong, trace_wrong};
use crate::lint_warnings::warning_lines;
use crate::refusal::Refusal;
use byte_ends::Source;
use command_line::LintArguments;
use plan_read::{Plan, PlanFaultKind, read_plan};
use plan_reasons::reason_of;
use sched_engine::RunError;
use std::alloc::Global;
use std::io;

/// What is looked at.
#[derive(Clone, Copy, Debug)]
pub enum Looked<'a> {
    /// The plan of a file, and something beside it.
    Plan(&'a str, Beside<'a>),
    /// The events and the calls of a file, as a live run has them.
    Calls(&'a str),
}

/// What is looked at beside a plan.
#[derive(Clone, Copy, Debug)]
pub enum Beside<'a> {
    /// Nothing.
    Nothing,
    /// The events of a file.
    Events(&'a str),
    /// The trace of a file, with so many workers, 1 to 64.
    Trace(&'a str, u8),
}

/// What a lint finds.
#[derive(Debug, Drop)]
pub enum Found {
    /// Nothing is wrong, and each line tells something odd of the plan, in the order of its text.
    Fine(Vec<Refusal>),
    /// Something is wrong, and the line says what.
    Wrong(Refusal),
}

/// What is looked at; none where the options do not go together, or name nothing.
fn looked_at<'a>(asked: &LintArguments<'a>) -> Option<Looked<'a>>
    ensures { result ≡ asked_of asked.now }
{
    match (
        asked.path,
        asked.events,
        asked.trace,
        asked.workers,
        asked.calls,
    ) {
        (Some(plan), None, None, None, None) => Some(Looked::Plan(plan, Beside::Nothing)),
        (Some(plan), Some(events), None, None, None) => {
            Some(Looked::Plan(plan, Beside::Events(events)))
        }
        (Some(plan), None, Some(trace), Some(workers), None) => {
            Some(Looked::Plan(plan, Beside::Trace(trace, workers)))
        }
        (None, None, None, None, Some(calls)) => Some(Looked::Calls(calls)),
        _ => None,
    }
}

/// Looks at the files that are asked for: the plan's and that of the events or of the trace, or that of calls. The second file is
/// opened where the plan is one. `Err` where the options do not go together: no file is opened; or where memory ran out, or the number
/// of workers is not 1 to 64.
pub fn find_wrong<P: Source + Drop, O: Fn(&str) -> io::Result<P> + Drop>(
    heap: Global,
    asked: &LintArguments<'_>,
    open_file: O,
) -> Result<Found, ProgramError>
    requires { O.IsAlwaysCallable open_file }
    ensures finds { IfOk result
        (FindsAsked (IsReadOf P.remaining P.failed P.fruitless) (O.post open_file)
        (asked_of asked.now)) }
    ensures fault { IfErr result
        (λ e. (e ≡ Run Memory) ⊎ ((e ≡ LintOptions) × (asked_of asked.now ≡ None))
        ⊎ ((e ≡ Run Workers) × AsksUncounted (asked_of asked.now))) }
{
    match looked_at(asked) {
        Some(Looked::Plan(name, beside)) => plan_wrong(heap, name, beside, open_file),
        Some(Looked::Calls(name)) => calls_wrong(heap, name, open_file(name)),
        None => Err(ProgramError::LintOptions),
    }
}

/// Looks at a plan's file, and where it is one at what is beside it. `Err` where memory ran out, or the number of workers is not 1 to
/// 64.
fn plan_wrong<P: Source + Drop, O: Fn(&str) -> io::Result<P> + Drop>(
    heap: Global,
    name: &str,
    beside: Beside<'_>,
    open_file: O,
) -> Result<Found, ProgramError>
    requires { O.IsAlwaysCallable open_file }
    ensures finds { IfOk result
        (Finds (IsReadOf P.remaining P.failed P.fruitless) (O.post open_file)
        (Looked.Plan name.entry beside.entry)) }
    ensures fault { IfErr result
        (λ e. (e ≡ Run Memory) ⊎ ((e ≡ Run Workers) × IsUncounted beside.entry)) }
{
    let text = match read_file(heap, name, open_file(name), MOST_OF_PLAN)? {
        Ok(text) => text,
        Err(unread) => return Ok(Found::Wrong(unread)),
    };
    let plan = match read_plan(heap, &text) {
        Ok(plan) => plan,
        Err(_) => return Ok(Found::Wrong(plan_refusal(heap, name, &text)?)),
    };
    match beside_wrong(heap, &plan, beside, open_file)? {
        Some(line) => Ok(Found::Wrong(line)),
        None => Ok(Found::Fine(warning_lines(heap, name, &plan, &text)?)),
    }
}

/// The line that says why the text of a plan's file is none. `Err` is want of memory.
fn plan_refusal(heap: Global, name: &str, text: &[u8]) -> Result<Refusal, ProgramError>
    ensures fails { IfOk result (λ line. (fault : PlanFault) × TextFails text.now fault) }
    ensures fault { IfErr result (λ e. e ≡ Run Memory) }
{
    match reason_of(heap, text) {
        Some(reason) if reason.fault.kind != PlanFaultKind::Memory => {
            Ok(Refusal::of(heap, &reason.in_file(name))?)
        }
        _ => Err(ProgramError::Run(RunError::Memory)),
    }
}

/// The line that says what is wrong with what is beside a plan; none where nothing is. `Err` where memory ran out, or the number of
/// workers is not 1 to 64.
fn beside_wrong<P: Source + Drop, O: Fn(&str) -> io::Result<P> + Drop>(
    heap: Global,
    plan: &Plan<Global>,
    beside: Beside<'_>,
    open_file: O,
) -> Result<Option<Refusal>, ProgramError>
    requires { O.IsAlwaysCallable open_file }
    ensures finds { IfOk result
        (λ told. MatchOption told
        (BesideRight (IsFileOf (IsReadOf P.remaining P.failed P.fruitless) (O.post open_file) most_of_trace)
        plan.now beside.entry)
        (λ line. BesideWrong (IsFileOf (IsReadOf P.remaining P.failed P.fruitless) (O.post open_file) most_of_trace)
        plan.now beside.entry)) }
    ensures fault { IfErr result
        (λ e. (e ≡ Run Memory) ⊎ ((e ≡ Run Workers) × IsUncounted beside.entry)) }
{
    match beside {
        Beside::Nothing => Ok(None),
        Beside::Events(name) => events_wrong(heap, name, open_file(name)),
        Beside::Trace(name, workers) => trace_wrong(heap, plan, name, workers, open_file(name)),
    }
}

//! A live run, and the plan of its calls.

ghost use Rattle.std.specs.Prelude.{◌≡◌, IfErr, IsErrOf, MatchResult};
ghost use Rattle.command_work.specs.EndCounts.{CountsInput, CountsOutput};
ghost use Rattle.command_work.specs.Errors.{status_of};
ghost use Rattle.command_work.specs.Live.{AnswersLive, IsWrittenTo, PlanAsAsked, PlanWritten, TextWritten};

use crate::error::ProgramError;
use byte_ends::{Sink, Source, write_text};
use call_journal::{Journal, plan_text};
use command_line::LiveArguments;
use live_engine::run;
use plan_read::{PlanFault, PlanFaultKind};
use sched_engine::{HeapAllocator, RunError};
use std::io;

/// Answers the lines of the reader, events and calls, as they come, and writes the trace to the writer. Then, where a file is named
/// for it, writes the plan of the calls that were made to it, also where the run ended by a fault. `Ok` is the exit status, 0. `Err`
/// is the fault of the run, or else that of the plan.
#[tactic(auto, using(crate::proofs::Lived::lived))]
pub fn live_lines<
    A: HeapAllocator,
    F: Sink + Drop,
    C: Fn(&str) -> io::Result<F> + Drop,
    S: Source,
    W: Sink,
>(
    alloc: A,
    asked: &LiveArguments<'_>,
    create_file: C,
    reader: &mut S,
    writer: &mut W,
) -> Result<u8, ProgramError>
    requires { C.IsAlwaysCallable create_file }
    ensures answers { AnswersLive result asked.now (IsWrittenTo F.contents F.failed F.fruitless)
        (C.post create_file) (S.remaining reader.old) (S.remaining reader.new)
        (W.contents writer.old) (W.contents writer.new) }
    ensures read { CountsInput result (S.failed reader.old) (S.fruitless reader.old)
        (S.failed reader.new) (S.fruitless reader.new) }
    ensures write { CountsOutput result (W.failed writer.old) (W.fruitless writer.old)
        (W.failed writer.new) (W.fruitless writer.new) }
    ensures status { MatchResult result (λ s. s ≡ 0) (λ e. status_of e ≡ 1) }
{
    let mut journal = Journal::new(alloc, asked.plan.is_some());
    let ran = run(alloc, asked.workers, &mut journal, reader, writer);
    let written = leave_plan(alloc, asked, &journal, create_file);
    ran?;
    written?;
    Ok(0)
}

/// Writes the plan of the calls in a journal, by [`write_plan`], where a file is named for it.
fn leave_plan<A: HeapAllocator, F: Sink + Drop, C: Fn(&str) -> io::Result<F> + Drop>(
    alloc: A,
    asked: &LiveArguments<'_>,
    journal: &Journal<A>,
    create_file: C,
) -> Result<(), ProgramError>
    requires { C.IsAlwaysCallable create_file }
    ensures plan { PlanAsAsked result asked.now.plan journal.now
        (IsWrittenTo F.contents F.failed F.fruitless) (C.post create_file) }
    ensures unread { IsErrOf result (ProgramError.Run RunError.Read) → ⊥ }
    ensures unwritten { IsErrOf result (ProgramError.Run RunError.Write) → ⊥ }
    ensures status { IfErr result (λ e. status_of e ≡ 1) }
{
    match asked.plan {
        Some(name) => write_plan(alloc, journal, name, create_file),
        None => Ok(()),
    }
}

/// Writes the plan of the calls in a journal to a file, which is created then. `Err` where there were more calls than a plan has, or
/// its text would be too long, or memory ran out for it: the file is not touched. `Err` too where the file can't be created or
/// written.
pub fn write_plan<A: HeapAllocator, F: Sink + Drop, C: Fn(&str) -> io::Result<F> + Drop>(
    alloc: A,
    journal: &Journal<A>,
    name: &str,
    create_file: C,
) -> Result<(), ProgramError>
    requires { C.IsAlwaysCallable create_file }
    ensures written { PlanWritten result journal.now (IsWrittenTo F.contents F.failed F.fruitless)
        (C.post create_file name.entry) }
    ensures unread { IsErrOf result (ProgramError.Run RunError.Read) → ⊥ }
    ensures unwritten { IsErrOf result (ProgramError.Run RunError.Write) → ⊥ }
    ensures status { IfErr result (λ e. status_of e ≡ 1) }
{
    if journal.is_over() {
        let fault = PlanFault {
            kind: PlanFaultKind::TooMany,
            block: 0,
            call: 0,
        };
        return Err(ProgramError::Run(RunError::Plan(fault)));
    }
    let text = match plan_text(alloc, journal.calls()) {
        Ok(text) => text,
        Err(fault) => return Err(ProgramError::from(RunError::Plan(fault))),
    };
    match create_file(name) {
        Ok(mut file) => write_plan_text(&mut file, text.as_bytes()),
        Err(error) => Err(ProgramError::of_system(error, ProgramError::PlanUnwritten)),
    }
}

/// Writes the text of a plan to a file. `Err` where the file is at fault, after a front of the text was written.
pub fn write_plan_text<F: Sink>(file: &mut F, text: &[u8]) -> Result<(), ProgramError>
    ensures written { TextWritten result (F.contents file.old) (F.contents file.new)
        (F.failed file.old) (F.fruitless file.old) (F.failed file.new) (F.fruitless file.new)
        text.now }
    ensures fault { IfErr result (λ e. e ≡ ProgramError.PlanUnwritten) }
{
    if write_text(file, text) {
        Ok(())
    } else {
        Err(ProgramError::PlanUnwritten)
    }
}

//! The program: its work over the command line, the files, standard input and standard output of the system.

ghost use Rattle.std.specs.Prelude.{◌≡◌, ℕ, ◌≤◌, ◌↔◌, ◌⊎◌, IsTrue, IsSome, Option, Result, map, string_bytes, IfErr, IfOk};
ghost use Rattle.std.specs.Process.{exit_status};
ghost use Rattle.clap.specs.Words.{kind_of};
ghost use Rattle.command_work.specs.Errors.{IsOrMemory};
ghost use Rattle.sched_program.specs.Ends.{IsRefusal, IsShown, IsTaken};
ghost use Rattle.sched_program.specs.Openings.{NamesEvents};
ghost use Rattle.sched_program.specs.Told.{IsTold, end_of, exit_status_of, may_hint};
ghost use Rattle.command_work.specs.declared.error.ProgramError.TheVariants.{Arguments};

use crate::answer::{Answer, in_status};
use crate::error_line::tell;
use crate::hints::Hints;
use crate::noted::Noted;
use crate::opening::open_source;
use crate::serving::serve;
use byte_ends::{Reading, Sink, Writing};
use clap::Error;
use clap::error::ErrorKind;
use command_line::{Asked, AskedAlone};
use command_work::{ProgramError, Refusal};
use sched_engine::RunError;
use std::alloc::Global;
use std::cell::Cell;
use std::process::ExitCode;
use std::rt::{Env, Files};
use std::sync::Wait;
use std::thread::Threads;
use std::{env, fs, io};

/// Does what the command line says, and answers the exit status: 0, 1 after a fault that a line by `faults` tells or where a trace
/// breaks, or 2 for a fault of the command line. A pool's threads are those of `threads`, and `faults` is standard error.
pub fn program<R, T, F>(rt: &R, threads: &T, faults: &mut F) -> ExitCode
where
    R: Env + Files + Input + Print + Eprint + AllocGlobal,
    T: Threads + Wait + Sync,
    F: Sink,
    ensures status { exit_status result ≤ 2 }
    ensures told { (answer : Result Answer ProgramError) × (hint : Option Refusal)
        × (exit_status result ≡ exit_status_of answer)
        × (IsSome hint → IsTrue (may_hint answer))
        × IsTold answer hint (F.contents faults.old) (F.contents faults.new) (F.failed faults.old)
        (F.fruitless faults.old) (F.failed faults.new) (F.fruitless faults.new) }
{
    let hints = Hints::new(rt.alloc());
    let answer = answer(rt, threads, &hints);
    let hint = hint_of(&answer, &hints);
    ExitCode::from(tell(faults, answer, hint.as_ref()))
}

/// The hint that stands behind the line of an error: of a file that was not read or not written, or of a limit.
fn hint_of(answer: &Result<Answer, ProgramError>, hints: &Hints) -> Option<Refusal>
    ensures { IsSome result → IsTrue (may_hint answer.now) }
{
    match answer {
        Err(
            ProgramError::PlanFile
            | ProgramError::PlanUnwritten
            | ProgramError::TraceFile
            | ProgramError::Run(RunError::Full),
        ) => hints.take(),
        _ => None,
    }
}

/// Does what the command line says. `Ok` is the exit status, 0, 1 or 2, or a refusal.
fn answer<R: Env + Files + Input + Print + Eprint + AllocGlobal, T: Threads + Wait + Sync>(
    rt: &R,
    threads: &T,
    hints: &Hints,
) -> Result<Answer, ProgramError>
    ensures status { IfOk (end_of result) (λ s. s ≤ 2) }
{
    let arguments = arguments(rt)?;
    let answer = answer_arguments(rt, threads, &arguments, hints);
    if let Err(ProgramError::Run(RunError::Full)) = &answer {
        note_limit(rt.alloc(), &arguments, hints);
    }
    answer
}

/// Notes how many events are taken at most, where the arguments of a command line say so.
fn note_limit(heap: Global, arguments: &[String], hints: &Hints) {
    match Asked::parse(heap, arguments) {
        Ok(Asked::Pool(run) | Asked::Alone(AskedAlone::Run(run))) => hints.note_limit(run.limit),
        _ => {}
    }
}

/// The arguments of the command line, the program's name first. `Err` where one is not UTF-8, or
/// where memory ran out.
fn arguments<R: Env + AllocGlobal>(rt: &R) -> Result<Vec<String>, ProgramError>
    ensures fault { IfErr result (λ e. IsOrMemory Arguments e) }
{
    match env::args(rt) {
        Ok(arguments) => Ok(arguments.collect(rt.alloc())?),
        Err(error) => Err(ProgramError::of_system(error, ProgramError::Arguments)),
    }
}

/// Does what the arguments of a command line say, the program's name first, with the files of the system, standard input
/// for the events and the calls, and standard output. No buffer stands between a run and the two, since the run reads and writes large
/// pieces itself. `Ok` is the exit status: 0 where what they ask for was done or help was printed, 1 where a trace breaks,
/// 2 where the program does not take them; or a refusal. Faults of files are noted.
fn answer_arguments<R: Files + Input + Print + Eprint + AllocGlobal, T: Threads + Wait + Sync>(
    rt: &R,
    threads: &T,
    arguments: &[String],
    hints: &Hints,
) -> Result<Answer, ProgramError>
    ensures status { IfOk (end_of result) (λ s. s ≤ 2) }
    ensures refused { IsRefusal (map string_bytes arguments.now) (end_of result) }
    ensures taken { IsTaken (map string_bytes arguments.now) (end_of result) }
{
    let is_left = Cell::new(!reads_events(arguments));
    let mut reader = Reading::new(rt.reader());
    let mut writer = Writing::new(io::writer(rt));
    match serve(
        threads,
        rt.alloc(),
        arguments,
        |path| Noted::open(rt.alloc(), path, open_source(rt, path, &is_left), hints),
        |path| Noted::open(
            rt.alloc(),
            path,
            fs::create(rt, path).map(Writing::new),
            hints,
        ),
        &mut reader,
        &mut writer,
    ) {
        Ok(answer) => answer,
        Err(error) => in_status(show(rt, &error)),
    }
}

/// Whether the command that is named reads events from standard input, where no file can be read then.
fn reads_events(arguments: &[String]) -> bool
    ensures { IsTrue result ↔ NamesEvents (map string_bytes arguments.now) }
{
    match arguments {
        [_, command, ..] => matches!(command.as_str(), "run" | "pool"),
        _ => false,
    }
}

/// Prints the text of help, and answers 0, or that of a fault of the command line, and answers 2.
/// `Err` where help can't be written, or where memory ran out before. Where standard error is
/// closed, the status alone tells a fault of the command line.
fn show<R: Print + Eprint>(rt: &R, error: &Error) -> Result<u8, ProgramError>
    ensures status { IfOk result (λ s. (s ≡ 0) ⊎ (s ≡ 2)) }
    ensures shown { IsShown (kind_of error.now) result }
{
    if error.kind() == ErrorKind::OutOfMemory {
        return Err(ProgramError::Run(RunError::Memory));
    }
    let printed = error.print(rt);
    if error.use_stderr() {
        return Ok(2);
    }
    match printed {
        Ok(()) => Ok(0),
        Err(_) => Err(ProgramError::Run(RunError::Write)),
    }
}

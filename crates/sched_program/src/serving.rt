//! What the program does for the arguments of its command line, over any files, events and output.

ghost use Rattle.std.specs.Prelude.{map, string_bytes, IfErr, IfOk};
ghost use Rattle.clap.specs.Words.{FailsBy, fault_of};
ghost use Rattle.command_line.specs.Commands.{sched_app};
ghost use Rattle.command_work.specs.EndCounts.{CountsInput, CountsOutput};
ghost use Rattle.command_work.specs.Fronts.{IsReadOf};
ghost use Rattle.command_work.specs.Live.{IsWrittenTo};
ghost use Rattle.sched_program.specs.Ends.{IsEndOf};
ghost use Rattle.sched_program.specs.Serving.{AnswersAlone, EndsAlone, Serves};
ghost use Rattle.sched_program.specs.Told.{end_of};
ghost use Rattle.byte_ends.specs.Ends.{NoneFailed};
ghost use Rattle.sched_engine.specs.Running.{IsUntouched};

use crate::answer::{Answer, in_status};
use crate::linting::lint_files;
use byte_ends::{Sink, Source};
use clap::Error;
use command_line::{Asked, AskedAlone};
use command_work::{
    ProgramError, check_files, draw_files, list_file, live_lines, migrate_file, pool_file,
    run_file, tasks_file,
};
use sched_engine::HeapAllocator;
use std::alloc::Global;
use std::io;
use std::sync::Wait;
use std::thread::Threads;

/// Does what the arguments of a command line ask for, the program's name first.
///
/// It opens the files that they name, or creates the one that is to be written, reads events from the reader and writes to the
/// writer. A pool's threads are those of `rt`. `Ok` is how that ended: with an exit status, 0 or, where a trace breaks, 1, with a
/// refusal, or with an error. `Err` is help, a fault of the command line or want of memory, which is to be shown: nothing was read or
/// written.
pub fn serve<
    R: Threads + Wait + Sync,
    P: Source + Drop,
    O: Fn(&str) -> io::Result<P> + Drop,
    F: Sink + Drop,
    C: Fn(&str) -> io::Result<F> + Drop,
    S: Source,
    W: Sink,
>(
    rt: &R,
    alloc: Global,
    arguments: &[String],
    open_file: O,
    create_file: C,
    reader: &mut S,
    writer: &mut W,
) -> Result<Result<Answer, ProgramError>, Error>
    requires opens { O.IsAlwaysCallable open_file }
    requires creates { C.IsAlwaysCallable create_file }
    ensures serves { IfOk result
        (λ answer. Serves (map string_bytes arguments.now) answer
        (IsReadOf P.remaining P.failed P.fruitless) (O.post open_file)
        (IsWrittenTo F.contents F.failed F.fruitless) (C.post create_file)
        (S.remaining reader.old) (S.remaining reader.new) (W.contents writer.old)
        (W.contents writer.new)) }
    ensures read { IfOk result
        (λ answer. CountsInput (end_of answer) (S.failed reader.old) (S.fruitless reader.old)
        (S.failed reader.new) (S.fruitless reader.new)) }
    ensures write { IfOk result
        (λ answer. CountsOutput (end_of answer) (W.failed writer.old) (W.fruitless writer.old)
        (W.failed writer.new) (W.fruitless writer.new)) }
    ensures fails { FailsBy (fault_of sched_app (map string_bytes arguments.now)) result }
    ensures untouched { IfErr result
        (λ _. IsUntouched (S.remaining reader.old) (S.remaining reader.new)
        (W.contents writer.old) (W.contents writer.new)) }
    ensures uncalled { IfErr result
        (λ _. NoneFailed 0 (S.failed reader.old) (S.fruitless reader.old) (S.failed reader.new)
        (S.fruitless reader.new)
        × NoneFailed 0 (W.failed writer.old) (W.fruitless writer.old) (W.failed writer.new)
        (W.fruitless writer.new)) }
    ensures status { IfOk result
        (λ answer. IsEndOf (map string_bytes arguments.now) (end_of answer)) }
{
    match Asked::parse(alloc, arguments)? {
        Asked::Pool(pool) => {
            let plan = open_file(pool.path);
            Ok(in_status(pool_file(rt, alloc, &pool, plan, reader, writer)))
        }
        Asked::Lint(lint) => Ok(lint_files(alloc, &lint, open_file, writer)),
        Asked::Alone(asked) => {
            let answer = answer_alone(alloc, &asked, open_file, create_file, reader, writer);
            Ok(in_status(answer))
        }
    }
}

/// Does what is asked of one thread: it opens the files that are named, or creates the one that is to be written, reads events from the
/// reader and writes to the writer. It waits for no other thread, and returns. `Ok` is the exit status, 0 or, where a trace breaks, 1.
#[tactic(auto, using(crate::proofs::EndCounts::unread))]
pub fn answer_alone<
    A: HeapAllocator,
    P: Source + Drop,
    O: Fn(&str) -> io::Result<P> + Drop,
    F: Sink + Drop,
    C: Fn(&str) -> io::Result<F> + Drop,
    S: Source,
    W: Sink,
>(
    alloc: A,
    asked: &AskedAlone<'_>,
    open_file: O,
    create_file: C,
    reader: &mut S,
    writer: &mut W,
) -> Result<u8, ProgramError>
    requires opens { O.IsAlwaysCallable open_file }
    requires creates { C.IsAlwaysCallable create_file }
    ensures answers { AnswersAlone result (IsReadOf P.remaining P.failed P.fruitless)
        (O.post open_file) (IsWrittenTo F.contents F.failed F.fruitless) (C.post create_file)
        asked.now (S.remaining reader.old) (S.remaining reader.new) (W.contents writer.old)
        (W.contents writer.new) }
    ensures read { CountsInput result (S.failed reader.old) (S.fruitless reader.old)
        (S.failed reader.new) (S.fruitless reader.new) }
    ensures write { CountsOutput result (W.failed writer.old) (W.fruitless writer.old)
        (W.failed writer.new) (W.fruitless writer.new) }
    ensures status { EndsAlone asked.now result }
{
    match asked {
        AskedAlone::Run(run) => run_file(alloc, run, open_file(run.path), reader, writer),
        AskedAlone::Code(code) => list_file(alloc, open_file(code.path), writer),
        AskedAlone::Tasks(tasks) => tasks_file(alloc, open_file(tasks.path), writer),
        AskedAlone::Check(check) => {
            let plan = open_file(check.path);
            check_files(alloc, check, plan, open_file, writer)
        }
        AskedAlone::Migrate(migrate) => migrate_file(alloc, open_file(migrate.path), writer),
        AskedAlone::Draw(draw) => {
            let plan = open_file(draw.check.path);
            draw_files(alloc, draw, plan, open_file, writer)
        }
        AskedAlone::Live(live) => live_lines(alloc, live, create_file, reader, writer),
    }
}

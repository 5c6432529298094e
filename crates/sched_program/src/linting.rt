//! What a lint answers.

ghost use Rattle.std.specs.Prelude.{◌≡◌, ◌⊎◌, IsErrOf, MatchResult, length};
ghost use Rattle.command_work.specs.EndCounts.{CountsOutput};
ghost use Rattle.command_work.specs.Errors.{status_of};
ghost use Rattle.command_work.specs.Fronts.{IsReadOf};
ghost use Rattle.command_work.specs.declared.error.ProgramError.TheVariants.{LintOptions};
ghost use Rattle.sched_program.specs.Linted.{AnswersLint, TellsFine};
ghost use Rattle.sched_program.specs.Told.{end_of};

use crate::answer::Answer;
use byte_ends::{Sink, Source, write_text};
use command_line::LintArguments;
use command_work::{Found, ProgramError, Refusal, find_wrong};
use sched_engine::RunError;
use std::alloc::Global;
use std::io;

/// Looks at the plan's file and at that of the events or of the trace, or at that of calls, as asked, and writes `fine` where nothing is
/// wrong, unless warnings are a fault and there is one. A refusal is the line that says what is wrong. The second file is opened where the
/// plan is one. `Err` where the options do not go together: no file is opened; where the writer is at fault; or where memory ran out:
/// nothing is written.
pub fn lint_files<P: Source + Drop, O: Fn(&str) -> io::Result<P> + Drop, W: Sink>(
    heap: Global,
    asked: &LintArguments<'_>,
    open_file: O,
    writer: &mut W,
) -> Result<Answer, ProgramError>
    requires { O.IsAlwaysCallable open_file }
    ensures answers { AnswersLint result (IsReadOf P.remaining P.failed P.fruitless)
        (O.post open_file) asked.now (W.contents writer.old) (W.contents writer.new) }
    ensures write { CountsOutput (end_of result) (W.failed writer.old) (W.fruitless writer.old)
        (W.failed writer.new) (W.fruitless writer.new) }
    ensures unread { IsErrOf result (ProgramError.Run RunError.Read) → ⊥ }
    ensures status { MatchResult (end_of result) (λ s. (s ≡ 0) ⊎ (s ≡ 1))
        (λ e. (status_of e ≡ 1) ⊎ (e ≡ LintOptions)) }
{
    match find_wrong(heap, asked, open_file)? {
        Found::Wrong(refusal) => Ok(Answer::Refused(refusal)),
        Found::Fine(warnings) => tell_fine(asked.strict, warnings, writer),
    }
}

/// Writes `fine`, unless warnings are a fault and there is one. `Err` where the writer is at fault, after a front of it was written.
fn tell_fine<W: Sink>(
    strict: bool,
    warnings: Vec<Refusal>,
    writer: &mut W,
) -> Result<Answer, ProgramError>
    ensures told { TellsFine result strict (length warnings.items) (W.contents writer.old)
        (W.contents writer.new) }
    ensures write { CountsOutput (end_of result) (W.failed writer.old) (W.fruitless writer.old)
        (W.failed writer.new) (W.fruitless writer.new) }
{
    if strict && !warnings.is_empty() {
        Ok(Answer::Warned(warnings, 1))
    } else if write_text(writer, b"fine\n") {
        Ok(Answer::Warned(warnings, 0))
    } else {
        Err(ProgramError::Run(RunError::Write))
    }
}

//! What stands on standard error: the line that tells why the program gives up, or those that tell what a lint finds.

ghost use Rattle.std.specs.Prelude.{◌≡◌, ◌+◌, ◌≤◌, ◌++◌, flat_map, length, option_map};
ghost use Rattle.std.specs.Fmt.{decimal};
ghost use Rattle.arrayvec.specs.ArrayString.{array_string_len};
ghost use Rattle.sched_program.specs.Lines.{error_line, kind_name, plan_fault_text, reason_text, run_error_text};
ghost use Rattle.byte_ends.specs.Ends.{CountsTries, WritesText};
ghost use Rattle.command_work.specs.RefusalTexts.{text_of};
ghost use Rattle.sched_program.specs.Told.{IsTold, exit_status_of, hint_text};

use crate::answer::Answer;
use arrayvec::ArrayString;
use byte_ends::{Sink, write_text};
use command_work::{ProgramError, Refusal};
use itoa::Buffer;
use plan_read::{PlanFault, PlanFaultKind};
use sched_engine::RunError;

/// How many bytes a reason has at most.
const LONGEST_REASON: usize = 120;

/// How many bytes a line has at most: a reason, the name of the program before it, and a newline.
const LONGEST_LINE: usize = LONGEST_REASON + 8;

/// Why the program gives up, in words.
type Reason = ArrayString<LONGEST_REASON>;

/// Tells an answer: the exit status that it is or that goes with it, and by `faults` the lines of warnings, that of a refusal, or that of an
/// error, with the hint behind it, where there is one. Where these are at fault, the status alone tells it. No memory is taken.
pub fn tell<W: Sink>(
    faults: &mut W,
    answer: Result<Answer, ProgramError>,
    hint: Option<&Refusal>,
) -> u8
    ensures told { IsTold answer (option_map (λ h. h.now) hint.entry) (W.contents faults.old)
        (W.contents faults.new) (W.failed faults.old) (W.fruitless faults.old)
        (W.failed faults.new) (W.fruitless faults.new) }
    ensures status { result ≡ exit_status_of answer }
{
    match answer {
        Ok(Answer::Status(status)) => status,
        Ok(Answer::Warned(warnings, status)) => {
            let _ = write_lines(faults, &warnings);
            status
        }
        Ok(Answer::Refused(refusal)) => {
            let _ = write_text(faults, refusal.line());
            1
        }
        Err(error) => {
            let _ = write_error(faults, error, hint);
            error.status()
        }
    }
}

/// Writes lines, one behind the other. False where the sink is at fault: a front of them was written.
fn write_lines<W: Sink>(faults: &mut W, lines: &[Refusal]) -> bool
    ensures text { WritesText result (W.contents faults.old) (W.contents faults.new)
        (flat_map text_of lines.now) }
    ensures counts { CountsTries result (W.failed faults.old) (W.fruitless faults.old)
        (W.failed faults.new) (W.fruitless faults.new) }
{
    for line in lines {
        if !write_text(faults, line.line()) {
            return false;
        }
    }
    true
}

/// Writes the line of an error, and the hint behind it. False where the sink is at fault: a front of them was written.
fn write_error<W: Sink>(faults: &mut W, error: ProgramError, hint: Option<&Refusal>) -> bool
    ensures text { WritesText result (W.contents faults.old) (W.contents faults.new)
        (error_line error ++ hint_text (option_map (λ h. h.now) hint.entry)) }
    ensures counts { CountsTries result (W.failed faults.old) (W.fruitless faults.old)
        (W.failed faults.new) (W.fruitless faults.new) }
{
    let told = write_text(faults, line_of(error).as_str().as_bytes());
    match hint {
        Some(hint) => told && write_text(faults, hint.line()),
        None => told,
    }
}

/// The line that tells an error, with its newline.
fn line_of(error: ProgramError) -> ArrayString<LONGEST_LINE>
    ensures { result.bytes ≡ error_line error }
{
    let mut line = ArrayString::new();
    line.push_str("sched: ");
    line.push_str(reason_of(error).as_str());
    line.push_str("\n");
    line
}

/// Why the program gives up.
fn reason_of(error: ProgramError) -> Reason
    ensures { result.bytes ≡ reason_text error }
{
    match error {
        ProgramError::Arguments => in_words("command line not UTF-8"),
        ProgramError::LintOptions => {
            in_words(
                "lint takes PLAN, or it and --events, or it, --trace and --workers, or --calls alone",
            )
        }
        ProgramError::PlanFile => in_words("plan file not read"),
        ProgramError::PlanUnwritten => in_words("plan file not written"),
        ProgramError::TraceFile => in_words("trace file not read"),
        ProgramError::TraceTooLong => in_words("trace file too long"),
        ProgramError::EndsFirst => in_words("the picture ends before it begins"),
        ProgramError::Crowded(marks) => {
            let mut reason = in_words("");
            push_number(&mut reason, marks);
            reason.push_str(" marks or bars are too many: --from and --to narrow the picture");
            reason
        }
        ProgramError::Run(error) => run_reason(error),
    }
}

/// Why a run ended, or what the program did besides.
fn run_reason(error: RunError) -> Reason
    ensures { result.bytes ≡ run_error_text error }
{
    match error {
        RunError::Plan(fault) => plan_reason(fault),
        RunError::Workers => in_words("the number of workers is not 1 to 64"),
        RunError::Limit => in_words("the limit on events is 0"),
        RunError::EventLine(line) => {
            let mut reason = in_words("event line ");
            push_number(&mut reason, line);
            reason
        }
        RunError::Full => in_words("full"),
        RunError::Read => in_words("read fault"),
        RunError::Write => in_words("write fault"),
        RunError::Lost => in_words("lost"),
        RunError::Memory => in_words("out of memory"),
    }
}

/// Why a plan is none.
fn plan_reason(fault: PlanFault) -> Reason
    ensures { result.bytes ≡ plan_fault_text fault }
{
    let mut reason = in_words("plan: ");
    reason.push_str(kind_name(fault.kind));
    reason.push_str(" block ");
    push_number(&mut reason, u64::from(fault.block));
    reason.push_str(" call ");
    push_number(&mut reason, u64::from(fault.call));
    reason
}

/// A reason of these words.
fn in_words(words: &str) -> Reason
    requires { length words.now ≤ LONGEST_REASON }
    ensures { result.bytes ≡ words.now }
{
    let mut reason = ArrayString::new();
    reason.push_str(words);
    reason
}

/// Appends a number, in decimal digits.
fn push_number(reason: &mut Reason, number: u64)
    requires { array_string_len reason.old + 40 ≤ LONGEST_REASON }
    ensures bytes { reason.new.bytes ≡ reason.old.bytes ++ decimal number }
    ensures short { array_string_len reason.new ≤ array_string_len reason.old + 40 }
{
    reason.push_str(Buffer::new().format(number));
}

/// The name of a kind of plan fault.
fn kind_name(kind: PlanFaultKind) -> &'static str
    ensures name { result.now ≡ kind_name kind }
    ensures short { length result.now ≤ 13 }
{
    match kind {
        PlanFaultKind::TooLong => "TooLong",
        PlanFaultKind::Toml => "Toml",
        PlanFaultKind::Version => "Version",
        PlanFaultKind::UnknownKey => "UnknownKey",
        PlanFaultKind::Missing => "Missing",
        PlanFaultKind::WrongType => "WrongType",
        PlanFaultKind::BadUnit => "BadUnit",
        PlanFaultKind::BadTimes => "BadTimes",
        PlanFaultKind::Negative => "Negative",
        PlanFaultKind::BadName => "BadName",
        PlanFaultKind::DuplicateName => "DuplicateName",
        PlanFaultKind::UnknownName => "UnknownName",
        PlanFaultKind::Ambiguous => "Ambiguous",
        PlanFaultKind::OutOfOrder => "OutOfOrder",
        PlanFaultKind::TooLarge => "TooLarge",
        PlanFaultKind::TooMany => "TooMany",
        PlanFaultKind::Memory => "Memory",
    }
}

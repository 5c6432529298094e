//! The calls of the executor that the lines of calls make.
ghost use Rattle.std.specs.Prelude.{◌≡◌, ◌≤◌, MatchOption};
ghost use Rattle.queue_code.specs.declared.call.CodeCall.TheVariants as codes;
ghost use Rattle.call_text.specs.declared.call.CallLine.TheVariants as asked;
ghost use Rattle.call_text.specs.Spelling.{FitsCall, FitsPeriod, FitsSpan};
ghost use Rattle.call_journal.specs.MadeCalls as made;
ghost use Rattle.live_plain.specs.own.Scripts.{NamesGiven};

use call_text::CallLine;
use queue_code::CodeCall;
use sched_time::{LONGEST, Span, Timing, Unit, span};

/// The number that a call cancels, where that was not given out, as so many were.
pub(crate) fn not_given(numbers: u32, call: CallLine) -> Option<u32>
    ensures { MatchOption result (NamesGiven numbers call)
        (λ task. (call ≡ asked.Cancel task) × (numbers ≤ task)) }
{
    match call {
        CallLine::Cancel(task) if task >= numbers => Some(task),
        _ => None,
    }
}

/// The call that a line makes, where so many numbers were given out: a submission has the next one. `None` where the call does not
/// fit.
pub(crate) fn code_of(numbers: u32, call: CallLine) -> Option<CodeCall>
    ensures { MatchOption result (FitsCall call → ⊥)
        (λ code. (code ≡ made.code_of numbers call) × FitsCall call) }
{
    match call {
        CallLine::Schedule(delay) => submission(numbers, Timing::Once, delay),
        CallLine::Execute => submission(numbers, Timing::Once, 0),
        CallLine::Rate(first, period) => {
            submission(numbers, Timing::Rate(period_of(period)?), first)
        }
        CallLine::Fixed(first, delay) => {
            submission(numbers, Timing::Fixed(period_of(delay)?), first)
        }
        CallLine::Cancel(task) => Some(CodeCall::Cancel { task }),
        CallLine::Policy(which, value) => Some(CodeCall::SetPolicy { which, value }),
        CallLine::Shutdown => Some(CodeCall::Shutdown),
        CallLine::ShutdownNow => Some(CodeCall::ShutdownNow),
        CallLine::Ask => Some(CodeCall::Ask),
    }
}

/// The submission of a task that is timed so, and `None` where its delay is above the limit.
fn submission(task: u32, timing: Timing, delay: u64) -> Option<CodeCall>
    ensures { MatchOption result (FitsSpan delay → ⊥)
        (λ code. (code ≡ codes.Submit task timing delay) × FitsSpan delay) }
{
    if delay > LONGEST {
        return None;
    }
    Some(CodeCall::Submit {
        task,
        timing,
        delay,
    })
}

/// The period, or the fixed delay, of so many nanoseconds, and `None` where they are none or above the limit.
fn period_of(nanos: u64) -> Option<Span>
    ensures { MatchOption result (FitsPeriod nanos → ⊥)
        (λ period. (period ≡ nanos) × FitsPeriod nanos) }
{
    if nanos == 0 || nanos > LONGEST {
        return None;
    }
    span(nanos as i64, Unit::Ns).ok()
}

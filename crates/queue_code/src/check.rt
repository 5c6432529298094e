//! The checks of a list of instructions.
ghost use Rattle.std.specs.Prelude.{◌≡◌, ℕ, ◌^◌, ◌<◌, IfOk, IfErr, None, Some};
ghost use Rattle.queue_code.specs.Checks.{is_early_halt, first_failed, code_fault, IsTimedInstr, AreTimed};
ghost use Rattle.queue_code.specs.own.Walks.{walk_opening, walk_nested, walk_unclosed, walk_empty_loop, walk_bad_task, walk_ends_late, walk_too_large, walk_out_of_order, walk_too_many, walk_checks, walked};
ghost use Rattle.queue_code.specs.own.Sizes.{IsBounded};

use crate::fault::CodeFault;
use crate::instr::Instr;
use crate::limits::MOST_CALLS;
use crate::progress::Progress;
use sched_time::{LONGEST, Timing};

/// Goes through a list of instructions up to its halt: what was met, or the first fault.
pub(crate) fn walk(instrs: &[Instr]) -> Result<Progress, CodeFault>
    ensures fault { IfErr result (λ e. code_fault instrs.now ≡ Some e) }
    ensures none { IfOk result
        (λ p. (code_fault instrs.now ≡ None) × (p ≡ walked walk_opening instrs.now)
        × AreTimed instrs.now) }
{
    let mut progress = Progress::new();
    for (index, instr) in instrs.iter().enumerate() {
        let rest = &instrs[index + 1..];
        if let Some(fault) = fault_at(&progress, instr, rest) {
            return Err(fault);
        }
        if let Instr::Halt = instr {
            return Ok(progress);
        }
        see_timing(instr);
        progress = progress.after(instr);
    }
    Err(CodeFault::NoHalt)
}

/// What is wrong with an instruction, where `rest` comes behind it: the first of the checks that fails.
fn fault_at(progress: &Progress, instr: &Instr, rest: &[Instr]) -> Option<CodeFault>
    requires { (n : ℕ) × (n < 2 ^ 64) × IsBounded n progress.now }
    ensures { result ≡ first_failed (walk_checks progress.now instr.now rest.now) }
{
    if is_early_halt(instr, rest) {
        return Some(CodeFault::NoHalt);
    }
    if is_nested(progress, instr) {
        return Some(CodeFault::Nested);
    }
    if is_unclosed(progress, instr) {
        return Some(CodeFault::Unclosed);
    }
    if is_empty_loop(progress, instr) {
        return Some(CodeFault::Empty);
    }
    if is_bad_task(progress, instr) {
        return Some(CodeFault::BadTask);
    }
    if is_too_large(progress, instr) {
        return Some(CodeFault::TooLarge);
    }
    if is_out_of_order(progress, instr) {
        return Some(CodeFault::Order);
    }
    if is_too_many(progress, instr) {
        return Some(CodeFault::TooMany);
    }
    None
}

/// Whether it is a halt that is not the last instruction.
fn is_early_halt(instr: &Instr, rest: &[Instr]) -> bool
    ensures { result ≡ is_early_halt instr.now rest.now }
{
    matches!(instr, Instr::Halt) && !rest.is_empty()
}

/// Whether a loop begins in a loop.
fn is_nested(progress: &Progress, instr: &Instr) -> bool
    ensures { result ≡ walk_nested progress.now instr.now }
{
    matches!(instr, Instr::Loop(..)) && progress.open_loop.is_some()
}

/// Whether a loop ends outside a loop, or the code inside one.
fn is_unclosed(progress: &Progress, instr: &Instr) -> bool
    ensures { result ≡ walk_unclosed progress.now instr.now }
{
    match instr {
        Instr::EndLoop => progress.open_loop.is_none(),
        Instr::Halt => progress.open_loop.is_some(),
        _ => false,
    }
}

/// Whether a loop ends that has no call.
fn is_empty_loop(progress: &Progress, instr: &Instr) -> bool
    ensures { result ≡ walk_empty_loop progress.now instr.now }
{
    match (instr, &progress.open_loop) {
        (Instr::EndLoop, Some(inner)) => inner.calls == 0,
        _ => false,
    }
}

/// Whether it cancels a task that is not made before it.
fn is_bad_task(progress: &Progress, instr: &Instr) -> bool
    ensures { result ≡ walk_bad_task progress.now instr.now }
{
    match (instr, &progress.open_loop) {
        (Instr::CancelFixed(_, task), _) => progress.tasks <= u128::from(*task),
        (Instr::CancelHere(_, nth), Some(inner)) => {
            progress.tasks.saturating_sub(inner.start) <= u128::from(*nth)
        }
        (Instr::CancelHere(..), None) => true,
        _ => false,
    }
}

/// Whether a loop's step, a delay or the moment in the last iteration is above 2^62 nanoseconds.
fn is_too_large(progress: &Progress, instr: &Instr) -> bool
    ensures { result ≡ walk_too_large progress.now instr.now }
{
    match instr {
        Instr::Loop(_, every) => LONGEST < *every,
        Instr::EndLoop | Instr::Halt => false,
        Instr::Submit(offset, _, delay) => LONGEST < *delay || ends_late(progress, *offset),
        _ => ends_late(progress, instr.offset()),
    }
}

/// Whether a call with this offset is made later than at 2^62 nanoseconds in the last iteration.
fn ends_late(progress: &Progress, offset: u64) -> bool
    ensures { result ≡ walk_ends_late progress.now.open_loop offset }
{
    u128::from(LONGEST) < progress.last_shift() + u128::from(offset)
}

/// Whether a call is made before the one in front of it, or an iteration begins before the one in front of it ends.
fn is_out_of_order(progress: &Progress, instr: &Instr) -> bool
    ensures { result ≡ walk_out_of_order progress.now instr.now }
{
    match (instr, &progress.open_loop) {
        (Instr::EndLoop, Some(inner)) => {
            1 < inner.times && u128::from(inner.first) + u128::from(inner.every) < progress.last
        }
        _ => instr.is_call() && u128::from(instr.offset()) < progress.last,
    }
}

/// Whether a loop is not made 1 to 65,536 times, or there are more than 65,536 calls.
fn is_too_many(progress: &Progress, instr: &Instr) -> bool
    requires { (n : ℕ) × (n < 2 ^ 64) × IsBounded n progress.now }
    ensures { result ≡ walk_too_many progress.now instr.now }
{
    match instr {
        Instr::Loop(times, _) => *times < 1 || MOST_CALLS < *times as usize,
        Instr::Halt => false,
        _ => (MOST_CALLS as u128) < progress.after(instr).calls,
    }
}

/// Shows that the period, or fixed delay, of a submission is within the limit: each span is.
fn see_timing(instr: &Instr)
    ensures { IsTimedInstr instr.now }
{
    if let Instr::Submit(_, Timing::Rate(span) | Timing::Fixed(span), _) = instr {
        let _nanos = span.nanos();
    }
}

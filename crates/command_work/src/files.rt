//! The files that the program reads: plans and traces.

ghost use Rattle.std.specs.Prelude.{◌≡◌, ℕ, ◌+◌, ◌<◌, ◌≤◌, ◌⊎◌, List, None, Some, IfErr, IfNone, IfOk, IfSome, IsErrOf, OnOk, drop, length, take, vec_len};
ghost use Rattle.std.specs.Io.KnownBytes.{Consumes, IsAtEnd, Keeps};
ghost use Rattle.command_work.specs.EndCounts.{CountsFile, CountsFront};
ghost use Rattle.command_work.specs.Errors.{IsOrMemory};
ghost use Rattle.command_work.specs.Fronts.{IsReadOf, TakesAtMost, front, most_of_plan, most_of_trace};
ghost use Rattle.command_work.specs.declared.error.ProgramError.TheVariants.{PlanFile, Run, TraceFile, TraceTooLong};
ghost use Rattle.byte_ends.specs.Ends.{CountsTry};
ghost use Rattle.sched_engine.specs.declared.report.RunError.TheVariants.{Memory};
ghost use Rattle.trace_check.specs.Standing.{most_bytes};

use crate::error::ProgramError;
use byte_ends::{Source, read_some};
use plan_read::LONGEST_TEXT;
use std::alloc::{AllocError, Allocator};
use std::io;
use trace_check::MOST_BYTES;

/// How many bytes of a plan file are read at most: one more than a plan text may have, so that a
/// longer file is seen to be too long.
pub const MOST_OF_PLAN: usize = LONGEST_TEXT + 1;

/// How many bytes of a trace file are read at most: one more than a trace may have.
pub const MOST_OF_TRACE: usize = MOST_BYTES + 1;

/// How many bytes of a file are read at once: so many at first, then as many as were read so far, and [`LARGEST_PIECE`] at most.
const FIRST_PIECE: usize = 512;

/// How many bytes of a file are read at once at most: 128 KiB.
const LARGEST_PIECE: usize = 131_072;

/// The text of a plan's file as the system opened it: its first [`MOST_OF_PLAN`] bytes. `Err` where it was not opened, where it is
/// at fault before these were read, or where memory ran out.
pub fn plan_text<A: Allocator, P: Source + Drop>(
    alloc: A,
    opened: io::Result<P>,
) -> Result<Vec<u8, A>, ProgramError>
    ensures text { IfOk result
        (λ text. IsReadOf P.remaining P.failed P.fruitless most_of_plan opened (Some text.items)) }
    ensures fault { IfErr result
        (λ e. (e ≡ Run Memory)
        ⊎ ((e ≡ PlanFile) × IsReadOf P.remaining P.failed P.fruitless most_of_plan opened None)) }
{
    match opened {
        Ok(mut file) => plan_front(alloc, &mut file),
        Err(error) => Err(ProgramError::of_system(error, ProgramError::PlanFile)),
    }
}

/// The first [`MOST_OF_PLAN`] bytes of a plan's file, which has lost just these. `Err` where it is at fault, though it gave bytes
/// before, or where memory ran out: it has lost some of them.
pub fn plan_front<A: Allocator, P: Source>(
    alloc: A,
    file: &mut P,
) -> Result<Vec<u8, A>, ProgramError>
    ensures text { IfOk result
        (λ text. IfSome (P.remaining file.old) (λ bytes. text.items ≡ front most_of_plan bytes)) }
    ensures rest { IfOk result
        (λ text. Consumes (P.remaining file.old) (P.remaining file.new) text.items) }
    ensures taken { TakesAtMost most_of_plan (P.remaining file.old) (P.remaining file.new) }
    ensures counts { CountsFile result (P.failed file.old) (P.fruitless file.old)
        (P.failed file.new) (P.fruitless file.new) }
    ensures fault { IfErr result (IsOrMemory PlanFile) }
{
    front_of(alloc, file, MOST_OF_PLAN, ProgramError::PlanFile)
}

/// The text of a trace's file as the system opened it. `Err` where it was not opened, where it is at fault before its end, where
/// memory ran out, or where it has more than 67,108,864 bytes.
pub fn trace_text<A: Allocator, P: Source + Drop>(
    alloc: A,
    opened: io::Result<P>,
) -> Result<Vec<u8, A>, ProgramError>
    ensures text { IfOk result
        (λ text. IsReadOf P.remaining P.failed P.fruitless most_of_trace opened (Some text.items)) }
    ensures size { IfOk result (λ text. length text.items ≤ most_bytes) }
    ensures long { IsErrOf result TraceTooLong
        → (text : List ℕ)
        × IsReadOf P.remaining P.failed P.fruitless most_of_trace opened (Some text)
        × (most_bytes < length text) }
    ensures fault { IfErr result
        (λ e. (e ≡ TraceTooLong) ⊎ (e ≡ Run Memory)
        ⊎ ((e ≡ TraceFile) × IsReadOf P.remaining P.failed P.fruitless most_of_trace opened None)) }
{
    match opened {
        Ok(mut file) => whole_trace(alloc, &mut file),
        Err(error) => Err(ProgramError::of_system(error, ProgramError::TraceFile)),
    }
}

/// All bytes of a trace's file, which has lost them. `Err` where it is at fault, though it gave bytes before, where memory ran
/// out, or where there are more than 67,108,864: it has lost some of them, [`MOST_OF_TRACE`] at most.
pub fn whole_trace<A: Allocator, P: Source>(
    alloc: A,
    file: &mut P,
) -> Result<Vec<u8, A>, ProgramError>
    ensures text { IfOk result
        (λ text. IfSome (P.remaining file.old) (λ bytes. text.items ≡ bytes)) }
    ensures rest { IfOk result
        (λ text. Consumes (P.remaining file.old) (P.remaining file.new) text.items) }
    ensures taken { TakesAtMost most_of_trace (P.remaining file.old) (P.remaining file.new) }
    ensures counts { CountsFile result (P.failed file.old) (P.fruitless file.old)
        (P.failed file.new) (P.fruitless file.new) }
    ensures size { IfOk result (λ text. length text.items ≤ most_bytes) }
    ensures long { IsErrOf result TraceTooLong
        → IfSome (P.remaining file.old) (λ bytes. most_bytes < length bytes) }
    ensures fault { IfErr result (λ e. (e ≡ TraceTooLong) ⊎ IsOrMemory TraceFile e) }
{
    let text = front_of(alloc, file, MOST_OF_TRACE, ProgramError::TraceFile)?;
    if text.len() >= MOST_OF_TRACE {
        return Err(ProgramError::TraceTooLong);
    }
    Ok(text)
}

/// The first bytes of a file, at most `most`, which has lost just these. `Err` is `fault` where it is at fault, though it gave bytes
/// before, or want of memory: it has lost some of them.
pub fn front_of<A: Allocator, P: Source>(
    alloc: A,
    file: &mut P,
    most: usize,
    fault: ProgramError,
) -> Result<Vec<u8, A>, ProgramError>
    ensures text { IfOk result
        (λ text. IfSome (P.remaining file.old) (λ bytes. text.items ≡ front most bytes)) }
    ensures rest { IfOk result
        (λ text. Consumes (P.remaining file.old) (P.remaining file.new) text.items) }
    ensures few { IfOk result (λ text. length text.items ≤ most) }
    ensures fault { IfErr result (IsOrMemory fault) }
    ensures taken { TakesAtMost most (P.remaining file.old) (P.remaining file.new) }
    ensures counts { CountsFront fault result (P.failed file.old) (P.fruitless file.old)
        (P.failed file.new) (P.fruitless file.new) }
{
    let mut text = Vec::new(alloc);
    let mut filled = 0;
    while filled < most {
        make_room(&mut text, filled, most)?;
        match read_behind(file, text.as_mut_slice(), filled) {
            Some(0) => {
                text.truncate(filled);
                return Ok(text);
            }
            Some(n) => filled += n,
            None => return Err(fault),
        }
    }
    Ok(text)
}

/// Makes a text that is filled up longer by zeros, which are room for the next read of its file: for one byte at least, and for `most`
/// in all. `Err` is want of memory.
fn make_room<A: Allocator>(
    text: &mut Vec<u8, A>,
    filled: usize,
    most: usize,
) -> Result<(), AllocError>
    requires more { filled < most }
    requires within { filled ≤ vec_len text.old }
    requires few { vec_len text.old ≤ most }
    ensures front { take filled text.new.items ≡ take filled text.old.items }
    ensures within { filled ≤ vec_len text.new }
    ensures few { vec_len text.new ≤ most }
    ensures room { OnOk result (filled < vec_len text.new) }
{
    let length = text.len();
    if filled < length {
        return Ok(());
    }
    let piece = length.clamp(FIRST_PIECE, LARGEST_PIECE).min(most - length);
    text.resize(length + piece, 0)
}

/// Reads once, by [`read_some`], behind the first `filled` bytes of a text, which stay.
fn read_behind<P: Source>(file: &mut P, text: &mut [u8], filled: usize) -> Option<usize>
    requires { filled < length text.old }
    ensures front { take filled text.new ≡ take filled text.old }
    ensures fits { IfSome result (λ n. filled + n ≤ length text.new) }
    ensures read { IfSome result
        (λ n. Consumes (P.remaining file.old) (P.remaining file.new)
        (take n (drop filled text.new))) }
    ensures end { IfSome result (λ n. n ≡ 0 → IsAtEnd (P.remaining file.new)) }
    ensures kept { IfNone result (Keeps (P.remaining file.old) (P.remaining file.new)) }
    ensures counts { CountsTry result (P.failed file.old) (P.fruitless file.old) (P.failed file.new)
        (P.fruitless file.new) }
{
    read_some(file, &mut text[filled..])
}

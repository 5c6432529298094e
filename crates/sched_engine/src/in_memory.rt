//! A run over bytes in memory.
ghost use Rattle.sched_engine.specs.Running.{RanInMemory};

use crate::engine::run;
use crate::report::{Report, RunError};
use byte_ends::{PIECE, Pieces, Writing};
use plan_read::HeapAllocator;

/// Runs a plan over the event lines `input`, and gives what [`run`] answers and the trace that it
/// wrote, in memory of `alloc`.
///
/// The numbers and the errors are those of [`run`], but [`RunError::Read`] can't come, and
/// [`RunError::Write`] is want of memory for the trace. After an error the trace is that of the
/// events before, or a front of it, as [`run`] says.
pub fn run_in_memory<A: HeapAllocator>(
    alloc: A,
    plan_text: &[u8],
    workers: u8,
    limit: u32,
    input: &[u8],
) -> (Result<Report, RunError>, Vec<u8, A>)
    ensures { RanInMemory result.0 plan_text.now workers limit input.now result.1.items }
{
    let mut reader = Pieces::new(input, PIECE);
    let mut writer = Writing::new(Vec::new(alloc));
    let answer = run(alloc, plan_text, workers, limit, &mut reader, &mut writer);
    (answer, writer.into_inner())
}

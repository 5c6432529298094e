//! What a run of a plan by a pool promises.
ghost use Rattle.sched_engine.specs.Running.{CountsReader, CountsWriter};
ghost use Rattle.pool_engine.specs.PoolRuns.{LeavesWriter, PoolRan};

use byte_ends::{Sink, Source};
use plan_read::HeapAllocator;
use sched_engine::{Report, RunError};
use std::sync::Wait;
use std::thread::Threads;

/// [`pool_engine::run_pool`].
pub fn run_pool<A: HeapAllocator + Send + Sync, R: Threads + Wait + Sync, S: Source, W: Sink>(
    rt: &R,
    alloc: A,
    plan_text: &[u8],
    workers: u8,
    limit: u32,
    reader: &mut S,
    writer: &mut W,
) -> Result<Report, RunError>
    ensures ran { PoolRan result plan_text.now workers limit (S.remaining reader.old)
        (S.remaining reader.new) (W.contents writer.old) (W.contents writer.new) }
    ensures read { CountsReader result (S.failed reader.old) (S.fruitless reader.old)
        (S.failed reader.new) (S.fruitless reader.new) }
    ensures write { CountsWriter result (W.failed writer.old) (W.fruitless writer.old)
        (W.failed writer.new) (W.fruitless writer.new) }
    ensures uncalled { LeavesWriter result (W.failed writer.old) (W.fruitless writer.old)
        (W.failed writer.new) (W.fruitless writer.new) }
{
    pool_engine::run_pool(rt, alloc, plan_text, workers, limit, reader, writer)
}

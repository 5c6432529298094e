//! What an executor promises whose calls are made while it runs.
ghost use Rattle.std.specs.Prelude.{◌≡◌, ◌+◌, [], IfOk, IfErr, IsErrOf, OnOk, OnErr};
ghost use Rattle.live_core.specs.Lives.{LiveView, StaysQuiet};
ghost use Rattle.live_core.specs.Said.{Submits, IsSubmitError};
ghost use Rattle.live_core.specs.Snapshots.{IsSound, IsWritten};
ghost use Rattle.live_engine.specs.LiveRuns.{Ran};
ghost use Rattle.sched_engine.specs.Running.{CountsReader, CountsWriter};
ghost use Rattle.sched_time.specs.declared.timing.Timing.TheVariants as timings;

use byte_ends::{Sink, Source};
use call_journal::Journal;
use live_core::{CallError, ExecutorFrame, Image, RestoreError, ScheduledExecutor, Submitted};
use live_engine::LiveReport;
use sched_engine::RunError;
use std::alloc::Allocator;

/// [`ScheduledExecutor::schedule`].
pub fn schedule<A: Allocator>(
    executor: &mut ScheduledExecutor<A>,
    at: u64,
    delay: u64,
) -> Result<Submitted, CallError>
    ensures made { IfOk result (λ s. Submits executor.old executor.new at timings.Once delay s) }
    ensures stays { OnOk result (StaysQuiet executor.old executor.new (executor.old.count + 1)) }
    ensures refused { OnErr result (executor.new ≡ executor.old) }
    ensures failed { IfErr result
        (λ error. IsSubmitError executor.old at timings.Once delay error) }
{
    executor.schedule(at, delay)
}

/// [`ScheduledExecutor::restore`].
pub fn restore<A: Allocator>(
    alloc: A,
    frame: &ExecutorFrame,
    tasks: &[Image],
    empty: &[u32],
) -> Result<ScheduledExecutor<A>, RestoreError>
where
    A: Copy,
    ensures is { IfOk result (λ e. IsWritten e frame.now tasks.now empty.now) }
    ensures ended { IfOk result (λ e. e.ended ≡ []) }
    ensures unsound { IsErrOf result RestoreError.Unsound
        → ((m : LiveView) → IsSound m → IsWritten m frame.now tasks.now empty.now → ⊥) }
{
    ScheduledExecutor::restore(alloc, frame, tasks, empty)
}

/// [`live_engine::run`].
pub fn run<A: Allocator, S: Source, W: Sink>(
    alloc: A,
    workers: u8,
    journal: &mut Journal<A>,
    reader: &mut S,
    writer: &mut W,
) -> Result<LiveReport, RunError>
where
    A: Copy,
    ensures ran { Ran result workers
        (record {
          left = S.remaining reader.old;
          contents = W.contents writer.old;
          journal = journal.old;
        })
        (record {
          left = S.remaining reader.new;
          contents = W.contents writer.new;
          journal = journal.new;
        }) }
    ensures read { CountsReader result (S.failed reader.old) (S.fruitless reader.old)
        (S.failed reader.new) (S.fruitless reader.new) }
    ensures write { CountsWriter result (W.failed writer.old) (W.fruitless writer.old)
        (W.failed writer.new) (W.fruitless writer.new) }
{
    live_engine::run(alloc, workers, journal, reader, writer)
}

//! What a run of a plan promises, its audit, and the writers of listings.
ghost use Rattle.std.specs.Prelude.{◌≡◌, IfOk, IfErr};
ghost use Rattle.sched_audit.specs.Audits.{FindsByText, HasNoAudit, IsWhole};
ghost use Rattle.sched_engine.specs.Running.{CountsReader, CountsWriter, Ran, RanInMemory};
ghost use Rattle.plan_list.specs.ListingTexts.{CountsListing, Listed};
ghost use Rattle.plan_list.specs.Writing.{TasksWritten};

use byte_ends::{Sink, Source};
use plan_list::ListingError;
use plan_read::HeapAllocator;
use sched_audit::{Audit, AuditError};
use sched_engine::{Report, RunError};
use trace_check::Finding;

/// [`sched_engine::run`].
pub fn run<A: HeapAllocator, S: Source, W: Sink>(
    alloc: A,
    plan_text: &[u8],
    workers: u8,
    limit: u32,
    reader: &mut S,
    writer: &mut W,
) -> Result<Report, RunError>
    ensures ran { Ran result plan_text.now workers limit (S.remaining reader.old)
        (S.remaining reader.new) (W.contents writer.old) (W.contents writer.new) }
    ensures read { CountsReader result (S.failed reader.old) (S.fruitless reader.old)
        (S.failed reader.new) (S.fruitless reader.new) }
    ensures write { CountsWriter result (W.failed writer.old) (W.fruitless writer.old)
        (W.failed writer.new) (W.fruitless writer.new) }
{
    sched_engine::run(alloc, plan_text, workers, limit, reader, writer)
}

/// [`sched_engine::run_in_memory`].
pub fn run_in_memory<A: HeapAllocator>(
    alloc: A,
    plan_text: &[u8],
    workers: u8,
    limit: u32,
    input: &[u8],
) -> (Result<Report, RunError>, Vec<u8, A>)
    ensures { RanInMemory result.0 plan_text.now workers limit input.now result.1.items }
{
    sched_engine::run_in_memory(alloc, plan_text, workers, limit, input)
}

/// [`plan_list::write_listing`].
pub fn write_listing<A: HeapAllocator, W: Sink>(
    alloc: A,
    plan_text: &[u8],
    writer: &mut W,
) -> Result<(), ListingError>
    ensures listed { Listed result plan_text.now (W.contents writer.old) (W.contents writer.new) }
    ensures write { CountsListing result (W.failed writer.old) (W.fruitless writer.old)
        (W.failed writer.new) (W.fruitless writer.new) }
{
    plan_list::write_listing(alloc, plan_text, writer)
}

/// [`plan_list::write_tasks`].
pub fn write_tasks<A: HeapAllocator, W: Sink>(
    alloc: A,
    plan_text: &[u8],
    writer: &mut W,
) -> Result<(), ListingError>
    ensures tasks { TasksWritten result plan_text.now (W.contents writer.old)
        (W.contents writer.new) }
    ensures write { CountsListing result (W.failed writer.old) (W.fruitless writer.old)
        (W.failed writer.new) (W.fruitless writer.new) }
{
    plan_list::write_tasks(alloc, plan_text, writer)
}

/// [`sched_audit::run_and_check`].
pub fn run_and_check<A: HeapAllocator>(
    alloc: A,
    plan_text: &[u8],
    workers: u8,
    limit: u32,
    input: &[u8],
) -> Result<Audit<A>, AuditError>
    ensures ran { IfOk result
        (λ audit. RanInMemory audit.answer plan_text.now workers limit input.now
        audit.trace.items) }
    ensures whole { IfOk result (λ audit. IsWhole audit.answer) }
    ensures finds { IfOk result
        (λ audit. FindsByText plan_text.now workers audit.trace.items audit.finding) }
    ensures conforms { IfOk result (λ audit. audit.finding ≡ Finding.Conforms) }
    ensures fails { IfErr result (λ e. HasNoAudit e plan_text.now workers limit input.now) }
{
    sched_audit::run_and_check(alloc, plan_text, workers, limit, input)
}

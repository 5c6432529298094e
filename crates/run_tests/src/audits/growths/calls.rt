//! The calls whose growths are refused: each tells whether want of memory was answered, and checks what else was, and what
//! was written.

use super::events::takes_events;
use super::{EVENTS, LISTING, PLAN, TRACE, is_front};
use byte_ends::{Pieces, Writing};
use plan_compile::{CompileFault, compile};
use plan_list::write_listing;
use plan_read::{PlanFault, PlanFaultKind, migrate, read_plan};
use queue_code::{CodeFault, listing};
use refusing_allocator::Refusing;
use sched_audit::{AuditError, run_and_check};
use sched_engine::{Report, RunError, run};
use std::alloc::Global;
use std::process::Abort;
use std::test::Fail;
use trace_check::{CheckError, Finding, MOST_BYTES, check};

/// A call that takes memory.
#[derive(Clone, Copy, Debug)]
pub enum Call {
    ReadPlan,
    Migrate,
    Compile,
    Listing,
    Event,
    Run,
    WriteListing,
    Check,
    RunAndCheck,
}

/// Makes a call over an allocator that refuses its growth of this number, and tells whether it wants memory.
pub fn wants_memory(
    rt: &(impl AllocGlobal + Abort),
    call: Call,
    heap: &Refusing<Global>,
    number: u64,
) -> Result<bool, Fail> {
    match call {
        Call::ReadPlan => Ok(reads_no_plan(rt, heap, number)),
        Call::Migrate => migrates_nothing(rt, heap, number),
        Call::Compile => compiles_nothing(rt, heap, number),
        Call::Listing => lists_nothing(rt, heap, number),
        Call::Event => takes_events(rt, heap, number),
        Call::Run => Ok(runs_to_no_end(rt, heap, number)),
        Call::WriteListing => Ok(writes_no_listing(rt, heap, number)),
        Call::Check => finds_nothing(rt, heap, number),
        Call::RunAndCheck => Ok(audits_nothing(rt, heap, number)),
    }
}

/// What is told of a plan where memory is wanting.
const NO_MEMORY: PlanFault = PlanFault {
    kind: PlanFaultKind::Memory,
    block: 0,
    call: 0,
};

/// What a run answers that took all events.
const REPORT: Report = Report {
    events: 3,
    lines: 12,
};

/// The greatest number of events.
const LIMIT: u32 = 1_000_000;

/// Whether a run tells want of memory.
fn is_want(error: RunError) -> bool {
    error == RunError::Memory || error == RunError::Plan(NO_MEMORY)
}

fn reads_no_plan(rt: &impl Abort, heap: &Refusing<Global>, number: u64) -> bool {
    heap.refuse(number);
    match read_plan(heap, PLAN.as_bytes()) {
        Ok(plan) => {
            assert!(rt; plan.blocks().len() == 1);
            false
        }
        Err(fault) => {
            assert!(rt; fault == NO_MEMORY);
            true
        }
    }
}

/// The tree and the text of a migration take memory of the heap, which is not refused here.
fn migrates_nothing(
    rt: &(impl AllocGlobal + Abort),
    heap: &Refusing<Global>,
    number: u64,
) -> Result<bool, Fail> {
    let ample = migrate(rt.alloc(), PLAN.as_bytes())?;
    heap.refuse(number);
    match migrate(heap, PLAN.as_bytes()) {
        Ok(text) => {
            assert!(rt; text.as_str() == ample.as_str());
            Ok(false)
        }
        Err(fault) => {
            assert!(rt; fault == NO_MEMORY);
            Ok(true)
        }
    }
}

fn compiles_nothing(
    rt: &(impl AllocGlobal + Abort),
    heap: &Refusing<Global>,
    number: u64,
) -> Result<bool, Fail> {
    let plan = read_plan(rt.alloc(), PLAN.as_bytes())?;
    heap.refuse(number);
    match compile(heap, &plan) {
        Ok(code) => {
            assert!(rt; code.calls() == 7 && code.tasks() == 3);
            Ok(false)
        }
        Err(CompileFault::Memory) => Ok(true),
    }
}

fn lists_nothing(
    rt: &(impl AllocGlobal + Abort),
    heap: &Refusing<Global>,
    number: u64,
) -> Result<bool, Fail> {
    let plan = read_plan(rt.alloc(), PLAN.as_bytes())?;
    let code = compile(heap, &plan)?;
    heap.refuse(number);
    match listing(heap, &code) {
        Ok(text) => {
            assert!(rt; text.as_str() == LISTING);
            Ok(false)
        }
        Err(fault) => {
            assert!(rt; fault == CodeFault::Memory);
            Ok(true)
        }
    }
}

fn runs_to_no_end(rt: &(impl AllocGlobal + Abort), heap: &Refusing<Global>, number: u64) -> bool {
    let mut reader = Pieces::new(EVENTS.as_bytes(), 9);
    let mut writer = Writing::new(Vec::new(rt.alloc()));
    heap.refuse(number);
    let answer = run(heap, PLAN.as_bytes(), 1, LIMIT, &mut reader, &mut writer);
    let text = writer.into_inner();
    assert!(rt; is_front(&text), "{number}");
    match answer {
        Ok(report) => {
            assert!(rt;
                report == REPORT && text.as_slice() == TRACE.as_bytes(),
                "{number}"
            );
            false
        }
        Err(error) => {
            assert!(rt; is_want(error), "{number}: {error:?}");
            true
        }
    }
}

fn writes_no_listing(
    rt: &(impl AllocGlobal + Abort),
    heap: &Refusing<Global>,
    number: u64,
) -> bool {
    let mut writer = Writing::new(Vec::new(rt.alloc()));
    heap.refuse(number);
    let answer = write_listing(heap, PLAN.as_bytes(), &mut writer).map_err(RunError::from);
    let text = writer.into_inner();
    match answer {
        Ok(()) => {
            assert!(rt; text.as_slice() == LISTING.as_bytes(), "{number}");
            false
        }
        Err(error) => {
            assert!(rt; is_want(error) && text.is_empty(), "{number}: {error:?}");
            true
        }
    }
}

fn finds_nothing(
    rt: &(impl AllocGlobal + Abort),
    heap: &Refusing<Global>,
    number: u64,
) -> Result<bool, Fail> {
    let plan = read_plan(rt.alloc(), PLAN.as_bytes())?;
    assert!(rt; TRACE.len() <= MOST_BYTES);
    heap.refuse(number);
    let answer = check(heap, &plan, 1, TRACE.as_bytes());
    let is_want = answer == Err(CheckError::Memory);
    assert!(rt;
        is_want || answer == Ok(Finding::Conforms),
        "{number}: {answer:?}"
    );
    Ok(is_want)
}

/// The trace of an audit is written to memory, so want of memory for it is told as a fault of the writer.
fn audits_nothing(rt: &impl Abort, heap: &Refusing<Global>, number: u64) -> bool {
    heap.refuse(number);
    match run_and_check(heap, PLAN.as_bytes(), 1, LIMIT, EVENTS.as_bytes()) {
        Ok(audit) => {
            assert!(rt;
                audit.answer == Ok(REPORT) && audit.trace.as_slice() == TRACE.as_bytes(),
                "{number}"
            );
            assert!(rt; audit.finding == Finding::Conforms);
            false
        }
        Err(AuditError::Run(error)) => {
            assert!(rt;
                is_want(error) || error == RunError::Write,
                "{number}: {error:?}"
            );
            true
        }
        Err(error) => {
            assert!(rt; error == AuditError::Memory);
            true
        }
    }
}

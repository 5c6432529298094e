//! Want of memory: a run is played with its first growth refused, then with its second and so on, on whichever thread it is
//! asked for.
use super::{CLOCKS, ONE_DELAY, REPORT, TRACE, is_same, report};
use byte_ends::{Pieces, Writing};
use plan_read::PlanFaultKind;
use pool_engine::run_pool;
use refusing_allocator::Refusing;
use sched_engine::{Report, RunError};
use std::alloc::Global;
use std::process::Abort;
use std::sync::Wait;
use std::test::Fail;
use std::thread::Threads;

/// Whether an answer tells want of memory.
fn is_memory(answer: Result<Report, RunError>) -> bool {
    match answer {
        Err(RunError::Plan(fault)) => fault.kind == PlanFaultKind::Memory,
        told => told == Err(RunError::Memory),
    }
}

/// The answer of a run by two workers whose growth of this number is refused, what it wrote, and whether it asked for that growth.
/// No byte stays in use.
fn refused<R: Threads + Wait + Sync + AllocGlobal + Abort>(
    rt: &R,
    clocks: &str,
    number: u64,
) -> (Result<Report, RunError>, Vec<u8>, bool) {
    let heap = Refusing::new(rt.alloc());
    let mut reader = Pieces::new(clocks.as_bytes(), 65_536);
    let mut writer = Writing::new(Vec::new(rt.alloc()));
    heap.refuse(number);
    let plan = ONE_DELAY.as_bytes();
    let answer = run_pool(rt, &heap, plan, 2, 100, &mut reader, &mut writer);
    assert!(rt; heap.used() == 0, "{number}");
    (answer, writer.into_inner(), heap.has_refused())
}

/// Refuses each growth of a run in turn, and counts the runs that tell want of memory: they have written nothing. Each other one
/// comes to what it comes to with ample memory.
fn count_refusals<R: Threads + Wait + Sync + AllocGlobal + Abort>(
    rt: &R,
    clocks: &str,
    ample: Report,
    trace: &str,
) -> Result<u64, Fail> {
    let mut told = 0u64;
    for number in 1..10_000u64 {
        let (answer, text, was_refused) = refused(rt, clocks, number);
        if was_refused && is_memory(answer) {
            assert!(rt; text.is_empty(), "{number}");
            told = told.saturating_add(1);
            continue;
        }
        assert!(rt; answer == Ok(ample), "{number}: {answer:?}");
        assert!(rt; is_same(&text, trace), "{number}");
        if !was_refused {
            return Ok(told);
        }
    }
    Err("a growth was refused each time".into())
}

/// Without a clock the pool's run asks for no memory, and with clocks there is one growth more before it, for their moments: so
/// with what is counted beyond that a growth of the pool's run was refused, and told.
#[test]
fn each_growth_is_refused_in_turn(rt: HostRuntime) -> Result<(), Fail> {
    let outside = count_refusals(&rt, "", report(0, 0), "")?;
    let all = count_refusals(&rt, CLOCKS, REPORT, TRACE)?;
    assert!(&rt;
        outside > 0 && all > outside.saturating_add(1),
        "{outside} {all}"
    );
    Ok(())
}

//! Runs over memory whose traces are checked.
mod growths;
mod row_by_row;
mod sizes;
mod units;
mod usage;

use byte_ends::Writing;
use plan_list::write_listing;
use plan_read::{PlanFault, PlanFaultKind, migrate};
use sched_audit::{Audit, AuditError, run_and_check};
use sched_engine::{Report, RunError};
use scripted_runs::runs::ONE_DELAY;
use std::process::Abort;
use std::test::Fail;
use trace_check::Finding;

/// A run, and what it has to answer and to write.
#[derive(Clone, Copy)]
struct Run<'a> {
    name: &'a str,
    plan: &'a str,
    workers: u8,
    limit: u32,
    events: &'a str,
    answer: Result<Report, RunError>,
    trace: &'a str,
}

/// What is told of a plan of another version than those that are read.
const VERSION: PlanFault = PlanFault {
    kind: PlanFaultKind::Version,
    block: 0,
    call: 0,
};

/// The listing of the code of the plan that a text writes.
fn listed(rt: &impl AllocGlobal, plan: &str) -> Result<Vec<u8>, Fail> {
    let mut writer = Writing::new(Vec::new(rt.alloc()));
    write_listing(rt.alloc(), plan.as_bytes(), &mut writer).map_err(RunError::from)?;
    Ok(writer.into_inner())
}

/// Checks the answer and the trace of a run, and that the trace conforms; and all that with its plan migrated, where
/// that is of version 1, whose listing is the same.
fn conforms(rt: &(impl AllocGlobal + Abort), wanted: &Run<'_>) -> Result<(), Fail> {
    conforms_with(rt, wanted.plan, wanted)?;
    match migrate(rt.alloc(), wanted.plan.as_bytes()) {
        Ok(plan) => conforms_migrated(rt, plan.as_str(), wanted),
        Err(fault) => {
            assert!(rt; fault == VERSION, "{}", wanted.name);
            Ok(())
        }
    }
}

/// Checks the run with its plan migrated, which is of version 2 and has the same listing.
fn conforms_migrated(
    rt: &(impl AllocGlobal + Abort),
    plan: &str,
    wanted: &Run<'_>,
) -> Result<(), Fail> {
    conforms_with(rt, plan, wanted)?;
    let fault = migrate(rt.alloc(), plan.as_bytes()).err();
    assert!(rt; fault == Some(VERSION), "{}", wanted.name);
    lists_alike(rt, plan, wanted)
}

/// Checks that the listing of a plan is that of the plan of a run.
fn lists_alike(rt: &(impl AllocGlobal + Abort), plan: &str, wanted: &Run<'_>) -> Result<(), Fail> {
    let listing = listed(rt, plan)?;
    let other = listed(rt, wanted.plan)?;
    assert!(rt; listing.as_slice() == other.as_slice(), "{}", wanted.name);
    Ok(())
}

/// Checks the answer and the trace of a run with this plan, and that the trace conforms.
fn conforms_with(
    rt: &(impl AllocGlobal + Abort),
    plan: &str,
    wanted: &Run<'_>,
) -> Result<(), Fail> {
    let Audit {
        answer,
        trace,
        finding,
    } = run_and_check(
        rt.alloc(),
        plan.as_bytes(),
        wanted.workers,
        wanted.limit,
        wanted.events.as_bytes(),
    )?;
    let name = wanted.name;
    assert!(rt; answer == wanted.answer, "{name}: {answer:?}");
    assert!(rt; trace.as_slice() == wanted.trace.as_bytes(), "{name}");
    assert!(rt; finding == Finding::Conforms, "{name}");
    Ok(())
}

#[test]
fn runs_that_end_early_conform(rt: HostRuntime) -> Result<(), Fail> {
    let bad_line = Run {
        name: "a line that is no event",
        plan: ONE_DELAY.plan,
        workers: 1,
        limit: 7,
        events: "clock 0\nstart 0\nclock  4\nstart 0\n",
        answer: Err(RunError::EventLine(3)),
        trace: "0 submit 0 schedule due 5\n0 clock\n0 start 0 idle\n",
    };
    let full = Run {
        name: "the limit",
        limit: 1,
        events: ONE_DELAY.events,
        answer: Err(RunError::Full),
        trace: "0 submit 0 schedule due 5\n0 clock\n",
        ..bad_line
    };
    for run in [bad_line, full] {
        conforms(&rt, &run)?;
    }
    Ok(())
}

/// Checks that there is no audit, and why.
fn is_refused(
    rt: &(impl AllocGlobal + Abort),
    plan: &str,
    workers: u8,
    limit: u32,
    error: RunError,
) {
    let audit = run_and_check(rt.alloc(), plan.as_bytes(), workers, limit, b"clock 0\n");
    assert!(rt; audit.err() == Some(AuditError::Run(error)));
}

#[test]
fn what_is_refused_has_no_audit(rt: HostRuntime) {
    is_refused(&rt, "version = 3", 1, 1, RunError::Plan(VERSION));
    is_refused(&rt, ONE_DELAY.plan, 65, 1, RunError::Workers);
    is_refused(&rt, ONE_DELAY.plan, 1, 0, RunError::Limit);
}

/// A fault in the first call of the second block.
const BAD_NAME: PlanFault = PlanFault {
    kind: PlanFaultKind::BadName,
    block: 2,
    call: 1,
};

/// An error, its text, and how it is shown to programmers.
const ERRORS: &[(AuditError, &str)] = &[
    (
        AuditError::Run(RunError::Workers),
        "the number of workers is not 1 to 64 Run(Workers)",
    ),
    (
        AuditError::Run(RunError::Plan(BAD_NAME)),
        "plan: BadName block 2 call 1 Run(Plan(PlanFault { kind: BadName, block: 2, call: 1 }))",
    ),
    (
        AuditError::TooLong,
        "the trace has more than 67,108,864 bytes TooLong",
    ),
    (AuditError::Memory, "out of memory Memory"),
];

#[test]
fn each_error_says_what_is_wrong(rt: HostRuntime) -> Result<(), Fail> {
    for (error, text) in ERRORS {
        let said = format!(in rt.alloc(); "{error} {error:?}")?;
        assert!(rt; said.as_str() == *text, "{said}");
    }
    Ok(())
}

//! Lines that are not plain, one for each reason.

use super::read_lines;
use call_text::CallLine;
use live_engine::LiveLine;
use live_plain::trace_of_lines;
use sched_time::LONGEST;
use std::alloc::Global;
use std::process::Abort;
use std::test::Fail;

/// How many lines the plain program tells of some lines.
fn told(alloc: Global, lines: &[LiveLine]) -> Result<Option<usize>, Fail> {
    Ok(trace_of_lines(alloc, 1, lines)?.map(|told| told.len()))
}

/// A call on its own, and how many lines it is told.
const SPANS: &[(CallLine, Option<usize>)] = &[
    (CallLine::Schedule(LONGEST), Some(1)),
    (CallLine::Schedule(LONGEST + 1), None),
    (CallLine::Rate(LONGEST, LONGEST), Some(1)),
    (CallLine::Rate(LONGEST + 1, 1), None),
    (CallLine::Rate(0, 0), None),
    (CallLine::Rate(0, LONGEST + 1), None),
    (CallLine::Fixed(LONGEST, LONGEST), Some(1)),
    (CallLine::Fixed(LONGEST + 1, 1), None),
    (CallLine::Fixed(0, 0), None),
    (CallLine::Fixed(0, u64::MAX), None),
];

#[test]
fn spans_and_periods_out_of_range(rt: HostRuntime) -> Result<(), Fail> {
    for (call, wanted) in SPANS {
        let lines = told(rt.alloc(), &[LiveLine::Call(*call)])?;
        assert!(rt; lines == *wanted, "{call:?}");
    }
    Ok(())
}

/// Lines, and how many they are told.
const MOMENTS: &[(&str, Option<usize>)] = &[
    // Cancels, also of numbers that were not given out: those of calls are events then.
    ("call cancel 0\n", Some(1)),
    ("call execute\ncall cancel 0\n", Some(2)),
    ("call execute\ncall cancel 1\n", Some(2)),
    ("call execute\ncall cancel 4294967295\n", Some(2)),
    ("call execute\ncancel 4294967295\n", Some(2)),
    ("clock 4611686018427387904\ncall cancel 0\n", Some(2)),
    // Calls whose moment is too late. A clock past 2^62 is answered by an error.
    (
        "clock 4611686018427387903\ncall execute\ncall execute\n",
        Some(3),
    ),
    ("clock 4611686018427387904\ncall execute\n", None),
    ("clock 4611686018427387905\ncall execute\n", Some(2)),
];

#[test]
fn calls_that_may_not_be_made_when_they_come(rt: HostRuntime) -> Result<(), Fail> {
    for (text, wanted) in MOMENTS {
        let lines = read_lines(rt.alloc(), text)?;
        let count = told(rt.alloc(), &lines)?;
        assert!(rt; count == *wanted, "{text}");
    }
    Ok(())
}

#[test]
fn more_calls_than_a_plan_may_have(rt: HostRuntime) -> Result<(), Fail> {
    let lines = Vec::from_elem(rt.alloc(), LiveLine::Call(CallLine::Ask), 65_537)?;
    assert!(rt; told(rt.alloc(), &lines)?.is_none());
    Ok(())
}

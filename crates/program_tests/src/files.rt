//! How much of a plan file is read, and what a fault of it comes to.

use crate::one_delay::{ONE_DELAY, ends, given};
use crate::world::{Given, file, run_in};
use byte_ends::{Pieces, Reading};
use command_work::{
    MOST_OF_PLAN, MOST_OF_TRACE, ProgramError, plan_front, plan_text, trace_text, whole_trace,
};
use scripted_runs::ends::{Giving, Script, Trouble};
use std::alloc::Global;
use std::fs;
use std::io::ErrorKind;
use std::process::Abort;
use std::test::Fail;

/// How many bytes a plan's file has, and how many of them are read.
const LENGTHS: &[(usize, usize)] = &[
    (0, 0),
    (7, 7),
    (1_048_576, 1_048_576),
    (1_048_577, 1_048_577),
    (1_048_580, 1_048_577),
];

#[test]
fn reads_one_byte_more_than_a_plan_may_have(rt: HostRuntime) -> Result<(), Fail> {
    let alloc = rt.alloc();
    for &(length, read) in LENGTHS {
        let bytes = " ".repeat(alloc, length)?;
        let mut file = Pieces::new(bytes.as_bytes(), 100_000);
        let text = plan_front(alloc, &mut file);
        assert!(rt; text.ok().map(|text| text.len()) == Some(read));
    }
    assert!(rt; MOST_OF_PLAN == 1_048_577);
    Ok(())
}

#[test]
fn tells_a_file_that_is_too_long(rt: HostRuntime) -> Result<(), Fail> {
    for (length, line) in [
        (1_048_577usize, "sched: plan: TooLong block 0 call 0\n"),
        (1_048_576, "sched: plan: Version block 0 call 0\n"),
    ] {
        let bytes = " ".repeat(rt.alloc(), length)?;
        let given = Given {
            plan: file(bytes.as_str(), false),
            ..given("sched run plan.toml --workers 1", "")
        };
        ends(&rt, line, &run_in(&rt, given), 1, "", line);
    }
    Ok(())
}

#[test]
fn does_not_take_a_broken_file_for_its_front(rt: HostRuntime) {
    let broken = file("version = 1\n", true);
    assert!(rt;
        plan_front(rt.alloc(), &mut Reading::new(broken)).err() == Some(ProgramError::PlanFile)
    );
}

/// A file that is at fault behind the bytes that are read of it.
#[test]
fn reads_no_byte_past_those_that_it_takes(rt: HostRuntime) -> Result<(), Fail> {
    let bytes = "#".repeat(rt.alloc(), MOST_OF_PLAN)?;
    let broken = file(bytes.as_str(), true);
    let text = plan_front(rt.alloc(), &mut Reading::new(broken));
    assert!(rt; text.ok().map(|text| text.len()) == Some(MOST_OF_PLAN));
    Ok(())
}

#[test]
fn does_not_take_a_missing_file_for_an_empty_one(rt: HostRuntime) {
    assert!(rt;
        plan_text(
            rt.alloc(),
            fs::open(&rt, "no such plan.toml").map(Reading::new)
        )
        .err()
            == Some(ProgramError::PlanFile)
    );
}

/// That a longer trace than the longest is refused is a clause of [`whole_trace`]; to read so much takes too long here.
#[test]
fn reads_the_whole_of_a_trace(rt: HostRuntime) {
    assert!(rt; MOST_OF_TRACE == 67_108_865);
    let text = whole_trace(rt.alloc(), &mut Pieces::new(b"0 clock\n", 3));
    assert!(rt; text.ok().map(|text| text.len()) == Some(8));
    assert!(rt;
        trace_text(rt.alloc(), fs::open(&rt, "no such trace").map(Reading::new)).err()
            == Some(ProgramError::TraceFile)
    );
}

/// What of a file with a script is read, as a trace's or as a plan's, and how often it was called.
fn read_of(
    alloc: Global,
    is_trace: bool,
    bytes: &str,
    script: Script,
) -> (Result<Vec<u8>, ProgramError>, u32) {
    let mut file = Reading::new(Giving::new(bytes.as_bytes(), b"", script));
    let text = if is_trace {
        whole_trace(alloc, &mut file)
    } else {
        plan_front(alloc, &mut file)
    };
    (text, file.into_inner().calls())
}

/// A file of 76 bytes, of which a read gives 20 at most: it is read in four reads, and a fifth is its end.
#[test]
fn reads_a_file_that_is_interrupted(rt: HostRuntime) {
    for is_trace in [false, true] {
        for (interrupts, calls) in [(0, 5), (1, 10), (999, 5_000)] {
            let script = Script {
                interrupts,
                ..Script::smooth(20)
            };
            let (text, called) = read_of(rt.alloc(), is_trace, ONE_DELAY, script);
            assert!(rt; text.is_ok_and(|text| text.as_slice() == ONE_DELAY.as_bytes()));
            assert!(rt; called == calls);
        }
    }
}

/// How often each read of a file is interrupted, in which read it is at fault, and how often it is called.
const FAULTS: &[(u32, u32, u32)] = &[
    (0, 1, 1),
    (0, 3, 3),
    (0, 5, 5),
    (999, 1, 1_000),
    (999, 5, 5_000),
    (1_000, 1, 1_000),
    (1_000, 0, 1_000),
];

/// Checks that the same file is told by this fault where it is at fault, and not called behind it.
fn is_fault(rt: &(impl AllocGlobal + Abort), is_trace: bool, fault: ProgramError) {
    for &(interrupts, trouble_at, calls) in FAULTS {
        let script = Script {
            interrupts,
            trouble_at,
            trouble: Trouble::Fails(ErrorKind::Other),
            ..Script::smooth(20)
        };
        let (text, called) = read_of(rt.alloc(), is_trace, ONE_DELAY, script);
        assert!(rt; text.err() == Some(fault));
        assert!(rt; called == calls);
    }
}

/// The same file at fault in each of its five reads, and by a thousand interrupts in a row. It is not called behind its fault.
#[test]
fn tells_a_file_that_is_at_fault(rt: HostRuntime) {
    is_fault(&rt, false, ProgramError::PlanFile);
    is_fault(&rt, true, ProgramError::TraceFile);
}

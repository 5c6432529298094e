//! Runs of plans over bytes in memory: what they answer and write.
use byte_ends::{Pieces, Reading, Writing};
use plan_read::{PlanFault, PlanFaultKind};
use sched_engine::{OpenError, Report, RunError, run, run_in_memory};
use scripted_runs::runs::{ERRORS, ONE_DELAY};
use std::alloc::Global;
use std::io;
use std::io::{ErrorKind, Read, Write};
use std::process::Abort;
use std::test::Fail;

mod listings;
mod long_runs;
mod row_by_row;
mod scripted;
mod turns;
mod usage;

/// What a run did.
fn report(events: u32, lines: u64) -> Report {
    Report { events, lines }
}

/// The answer of a run over memory that reads at most `most` bytes at a time, and what it wrote.
fn ran(
    alloc: Global,
    plan: &str,
    workers: u8,
    limit: u32,
    events: &str,
    most: usize,
) -> (Result<Report, RunError>, Vec<u8>) {
    let mut reader = Pieces::new(events.as_bytes(), most);
    let mut writer = Writing::new(Vec::new(alloc));
    let plan = plan.as_bytes();
    let answer = run(alloc, plan, workers, limit, &mut reader, &mut writer);
    (answer, writer.into_inner())
}

/// Checks the answer and the trace of a run of this name, read at once and a few bytes at a time.
fn answers(
    rt: &(impl AllocGlobal + Abort),
    name: &str,
    plan: &str,
    workers: u8,
    limit: u32,
    events: &str,
    wanted: (Result<Report, RunError>, &str),
) {
    let (answer, trace) = wanted;
    for most in [65_536usize, 1, 2, 7] {
        let (told, written) = ran(rt.alloc(), plan, workers, limit, events, most);
        assert!(rt; told == answer, "{name}: {told:?}");
        assert!(rt; written.as_slice() == trace.as_bytes(), "{name}");
    }
}

/// Events of which the second line is none.
const NO_SECOND_EVENTS: &[&str] = &[
    "finish 255 ok 18446744073709551615\n\nclock 1\n",
    "finish 255 ok 18446744073709551615\nclock 1\r\nclock 1\n",
    "finish 255 ok 18446744073709551615\nclock 1",
    "finish 255 ok 18446744073709551615\n clock 1\n",
    // 62 bytes and a newline, and 63 bytes and a newline
    "finish 255 ok 18446744073709551615\nclock 1                                                       \n",
    "finish 255 ok 18446744073709551615\nclock 1                                                        \n",
    "finish 255 ok 18446744073709551615\nclock 00000000000000000000000000000000000000000000000000000001\n",
    "finish 255 ok 18446744073709551615\nfinish 255 ok 18446744073709551616\n",
];

#[test]
fn ends_at_a_line_that_is_no_event(rt: HostRuntime) {
    for events in NO_SECOND_EVENTS {
        let told = (Err(RunError::EventLine(2)), "0 error no worker\n");
        answers(&rt, events, "version = 1", 1, 1, events, told);
    }
}

#[test]
fn ends_at_a_line_behind_wrong_events(rt: HostRuntime) {
    for (events, at, trace) in [
        (
            "clock 5\nclock 4\nstart 9\nstart 0\nstart 0\nfinish 0 ok 2\nfinish 0 ok 2\nclock 6",
            8,
            "0 submit 0 schedule due 0\n5 clock\n5 error backward\n5 error no worker\n\
             5 start 0 task 0 run 0 due 0\n5 error busy\n5 finish 0 task 0 run 0 done 2\n\
             5 error not running\n",
        ),
        (
            "clock 5\nclock 4\nstart 9\nstart 0\nstart 0\nfinish 0 ok 2\nfinish 0 ok 2\ncancel 99\nclock 6",
            9,
            ERRORS.trace,
        ),
    ] {
        let told = (Err(RunError::EventLine(at)), trace);
        answers(&rt, events, ERRORS.plan, 1, 1_000_000, events, told);
    }
}

#[test]
fn ends_at_the_limit(rt: HostRuntime) {
    let trace = "0 submit 0 schedule due 5\n0 clock\n0 start 0 idle\n4 clock\n";
    let told = (Err(RunError::Full), trace);
    answers(&rt, "full", ONE_DELAY.plan, 1, 3, ONE_DELAY.events, told);
}

/// A text that is no TOML.
const NO_TOML: RunError = RunError::Plan(PlanFault {
    kind: PlanFaultKind::Toml,
    block: 0,
    call: 0,
});

/// A text that tells no version that is read.
const NO_VERSION: RunError = RunError::Plan(PlanFault {
    kind: PlanFaultKind::Version,
    block: 0,
    call: 0,
});

/// A text of more than 1,048,576 bytes.
const TOO_LONG: RunError = RunError::Plan(PlanFault {
    kind: PlanFaultKind::TooLong,
    block: 0,
    call: 0,
});

/// Numbers of workers and of events, and why there is no run.
const NUMBERS: &[(u8, u32, RunError)] = &[
    (0, 1, RunError::Workers),
    (65, 1, RunError::Workers),
    (255, 0, RunError::Workers),
    (64, 0, RunError::Limit),
];

/// Texts that are no plans, numbers, and why there is no run.
const TEXTS: &[(&str, u8, u32, RunError)] = &[
    ("version =", 0, 0, NO_TOML),
    ("version =", 1, 1, NO_TOML),
    ("", 1, 1, NO_VERSION),
];

/// Checks that there is no run, and why.
fn refuses(rt: &(impl AllocGlobal + Abort), plan: &str, workers: u8, limit: u32, fault: RunError) {
    let (answer, trace) = ran(rt.alloc(), plan, workers, limit, ONE_DELAY.events, 65_536);
    assert!(rt; answer == Err(fault), "{answer:?}");
    assert!(rt; trace.is_empty());
}

#[test]
fn refuses_workers_limits_and_texts(rt: HostRuntime) -> Result<(), Fail> {
    for (workers, limit, fault) in NUMBERS {
        refuses(&rt, ONE_DELAY.plan, *workers, *limit, *fault);
    }
    for (text, workers, limit, fault) in TEXTS {
        refuses(&rt, text, *workers, *limit, *fault);
    }
    let long = " ".repeat(rt.alloc(), 1_048_577)?;
    refuses(&rt, long.as_str(), 1, 1, TOO_LONG);
    Ok(())
}

#[test]
fn takes_the_most_workers(rt: HostRuntime) {
    let (answer, _) = ran(rt.alloc(), ONE_DELAY.plan, 64, 7, ONE_DELAY.events, 65_536);
    assert!(rt; answer.is_ok());
}

/// Texts that are no plans.
const NO_PLANS: &[&str] = &[
    "version = 1\n[[block]]\n[[block.call]]\nop = \"ask\"\nname = \"a\"\n",
    "version = 1\n[[block]]\n[[block.call]]\nop = \"run\"\nname = \"a\"\ndelay = 5\n",
    "version = 1\n[[block]]\nat = -1\n[[block.call]]\nop = \"schedule\"\nname = \"a\"\ndelay = 5\n",
    "version = 1\n[[block]]\n[[block]]\ntimes = 2\n",
];

#[test]
fn refuses_plans(rt: HostRuntime) {
    for plan in NO_PLANS {
        let (answer, trace) = ran(rt.alloc(), plan, 1, 1, ONE_DELAY.events, 65_536);
        assert!(rt;
            matches!(answer, Err(RunError::Plan(fault)) if fault.kind != PlanFaultKind::Memory),
            "{plan}: {answer:?}"
        );
        assert!(rt; trace.is_empty());
    }
}

/// A fault in the third call of the second block.
const BAD_NAME: PlanFault = PlanFault {
    kind: PlanFaultKind::BadName,
    block: 2,
    call: 3,
};

/// Each fault, and its words.
const WORDS: &[(RunError, &str)] = &[
    (RunError::Plan(BAD_NAME), "plan: BadName block 2 call 3"),
    (RunError::Workers, "the number of workers is not 1 to 64"),
    (RunError::Limit, "the limit on events is 0"),
    (RunError::EventLine(4_294_967_296), "event line 4294967296"),
    (RunError::Full, "full"),
    (RunError::Read, "read fault"),
    (RunError::Write, "write fault"),
    (RunError::Lost, "lost"),
    (RunError::Memory, "out of memory"),
];

#[test]
fn tells_each_fault_in_words(rt: HostRuntime) -> Result<(), Fail> {
    for (fault, words) in WORDS {
        let told = format!(in rt.alloc(); "{fault}")?;
        assert!(rt; told.as_str() == *words, "{told}");
    }
    Ok(())
}

/// A run over memory, as the page of this crate shows it.
#[test]
fn embeds(rt: HostRuntime) -> Result<(), Fail> {
    let plan = b"version = 1
[[block]]
[[block.call]]
op = \"schedule\"
name = \"a\"
delay = 5
";
    let events = b"clock 5\nstart 0\nfinish 0 ok 7\n";
    let (answer, trace) = run_in_memory(rt.alloc(), plan, 1, 1_000, events);
    assert!(rt; answer == Ok(report(3, 4)));
    let lines = b"\
0 submit 0 schedule due 5
5 clock
5 start 0 task 0 run 0 due 5
5 finish 0 task 0 run 0 done 7
";
    assert!(rt; trace.as_slice() == lines.as_slice());
    Ok(())
}

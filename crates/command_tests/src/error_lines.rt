//! The lines on standard error, and the exit statuses.

use byte_ends::Writing;
use command_work::{ProgramError, Refusal};
use plan_read::{PlanFault, PlanFaultKind};
use sched_engine::RunError;
use sched_program::{Answer, tell};
use scripted_runs::ends::{Script, Taking, Trouble};
use std::io::ErrorKind;
use std::process::Abort;
use std::test::Fail;
use trace_svg::DrawError;

/// Checks that an answer with a hint is told by just these lines on a standard error with a script, and this status, and how often that was
/// called.
fn is_told_by(
    rt: &(impl AllocGlobal + Abort),
    answer: Result<Answer, ProgramError>,
    hint: Option<&Refusal>,
    script: Script,
    status: u8,
    line: &str,
    calls: u32,
) {
    let mut faults = Writing::new(Taking::new(rt.alloc(), script));
    assert!(rt; tell(&mut faults, answer, hint) == status);
    let end = faults.into_inner();
    assert!(rt; end.taken() == line.as_bytes(), "{line}");
    assert!(rt; end.calls() == calls);
}

/// Checks that a fault is told by just this line, at one call, and this status.
fn is_told(rt: &(impl AllocGlobal + Abort), fault: ProgramError, status: u8, line: &str) {
    is_told_by(rt, Err(fault), None, Script::smooth(128), status, line, 1)
}

/// A fault of a plan in the second call of its third block.
fn of_plan(kind: PlanFaultKind) -> ProgramError {
    ProgramError::from(RunError::Plan(PlanFault {
        kind,
        block: 3,
        call: 2,
    }))
}

/// Kinds of faults of a plan, each with its name.
macro_rules! named {
    ($($name:ident)+) => {
        &[$((PlanFaultKind::$name, stringify!($name))),+]
    };
}

const KINDS: &[(PlanFaultKind, &str)] = named! {
    TooLong Toml Version UnknownKey Missing WrongType BadUnit BadTimes TooMany
    BadName DuplicateName UnknownName Ambiguous Negative TooLarge OutOfOrder
};

#[test]
fn tells_each_kind_of_plan_fault(rt: HostRuntime) -> Result<(), Fail> {
    for &(kind, name) in KINDS {
        let line = format!(in rt.alloc(); "sched: plan: {name} block 3 call 2\n")?;
        is_told(&rt, of_plan(kind), 1, line.as_str());
    }
    let memory = of_plan(PlanFaultKind::Memory);
    is_told(&rt, memory, 1, "sched: out of memory\n");
    Ok(())
}

/// The ends of a run, each with its line.
const RUNS: &[(RunError, &str)] = &[
    (RunError::EventLine(4_294_967_296), "event line 4294967296"),
    (RunError::Full, "full"),
    (RunError::Read, "read fault"),
    (RunError::Write, "write fault"),
    (RunError::Lost, "lost"),
    (RunError::Memory, "out of memory"),
    (RunError::Workers, "the number of workers is not 1 to 64"),
    (RunError::Limit, "the limit on events is 0"),
];

/// Why there is no picture, each with its line.
const PICTURES: &[(DrawError, &str)] = &[
    (DrawError::Workers, "the number of workers is not 1 to 64"),
    (DrawError::Window, "the picture ends before it begins"),
    (
        DrawError::Crowded { marks: 2_001 },
        "2001 marks or bars are too many: --from and --to narrow the picture",
    ),
    (DrawError::Write, "write fault"),
    (DrawError::Memory, "out of memory"),
];

/// Faults of files, and the greatest number, each with its line.
const FILES: &[(ProgramError, &str)] = &[
    (ProgramError::PlanFile, "plan file not read"),
    (ProgramError::PlanUnwritten, "plan file not written"),
    (ProgramError::TraceFile, "trace file not read"),
    (ProgramError::TraceTooLong, "trace file too long"),
    (
        ProgramError::Crowded(u64::MAX),
        "18446744073709551615 marks or bars are too many: --from and --to narrow the picture",
    ),
];

/// Checks that a fault is told by a line, which `sched: ` begins, with status 1.
fn is_line(rt: &(impl AllocGlobal + Abort), fault: ProgramError, line: &str) -> Result<(), Fail> {
    let line = format!(in rt.alloc(); "sched: {line}\n")?;
    is_told(rt, fault, 1, line.as_str());
    Ok(())
}

#[test]
fn tells_each_error(rt: HostRuntime) -> Result<(), Fail> {
    for &(error, line) in RUNS {
        is_line(&rt, ProgramError::from(error), line)?;
    }
    for &(error, line) in PICTURES {
        is_line(&rt, ProgramError::from(error), line)?;
    }
    for &(error, line) in FILES {
        is_line(&rt, error, line)?;
    }
    Ok(())
}

#[test]
fn tells_faults_of_the_arguments(rt: HostRuntime) {
    let line = "sched: command line not UTF-8\n";
    is_told(&rt, ProgramError::Arguments, 2, line);
    let line =
        "sched: lint takes PLAN, or it and --events, or it, --trace and --workers, or --calls alone\n";
    is_told(&rt, ProgramError::LintOptions, 2, line);
}

/// Refusals, each with its line.
const REFUSALS: &[(&str, &str)] = &[
    (
        "plan.toml: too long; at most 1048576 bytes",
        "plan.toml: too long; at most 1048576 bytes\n",
    ),
    (
        "plan.toml: too long; at most 1048576 bytes\n",
        "plan.toml: too long; at most 1048576 bytes\n",
    ),
    ("plan.toml: one\ntwo", "plan.toml: one\n"),
    ("", "\n"),
];

#[test]
fn tells_a_refusal_by_one_line_and_status_1(rt: HostRuntime) -> Result<(), Fail> {
    for &(told, line) in REFUSALS {
        let refused = Answer::Refused(Refusal::new(rt.alloc(), told)?);
        is_told_by(&rt, Ok(refused), None, Script::smooth(128), 1, line, 1);
    }
    Ok(())
}

/// Checks that two warnings, with an exit status, are told by just this text on a standard error with a script, and how often that was called.
fn are_warned(
    rt: &(impl AllocGlobal + Abort),
    status: u8,
    script: Script,
    text: &str,
    calls: u32,
) -> Result<(), Fail> {
    let mut warnings = Vec::new(rt.alloc());
    for told in ["a: warning: one", "a: warning: two\nthree"] {
        warnings.push(Refusal::new(rt.alloc(), told)?)?;
    }
    let answer = Ok(Answer::Warned(warnings, status));
    is_told_by(rt, answer, None, script, status, text, calls);
    Ok(())
}

#[test]
fn tells_warnings_by_a_line_each_and_their_status(rt: HostRuntime) -> Result<(), Fail> {
    let lines = "a: warning: one\na: warning: two\n";
    are_warned(&rt, 0, Script::smooth(128), lines, 2)?;
    are_warned(&rt, 1, Script::smooth(128), lines, 2)?;
    are_warned(&rt, 1, script_of(Standing::Closed), "", 1)?;
    are_warned(&rt, 0, script_of(Standing::Full), "a: warning", 3)?;
    let none = Answer::Warned(Vec::new(rt.alloc()), 0);
    is_told_by(&rt, Ok(none), None, Script::smooth(128), 0, "", 0);
    Ok(())
}

#[test]
fn tells_a_hint_behind_the_line_of_an_error_alone(rt: HostRuntime) -> Result<(), Fail> {
    let hint = Refusal::new(rt.alloc(), "sched: a: no such file")?;
    let lines = "sched: plan file not read\nsched: a: no such file\n";
    let fault = Err(ProgramError::PlanFile);
    is_told_by(&rt, fault, Some(&hint), Script::smooth(128), 1, lines, 2);
    let done = Ok(Answer::Status(0));
    is_told_by(&rt, done, Some(&hint), Script::smooth(128), 0, "", 0);
    let fault = Err(ProgramError::PlanFile);
    is_told_by(
        &rt,
        fault,
        Some(&hint),
        script_of(Standing::Closed),
        1,
        "",
        1,
    );
    Ok(())
}

#[test]
fn tells_a_status_by_no_line(rt: HostRuntime) {
    for status in [0, 1, 2] {
        is_told_by(
            &rt,
            Ok(Answer::Status(status)),
            None,
            Script::smooth(128),
            status,
            "",
            0,
        );
    }
}

/// The longest line of a plan.
#[test]
fn tells_the_greatest_numbers(rt: HostRuntime) {
    let fault = PlanFault {
        kind: PlanFaultKind::DuplicateName,
        block: u32::MAX,
        call: u32::MAX,
    };
    let line = "sched: plan: DuplicateName block 4294967295 call 4294967295\n";
    is_told(&rt, ProgramError::Run(RunError::Plan(fault)), 1, line);
}

/// How standard error behaves that takes five bytes at once.
#[derive(Clone, Copy)]
enum Standing {
    Smooth,
    /// At fault in its first call.
    Closed,
    /// Takes no byte in its third call.
    Full,
    /// Each of its calls is interrupted so often before.
    Interrupted(u32),
}

/// The script of a standard error.
fn script_of(standing: Standing) -> Script {
    let five = Script::smooth(5);
    match standing {
        Standing::Smooth => five,
        Standing::Closed => Script {
            trouble_at: 1,
            trouble: Trouble::Fails(ErrorKind::BrokenPipe),
            ..five
        },
        Standing::Full => Script {
            trouble_at: 3,
            ..five
        },
        Standing::Interrupted(interrupts) => Script { interrupts, ..five },
    }
}

/// What of the line of an error stands on a standard error, and how often that was called.
const STANDINGS: &[(Standing, &str, u32)] = &[
    (Standing::Smooth, "sched: full\n", 3),
    (Standing::Closed, "", 1),
    (Standing::Full, "sched: ful", 3),
    (Standing::Interrupted(999), "sched: full\n", 3_000),
    (Standing::Interrupted(1_000), "", 1_000),
];

/// Where standard error is at fault, the status tells the error, and a front of the line stands there.
#[test]
fn tells_an_error_by_its_status_where_standard_error_is_at_fault(rt: HostRuntime) {
    for &(standing, line, calls) in STANDINGS {
        let error = ProgramError::Run(RunError::Full);
        is_told_by(&rt, Err(error), None, script_of(standing), 1, line, calls);
    }
}

/// Errors, as they are shown to programmers.
const SHOWN: &[(ProgramError, &str)] = &[
    (ProgramError::LintOptions, "LintOptions"),
    (ProgramError::TraceTooLong, "TraceTooLong"),
    (ProgramError::PlanUnwritten, "PlanUnwritten"),
    (ProgramError::EndsFirst, "EndsFirst"),
    (ProgramError::Crowded(3), "Crowded(3)"),
    (
        ProgramError::Run(RunError::EventLine(9)),
        "Run(EventLine(9))",
    ),
    (
        ProgramError::Run(RunError::Plan(PlanFault {
            kind: PlanFaultKind::BadName,
            block: 3,
            call: 2,
        })),
        "Run(Plan(PlanFault { kind: BadName, block: 3, call: 2 }))",
    ),
];

#[test]
fn shows_errors_to_programmers(rt: HostRuntime) -> Result<(), Fail> {
    for &(error, text) in SHOWN {
        let shown = format!(in rt.alloc(); "{error:?}")?;
        assert!(rt; shown.as_str() == text, "{shown}");
    }
    Ok(())
}

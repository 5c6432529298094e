//! Tests of a run by a pool, from bytes in to bytes out.
mod ends;
mod example;
mod growths;
mod row_by_row;
mod usage;

use byte_ends::{Pieces, Writing};
use plan_read::{PlanFault, PlanFaultKind, read_plan};
use pool_engine::run_pool;
use sched_engine::{Report, RunError};
use std::alloc::Global;
use std::process::Abort;
use std::sync::Wait;
use std::test::Fail;
use std::thread::Threads;
use trace_check::{Finding, MOST_BYTES, check};

/// The plan of one delayed task.
const ONE_DELAY: &str =
    "version = 1\n\n[[block]]\n\n[[block.call]]\nop = \"schedule\"\nname = \"a\"\ndelay = 5\n";

/// The clocks of its example.
const CLOCKS: &str = "clock 0\nclock 5\n";

/// The trace of its example.
const TRACE: &str = "\
0 submit 0 schedule due 5
0 clock
5 clock
5 start 0 task 0 run 0 due 5
5 finish 0 task 0 run 0 done 0
";

/// What its run answers.
const REPORT: Report = Report {
    events: 4,
    lines: 5,
};

/// What a run did.
fn report(events: u32, lines: u64) -> Report {
    Report { events, lines }
}

/// The answer of a run over memory that reads at most `most` bytes at a time, and what it wrote.
fn ran<R: Threads + Wait + Sync>(
    rt: &R,
    alloc: Global,
    plan: &str,
    workers: u8,
    limit: u32,
    clocks: &str,
    most: usize,
) -> (Result<Report, RunError>, Vec<u8>) {
    let mut reader = Pieces::new(clocks.as_bytes(), most);
    let mut writer = Writing::new(Vec::new(alloc));
    let plan = plan.as_bytes();
    let answer = run_pool(rt, alloc, plan, workers, limit, &mut reader, &mut writer);
    (answer, writer.into_inner())
}

/// Checks the answer and the bytes of a run, read at once and a few bytes at a time.
fn answers<R: Threads + Wait + Sync + AllocGlobal + Abort>(rt: &R, row: &Wanted<'_>) {
    let name = row.name;
    for most in [65_536usize, 1, 7] {
        let (told, text) = ran(rt, rt.alloc(), row.plan, 1, row.limit, row.clocks, most);
        assert!(rt; told == row.answer, "{name}: {told:?}");
        assert!(rt; text.as_slice() == row.trace.as_bytes(), "{name}");
    }
}

/// A line of a start or a finish without the number of its worker, and that number.
fn of_worker(line: &str) -> Option<((&str, &str, &str), &str)> {
    let (moment, rest) = line.split_once(' ')?;
    let (word, rest) = rest.split_once(' ')?;
    let (worker, rest) = rest.split_once(' ')?;
    if word != "start" && word != "finish" {
        return None;
    }
    Some(((moment, word, rest), worker))
}

/// Whether a line is the one that is wanted, but for its worker: one that starts is 0 or 1, and one that finishes is the one that
/// started last.
fn is_same_line<'a>(line: &'a str, wanted: &str, starter: &mut &'a str) -> bool {
    let (Some((said, worker)), Some((to_say, _))) = (of_worker(line), of_worker(wanted)) else {
        return line == wanted;
    };
    if said.1 == "start" {
        *starter = worker;
    }
    said == to_say && worker == *starter && (worker == "0" || worker == "1")
}

/// Whether a text of two workers and one task is the one that is wanted, but for the worker that starts the task and finishes it.
fn is_same(text: &[u8], wanted: &str) -> bool {
    let Ok(text) = str::from_utf8(text) else {
        return false;
    };
    let mut lines = text.split('\n');
    let mut starter = "";
    for wanted in wanted.split('\n') {
        let Some(line) = lines.next() else {
            return false;
        };
        if !is_same_line(line, wanted, &mut starter) {
            return false;
        }
    }
    lines.next().is_none()
}

/// Checks that a text is a trace of a plan.
fn conforms(
    rt: &(impl AllocGlobal + Abort),
    plan: &str,
    workers: u8,
    text: &[u8],
) -> Result<(), Fail> {
    let plan = read_plan(rt.alloc(), plan.as_bytes())?;
    assert!(rt; text.len() <= MOST_BYTES);
    let finding = check(rt.alloc(), &plan, workers, text)?;
    assert!(rt; finding == Finding::Conforms, "{finding:?}");
    Ok(())
}

/// A run by one worker, and what it comes to.
#[derive(Clone, Copy)]
struct Wanted<'a> {
    name: &'a str,
    plan: &'a str,
    limit: u32,
    clocks: &'a str,
    answer: Result<Report, RunError>,
    trace: &'a str,
}

/// Runs of all kinds, and limits that end the run of the example, with the lines up to there.
const RUNS: &[Wanted<'static>] = &[
    Wanted {
        name: "THE_EXAMPLE",
        plan: ONE_DELAY,
        limit: 4,
        clocks: CLOCKS,
        answer: Ok(REPORT),
        trace: TRACE,
    },
    Wanted {
        name: "NO_CLOCK",
        plan: ONE_DELAY,
        limit: 1,
        clocks: "",
        answer: Ok(Report {
            events: 0,
            lines: 0,
        }),
        trace: "",
    },
    Wanted {
        name: "CLOCKS_THAT_ARE_NOT_ACCEPTED",
        plan: "version = 1",
        limit: 3,
        clocks: "clock 5\nclock 4\nclock 4611686018427387905\n",
        answer: Ok(Report {
            events: 3,
            lines: 3,
        }),
        trace: "5 clock\n5 error backward\n5 error too far\n",
    },
    // The clock shows a moment once all that is due at the one before has run; and the value is the run's number, not the task's.
    Wanted {
        name: "A_CLOCK_WAITS_FOR_THE_MOMENT_BEFORE",
        plan: "version = 1
[[block]]
call = [
  { op = \"schedule\", name = \"a\", delay = 0 },
  { op = \"schedule\", name = \"b\", delay = 5 },
]
",
        limit: 100,
        clocks: CLOCKS,
        answer: Ok(Report {
            events: 6,
            lines: 8,
        }),
        trace: "0 submit 0 schedule due 0
0 submit 1 schedule due 5
0 clock
0 start 0 task 0 run 0 due 0
0 finish 0 task 0 run 0 done 0
5 clock
5 start 0 task 1 run 0 due 5
5 finish 0 task 1 run 0 done 0
",
    },
    // The run of a task that goes on at a fixed rate has the number of the run for its value, and goes on until nothing is due.
    Wanted {
        name: "RUNS_WHAT_IS_DUE_AT_EACH_MOMENT",
        plan: "version = 1
[[block]]
call = [
  { op = \"rate\", name = \"a\", first = 1, period = 2 },
  { at = 4, op = \"shutdown\" },
  { at = 4, op = \"ask\" },
]
",
        limit: 100,
        clocks: "clock 3\nclock 9\n",
        answer: Ok(Report {
            events: 6,
            lines: 10,
        }),
        trace: "0 submit 0 rate due 1
3 clock
3 start 0 task 0 run 0 due 1
3 finish 0 task 0 run 0 again due 3
3 start 0 task 0 run 1 due 3
3 finish 0 task 0 run 1 again due 5
4 shutdown
4 end 0
4 ask queue 0 running 0 shutdown yes terminated yes
9 clock
",
    },
    Wanted {
        name: "A_LIMIT_OF_3",
        plan: ONE_DELAY,
        limit: 3,
        clocks: CLOCKS,
        answer: Err(RunError::Full),
        trace: "0 submit 0 schedule due 5\n0 clock\n5 clock\n5 start 0 task 0 run 0 due 5\n",
    },
    Wanted {
        name: "A_LIMIT_OF_2",
        plan: ONE_DELAY,
        limit: 2,
        clocks: CLOCKS,
        answer: Err(RunError::Full),
        trace: "0 submit 0 schedule due 5\n0 clock\n5 clock\n",
    },
    Wanted {
        name: "A_LIMIT_OF_1",
        plan: ONE_DELAY,
        limit: 1,
        clocks: CLOCKS,
        answer: Err(RunError::Full),
        trace: "",
    },
    Wanted {
        name: "A_LIMIT_ON_CLOCKS",
        plan: ONE_DELAY,
        limit: 2,
        clocks: "clock 0\nclock 5\nclock 5\n",
        answer: Err(RunError::Full),
        trace: "",
    },
    // Limits of one event, and the first fault of the two.
    Wanted {
        name: "THE_LIMIT_BEFORE_A_LINE",
        plan: ONE_DELAY,
        limit: 1,
        clocks: "clock 0\nclock 5\nstart 0\n",
        answer: Err(RunError::Full),
        trace: "",
    },
    Wanted {
        name: "A_LINE_BEFORE_THE_LIMIT",
        plan: ONE_DELAY,
        limit: 1,
        clocks: "clock 0\nstart 0\nclock 5\n",
        answer: Err(RunError::EventLine(2)),
        trace: "",
    },
];

#[test]
fn each_run_is_answered(rt: HostRuntime) -> Result<(), Fail> {
    for row in RUNS {
        answers(&rt, row);
    }
    conforms(&rt, ONE_DELAY, 1, TRACE.as_bytes())
}

/// Lines that are no clock.
const NO_CLOCKS: &[&str] = &[
    "start 0\n",
    "finish 0 ok 1\n",
    "cancel 0\n",
    "clock 1",
    "clock 01\n",
    "clock 1\r\n",
    "\n",
    // 62 bytes and a newline, and 63 bytes and a newline
    "clock 1                                                       \n",
    "clock 1                                                        \n",
    "clock 18446744073709551616\n",
];

/// Clocks, and the number of the line behind them.
const FRONTS: &[(&str, u64)] = &[("", 1), ("clock 0\n", 2), ("clock 0\nclock 9\n", 3)];

/// Checks that a run ends at a line behind each of the fronts.
fn ends_at<R: Threads + Wait + Sync + AllocGlobal + Abort>(rt: &R, line: &str) -> Result<(), Fail> {
    for (front, number) in FRONTS {
        let clocks = format!(in rt.alloc(); "{front}{line}")?;
        let row = Wanted {
            name: line,
            plan: ONE_DELAY,
            limit: 2,
            clocks: clocks.as_str(),
            answer: Err(RunError::EventLine(*number)),
            trace: "",
        };
        answers(rt, &row);
    }
    Ok(())
}

#[test]
fn ends_at_a_line_that_is_no_clock(rt: HostRuntime) -> Result<(), Fail> {
    for line in NO_CLOCKS {
        ends_at(&rt, line)?;
    }
    Ok(())
}

/// A plan without a version.
const VERSION: RunError = RunError::Plan(PlanFault {
    kind: PlanFaultKind::Version,
    block: 0,
    call: 0,
});

/// Plans, workers and limits, and the first fault of them.
const REFUSED: &[(&str, u8, u32, RunError)] = &[
    ("", 0, 0, VERSION),
    ("", 1, 1, VERSION),
    (ONE_DELAY, 0, 0, RunError::Workers),
    (ONE_DELAY, 65, 1, RunError::Workers),
    (ONE_DELAY, 255, 0, RunError::Workers),
    (ONE_DELAY, 64, 0, RunError::Limit),
];

#[test]
fn refuses_plans_workers_and_limits(rt: HostRuntime) {
    for (plan, workers, limit, fault) in REFUSED {
        let (answer, text) = ran(&rt, rt.alloc(), plan, *workers, *limit, "start 0\n", 7);
        assert!(&rt; answer == Err(*fault), "{answer:?}");
        assert!(&rt; text.is_empty());
    }
    let (answer, _) = ran(&rt, rt.alloc(), ONE_DELAY, 64, 4, CLOCKS, 7);
    assert!(&rt; answer == Ok(REPORT));
}

/// Tasks that many workers share.
#[test]
fn traces_of_many_workers_conform(rt: HostRuntime) -> Result<(), Fail> {
    let plan = "version = 1
[[block]]
times = 20
every = 31
call = [
  { op = \"schedule\", name = \"a\", delay = 3 },
  { op = \"fixed\", name = \"b\", first = 1, delay = 25 },
  { at = 30, op = \"cancel\", name = \"b\" },
]
";
    for workers in [1u8, 2, 8, 64] {
        let clocks = "clock 0\nclock 1\nclock 50\nclock 51\nclock 90\nclock 700\n";
        let (answer, text) = ran(&rt, rt.alloc(), plan, workers, 10_000, clocks, 65_536);
        assert!(&rt; answer.is_ok(), "{answer:?}");
        conforms(&rt, plan, workers, &text)?;
    }
    Ok(())
}

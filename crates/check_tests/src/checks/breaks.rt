//! Texts that are no trace of a plan, beside some that are one.
use super::*;
use scripted_runs::Row;
use scripted_runs::kept::A_KEPT_TASK;
use scripted_runs::runs::{NO_OVERLAP, ONE_DELAY, TWO_WORKERS};
use scripted_runs::shutdown::A_SWEEP;
use scripted_runs::stopping::{A_SHUTDOWN_AT_ONCE, A_SHUTDOWN_AT_ONCE_AFTER_A_SHUTDOWN};

/// Texts that begin with the same front, held against the plan of a row with one worker.
struct Texts {
    name: &'static str,
    row: Row,
    front: &'static str,
    /// The parts of what stands behind the front, and what is found of the text.
    rows: &'static [(&'static [&'static str], Finding)],
}

/// Those of other lines, calls and ends.
const TEXTS: &[Texts] = &[
    Texts {
        name: "another line",
        row: ONE_DELAY,
        front: BEFORE_A_START,
        rows: OTHER_LINES,
    },
    // A clock that jumps past a call, and a call past the last one.
    Texts {
        name: "calls are made in time",
        row: ONE_DELAY,
        front: "",
        rows: CALLS_IN_TIME,
    },
    Texts {
        name: "ends of tasks",
        row: A_SWEEP,
        front: BEFORE_THE_ENDS,
        rows: ENDS,
    },
];

/// Those of shutdowns at once, and of what comes after.
const TEXTS_AT_ONCE: &[Texts] = &[
    // The line of a shutdown at once, and those of the tasks that it ends.
    Texts {
        name: "ends of a shutdown at once",
        row: A_SHUTDOWN_AT_ONCE,
        front: BEFORE_A_SHUTDOWN_AT_ONCE,
        rows: ENDS_AT_ONCE,
    },
    // What comes of a run that is under way at a shutdown at once, of questions, of policies and of submissions after it.
    Texts {
        name: "lines after a shutdown at once",
        row: A_SHUTDOWN_AT_ONCE,
        front: BEFORE_A_SHUTDOWN_AT_ONCE,
        rows: AFTER_A_SHUTDOWN_AT_ONCE,
    },
    // Shutdowns of both kinds, one after the other.
    Texts {
        name: "shutdowns of both kinds",
        row: A_SHUTDOWN_AT_ONCE_AFTER_A_SHUTDOWN,
        front: "0 submit 0 rate due 5\n0 policy continue true\n1 shutdown\n",
        rows: SHUTDOWNS_OF_BOTH_KINDS,
    },
    // A task that is kept once it is cancelled, and an ask.
    Texts {
        name: "purges",
        row: A_KEPT_TASK,
        front: "0 submit 0 schedule due 10\n2 cancel 0 yes\n",
        rows: PURGES,
    },
];

const BEFORE_A_START: &str =
    "0 submit 0 schedule due 5\n0 clock\n0 start 0 idle\n4 clock\n4 start 0 idle\n5 clock\n";

const START: &str = "5 start 0 task 0 run 0 due 5\n";

const FINISH: &str = "5 finish 0 task 0 run 0 done 7\n";

const OTHER_LINES: &[(&[&str], Finding)] = &[
    (
        &["5 start 0 task 0 run 0 due 6\n", FINISH],
        Finding::Breaks(7),
    ),
    (
        &["5 start 0 task 0 run 1 due 5\n", FINISH],
        Finding::Breaks(7),
    ),
    (
        &["5 start 0 task 1 run 0 due 5\n", FINISH],
        Finding::Breaks(7),
    ),
    (
        &["5 start 1 task 0 run 0 due 5\n", FINISH],
        Finding::Breaks(7),
    ),
    (
        &["6 start 0 task 0 run 0 due 5\n", FINISH],
        Finding::Breaks(7),
    ),
    (&["5 start 0 idle\n", FINISH], Finding::Breaks(7)),
    (&[START, "5 error busy\n", FINISH], Finding::Conforms),
    (&[START, "5 error not running\n"], Finding::Breaks(8)),
    (&[START, FINISH, "5 error busy\n"], Finding::Breaks(9)),
    (&[START, FINISH, FINISH], Finding::Breaks(9)),
];

const CALLS_IN_TIME: &[(&[&str], Finding)] = &[
    (&["0 clock\n"], Finding::Breaks(1)),
    (
        &["0 submit 0 schedule due 5\n0 submit 0 schedule due 5\n"],
        Finding::Breaks(2),
    ),
];

const BEFORE_THE_ENDS: &str = "\
    0 policy execute false\n0 submit 0 schedule due 1\n0 submit 1 schedule due 100\n\
    0 submit 2 rate due 3\n5 shutdown\n";

const ENDS: &[(&[&str], Finding)] = &[
    (&["5 end 1\n5 end 2\n"], Finding::Conforms),
    (&["5 end 1\n"], Finding::Breaks(7)),
    (&["5 end 1\n6 shutdown again\n"], Finding::Breaks(7)),
    (&["6 shutdown again\n"], Finding::Breaks(6)),
    (&["5 end 2\n5 end 1\n"], Finding::Breaks(6)),
    (&["5 end 1\n5 end 2\n5 end 0\n"], Finding::Breaks(8)),
    (&["6 end 1\n5 end 2\n"], Finding::Breaks(6)),
];

/// What happens before the texts of a shutdown at once.
const BEFORE_A_SHUTDOWN_AT_ONCE: &str = "\
    0 submit 0 schedule due 9\n0 submit 1 rate due 0\n0 submit 2 schedule due 0\n\
    0 submit 3 schedule due 7\n0 clock\n0 start 0 task 1 run 0 due 0\n1 cancel 3 yes\n";

const ENDS_AT_ONCE: &[(&[&str], Finding)] = &[
    (&["2 shutdown now\n2 end 0\n2 end 2\n"], Finding::Conforms),
    (&["2 shutdown\n2 end 0\n2 end 2\n"], Finding::Breaks(8)),
    (&["2 shutdown again\n"], Finding::Breaks(8)),
    (
        &["2 ask queue 2 running 1 shutdown no terminated no\n"],
        Finding::Breaks(8),
    ),
    (&["2 shutdown now\n"], Finding::Breaks(9)),
    (&["2 shutdown now\n2 end 0\n"], Finding::Breaks(10)),
    (&["2 shutdown now\n2 end 2\n"], Finding::Breaks(9)),
    (&["2 shutdown now\n2 end 2\n2 end 0\n"], Finding::Breaks(9)),
    (
        &["2 shutdown now\n2 end 0\n2 end 1\n2 end 2\n"],
        Finding::Breaks(10),
    ),
    // A task that was cancelled before does not end.
    (
        &["2 shutdown now\n2 end 0\n2 end 2\n2 end 3\n"],
        Finding::Breaks(11),
    ),
    // One that was ended does not start.
    (
        &["2 shutdown now\n2 end 0\n2 end 2\n2 start 0 task 0 run 0 due 9\n"],
        Finding::Breaks(11),
    ),
];

const NOW: &str = "2 shutdown now\n2 end 0\n2 end 2\n";

const ASKED: &str = "2 ask queue 0 running 1 shutdown yes terminated no\n";

const SET: &str = "3 policy continue true\n3 clock\n";

const AFTER_A_SHUTDOWN_AT_ONCE: &[(&[&str], Finding)] = &[
    (
        &[NOW, ASKED, SET, "3 finish 0 task 1 run 0 ended\n"],
        Finding::Conforms,
    ),
    (
        &[NOW, ASKED, SET, "4 refuse 4 rejected\n"],
        Finding::Conforms,
    ),
    // What was ended is counted no more.
    (
        &[
            NOW,
            "2 ask queue 1 running 1 shutdown yes terminated no\n",
            SET,
            "4 refuse 4 rejected\n",
        ],
        Finding::Breaks(11),
    ),
    (
        &[NOW, ASKED, SET, "3 finish 0 task 1 run 0 again due 2\n"],
        Finding::Breaks(14),
    ),
    (
        &[NOW, ASKED, SET, "3 finish 0 task 1 run 0 dropped\n"],
        Finding::Breaks(14),
    ),
    (
        &[NOW, ASKED, SET, "4 submit 4 schedule due 4\n"],
        Finding::Breaks(14),
    ),
    (
        &[NOW, ASKED, SET, "4 refuse 4 illegal\n"],
        Finding::Breaks(14),
    ),
];

const ENDED: &str = "2 shutdown now\n2 end 0\n";

const SHUTDOWNS_OF_BOTH_KINDS: &[(&[&str], Finding)] = &[
    (
        &[ENDED, "3 shutdown again\n3 shutdown now\n"],
        Finding::Conforms,
    ),
    (&[ENDED, "3 shutdown\n"], Finding::Breaks(6)),
    (&[ENDED, "3 shutdown now\n"], Finding::Breaks(6)),
    (&[ENDED, "2 end 0\n"], Finding::Breaks(6)),
    (
        &[ENDED, "3 shutdown again\n3 shutdown again\n"],
        Finding::Breaks(7),
    ),
    (
        &[ENDED, "3 shutdown again\n3 shutdown now\n3 end 0\n"],
        Finding::Breaks(8),
    ),
    (&["2 shutdown again\n"], Finding::Breaks(4)),
    (&["2 shutdown now\n3 shutdown again\n"], Finding::Breaks(5)),
];

const ONE_KEPT: &str = "3 ask queue 1 running 0 shutdown no terminated no\n";

const NONE_KEPT: &str = "3 ask queue 0 running 0 shutdown no terminated no\n";

const PURGES: &[(&[&str], Finding)] = &[
    (&["2 purge\n", NONE_KEPT, "3 purge\n"], Finding::Conforms),
    (&["2 purge\n2 purge\n"], Finding::Conforms),
    (&[ONE_KEPT, "3 purge\n15 clock\n"], Finding::Conforms),
    // What a purge took out of the queue is counted no more.
    (&["2 purge\n", ONE_KEPT], Finding::Breaks(4)),
    (&[NONE_KEPT, "3 purge\n"], Finding::Breaks(3)),
    // A purge moves no clock.
    (&["3 purge\n", NONE_KEPT], Finding::Breaks(3)),
    (&["1 purge\n"], Finding::Breaks(3)),
    (&["2 purge 0\n"], Finding::Breaks(3)),
];

/// Checks what is found of each of some texts.
fn finds(rt: &(impl AllocGlobal + Abort), texts: &Texts) -> Result<(), Fail> {
    for (parts, wanted) in texts.rows {
        let text = text_of(rt.alloc(), texts.front, parts)?;
        let found = found_by(rt, texts.row.plan, 1, text.as_str())?;
        assert!(rt; found == *wanted, "{}: {text}", texts.name);
    }
    Ok(())
}

#[test]
fn each_text_is_found_so(rt: HostRuntime) -> Result<(), Fail> {
    for texts in TEXTS {
        finds(&rt, texts)?;
    }
    Ok(())
}

#[test]
fn each_text_of_a_shutdown_at_once_is_found_so(rt: HostRuntime) -> Result<(), Fail> {
    for texts in TEXTS_AT_ONCE {
        finds(&rt, texts)?;
    }
    Ok(())
}

/// A plan without calls.
const EMPTY: &str = "version = 1";

/// Texts with `|` between them that conform to it: whatever may have happened does, where a line tells it.
const CONFORMING: &str = "\
    |0 error too far\n|0 error not running\n|0 error no task\n|5 clock\n\
    |5 clock\n5 error backward\n\
    |4611686018427387904 clock\n4611686018427387904 error too far\n";

/// Texts with `|` between them of which the first line breaks it: at the end the longest line, and one that is too long.
const BREAKING: &str = "\
    0 error backward\n|0 error busy\n|1 error too far\n|0 outside 0 none\n\
    |05 clock\n|5 clock|5 clock\r\n|5\tclock\n|5  clock\n|5 clock \n|\n|\n5 clock\n|x\n\
    |0 end 0\n|0 shutdown\n|4611686018427387905 clock\n\
    |0 start 0 task 0 run 0 due 0\n\
    |18446744073709551615 finish 255 task 4294967295 run 18446744073709551615 again \
    due 18446744073709551615\n\
    |18446744073709551615 finish 255 task 4294967295 run 18446744073709551615 again \
    due 184467440737095516150\n";

/// Checks that this is found of each of some texts, which have `|` between them.
fn finds_of_each(
    rt: &(impl AllocGlobal + Abort),
    texts: &str,
    wanted: Finding,
) -> Result<(), Fail> {
    for text in texts.split('|') {
        let found = found_by(rt, EMPTY, 1, text)?;
        assert!(rt; found == wanted, "{text}");
    }
    Ok(())
}

#[test]
fn lines_of_an_empty_plan(rt: HostRuntime) -> Result<(), Fail> {
    finds_of_each(&rt, CONFORMING, Finding::Conforms)?;
    finds_of_each(&rt, BREAKING, Finding::Breaks(1))?;
    let found = checked(&rt, EMPTY, 1, &[255])?;
    assert!(rt; found == Ok(Finding::Breaks(1)));
    Ok(())
}

/// Rows of two workers, and what is found of their traces with this many: a worker that waits is named by the least number.
const BY_WORKERS: &[(Row, u8, Finding)] = &[
    (TWO_WORKERS, 2, Finding::Conforms),
    (TWO_WORKERS, 1, Finding::Breaks(5)),
    (NO_OVERLAP, 2, Finding::Conforms),
    (NO_OVERLAP, 1, Finding::Breaks(5)),
];

#[test]
fn two_workers(rt: HostRuntime) -> Result<(), Fail> {
    for (row, workers, wanted) in BY_WORKERS {
        let found = found_by(&rt, row.plan, *workers, row.trace)?;
        assert!(rt; found == *wanted, "{workers}: {}", row.name);
    }
    Ok(())
}

#[test]
fn numbers_of_workers(rt: HostRuntime) -> Result<(), Fail> {
    for (workers, wanted) in [
        (0u8, Err(CheckError::Workers)),
        (65, Err(CheckError::Workers)),
        (255, Err(CheckError::Workers)),
        (1, Ok(Finding::Conforms)),
        (64, Ok(Finding::Conforms)),
    ] {
        let answer = checked(&rt, EMPTY, workers, b"")?;
        assert!(rt; answer == wanted, "{workers}");
    }
    Ok(())
}

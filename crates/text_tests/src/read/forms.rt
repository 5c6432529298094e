//! Each form of a line, with the least numbers and with the greatest.
use super::near::reads_no_other;
use crate::lines::messages::{
    ask, cancel, error, finish, idle, outside, policy, refuse, start, submit, word,
};
use crate::lines::{is_line, text_of};
use executor_model::{Line, Message, Outcome};
use std::process::Abort;
use std::test::Fail;

/// What a line tells, and the form of its text, as `text_of` takes it.
type Form = (Message, &'static str);

/// Lines that tell of a run: started, or finished.
macro_rules! of_runs {
    ($worker:expr, $code:expr, $long:expr) => {
        &[
            (start!($worker, $code, $long, $long), "L start W task C run L due L"),
            (idle!($worker), "L start W idle"),
            (
                finish!($worker, $code, $long, Outcome::Done($long)),
                "L finish W task C run L done L",
            ),
            (
                finish!($worker, $code, $long, Outcome::Failed($code)),
                "L finish W task C run L failed C",
            ),
            (
                finish!($worker, $code, $long, Outcome::Again($long)),
                "L finish W task C run L again due L",
            ),
            (
                finish!($worker, $code, $long, Outcome::Dropped),
                "L finish W task C run L dropped",
            ),
            (
                finish!($worker, $code, $long, Outcome::Ended),
                "L finish W task C run L ended",
            ),
        ]
    };
}

/// Lines that tell of a task: accepted, refused, cancelled, ended.
macro_rules! of_tasks {
    ($code:expr, $long:expr) => {
        &[
            (submit!($code, Schedule, $long), "L submit C schedule due L"),
            (submit!($code, Rate, $long), "L submit C rate due L"),
            (submit!($code, Fixed, $long), "L submit C fixed due L"),
            (refuse!($code, Illegal), "L refuse C illegal"),
            (refuse!($code, Rejected), "L refuse C rejected"),
            (cancel!($code, Yes), "L cancel C yes"),
            (cancel!($code, No), "L cancel C no"),
            (cancel!($code, Absent), "L cancel C none"),
            (outside!($code, Yes), "L outside C yes"),
            (outside!($code, No), "L outside C no"),
            (outside!($code, Absent), "L outside C none"),
            (Message::End($code), "L end C"),
        ]
    };
}

/// Lines that tell how far the executor is.
macro_rules! of_counts {
    ($code:expr) => {
        &[
            (
                ask!($code, $code, false, false),
                "L ask queue C running C shutdown no terminated no",
            ),
            (
                ask!($code, $code, false, true),
                "L ask queue C running C shutdown no terminated yes",
            ),
            (
                ask!($code, $code, true, false),
                "L ask queue C running C shutdown yes terminated no",
            ),
            (
                ask!($code, $code, true, true),
                "L ask queue C running C shutdown yes terminated yes",
            ),
        ]
    };
}

/// Lines that tell of the executor by words alone.
const WORDS: &[Form] = &[
    (word!(Clock), "L clock"),
    (error!(Backward), "L error backward"),
    (error!(TooFar), "L error too far"),
    (error!(NoWorker), "L error no worker"),
    (error!(Busy), "L error busy"),
    (error!(NotRunning), "L error not running"),
    (error!(NoTask), "L error no task"),
    (word!(Purge), "L purge"),
    (word!(Shutdown), "L shutdown"),
    (word!(ShutdownAgain), "L shutdown again"),
    (word!(ShutdownNow), "L shutdown now"),
    (policy!(Continue, true), "L policy continue true"),
    (policy!(Continue, false), "L policy continue false"),
    (policy!(Execute, true), "L policy execute true"),
    (policy!(Execute, false), "L policy execute false"),
    (policy!(Remove, true), "L policy remove true"),
    (policy!(Remove, false), "L policy remove false"),
];

const LEAST_OF_RUNS: &[Form] = of_runs!(0, 0, 0);

const LEAST_OF_TASKS: &[Form] = of_tasks!(0, 0);

const LEAST_OF_COUNTS: &[Form] = of_counts!(0);

const GREATEST_OF_RUNS: &[Form] = of_runs!(u8::MAX, u32::MAX, u64::MAX);

const GREATEST_OF_TASKS: &[Form] = of_tasks!(u32::MAX, u64::MAX);

const GREATEST_OF_COUNTS: &[Form] = of_counts!(u32::MAX);

/// Checks that forms are read, and are written so, where each number is 0.
fn reads_least(rt: &(impl AllocGlobal + Abort), forms: &[Form]) -> Result<(), Fail> {
    for (message, form) in forms {
        let text = text_of(rt.alloc(), form, ["0"; 3])?;
        is_line(rt, Line::new(0, *message), &text);
    }
    Ok(())
}

/// Checks that forms are read, and are written so, where each number is the greatest, and that no text is read that hardly differs.
fn reads_greatest(rt: &(impl AllocGlobal + Abort), forms: &[Form]) -> Result<(), Fail> {
    let numbers = ["255", "4294967295", "18446744073709551615"];
    for (message, form) in forms {
        let text = text_of(rt.alloc(), form, numbers)?;
        is_line(rt, Line::new(u64::MAX, *message), &text);
        reads_no_other(rt, text.as_bytes());
    }
    Ok(())
}

#[test]
fn reads_runs(rt: HostRuntime) -> Result<(), Fail> {
    reads_least(&rt, LEAST_OF_RUNS)?;
    reads_greatest(&rt, GREATEST_OF_RUNS)
}

#[test]
fn reads_tasks(rt: HostRuntime) -> Result<(), Fail> {
    reads_least(&rt, LEAST_OF_TASKS)?;
    reads_greatest(&rt, GREATEST_OF_TASKS)
}

#[test]
fn reads_the_executor(rt: HostRuntime) -> Result<(), Fail> {
    reads_least(&rt, WORDS)?;
    reads_greatest(&rt, WORDS)
}

#[test]
fn reads_how_far_the_executor_is(rt: HostRuntime) -> Result<(), Fail> {
    reads_least(&rt, LEAST_OF_COUNTS)?;
    reads_greatest(&rt, GREATEST_OF_COUNTS)
}

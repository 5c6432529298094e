//! Lines of a trace by hand.
use crate::lines::messages::{
    ask, cancel, error, finish, idle, outside, policy, refuse, start, submit, word,
};
use crate::lines::{Row, are_lines};
use executor_model::Outcome;

mod heaps;

const TASKS: &[Row] = &[
    (0, submit!(0, Schedule, 5), "0 submit 0 schedule due 5\n"),
    (0, submit!(0, Rate, 10), "0 submit 0 rate due 10\n"),
    (0, submit!(0, Fixed, 10), "0 submit 0 fixed due 10\n"),
    (
        7,
        submit!(u32::MAX, Schedule, 12),
        "7 submit 4294967295 schedule due 12\n",
    ),
    (0, refuse!(1, Illegal), "0 refuse 1 illegal\n"),
    (
        0,
        refuse!(u32::MAX, Rejected),
        "0 refuse 4294967295 rejected\n",
    ),
    (7, cancel!(3, Yes), "7 cancel 3 yes\n"),
    (7, cancel!(3, No), "7 cancel 3 no\n"),
    (7, cancel!(3, Absent), "7 cancel 3 none\n"),
    (7, outside!(3, Yes), "7 outside 3 yes\n"),
    (7, outside!(3, No), "7 outside 3 no\n"),
    (7, outside!(3, Absent), "7 outside 3 none\n"),
    (0, outside!(u32::MAX, Absent), "0 outside 4294967295 none\n"),
];

const OF_THE_EXECUTOR: &[Row] = &[
    (7, word!(Clock), "7 clock\n"),
    (7, word!(Purge), "7 purge\n"),
    (9, word!(ShutdownAgain), "9 shutdown again\n"),
    (
        u64::MAX,
        word!(ShutdownNow),
        "18446744073709551615 shutdown now\n",
    ),
    (7, policy!(Continue, true), "7 policy continue true\n"),
    (7, policy!(Continue, false), "7 policy continue false\n"),
    (7, policy!(Execute, true), "7 policy execute true\n"),
    (7, policy!(Execute, false), "7 policy execute false\n"),
    (7, policy!(Remove, true), "7 policy remove true\n"),
    (7, policy!(Remove, false), "7 policy remove false\n"),
    (7, error!(Backward), "7 error backward\n"),
    (7, error!(TooFar), "7 error too far\n"),
    (7, error!(NoWorker), "7 error no worker\n"),
    (7, error!(Busy), "7 error busy\n"),
    (7, error!(NotRunning), "7 error not running\n"),
    (7, error!(NoTask), "7 error no task\n"),
];

const HOW_FAR: &[Row] = &[
    (
        3,
        ask!(0, 1, false, false),
        "3 ask queue 0 running 1 shutdown no terminated no\n",
    ),
    (
        3,
        ask!(2, 0, true, false),
        "3 ask queue 2 running 0 shutdown yes terminated no\n",
    ),
    (
        3,
        ask!(0, 0, true, true),
        "3 ask queue 0 running 0 shutdown yes terminated yes\n",
    ),
    (
        3,
        ask!(u32::MAX, u32::MAX, false, true),
        "3 ask queue 4294967295 running 4294967295 shutdown no terminated yes\n",
    ),
];

const RUNS: &[Row] = &[
    (7, idle!(2), "7 start 2 idle\n"),
    (7, start!(2, 3, 4, 5), "7 start 2 task 3 run 4 due 5\n"),
    (7, start!(255, 3, 1, 9), "7 start 255 task 3 run 1 due 9\n"),
    (
        25,
        finish!(0, 3, 1, Outcome::Failed(3)),
        "25 finish 0 task 3 run 1 failed 3\n",
    ),
    (
        25,
        finish!(0, 3, 1, Outcome::Again(20)),
        "25 finish 0 task 3 run 1 again due 20\n",
    ),
    (
        25,
        finish!(0, 3, 1, Outcome::Dropped),
        "25 finish 0 task 3 run 1 dropped\n",
    ),
    (
        25,
        finish!(0, 3, 1, Outcome::Ended),
        "25 finish 0 task 3 run 1 ended\n",
    ),
    (
        25,
        finish!(0, 3, 1, Outcome::Done(u64::MAX)),
        "25 finish 0 task 3 run 1 done 18446744073709551615\n",
    ),
];

#[test]
fn lines_of_tasks(rt: HostRuntime) {
    are_lines(&rt, TASKS);
}

#[test]
fn lines_of_the_executor(rt: HostRuntime) {
    are_lines(&rt, OF_THE_EXECUTOR);
}

#[test]
fn lines_of_how_far_the_executor_is(rt: HostRuntime) {
    are_lines(&rt, HOW_FAR);
}

#[test]
fn lines_of_runs(rt: HostRuntime) {
    are_lines(&rt, RUNS);
}

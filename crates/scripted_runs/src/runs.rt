//! When tasks run.
ghost use Rattle.std.specs.Prelude.{◌<◌, length};

use crate::Row;

const ALL: &[Row] = &[
    ONE_DELAY,
    // Calls that a clock skips are made at their own moments.
    Row {
        name: "calls in a jump",
        plan: "version = 1\nblock = [{ call = [\
               { at = 30, op = 'schedule', name = 'a', delay = 0 },\
               { at = 50, op = 'schedule', name = 'b', delay = 0 }] }]",
        workers: 1,
        events: "clock 0\nclock 100\n",
        trace: "0 clock\n30 submit 0 schedule due 30\n50 submit 1 schedule due 50\n100 clock\n",
    },
    ERRORS,
    // A late task at a fixed rate keeps its due moments.
    Row {
        name: "a late rate",
        plan: "version = 1\nblock = [{ call = [\
               { op = 'rate', name = 'a', first = 10, period = 10 }] }]",
        workers: 1,
        events: "clock 25\nstart 0\nfinish 0 ok 1\nstart 0\n",
        trace: "0 submit 0 rate due 10\n\
                25 clock\n25 start 0 task 0 run 0 due 10\n25 finish 0 task 0 run 0 again due 20\n\
                25 start 0 task 0 run 1 due 20\n",
    },
    // A fixed delay counts from the finish.
    Row {
        name: "a fixed delay",
        plan: "version = 1\nblock = [{ call = [\
               { op = 'fixed', name = 'a', first = 10, delay = 10 }] }]",
        workers: 1,
        events: "clock 35\nstart 0\nclock 38\nfinish 0 ok 1\n",
        trace: "0 submit 0 fixed due 10\n\
                35 clock\n35 start 0 task 0 run 0 due 10\n\
                38 clock\n38 finish 0 task 0 run 0 again due 48\n",
    },
    TIES,
    NO_OVERLAP,
    NOTHING_RUNS_AFTER_A_FAILURE,
    Row {
        name: "the most workers",
        plan: "version = 1\nblock = [{ call = [{ op = 'schedule', name = 'a', delay = 0 }] }]",
        workers: 64,
        events: "clock 0\nstart 63\nstart 64\n",
        trace: "0 submit 0 schedule due 0\n0 clock\n0 start 63 task 0 run 0 due 0\n0 error no worker\n",
    },
    Row {
        name: "no calls",
        plan: "version = 1",
        workers: 1,
        events: "clock 3\nstart 0\ncancel 0\n",
        trace: "3 clock\n3 start 0 idle\n3 error no task\n",
    },
    Row {
        name: "nothing happens",
        plan: "version = 1",
        workers: 1,
        events: "",
        trace: "",
    },
    TWO_WORKERS,
];

/// The rows of this module.
pub fn all() -> &'static [Row]
    ensures { 0 < length result.now }
{
    ALL
}

/// A task waits for its due moment.
pub const ONE_DELAY: Row = Row {
    name: "one delay",
    plan: "version = 1\nblock = [{ call = [{ op = 'schedule', name = 'a', delay = 5 }] }]",
    workers: 1,
    events: "clock 0\nstart 0\nclock 4\nstart 0\nclock 5\nstart 0\nfinish 0 ok 7\n",
    trace: "0 submit 0 schedule due 5\n0 clock\n0 start 0 idle\n\
            4 clock\n4 start 0 idle\n\
            5 clock\n5 start 0 task 0 run 0 due 5\n5 finish 0 task 0 run 0 done 7\n",
};

/// Wrong events have no effect.
pub const ERRORS: Row = Row {
    name: "errors",
    plan: "version = 1\nblock = [{ call = [{ op = 'schedule', name = 'a', delay = 0 }] }]",
    workers: 1,
    events: "clock 5\nclock 4\nstart 9\nstart 0\nstart 0\nfinish 0 ok 2\nfinish 0 ok 2\n\
             cancel 99\n",
    trace: "0 submit 0 schedule due 0\n\
            5 clock\n5 error backward\n5 error no worker\n5 start 0 task 0 run 0 due 0\n\
            5 error busy\n5 finish 0 task 0 run 0 done 2\n5 error not running\n\
            5 error no task\n",
};

/// A task that runs again keeps its place in ties.
pub const TIES: Row = Row {
    name: "ties",
    plan: "version = 1\nblock = [{ call = [\
           { op = 'rate', name = 'a', first = 10, period = 10 },\
           { op = 'schedule', name = 'b', delay = 20 }] }]",
    workers: 1,
    events: "clock 10\nstart 0\nfinish 0 ok 1\nclock 20\nstart 0\n",
    trace: "0 submit 0 rate due 10\n0 submit 1 schedule due 20\n\
            10 clock\n10 start 0 task 0 run 0 due 10\n10 finish 0 task 0 run 0 again due 20\n\
            20 clock\n20 start 0 task 0 run 1 due 20\n",
};

/// Runs of one task do not overlap.
pub const NO_OVERLAP: Row = Row {
    name: "no overlap",
    plan: "version = 1\nblock = [{ call = [\
           { op = 'rate', name = 'a', first = 10, period = 10 }] }]",
    workers: 2,
    events: "clock 10\nstart 0\nclock 25\nstart 1\nfinish 0 ok 1\nstart 1\n",
    trace: "0 submit 0 rate due 10\n\
            10 clock\n10 start 0 task 0 run 0 due 10\n\
            25 clock\n25 start 1 idle\n25 finish 0 task 0 run 0 again due 20\n\
            25 start 1 task 0 run 1 due 20\n",
};

pub const NOTHING_RUNS_AFTER_A_FAILURE: Row = Row {
    name: "nothing runs after a failure",
    plan: "version = 1\nblock = [{ call = [{ op = 'fixed', name = 'a', first = 0, delay = 5 }] }]",
    workers: 1,
    events: "clock 0\nstart 0\nfinish 0 fail 3\nclock 100\nstart 0\n",
    trace: "0 submit 0 fixed due 0\n0 clock\n0 start 0 task 0 run 0 due 0\n\
            0 finish 0 task 0 run 0 failed 3\n\
            100 clock\n100 start 0 idle\n",
};

/// A worker that waits is named by the least number.
pub const TWO_WORKERS: Row = Row {
    name: "two workers",
    plan: "version = 1\nblock = [{ call = [\
           { op = 'rate', name = 'a', first = 10, period = 10 }] }]",
    workers: 2,
    events: "clock 10\nstart 0\nclock 25\nstart 1\nstart 0\nfinish 1 ok 1\nfinish 0 ok 1\n\
             start 1\nstart 1\nfinish 0 ok 1\n",
    trace: "0 submit 0 rate due 10\n\
            10 clock\n10 start 0 task 0 run 0 due 10\n\
            25 clock\n25 start 1 idle\n25 error busy\n25 error not running\n\
            25 finish 0 task 0 run 0 again due 20\n25 start 1 task 0 run 1 due 20\n\
            25 error busy\n25 error not running\n",
};

//! Blocks that are repeated.
ghost use Rattle.std.specs.Prelude.{◌<◌, length};

use crate::Row;

const ALL: &[Row] = &[
    EACH_ITERATION_SUBMITS_AND_CANCELS_ITS_OWN_TASK,
    // The first shutdown at once ends the first task, and the others are rejected.
    Row {
        name: "each iteration shuts down at once",
        plan: "version = 1\nblock = [{ call = [\
               { op = 'schedule', name = 'a', delay = 500 }] },\
               { at = 100, times = 3, every = 10, call = [\
               { op = 'schedule', name = 'b', delay = 50 },\
               { at = 4, op = 'shutdown_now' }] }]",
        workers: 1,
        events: "clock 124\n",
        trace: "0 submit 0 schedule due 500\n\
                100 submit 1 schedule due 150\n\
                104 shutdown now\n104 end 0\n104 end 1\n\
                110 refuse 2 rejected\n\
                114 shutdown now\n\
                120 refuse 3 rejected\n\
                124 shutdown now\n124 clock\n",
    },
    A_REPEATED_BLOCK,
    // The first task is cancelled while it waits, the second while it runs, and the third while it waits again.
    Row {
        name: "a repeated execute is cancelled anew",
        plan: "version = 1\nblock = [{ at = 100, times = 3, every = 10, call = [\
               { op = 'execute', name = 'a' },\
               { at = 4, op = 'cancel', name = 'a' }] }]",
        workers: 1,
        events: "clock 110\nstart 0\nclock 114\nfinish 0 ok 7\nclock 130\nstart 0\n",
        trace: "100 submit 0 schedule due 100\n\
                104 cancel 0 yes\n\
                110 submit 1 schedule due 110\n110 clock\n110 start 0 task 1 run 0 due 110\n\
                114 cancel 1 yes\n114 clock\n114 finish 0 task 1 run 0 dropped\n\
                120 submit 2 schedule due 120\n\
                124 cancel 2 yes\n\
                130 clock\n130 start 0 idle\n",
    },
    // Where each is run in time, its cancel comes too late.
    Row {
        name: "a repeated execute is run each time",
        plan: "version = 1\nblock = [{ at = 100, times = 3, every = 10, call = [\
               { op = 'execute', name = 'a' },\
               { at = 4, op = 'cancel', name = 'a' }] }]",
        workers: 1,
        events: "clock 100\nstart 0\nfinish 0 ok 1\nclock 110\nstart 0\nfinish 0 fail 2\n\
                 clock 120\nstart 0\nfinish 0 ok 3\nclock 124\n",
        trace: "100 submit 0 schedule due 100\n100 clock\n100 start 0 task 0 run 0 due 100\n\
                100 finish 0 task 0 run 0 done 1\n\
                104 cancel 0 no\n\
                110 submit 1 schedule due 110\n110 clock\n110 start 0 task 1 run 0 due 110\n\
                110 finish 0 task 1 run 0 failed 2\n\
                114 cancel 1 no\n\
                120 submit 2 schedule due 120\n120 clock\n120 start 0 task 2 run 0 due 120\n\
                120 finish 0 task 2 run 0 done 3\n\
                124 cancel 2 no\n124 clock\n",
    },
    // The first shutdown at once ends the task of its own time; those of the later times are rejected.
    Row {
        name: "a repeated block shuts down at once",
        plan: "version = 1\nblock = [{ call = [\
               { op = 'rate', name = 'beat', first = 0, period = 50 }] },\
               { at = 10, times = 3, every = 10, call = [\
               { op = 'execute', name = 'job' },\
               { at = 5, op = 'shutdown_now' }, { at = 5, op = 'ask' }] }]",
        workers: 1,
        events: "clock 10\nstart 0\nclock 40\nfinish 0 ok 1\nstart 0\n",
        trace: "0 submit 0 rate due 0\n\
                10 submit 1 schedule due 10\n10 clock\n10 start 0 task 0 run 0 due 0\n\
                15 shutdown now\n15 end 1\n15 ask queue 0 running 1 shutdown yes terminated no\n\
                20 refuse 2 rejected\n\
                25 shutdown now\n25 ask queue 0 running 1 shutdown yes terminated no\n\
                30 refuse 3 rejected\n\
                35 shutdown now\n35 ask queue 0 running 1 shutdown yes terminated no\n\
                40 clock\n40 finish 0 task 0 run 0 ended\n40 start 0 idle\n",
    },
];

/// The rows of this module.
pub fn all() -> &'static [Row]
    ensures { 0 < length result.now }
{
    ALL
}

pub const EACH_ITERATION_SUBMITS_AND_CANCELS_ITS_OWN_TASK: Row = Row {
    name: "each iteration submits and cancels its own task",
    plan: "version = 1\nblock = [{ at = 100, times = 3, every = 10, call = [\
           { op = 'schedule', name = 'a', delay = 50 },\
           { at = 4, op = 'cancel', name = 'a' }] }]",
    workers: 1,
    events: "clock 110\nclock 130\n",
    trace: "100 submit 0 schedule due 150\n\
            104 cancel 0 yes\n\
            110 submit 1 schedule due 160\n110 clock\n\
            114 cancel 1 yes\n\
            120 submit 2 schedule due 170\n\
            124 cancel 2 yes\n\
            130 clock\n",
};

/// A repeated block submits and cancels anew.
pub const A_REPEATED_BLOCK: Row = Row {
    name: "a repeated block",
    plan: "version = 1\nblock = [{ at = 100, times = 3, every = 10, call = [\
           { op = 'schedule', name = 'a', delay = 50 },\
           { at = 4, op = 'cancel', name = 'a' }] }]",
    workers: 1,
    events: "clock 130\n",
    trace: "100 submit 0 schedule due 150\n\
            104 cancel 0 yes\n\
            110 submit 1 schedule due 160\n\
            114 cancel 1 yes\n\
            120 submit 2 schedule due 170\n\
            124 cancel 2 yes\n\
            130 clock\n",
};

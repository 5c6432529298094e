//! Tasks that are refused or cancelled.
ghost use Rattle.std.specs.Prelude.{◌<◌, length};

use crate::Row;

const ALL: &[Row] = &[
    AN_ILLEGAL_TASK_HAS_A_NUMBER_AND_NO_RUN,
    A_CANCEL_OF_A_RUN,
    // A cancel of a failed task has no effect.
    Row {
        name: "a failure",
        plan: "version = 1\nblock = [{ call = [{ op = 'fixed', name = 'a', first = 0, delay = 5 }] }]",
        workers: 1,
        events: "clock 0\nstart 0\nfinish 0 fail 3\ncancel 0\nclock 100\nstart 0\n",
        trace: "0 submit 0 fixed due 0\n0 clock\n0 start 0 task 0 run 0 due 0\n\
                0 finish 0 task 0 run 0 failed 3\n0 outside 0 no\n\
                100 clock\n100 start 0 idle\n",
    },
    // A task that was not submitted is not cancelled.
    Row {
        name: "no submission yet",
        plan: "version = 1\nblock = [{ call = [{ at = 10, op = 'schedule', name = 'a', delay = 0 }] }]",
        workers: 1,
        events: "cancel 0\n",
        trace: "0 outside 0 none\n",
    },
    THE_PLAN_CANCELS,
    Row {
        name: "a cancel of a kept task has no effect",
        plan: "version = 1\nblock = [{ call = [\
               { op = 'schedule', name = 'a', delay = 10 },\
               { at = 1, op = 'cancel', name = 'a' },\
               { at = 2, op = 'policy', which = 'remove', value = true },\
               { at = 3, op = 'cancel', name = 'a' }, { at = 3, op = 'ask' }] }]",
        workers: 1,
        events: "clock 3\ncancel 0\n",
        trace: "0 submit 0 schedule due 10\n\
                1 cancel 0 yes\n\
                2 policy remove true\n\
                3 cancel 0 no\n3 ask queue 1 running 0 shutdown no terminated no\n3 clock\n\
                3 outside 0 no\n",
    },
];

/// The rows of this module.
pub fn all() -> &'static [Row]
    ensures { 0 < length result.now }
{
    ALL
}

pub const AN_ILLEGAL_TASK_HAS_A_NUMBER_AND_NO_RUN: Row = Row {
    name: "an illegal task has a number and no run",
    plan: "version = 1\nblock = [{ call = [\
           { op = 'rate', name = 'a', first = 1, period = 0 },\
           { op = 'fixed', name = 'b', first = 1, delay = -1 },\
           { op = 'rate', name = 'c', first = 0, period = 2 }] }]",
    workers: 1,
    events: "clock 0\nstart 0\nfinish 0 ok 1\n",
    trace: "0 refuse 0 illegal\n0 refuse 1 illegal\n0 submit 2 rate due 0\n0 clock\n\
            0 start 0 task 2 run 0 due 0\n0 finish 0 task 2 run 0 again due 2\n",
};

/// A task that is cancelled while it runs is dropped.
pub const A_CANCEL_OF_A_RUN: Row = Row {
    name: "a cancel of a run",
    plan: "version = 1\nblock = [{ call = [{ op = 'rate', name = 'a', first = 0, period = 5 }] }]",
    workers: 1,
    events: "clock 0\nstart 0\ncancel 0\ncancel 0\nfinish 0 ok 1\nclock 9\nstart 0\n",
    trace: "0 submit 0 rate due 0\n0 clock\n0 start 0 task 0 run 0 due 0\n0 outside 0 yes\n\
            0 outside 0 no\n0 finish 0 task 0 run 0 dropped\n\
            9 clock\n9 start 0 idle\n",
};

pub const THE_PLAN_CANCELS: Row = Row {
    name: "the plan cancels",
    plan: "version = 1\nblock = [{ call = [\
           { op = 'rate', name = 'a', first = 0, period = 0 }, { op = 'cancel', name = 'a' },\
           { op = 'schedule', name = 'b', delay = 1 },\
           { at = 1, op = 'cancel', name = 'b' }, { at = 1, op = 'cancel', name = 'b' }] }]",
    workers: 1,
    events: "clock 1\nstart 0\n",
    trace: "0 refuse 0 illegal\n0 cancel 0 none\n0 submit 1 schedule due 1\n\
            1 cancel 1 yes\n1 cancel 1 no\n1 clock\n1 start 0 idle\n",
};

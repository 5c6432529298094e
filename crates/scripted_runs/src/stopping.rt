//! What comes of tasks once the executor is shut at once.
ghost use Rattle.std.specs.Prelude.{◌<◌, length};

use crate::Row;

const ALL: &[Row] = &[
    A_SHUTDOWN_AT_ONCE,
    A_SHUTDOWN_AT_ONCE_AFTER_A_SHUTDOWN,
    ALL_THAT_A_SHUTDOWN_LEAVES_END,
    Row {
        name: "an executor is shut at once before any task",
        plan: "version = 1\nblock = [{ call = [\
               { op = 'shutdown_now' }, { op = 'ask' },\
               { at = 1, op = 'schedule', name = 'a', delay = 0 },\
               { at = 1, op = 'rate', name = 'b', first = 0, period = 0 },\
               { at = 1, op = 'rate', name = 'c', first = 0, period = 1 },\
               { at = 1, op = 'fixed', name = 'd', first = 0, delay = 1 },\
               { at = 1, op = 'ask' }] }]",
        workers: 1,
        events: "clock 1\nstart 0\ncancel 0\n",
        trace: "0 shutdown now\n0 ask queue 0 running 0 shutdown yes terminated yes\n\
                1 refuse 0 rejected\n1 refuse 1 illegal\n1 refuse 2 rejected\n1 refuse 3 rejected\n\
                1 ask queue 0 running 0 shutdown yes terminated yes\n1 clock\n1 start 0 idle\n\
                1 outside 0 none\n",
    },
    A_SECOND_ONE_ENDS_NOTHING_MORE,
    KEPT_TASKS_LEAVE,
    Row {
        name: "runs under way go on to their ends where continue is false",
        plan: "version = 1\nblock = [{ call = [\
               { op = 'schedule', name = 'a', delay = 0 },\
               { op = 'schedule', name = 'b', delay = 0 },\
               { op = 'rate', name = 'c', first = 0, period = 5 },\
               { op = 'rate', name = 'd', first = 0, period = 5 },\
               { op = 'fixed', name = 'e', first = 0, delay = 5 },\
               { op = 'fixed', name = 'f', first = 0, delay = 5 },\
               { op = 'policy', which = 'continue', value = false },\
               { at = 1, op = 'shutdown_now' },\
               { at = 1, op = 'policy', which = 'continue', value = false },\
               { at = 1, op = 'ask' },\
               { at = 9, op = 'ask' }] }]",
        workers: 6,
        events: "clock 0\nstart 0\nstart 1\nstart 2\nstart 3\nstart 4\nstart 5\nclock 1\n\
                 finish 0 ok 2\nfinish 1 fail 3\nfinish 2 ok 2\nfinish 3 fail 3\nfinish 4 ok 2\n\
                 finish 5 fail 3\ncancel 0\ncancel 1\ncancel 2\ncancel 3\ncancel 4\ncancel 5\n\
                 clock 9\nstart 0\n",
        trace: "0 submit 0 schedule due 0\n0 submit 1 schedule due 0\n0 submit 2 rate due 0\n\
                0 submit 3 rate due 0\n0 submit 4 fixed due 0\n0 submit 5 fixed due 0\n\
                0 policy continue false\n0 clock\n0 start 0 task 0 run 0 due 0\n\
                0 start 1 task 1 run 0 due 0\n0 start 2 task 2 run 0 due 0\n\
                0 start 3 task 3 run 0 due 0\n0 start 4 task 4 run 0 due 0\n\
                0 start 5 task 5 run 0 due 0\n\
                1 shutdown now\n1 policy continue false\n\
                1 ask queue 0 running 6 shutdown yes terminated no\n1 clock\n\
                1 finish 0 task 0 run 0 done 2\n1 finish 1 task 1 run 0 failed 3\n\
                1 finish 2 task 2 run 0 ended\n1 finish 3 task 3 run 0 failed 3\n\
                1 finish 4 task 4 run 0 ended\n1 finish 5 task 5 run 0 failed 3\n1 outside 0 no\n\
                1 outside 1 no\n1 outside 2 no\n1 outside 3 no\n1 outside 4 no\n1 outside 5 no\n\
                9 ask queue 0 running 0 shutdown yes terminated yes\n9 clock\n9 start 0 idle\n",
    },
    Row {
        name: "runs under way go on to their ends where continue is true",
        plan: "version = 1\nblock = [{ call = [\
               { op = 'schedule', name = 'a', delay = 0 },\
               { op = 'schedule', name = 'b', delay = 0 },\
               { op = 'rate', name = 'c', first = 0, period = 5 },\
               { op = 'rate', name = 'd', first = 0, period = 5 },\
               { op = 'fixed', name = 'e', first = 0, delay = 5 },\
               { op = 'fixed', name = 'f', first = 0, delay = 5 },\
               { op = 'policy', which = 'continue', value = true },\
               { at = 1, op = 'shutdown_now' },\
               { at = 1, op = 'policy', which = 'continue', value = true },\
               { at = 1, op = 'ask' },\
               { at = 9, op = 'ask' }] }]",
        workers: 6,
        events: "clock 0\nstart 0\nstart 1\nstart 2\nstart 3\nstart 4\nstart 5\nclock 1\n\
                 finish 0 ok 2\nfinish 1 fail 3\nfinish 2 ok 2\nfinish 3 fail 3\nfinish 4 ok 2\n\
                 finish 5 fail 3\ncancel 0\ncancel 1\ncancel 2\ncancel 3\ncancel 4\ncancel 5\n\
                 clock 9\nstart 0\n",
        trace: "0 submit 0 schedule due 0\n0 submit 1 schedule due 0\n0 submit 2 rate due 0\n\
                0 submit 3 rate due 0\n0 submit 4 fixed due 0\n0 submit 5 fixed due 0\n\
                0 policy continue true\n0 clock\n0 start 0 task 0 run 0 due 0\n\
                0 start 1 task 1 run 0 due 0\n0 start 2 task 2 run 0 due 0\n\
                0 start 3 task 3 run 0 due 0\n0 start 4 task 4 run 0 due 0\n\
                0 start 5 task 5 run 0 due 0\n\
                1 shutdown now\n1 policy continue true\n\
                1 ask queue 0 running 6 shutdown yes terminated no\n1 clock\n\
                1 finish 0 task 0 run 0 done 2\n1 finish 1 task 1 run 0 failed 3\n\
                1 finish 2 task 2 run 0 ended\n1 finish 3 task 3 run 0 failed 3\n\
                1 finish 4 task 4 run 0 ended\n1 finish 5 task 5 run 0 failed 3\n1 outside 0 no\n\
                1 outside 1 no\n1 outside 2 no\n1 outside 3 no\n1 outside 4 no\n1 outside 5 no\n\
                9 ask queue 0 running 0 shutdown yes terminated yes\n9 clock\n9 start 0 idle\n",
    },
    A_CANCELLED_RUN_IS_DROPPED,
    // Tasks that are due before the shutdown at once, at its moment and after it end alike.
    Row {
        name: "tasks that are due end too",
        plan: "version = 1\nblock = [{ call = [\
               { op = 'schedule', name = 'a', delay = 4 },\
               { op = 'schedule', name = 'b', delay = 5 },\
               { op = 'schedule', name = 'c', delay = 6 },\
               { op = 'rate', name = 'd', first = 4, period = 5 },\
               { op = 'rate', name = 'e', first = 5, period = 5 },\
               { at = 5, op = 'shutdown_now' }] }]",
        workers: 1,
        events: "clock 5\nstart 0\n",
        trace: "0 submit 0 schedule due 4\n0 submit 1 schedule due 5\n0 submit 2 schedule due 6\n\
                0 submit 3 rate due 4\n0 submit 4 rate due 5\n\
                5 shutdown now\n5 end 0\n5 end 1\n5 end 2\n5 end 3\n5 end 4\n5 clock\n\
                5 start 0 idle\n",
    },
    POLICIES_THAT_ARE_SET_AFTER_IT_END_NOTHING,
    Row {
        name: "an executor is terminated once the last run has ended",
        plan: "version = 1\nblock = [{ call = [\
               { op = 'schedule', name = 'a', delay = 0 },\
               { op = 'rate', name = 'b', first = 0, period = 5 },\
               { at = 1, op = 'shutdown_now' }, { at = 1, op = 'ask' },\
               { at = 2, op = 'ask' },\
               { at = 3, op = 'ask' }] }]",
        workers: 2,
        events: "clock 0\nstart 0\nstart 1\nclock 1\nfinish 1 ok 1\nclock 2\nfinish 0 ok 1\nclock 3\n",
        trace: "0 submit 0 schedule due 0\n0 submit 1 rate due 0\n0 clock\n\
                0 start 0 task 0 run 0 due 0\n0 start 1 task 1 run 0 due 0\n\
                1 shutdown now\n1 ask queue 0 running 2 shutdown yes terminated no\n1 clock\n\
                1 finish 1 task 1 run 0 ended\n\
                2 ask queue 0 running 1 shutdown yes terminated no\n2 clock\n\
                2 finish 0 task 0 run 0 done 1\n\
                3 ask queue 0 running 0 shutdown yes terminated yes\n3 clock\n",
    },
];

/// The rows of this module.
pub fn all() -> &'static [Row]
    ensures { 0 < length result.now }
{
    ALL
}

/// After the shutdown at once a run goes on to its end, and nothing starts.
pub const A_SHUTDOWN_AT_ONCE: Row = Row {
    name: "a shutdown at once",
    plan: "version = 1\nblock = [{ call = [\
           { op = 'schedule', name = 'a', delay = 9 },\
           { op = 'rate', name = 'b', first = 0, period = 2 }, { op = 'execute', name = 'c' },\
           { op = 'schedule', name = 'd', delay = 7 },\
           { at = 1, op = 'cancel', name = 'd' },\
           { at = 2, op = 'shutdown_now' }, { at = 2, op = 'ask' },\
           { at = 3, op = 'policy', which = 'continue', value = true },\
           { at = 4, op = 'execute', name = 'e' }] }]",
    workers: 1,
    events: "clock 0\nstart 0\nclock 3\nfinish 0 ok 1\nstart 0\nclock 4\n",
    trace: "0 submit 0 schedule due 9\n0 submit 1 rate due 0\n0 submit 2 schedule due 0\n\
            0 submit 3 schedule due 7\n0 clock\n0 start 0 task 1 run 0 due 0\n\
            1 cancel 3 yes\n\
            2 shutdown now\n2 end 0\n2 end 2\n\
            2 ask queue 0 running 1 shutdown yes terminated no\n\
            3 policy continue true\n3 clock\n3 finish 0 task 1 run 0 ended\n3 start 0 idle\n\
            4 refuse 4 rejected\n4 clock\n",
};

/// A periodic task that goes on after a shutdown ends at one at once. Each of these may come again.
pub const A_SHUTDOWN_AT_ONCE_AFTER_A_SHUTDOWN: Row = Row {
    name: "a shutdown at once after a shutdown",
    plan: "version = 1\nblock = [{ call = [\
           { op = 'rate', name = 'a', first = 5, period = 5 },\
           { op = 'policy', which = 'continue', value = true },\
           { at = 1, op = 'shutdown' },\
           { at = 2, op = 'shutdown_now' },\
           { at = 3, op = 'shutdown' }, { at = 3, op = 'shutdown_now' }] }]",
    workers: 1,
    events: "clock 3\n",
    trace: "0 submit 0 rate due 5\n0 policy continue true\n\
            1 shutdown\n\
            2 shutdown now\n2 end 0\n\
            3 shutdown again\n3 shutdown now\n3 clock\n",
};

/// Those that a shutdown leaves by its policies: a periodic task, a delayed one, one that is due, and a kept one.
pub const ALL_THAT_A_SHUTDOWN_LEAVES_END: Row = Row {
    name: "all that a shutdown leaves end",
    plan: "version = 1\nblock = [{ call = [\
           { op = 'policy', which = 'continue', value = true },\
           { op = 'schedule', name = 'a', delay = 1 },\
           { op = 'fixed', name = 'b', first = 5, delay = 5 },\
           { op = 'schedule', name = 'c', delay = 9 },\
           { op = 'schedule', name = 'd', delay = 9 },\
           { at = 1, op = 'shutdown' }, { at = 1, op = 'cancel', name = 'c' },\
           { at = 2, op = 'ask' }, { at = 2, op = 'shutdown_now' }, { at = 2, op = 'ask' }] }]",
    workers: 1,
    events: "clock 2\n",
    trace: "0 policy continue true\n0 submit 0 schedule due 1\n0 submit 1 fixed due 5\n\
            0 submit 2 schedule due 9\n0 submit 3 schedule due 9\n\
            1 shutdown\n1 cancel 2 yes\n\
            2 ask queue 4 running 0 shutdown yes terminated no\n2 shutdown now\n2 end 0\n\
            2 end 1\n2 end 3\n2 ask queue 0 running 0 shutdown yes terminated yes\n2 clock\n",
};

pub const A_SECOND_ONE_ENDS_NOTHING_MORE: Row = Row {
    name: "a second one ends nothing more",
    plan: "version = 1\nblock = [{ call = [\
           { op = 'schedule', name = 'a', delay = 9 },\
           { at = 1, op = 'shutdown_now' }, { at = 1, op = 'shutdown_now' },\
           { at = 2, op = 'cancel', name = 'a' }, { at = 2, op = 'shutdown_now' },\
           { at = 2, op = 'shutdown' }, { at = 2, op = 'ask' }] }]",
    workers: 1,
    events: "clock 2\n",
    trace: "0 submit 0 schedule due 9\n\
            1 shutdown now\n1 end 0\n1 shutdown now\n\
            2 cancel 0 no\n2 shutdown now\n2 shutdown again\n\
            2 ask queue 0 running 0 shutdown yes terminated yes\n2 clock\n",
};

pub const KEPT_TASKS_LEAVE: Row = Row {
    name: "kept tasks leave",
    plan: "version = 1\nblock = [{ call = [\
           { op = 'schedule', name = 'a', delay = 9 },\
           { op = 'rate', name = 'b', first = 1, period = 2 },\
           { op = 'schedule', name = 'c', delay = 9 },\
           { at = 1, op = 'cancel', name = 'b' }, { at = 1, op = 'cancel', name = 'c' },\
           { at = 1, op = 'ask' },\
           { at = 2, op = 'shutdown_now' }, { at = 2, op = 'ask' },\
           { at = 3, op = 'cancel', name = 'c' }] }]",
    workers: 1,
    events: "clock 9\nstart 0\n",
    trace: "0 submit 0 schedule due 9\n0 submit 1 rate due 1\n0 submit 2 schedule due 9\n\
            1 cancel 1 yes\n1 cancel 2 yes\n1 ask queue 3 running 0 shutdown no terminated no\n\
            2 shutdown now\n2 end 0\n2 ask queue 0 running 0 shutdown yes terminated yes\n\
            3 cancel 2 no\n\
            9 clock\n9 start 0 idle\n",
};

/// One run is cancelled before the shutdown at once, one after it by the plan, and one from outside.
pub const A_CANCELLED_RUN_IS_DROPPED: Row = Row {
    name: "a cancelled run is dropped",
    plan: "version = 1\nblock = [{ call = [\
           { op = 'rate', name = 'a', first = 0, period = 5 },\
           { op = 'schedule', name = 'b', delay = 0 },\
           { op = 'rate', name = 'c', first = 0, period = 5 },\
           { at = 1, op = 'cancel', name = 'a' }, { at = 1, op = 'shutdown_now' },\
           { at = 2, op = 'cancel', name = 'b' }] }]",
    workers: 3,
    events: "clock 0\nstart 0\nstart 1\nstart 2\nclock 2\ncancel 2\ncancel 2\nfinish 0 ok 1\n\
             finish 1 ok 1\nfinish 2 fail 1\n",
    trace: "0 submit 0 rate due 0\n0 submit 1 schedule due 0\n0 submit 2 rate due 0\n0 clock\n\
            0 start 0 task 0 run 0 due 0\n0 start 1 task 1 run 0 due 0\n\
            0 start 2 task 2 run 0 due 0\n\
            1 cancel 0 yes\n1 shutdown now\n\
            2 cancel 1 yes\n2 clock\n2 outside 2 yes\n2 outside 2 no\n\
            2 finish 0 task 0 run 0 dropped\n2 finish 1 task 1 run 0 dropped\n\
            2 finish 2 task 2 run 0 dropped\n",
};

/// Each policy is set to each value after a shutdown at once, while a periodic task runs.
pub const POLICIES_THAT_ARE_SET_AFTER_IT_END_NOTHING: Row = Row {
    name: "policies that are set after it end nothing",
    plan: "version = 1\nblock = [{ call = [\
           { op = 'fixed', name = 'a', first = 0, delay = 5 },\
           { op = 'schedule', name = 'b', delay = 9 },\
           { at = 1, op = 'shutdown_now' },\
           { at = 2, op = 'policy', which = 'execute', value = false },\
           { at = 2, op = 'policy', which = 'execute', value = true },\
           { at = 2, op = 'policy', which = 'continue', value = false },\
           { at = 2, op = 'policy', which = 'continue', value = true },\
           { at = 2, op = 'policy', which = 'remove', value = false },\
           { at = 2, op = 'policy', which = 'remove', value = true }] }]",
    workers: 1,
    events: "clock 0\nstart 0\nclock 2\nfinish 0 ok 1\nstart 0\n",
    trace: "0 submit 0 fixed due 0\n0 submit 1 schedule due 9\n0 clock\n\
            0 start 0 task 0 run 0 due 0\n\
            1 shutdown now\n1 end 1\n\
            2 policy execute false\n2 policy execute true\n2 policy continue false\n\
            2 policy continue true\n2 policy remove false\n2 policy remove true\n2 clock\n\
            2 finish 0 task 0 run 0 ended\n2 start 0 idle\n",
};

//! What comes of tasks once the executor is shut.
ghost use Rattle.std.specs.Prelude.{◌<◌, length};

use crate::Row;

const ALL: &[Row] = &[
    REFUSALS,
    A_SWEEP,
    AN_ENDED_RUN,
    Row {
        name: "a run ends after a shutdown where continue is false",
        plan: "version = 1\nblock = [{ call = [\
               { op = 'rate', name = 'a', first = 0, period = 5 },\
               { op = 'policy', which = 'continue', value = false },\
               { at = 1, op = 'shutdown' }] }]",
        workers: 1,
        events: "clock 0\nstart 0\nclock 1\nfinish 0 ok 2\ncancel 0\nclock 9\nstart 0\n",
        trace: "0 submit 0 rate due 0\n0 policy continue false\n0 clock\n\
                0 start 0 task 0 run 0 due 0\n\
                1 shutdown\n1 clock\n1 finish 0 task 0 run 0 ended\n1 outside 0 no\n\
                9 clock\n9 start 0 idle\n",
    },
    Row {
        name: "a run goes on after a shutdown where continue is true",
        plan: "version = 1\nblock = [{ call = [\
               { op = 'rate', name = 'a', first = 0, period = 5 },\
               { op = 'policy', which = 'continue', value = true },\
               { at = 1, op = 'shutdown' }] }]",
        workers: 1,
        events: "clock 0\nstart 0\nclock 1\nfinish 0 ok 2\ncancel 0\nclock 9\nstart 0\n",
        trace: "0 submit 0 rate due 0\n0 policy continue true\n0 clock\n\
                0 start 0 task 0 run 0 due 0\n\
                1 shutdown\n1 clock\n1 finish 0 task 0 run 0 again due 5\n1 outside 0 yes\n\
                9 clock\n9 start 0 idle\n",
    },
    Row {
        name: "a later sweep ends tasks that ran at the first",
        plan: "version = 1\nblock = [{ call = [\
               { op = 'rate', name = 'a', first = 0, period = 5 },\
               { op = 'rate', name = 'b', first = 0, period = 5 },\
               { op = 'rate', name = 'c', first = 0, period = 5 },\
               { op = 'rate', name = 'd', first = 9, period = 5 },\
               { at = 1, op = 'shutdown' },\
               { at = 2, op = 'policy', which = 'continue', value = true },\
               { at = 4, op = 'policy', which = 'continue', value = false },\
               { at = 6, op = 'policy', which = 'continue', value = true },\
               { at = 8, op = 'policy', which = 'continue', value = false }] }]",
        workers: 3,
        events: "clock 0\nstart 0\nstart 1\nstart 2\nclock 2\nfinish 2 ok 1\nfinish 1 ok 1\n\
                 clock 6\nfinish 0 ok 1\nclock 8\n",
        trace: "0 submit 0 rate due 0\n0 submit 1 rate due 0\n0 submit 2 rate due 0\n\
                0 submit 3 rate due 9\n0 clock\n0 start 0 task 0 run 0 due 0\n\
                0 start 1 task 1 run 0 due 0\n0 start 2 task 2 run 0 due 0\n\
                1 shutdown\n1 end 3\n\
                2 policy continue true\n2 clock\n2 finish 2 task 2 run 0 again due 5\n\
                2 finish 1 task 1 run 0 again due 5\n\
                4 policy continue false\n4 end 1\n4 end 2\n\
                6 policy continue true\n6 clock\n6 finish 0 task 0 run 0 again due 5\n\
                8 policy continue false\n8 end 0\n8 clock\n",
    },
    // What is wrong with an event is answered, and ends of tasks stand behind the shutdown.
    Row {
        name: "two workers and a shutdown",
        plan: "version = 1\nblock = [{ call = [\
               { op = 'rate', name = 'a', first = 10, period = 10 },\
               { op = 'schedule', name = 'b', delay = 10 },\
               { op = 'schedule', name = 'c', delay = 30 },\
               { at = 20, op = 'policy', which = 'execute', value = false },\
               { at = 20, op = 'shutdown' }] }]",
        workers: 2,
        events: "clock 10\nstart 0\nstart 1\nstart 2\nstart 1\nfinish 1 fail 4294967295\nclock 20\n\
                 finish 0 ok 18446744073709551615\nclock 18446744073709551615\n",
        trace: "0 submit 0 rate due 10\n0 submit 1 schedule due 10\n0 submit 2 schedule due 30\n\
                10 clock\n10 start 0 task 0 run 0 due 10\n10 start 1 task 1 run 0 due 10\n\
                10 error no worker\n10 error busy\n10 finish 1 task 1 run 0 failed 4294967295\n\
                20 policy execute false\n20 shutdown\n20 end 2\n20 clock\n\
                20 finish 0 task 0 run 0 ended\n20 error too far\n",
    },
];

/// The rows of this module.
pub fn all() -> &'static [Row]
    ensures { 0 < length result.now }
{
    ALL
}

/// An illegal period is told before the shutdown.
pub const REFUSALS: Row = Row {
    name: "refusals",
    plan: "version = 1\nblock = [{ call = [\
           { op = 'schedule', name = 'a', delay = -5 },\
           { op = 'rate', name = 'b', first = 1, period = 0 }, { op = 'shutdown' },\
           { op = 'fixed', name = 'c', first = 1, delay = -1 },\
           { op = 'rate', name = 'd', first = 1, period = 1 }] }]",
    workers: 1,
    events: "clock 0\nstart 0\n",
    trace: "0 submit 0 schedule due 0\n0 refuse 1 illegal\n0 shutdown\n0 refuse 2 illegal\n\
            0 refuse 3 rejected\n0 clock\n0 start 0 task 0 run 0 due 0\n",
};

/// Elapsed tasks still run, and a second shutdown does nothing.
pub const A_SWEEP: Row = Row {
    name: "a sweep",
    plan: "version = 1\nblock = [{ call = [\
           { op = 'policy', which = 'execute', value = false },\
           { op = 'schedule', name = 'a', delay = 1 },\
           { op = 'schedule', name = 'b', delay = 100 },\
           { op = 'rate', name = 'c', first = 3, period = 3 },\
           { at = 5, op = 'shutdown' },\
           { at = 6, op = 'shutdown' }, { at = 6, op = 'ask' }] }]",
    workers: 1,
    events: "clock 6\nstart 0\nfinish 0 ok 9\n",
    trace: "0 policy execute false\n0 submit 0 schedule due 1\n0 submit 1 schedule due 100\n\
            0 submit 2 rate due 3\n\
            5 shutdown\n5 end 1\n5 end 2\n\
            6 shutdown again\n6 ask queue 1 running 0 shutdown yes terminated no\n6 clock\n\
            6 start 0 task 0 run 0 due 1\n6 finish 0 task 0 run 0 done 9\n",
};

/// A periodic task that runs at the shutdown.
pub const AN_ENDED_RUN: Row = Row {
    name: "an ended run",
    plan: "version = 1\nblock = [{ call = [\
           { op = 'fixed', name = 'a', first = 0, delay = 4 },\
           { at = 1, op = 'shutdown' },\
           { at = 2, op = 'policy', which = 'continue', value = true },\
           { at = 9, op = 'policy', which = 'continue', value = false }] }]",
    workers: 1,
    events: "clock 0\nstart 0\nclock 3\nfinish 0 ok 1\nclock 7\nstart 0\nclock 9\nfinish 0 ok 1\n",
    trace: "0 submit 0 fixed due 0\n0 clock\n0 start 0 task 0 run 0 due 0\n\
            1 shutdown\n\
            2 policy continue true\n\
            3 clock\n3 finish 0 task 0 run 0 again due 7\n\
            7 clock\n7 start 0 task 0 run 1 due 7\n\
            9 policy continue false\n9 clock\n9 finish 0 task 0 run 1 ended\n",
};

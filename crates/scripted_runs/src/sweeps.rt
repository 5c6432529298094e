//! Whom sweeps end that come one after the other.
ghost use Rattle.std.specs.Prelude.{◌<◌, length};

use crate::Row;

const ALL: &[Row] = &[
    Row {
        name: "later sweeps end the tasks that ran at the first",
        plan: "version = 1\nblock = [{ call = [\
               { op = 'rate', name = 'a', first = 0, period = 5 },\
               { op = 'rate', name = 'b', first = 0, period = 5 },\
               { op = 'fixed', name = 'c', first = 0, delay = 5 },\
               { op = 'fixed', name = 'd', first = 0, delay = 5 },\
               { op = 'rate', name = 'e', first = 0, period = 5 },\
               { op = 'rate', name = 'f', first = 9, period = 5 },\
               { at = 1, op = 'shutdown' },\
               { at = 2, op = 'policy', which = 'continue', value = true },\
               { at = 4, op = 'policy', which = 'continue', value = false },\
               { at = 6, op = 'policy', which = 'continue', value = true },\
               { at = 8, op = 'policy', which = 'continue', value = false }] }]",
        workers: 5,
        events: "clock 0\nstart 0\nstart 1\nstart 2\nstart 3\nstart 4\nclock 2\nfinish 3 ok 7\n\
                 finish 1 ok 7\nfinish 0 fail 9\ncancel 2\nfinish 2 ok 7\nclock 6\nfinish 4 ok 7\n\
                 clock 8\n",
        trace: "0 submit 0 rate due 0\n0 submit 1 rate due 0\n0 submit 2 fixed due 0\n\
                0 submit 3 fixed due 0\n0 submit 4 rate due 0\n0 submit 5 rate due 9\n0 clock\n\
                0 start 0 task 0 run 0 due 0\n0 start 1 task 1 run 0 due 0\n\
                0 start 2 task 2 run 0 due 0\n0 start 3 task 3 run 0 due 0\n\
                0 start 4 task 4 run 0 due 0\n\
                1 shutdown\n1 end 5\n\
                2 policy continue true\n2 clock\n2 finish 3 task 3 run 0 again due 7\n\
                2 finish 1 task 1 run 0 again due 5\n2 finish 0 task 0 run 0 failed 9\n\
                2 outside 2 yes\n2 finish 2 task 2 run 0 dropped\n\
                4 policy continue false\n4 end 1\n4 end 3\n\
                6 policy continue true\n6 clock\n6 finish 4 task 4 run 0 again due 5\n\
                8 policy continue false\n8 end 4\n8 clock\n",
    },
    Row {
        name: "a task that is cancelled while it waits again is not ended",
        plan: "version = 1\nblock = [{ call = [\
               { op = 'rate', name = 'a', first = 0, period = 5 },\
               { op = 'rate', name = 'b', first = 0, period = 5 },\
               { op = 'fixed', name = 'c', first = 0, delay = 5 },\
               { op = 'fixed', name = 'd', first = 0, delay = 5 },\
               { op = 'rate', name = 'e', first = 0, period = 5 },\
               { op = 'rate', name = 'f', first = 9, period = 5 },\
               { at = 1, op = 'shutdown' },\
               { at = 2, op = 'policy', which = 'continue', value = true },\
               { at = 4, op = 'policy', which = 'continue', value = false },\
               { at = 6, op = 'policy', which = 'continue', value = true },\
               { at = 8, op = 'policy', which = 'continue', value = false }] }]",
        workers: 2,
        events: "clock 0\nstart 0\nstart 1\nclock 2\nfinish 1 ok 7\nfinish 0 ok 7\ncancel 0\nclock 8\n",
        trace: "0 submit 0 rate due 0\n0 submit 1 rate due 0\n0 submit 2 fixed due 0\n\
                0 submit 3 fixed due 0\n0 submit 4 rate due 0\n0 submit 5 rate due 9\n0 clock\n\
                0 start 0 task 0 run 0 due 0\n0 start 1 task 1 run 0 due 0\n\
                1 shutdown\n1 end 2\n1 end 3\n1 end 4\n1 end 5\n\
                2 policy continue true\n2 clock\n2 finish 1 task 1 run 0 again due 5\n\
                2 finish 0 task 0 run 0 again due 5\n2 outside 0 yes\n\
                4 policy continue false\n4 end 1\n\
                6 policy continue true\n\
                8 policy continue false\n8 clock\n",
    },
    Row {
        name: "delayed tasks are ended after the periodic ones",
        plan: "version = 1\nblock = [{ call = [\
               { op = 'rate', name = 'a', first = 0, period = 5 },\
               { op = 'schedule', name = 'b', delay = 20 },\
               { at = 1, op = 'shutdown' },\
               { at = 2, op = 'policy', which = 'continue', value = true },\
               { at = 3, op = 'policy', which = 'execute', value = false },\
               { at = 4, op = 'policy', which = 'continue', value = false }] }]",
        workers: 1,
        events: "clock 0\nstart 0\nclock 2\nfinish 0 ok 7\nclock 4\n",
        trace: "0 submit 0 rate due 0\n0 submit 1 schedule due 20\n0 clock\n\
                0 start 0 task 0 run 0 due 0\n\
                1 shutdown\n\
                2 policy continue true\n2 clock\n2 finish 0 task 0 run 0 again due 5\n\
                3 policy execute false\n3 end 1\n\
                4 policy continue false\n4 end 0\n4 clock\n",
    },
    Row {
        name: "periodic tasks are ended after the delayed ones",
        plan: "version = 1\nblock = [{ call = [\
               { op = 'rate', name = 'a', first = 9, period = 5 },\
               { op = 'schedule', name = 'b', delay = 20 },\
               { op = 'policy', which = 'continue', value = true },\
               { at = 1, op = 'shutdown' },\
               { at = 2, op = 'policy', which = 'execute', value = false },\
               { at = 3, op = 'policy', which = 'continue', value = false }] }]",
        workers: 1,
        events: "clock 3\n",
        trace: "0 submit 0 rate due 9\n0 submit 1 schedule due 20\n0 policy continue true\n\
                1 shutdown\n\
                2 policy execute false\n2 end 1\n\
                3 policy continue false\n3 end 0\n3 clock\n",
    },
    // The shutdown notes the periodic task that runs, and the delayed ones are not noted: a shutdown at once ends both, and a
    // task between them.
    Row {
        name: "a shutdown at once ends tasks that were not noted",
        plan: "version = 1\nblock = [{ call = [\
               { op = 'schedule', name = 'a', delay = 20 },\
               { op = 'rate', name = 'b', first = 0, period = 5 },\
               { op = 'schedule', name = 'c', delay = 0 },\
               { op = 'schedule', name = 'd', delay = 30 },\
               { at = 1, op = 'shutdown' },\
               { at = 2, op = 'policy', which = 'continue', value = true },\
               { at = 4, op = 'shutdown_now' },\
               { at = 5, op = 'policy', which = 'continue', value = false },\
               { at = 5, op = 'policy', which = 'execute', value = false }] }]",
        workers: 1,
        events: "clock 0\nstart 0\nclock 2\nfinish 0 ok 7\nclock 5\n",
        trace: "0 submit 0 schedule due 20\n0 submit 1 rate due 0\n0 submit 2 schedule due 0\n\
                0 submit 3 schedule due 30\n0 clock\n0 start 0 task 1 run 0 due 0\n\
                1 shutdown\n\
                2 policy continue true\n2 clock\n2 finish 0 task 1 run 0 again due 5\n\
                4 shutdown now\n4 end 0\n4 end 1\n4 end 2\n4 end 3\n\
                5 policy continue false\n5 policy execute false\n5 clock\n",
    },
    // After a shutdown at once nothing waits: later sweeps end nothing, and periodic runs end with their finish.
    Row {
        name: "sweeps after a shutdown at once end nothing",
        plan: "version = 1\nblock = [{ call = [\
               { op = 'rate', name = 'a', first = 0, period = 5 },\
               { op = 'rate', name = 'b', first = 0, period = 5 },\
               { op = 'rate', name = 'c', first = 0, period = 5 },\
               { op = 'schedule', name = 'd', delay = 9 },\
               { at = 1, op = 'shutdown_now' },\
               { at = 2, op = 'policy', which = 'continue', value = false },\
               { at = 4, op = 'policy', which = 'continue', value = true },\
               { at = 4, op = 'policy', which = 'execute', value = false },\
               { at = 6, op = 'shutdown_now' }] }]",
        workers: 2,
        events: "clock 0\nstart 0\nstart 1\nclock 2\nfinish 1 ok 7\nclock 4\nfinish 0 ok 7\nclock 9\n",
        trace: "0 submit 0 rate due 0\n0 submit 1 rate due 0\n0 submit 2 rate due 0\n\
                0 submit 3 schedule due 9\n0 clock\n0 start 0 task 0 run 0 due 0\n\
                0 start 1 task 1 run 0 due 0\n\
                1 shutdown now\n1 end 2\n1 end 3\n\
                2 policy continue false\n2 clock\n2 finish 1 task 1 run 0 ended\n\
                4 policy continue true\n4 policy execute false\n4 clock\n\
                4 finish 0 task 0 run 0 ended\n\
                6 shutdown now\n\
                9 clock\n",
    },
];

/// The rows of this module.
pub fn all() -> &'static [Row]
    ensures { 0 < length result.now }
{
    ALL
}

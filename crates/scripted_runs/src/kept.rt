//! Tasks that were cancelled while they waited, and still stand in the queue.
ghost use Rattle.std.specs.Prelude.{◌<◌, length};

use crate::Row;

const ALL: &[Row] = &[
    A_KEPT_TASK,
    // The same as the first one, where the remove policy is true.
    Row {
        name: "a removed task",
        plan: "version = 1\nblock = [{ call = [\
               { op = 'policy', which = 'remove', value = true },\
               { op = 'schedule', name = 'a', delay = 10 },\
               { at = 2, op = 'cancel', name = 'a' },\
               { at = 3, op = 'ask' },\
               { at = 20, op = 'ask' }] }]",
        workers: 1,
        events: "clock 15\nstart 0\nclock 20\n",
        trace: "0 policy remove true\n0 submit 0 schedule due 10\n\
                2 cancel 0 yes\n\
                3 ask queue 0 running 0 shutdown no terminated no\n\
                15 clock\n15 start 0 idle\n\
                20 ask queue 0 running 0 shutdown no terminated no\n20 clock\n",
    },
    // A kept task that comes after the one that starts.
    Row {
        name: "an ask while a run is under way",
        plan: "version = 1\nblock = [{ call = [\
               { op = 'schedule', name = 'a', delay = 5 },\
               { op = 'schedule', name = 'b', delay = 6 },\
               { at = 1, op = 'cancel', name = 'b' },\
               { at = 8, op = 'ask' }] }]",
        workers: 1,
        events: "clock 7\nstart 0\nclock 8\n",
        trace: "0 submit 0 schedule due 5\n0 submit 1 schedule due 6\n\
                1 cancel 1 yes\n\
                7 clock\n7 start 0 task 0 run 0 due 5\n\
                8 ask queue 1 running 1 shutdown no terminated no\n8 clock\n",
    },
    A_START_MEETS_THE_KEPT_TASKS_BEFORE_ITS_OWN,
    Row {
        name: "a start meets no kept task behind its own",
        plan: "version = 1\nblock = [{ call = [\
               { op = 'schedule', name = 'a', delay = 6 },\
               { op = 'schedule', name = 'b', delay = 5 },\
               { at = 1, op = 'cancel', name = 'a' },\
               { at = 9, op = 'ask' }] }]",
        workers: 1,
        events: "clock 7\nstart 0\nclock 9\n",
        trace: "0 submit 0 schedule due 6\n0 submit 1 schedule due 5\n\
                1 cancel 0 yes\n\
                7 clock\n7 start 0 task 1 run 0 due 5\n\
                9 ask queue 1 running 1 shutdown no terminated no\n9 clock\n",
    },
    Row {
        name: "of one moment a start meets a kept task of a smaller number",
        plan: "version = 1\nblock = [{ call = [\
               { op = 'schedule', name = 'a', delay = 5 },\
               { op = 'schedule', name = 'b', delay = 5 },\
               { at = 1, op = 'cancel', name = 'a' },\
               { at = 9, op = 'ask' }] }]",
        workers: 1,
        events: "clock 7\nstart 0\nclock 9\n",
        trace: "0 submit 0 schedule due 5\n0 submit 1 schedule due 5\n\
                1 cancel 0 yes\n\
                7 clock\n7 start 0 task 1 run 0 due 5\n\
                9 ask queue 0 running 1 shutdown no terminated no\n9 clock\n",
    },
    Row {
        name: "of one moment a start meets no kept task of a greater number",
        plan: "version = 1\nblock = [{ call = [\
               { op = 'schedule', name = 'a', delay = 5 },\
               { op = 'schedule', name = 'b', delay = 5 },\
               { at = 1, op = 'cancel', name = 'b' },\
               { at = 9, op = 'ask' }] }]",
        workers: 1,
        events: "clock 7\nstart 0\nclock 9\n",
        trace: "0 submit 0 schedule due 5\n0 submit 1 schedule due 5\n\
                1 cancel 1 yes\n\
                7 clock\n7 start 0 task 0 run 0 due 5\n\
                9 ask queue 1 running 1 shutdown no terminated no\n9 clock\n",
    },
    Row {
        name: "a start meets no kept task that is not due",
        plan: "version = 1\nblock = [{ call = [\
               { op = 'schedule', name = 'a', delay = 8 },\
               { op = 'schedule', name = 'b', delay = 5 },\
               { at = 1, op = 'cancel', name = 'a' },\
               { at = 9, op = 'ask' }] }]",
        workers: 1,
        events: "clock 7\nstart 0\nclock 9\n",
        trace: "0 submit 0 schedule due 8\n0 submit 1 schedule due 5\n\
                1 cancel 0 yes\n\
                7 clock\n7 start 0 task 1 run 0 due 5\n\
                9 ask queue 1 running 1 shutdown no terminated no\n9 clock\n",
    },
    Row {
        name: "an idle start meets a kept task that is due",
        plan: "version = 1\nblock = [{ call = [\
               { op = 'schedule', name = 'a', delay = 7 },\
               { op = 'schedule', name = 'b', delay = 8 },\
               { at = 1, op = 'cancel', name = 'a' },\
               { at = 9, op = 'ask' }] }]",
        workers: 1,
        events: "clock 7\nstart 0\nclock 9\n",
        trace: "0 submit 0 schedule due 7\n0 submit 1 schedule due 8\n\
                1 cancel 0 yes\n\
                7 clock\n7 start 0 idle\n\
                9 ask queue 1 running 0 shutdown no terminated no\n9 clock\n",
    },
    Row {
        name: "an idle start meets no kept task that is not due",
        plan: "version = 1\nblock = [{ call = [\
               { op = 'schedule', name = 'a', delay = 8 },\
               { op = 'schedule', name = 'b', delay = 8 },\
               { at = 1, op = 'cancel', name = 'a' },\
               { at = 9, op = 'ask' }] }]",
        workers: 1,
        events: "clock 7\nstart 0\nclock 9\n",
        trace: "0 submit 0 schedule due 8\n0 submit 1 schedule due 8\n\
                1 cancel 0 yes\n\
                7 clock\n7 start 0 idle\n\
                9 ask queue 2 running 0 shutdown no terminated no\n9 clock\n",
    },
    Row {
        name: "a start that is refused meets no kept task",
        plan: "version = 1\nblock = [{ call = [\
               { op = 'schedule', name = 'a', delay = 5 },\
               { op = 'schedule', name = 'b', delay = 6 },\
               { at = 8, op = 'ask' }] }]",
        workers: 1,
        events: "clock 7\nstart 0\ncancel 1\nstart 0\nstart 1\nclock 8\n",
        trace: "0 submit 0 schedule due 5\n0 submit 1 schedule due 6\n\
                7 clock\n7 start 0 task 0 run 0 due 5\n7 outside 1 yes\n7 error busy\n\
                7 error no worker\n\
                8 ask queue 1 running 1 shutdown no terminated no\n8 clock\n",
    },
];

/// The rows of this module.
pub fn all() -> &'static [Row]
    ensures { 0 < length result.now }
{
    ALL
}

pub const A_START_MEETS_THE_KEPT_TASKS_BEFORE_ITS_OWN: Row = Row {
    name: "a start meets the kept tasks before its own",
    plan: "version = 1\nblock = [{ call = [\
           { op = 'schedule', name = 'a', delay = 5 },\
           { op = 'schedule', name = 'b', delay = 6 },\
           { at = 1, op = 'cancel', name = 'a' },\
           { at = 9, op = 'ask' }] }]",
    workers: 1,
    events: "clock 7\nstart 0\nclock 9\n",
    trace: "0 submit 0 schedule due 5\n0 submit 1 schedule due 6\n\
            1 cancel 0 yes\n\
            7 clock\n7 start 0 task 1 run 0 due 6\n\
            9 ask queue 0 running 1 shutdown no terminated no\n9 clock\n",
};

/// A cancelled task stays in the queue until a start meets it.
pub const A_KEPT_TASK: Row = Row {
    name: "a kept task",
    plan: "version = 1\nblock = [{ call = [\
           { op = 'schedule', name = 'a', delay = 10 },\
           { at = 2, op = 'cancel', name = 'a' },\
           { at = 3, op = 'ask' },\
           { at = 20, op = 'ask' }] }]",
    workers: 1,
    events: "clock 15\nstart 0\nclock 20\n",
    trace: "0 submit 0 schedule due 10\n\
            2 cancel 0 yes\n\
            3 ask queue 1 running 0 shutdown no terminated no\n\
            15 clock\n15 start 0 idle\n\
            20 ask queue 0 running 0 shutdown no terminated no\n20 clock\n",
};

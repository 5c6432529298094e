//! How far the executor is.
ghost use Rattle.std.specs.Prelude.{◌<◌, length};

use crate::Row;

const ALL: &[Row] = &[
    AN_EXECUTOR_IS_TERMINATED_ONCE_IT_IS_SHUT_AND_NOTHING_IS_LEFT,
    A_KEPT_TASK_AND_A_RUN_UNDER_WAY_ARE_BOTH_COUNTED,
];

/// The rows of this module.
pub fn all() -> &'static [Row]
    ensures { 0 < length result.now }
{
    ALL
}

pub const AN_EXECUTOR_IS_TERMINATED_ONCE_IT_IS_SHUT_AND_NOTHING_IS_LEFT: Row = Row {
    name: "an executor is terminated once it is shut and nothing is left",
    plan: "version = 1\nblock = [{ call = [\
           { op = 'ask' }, { op = 'schedule', name = 'a', delay = 0 }, { op = 'ask' },\
           { at = 1, op = 'shutdown' }, { at = 1, op = 'ask' },\
           { at = 2, op = 'ask' },\
           { at = 3, op = 'ask' }] }]",
    workers: 1,
    events: "clock 1\nstart 0\nclock 2\nfinish 0 ok 4\nclock 3\n",
    trace: "0 ask queue 0 running 0 shutdown no terminated no\n0 submit 0 schedule due 0\n\
            0 ask queue 1 running 0 shutdown no terminated no\n\
            1 shutdown\n1 ask queue 1 running 0 shutdown yes terminated no\n1 clock\n\
            1 start 0 task 0 run 0 due 0\n\
            2 ask queue 0 running 1 shutdown yes terminated no\n2 clock\n\
            2 finish 0 task 0 run 0 done 4\n\
            3 ask queue 0 running 0 shutdown yes terminated yes\n3 clock\n",
};

pub const A_KEPT_TASK_AND_A_RUN_UNDER_WAY_ARE_BOTH_COUNTED: Row = Row {
    name: "a kept task and a run under way are both counted",
    plan: "version = 1\nblock = [{ call = [\
           { op = 'schedule', name = 'a', delay = 0 },\
           { op = 'schedule', name = 'b', delay = 9 },\
           { op = 'schedule', name = 'c', delay = 9 },\
           { at = 1, op = 'ask' },\
           { at = 2, op = 'cancel', name = 'c' }, { at = 2, op = 'cancel', name = 'a' },\
           { at = 2, op = 'ask' }, { at = 2, op = 'shutdown' }, { at = 2, op = 'ask' }] }]",
    workers: 1,
    events: "clock 0\nstart 0\nclock 2\n",
    trace: "0 submit 0 schedule due 0\n0 submit 1 schedule due 9\n0 submit 2 schedule due 9\n\
            0 clock\n0 start 0 task 0 run 0 due 0\n\
            1 ask queue 2 running 1 shutdown no terminated no\n\
            2 cancel 2 yes\n2 cancel 0 yes\n2 ask queue 2 running 1 shutdown no terminated no\n\
            2 shutdown\n2 ask queue 1 running 1 shutdown yes terminated no\n2 clock\n",
};

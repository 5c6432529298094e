//! What comes of tasks once a policy is set.
ghost use Rattle.std.specs.Prelude.{◌<◌, length};

use crate::Row;

const ALL: &[Row] = &[
    POLICIES_THAT_SWEEP,
    CONTINUE_SWEEPS_WHERE_IT_IS_FALSE_AGAIN,
    Row {
        name: "continue does not sweep where it is true again",
        plan: "version = 1\nblock = [{ call = [\
               { op = 'schedule', name = 'a', delay = 0 },\
               { at = 1, op = 'policy', which = 'continue', value = true },\
               { at = 1, op = 'ask' },\
               { at = 2, op = 'shutdown' },\
               { at = 3, op = 'cancel', name = 'a' }, { at = 3, op = 'ask' },\
               { at = 4, op = 'policy', which = 'continue', value = true },\
               { at = 4, op = 'ask' }] }]",
        workers: 1,
        events: "clock 4\n",
        trace: "0 submit 0 schedule due 0\n\
                1 policy continue true\n1 ask queue 1 running 0 shutdown no terminated no\n\
                2 shutdown\n\
                3 cancel 0 yes\n3 ask queue 1 running 0 shutdown yes terminated no\n\
                4 policy continue true\n4 ask queue 1 running 0 shutdown yes terminated no\n\
                4 clock\n",
    },
    Row {
        name: "execute sweeps where it is false again",
        plan: "version = 1\nblock = [{ call = [\
               { op = 'schedule', name = 'a', delay = 0 },\
               { at = 1, op = 'policy', which = 'execute', value = false },\
               { at = 1, op = 'ask' },\
               { at = 2, op = 'shutdown' },\
               { at = 3, op = 'cancel', name = 'a' }, { at = 3, op = 'ask' },\
               { at = 4, op = 'policy', which = 'execute', value = false },\
               { at = 4, op = 'ask' }] }]",
        workers: 1,
        events: "clock 4\n",
        trace: "0 submit 0 schedule due 0\n\
                1 policy execute false\n1 ask queue 1 running 0 shutdown no terminated no\n\
                2 shutdown\n\
                3 cancel 0 yes\n3 ask queue 1 running 0 shutdown yes terminated no\n\
                4 policy execute false\n4 ask queue 0 running 0 shutdown yes terminated yes\n\
                4 clock\n",
    },
    Row {
        name: "execute does not sweep where it is true again",
        plan: "version = 1\nblock = [{ call = [\
               { op = 'schedule', name = 'a', delay = 0 },\
               { at = 1, op = 'policy', which = 'execute', value = true }, { at = 1, op = 'ask' },\
               { at = 2, op = 'shutdown' },\
               { at = 3, op = 'cancel', name = 'a' }, { at = 3, op = 'ask' },\
               { at = 4, op = 'policy', which = 'execute', value = true },\
               { at = 4, op = 'ask' }] }]",
        workers: 1,
        events: "clock 4\n",
        trace: "0 submit 0 schedule due 0\n\
                1 policy execute true\n1 ask queue 1 running 0 shutdown no terminated no\n\
                2 shutdown\n\
                3 cancel 0 yes\n3 ask queue 1 running 0 shutdown yes terminated no\n\
                4 policy execute true\n4 ask queue 1 running 0 shutdown yes terminated no\n\
                4 clock\n",
    },
    Row {
        name: "remove does not sweep where it is false again",
        plan: "version = 1\nblock = [{ call = [\
               { op = 'schedule', name = 'a', delay = 0 },\
               { at = 1, op = 'policy', which = 'remove', value = false }, { at = 1, op = 'ask' },\
               { at = 2, op = 'shutdown' },\
               { at = 3, op = 'cancel', name = 'a' }, { at = 3, op = 'ask' },\
               { at = 4, op = 'policy', which = 'remove', value = false },\
               { at = 4, op = 'ask' }] }]",
        workers: 1,
        events: "clock 4\n",
        trace: "0 submit 0 schedule due 0\n\
                1 policy remove false\n1 ask queue 1 running 0 shutdown no terminated no\n\
                2 shutdown\n\
                3 cancel 0 yes\n3 ask queue 1 running 0 shutdown yes terminated no\n\
                4 policy remove false\n4 ask queue 1 running 0 shutdown yes terminated no\n\
                4 clock\n",
    },
    Row {
        name: "remove does not sweep where it is true again",
        plan: "version = 1\nblock = [{ call = [\
               { op = 'schedule', name = 'a', delay = 0 },\
               { at = 1, op = 'policy', which = 'remove', value = true }, { at = 1, op = 'ask' },\
               { at = 2, op = 'shutdown' },\
               { at = 3, op = 'cancel', name = 'a' }, { at = 3, op = 'ask' },\
               { at = 4, op = 'policy', which = 'remove', value = true },\
               { at = 4, op = 'ask' }] }]",
        workers: 1,
        events: "clock 4\n",
        trace: "0 submit 0 schedule due 0\n\
                1 policy remove true\n1 ask queue 1 running 0 shutdown no terminated no\n\
                2 shutdown\n\
                3 cancel 0 yes\n3 ask queue 0 running 0 shutdown yes terminated yes\n\
                4 policy remove true\n4 ask queue 0 running 0 shutdown yes terminated yes\n\
                4 clock\n",
    },
    A_SHUTDOWN_WHERE_CONTINUE_IS_FALSE,
    Row {
        name: "a shutdown where continue is true",
        plan: "version = 1\nblock = [{ call = [\
               { op = 'schedule', name = 'a', delay = 9 },\
               { op = 'fixed', name = 'b', first = 9, delay = 9 },\
               { at = 1, op = 'policy', which = 'continue', value = true },\
               { at = 2, op = 'shutdown' }] }]",
        workers: 1,
        events: "clock 2\n",
        trace: "0 submit 0 schedule due 9\n0 submit 1 fixed due 9\n\
                1 policy continue true\n\
                2 shutdown\n2 clock\n",
    },
    Row {
        name: "a shutdown where execute is false",
        plan: "version = 1\nblock = [{ call = [\
               { op = 'schedule', name = 'a', delay = 9 },\
               { op = 'fixed', name = 'b', first = 9, delay = 9 },\
               { at = 1, op = 'policy', which = 'execute', value = false },\
               { at = 2, op = 'shutdown' }] }]",
        workers: 1,
        events: "clock 2\n",
        trace: "0 submit 0 schedule due 9\n0 submit 1 fixed due 9\n\
                1 policy execute false\n\
                2 shutdown\n2 end 0\n2 end 1\n2 clock\n",
    },
    Row {
        name: "a shutdown where execute is true",
        plan: "version = 1\nblock = [{ call = [\
               { op = 'schedule', name = 'a', delay = 9 },\
               { op = 'fixed', name = 'b', first = 9, delay = 9 },\
               { at = 1, op = 'policy', which = 'execute', value = true },\
               { at = 2, op = 'shutdown' }] }]",
        workers: 1,
        events: "clock 2\n",
        trace: "0 submit 0 schedule due 9\n0 submit 1 fixed due 9\n\
                1 policy execute true\n\
                2 shutdown\n2 end 1\n2 clock\n",
    },
    Row {
        name: "a shutdown where remove is false",
        plan: "version = 1\nblock = [{ call = [\
               { op = 'schedule', name = 'a', delay = 9 },\
               { op = 'fixed', name = 'b', first = 9, delay = 9 },\
               { at = 1, op = 'policy', which = 'remove', value = false },\
               { at = 2, op = 'shutdown' }] }]",
        workers: 1,
        events: "clock 2\n",
        trace: "0 submit 0 schedule due 9\n0 submit 1 fixed due 9\n\
                1 policy remove false\n\
                2 shutdown\n2 end 1\n2 clock\n",
    },
    Row {
        name: "a shutdown where remove is true",
        plan: "version = 1\nblock = [{ call = [\
               { op = 'schedule', name = 'a', delay = 9 },\
               { op = 'fixed', name = 'b', first = 9, delay = 9 },\
               { at = 1, op = 'policy', which = 'remove', value = true },\
               { at = 2, op = 'shutdown' }] }]",
        workers: 1,
        events: "clock 2\n",
        trace: "0 submit 0 schedule due 9\n0 submit 1 fixed due 9\n\
                1 policy remove true\n\
                2 shutdown\n2 end 1\n2 clock\n",
    },
];

/// The rows of this module.
pub fn all() -> &'static [Row]
    ensures { 0 < length result.now }
{
    ALL
}

/// A sweep drops the kept tasks.
pub const POLICIES_THAT_SWEEP: Row = Row {
    name: "policies that sweep",
    plan: "version = 1\nblock = [{ call = [\
           { op = 'policy', which = 'continue', value = true },\
           { op = 'rate', name = 'a', first = 5, period = 5 },\
           { op = 'schedule', name = 'b', delay = 9 },\
           { at = 1, op = 'shutdown' },\
           { at = 2, op = 'cancel', name = 'b' }, { at = 2, op = 'ask' },\
           { at = 3, op = 'policy', which = 'execute', value = false },\
           { at = 3, op = 'ask' },\
           { at = 4, op = 'policy', which = 'continue', value = false },\
           { at = 4, op = 'ask' }] }]",
    workers: 1,
    events: "clock 4\n",
    trace: "0 policy continue true\n0 submit 0 rate due 5\n0 submit 1 schedule due 9\n\
            1 shutdown\n\
            2 cancel 1 yes\n2 ask queue 2 running 0 shutdown yes terminated no\n\
            3 policy execute false\n3 ask queue 1 running 0 shutdown yes terminated no\n\
            4 policy continue false\n4 end 0\n\
            4 ask queue 0 running 0 shutdown yes terminated yes\n4 clock\n",
};

pub const CONTINUE_SWEEPS_WHERE_IT_IS_FALSE_AGAIN: Row = Row {
    name: "continue sweeps where it is false again",
    plan: "version = 1\nblock = [{ call = [\
           { op = 'schedule', name = 'a', delay = 0 },\
           { at = 1, op = 'policy', which = 'continue', value = false },\
           { at = 1, op = 'ask' },\
           { at = 2, op = 'shutdown' },\
           { at = 3, op = 'cancel', name = 'a' }, { at = 3, op = 'ask' },\
           { at = 4, op = 'policy', which = 'continue', value = false },\
           { at = 4, op = 'ask' }] }]",
    workers: 1,
    events: "clock 4\n",
    trace: "0 submit 0 schedule due 0\n\
            1 policy continue false\n1 ask queue 1 running 0 shutdown no terminated no\n\
            2 shutdown\n\
            3 cancel 0 yes\n3 ask queue 1 running 0 shutdown yes terminated no\n\
            4 policy continue false\n4 ask queue 0 running 0 shutdown yes terminated yes\n\
            4 clock\n",
};

pub const A_SHUTDOWN_WHERE_CONTINUE_IS_FALSE: Row = Row {
    name: "a shutdown where continue is false",
    plan: "version = 1\nblock = [{ call = [\
           { op = 'schedule', name = 'a', delay = 9 },\
           { op = 'fixed', name = 'b', first = 9, delay = 9 },\
           { at = 1, op = 'policy', which = 'continue', value = false },\
           { at = 2, op = 'shutdown' }] }]",
    workers: 1,
    events: "clock 2\n",
    trace: "0 submit 0 schedule due 9\n0 submit 1 fixed due 9\n\
            1 policy continue false\n\
            2 shutdown\n2 end 1\n2 clock\n",
};

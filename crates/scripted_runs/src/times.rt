//! Times in each unit, and the greatest ones.
ghost use Rattle.std.specs.Prelude.{◌<◌, length};

use crate::Row;

const ALL: &[Row] = &[
    // Moments and periods may be 2 to the 62.
    Row {
        name: "the greatest moments",
        plan: "version = 1\nblock = [{ call = [\
               { at = 4611686018427387904, op = 'rate', name = 'a', first = 4611686018427387904,\
               period = 4611686018427387904 }] }]",
        workers: 1,
        events: "clock 4611686018427387904\nstart 0\nclock 4611686018427387905\n",
        trace: "4611686018427387904 submit 0 rate due 9223372036854775808\n\
                4611686018427387904 clock\n4611686018427387904 start 0 idle\n\
                4611686018427387904 error too far\n",
    },
    Row {
        name: "a clock past the greatest moment",
        plan: "version = 1",
        workers: 1,
        events: "clock 4611686018427387904\nclock 4611686018427387905\n",
        trace: "4611686018427387904 clock\n4611686018427387904 error too far\n",
    },
    Row {
        name: "each time is in its own unit",
        plan: "version = 2\n\n[[block]]\nat = 1\nat_unit = \"min\"\ntimes = 2\nevery = 1\nevery_unit = \"h\"\n\n\
               [[block.call]]\nop = \"rate\"\nname = \"a\"\nfirst = 500\nfirst_unit = \"ms\"\nperiod = 1\nperiod_unit = \"d\"\n",
        workers: 1,
        events: "clock 3660000000000\nstart 0\nfinish 0 ok 1\n",
        trace: "60000000000 submit 0 rate due 60500000000\n\
                3660000000000 submit 1 rate due 3660500000000\n3660000000000 clock\n\
                3660000000000 start 0 task 0 run 0 due 60500000000\n\
                3660000000000 finish 0 task 0 run 0 again due 86460500000000\n",
    },
    Row {
        name: "the longest delay in days is exact",
        plan: "version = 2\n[[block]]\n\
               [[block.call]]\nop = \"schedule\"\nname = \"a\"\ndelay = 53375\ndelay_unit = \"d\"\n",
        workers: 1,
        events: "clock 0\n",
        trace: "0 submit 0 schedule due 4611600000000000000\n0 clock\n",
    },
    A_DELAY_IN_SECONDS,
];

/// The rows of this module.
pub fn all() -> &'static [Row]
    ensures { 0 < length result.now }
{
    ALL
}

pub const A_DELAY_IN_SECONDS: Row = Row {
    name: "a delay in seconds",
    plan: "version = 1\n\n[[block]]\nunit = \"s\"\n\n\
           [[block.call]]\nop = \"schedule\"\nname = \"a\"\ndelay = 4611686018\n",
    workers: 1,
    events: "clock 0\n",
    trace: "0 submit 0 schedule due 4611686018000000000\n0 clock\n",
};

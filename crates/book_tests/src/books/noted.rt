//! A handle's cancel is noted where a move meets it, and the book goes on from there. Each growth of a row is refused in turn.
use super::growths::refuse_each;
use super::{ONE_TASK, Row, TWO_TASKS};
use std::test::Fail;

/// Rows, and which calls of each ask for memory: those that make the words and the book, and steps by their place.
const ROWS: &[(Row<'static>, &str)] = &[
    (
        Row {
            name: "a start meets a cancel",
            plan: ONE_TASK,
            script: "clock 0 | Lines(2, None)\nadmit | Admitted\nhandle 0 cancel 0 | Cancel(Yes)\n\
                     handle 0 cancel 0 | Cancel(No)\nhandle 0 state 0 | State(Cancelled)\n\
                     handle 0 cancel 7 | Cancel(NoTask)\nstart 0 | Lines(2, None)\nretire 0 | Retired\nnote | Noted(0)\n",
            trace: "0 submit 0 schedule due 0\n0 clock\n0 outside 0 yes\n0 start 0 idle\n",
        },
        "Shared Book Step(0) Step(1) Step(7) ",
    ),
    (
        Row {
            name: "a sweep meets a cancel",
            plan: "version = 1\n[[block]]\ncall = [{ op = 'policy', which = 'execute', value = false },\
                   { op = 'schedule', name = 'a', delay = 9 }, { op = 'shutdown', at = 5 }]",
            script: "clock 0 | Lines(3, None)\nadmit | Admitted\nhandle 0 cancel 0 | Cancel(Yes)\nclock 5 | Lines(3, None)\n\
                     retire 0 | Retired\n",
            trace: "0 policy execute false\n0 submit 0 schedule due 9\n0 clock\n0 outside 0 yes\n\
                    5 shutdown\n5 clock\n",
        },
        "Shared Book Step(0) Step(1) Step(3) ",
    ),
    (
        Row {
            name: "a sweep at once meets a cancel",
            plan: "version = 1\n[[block]]\ncall = [{ op = 'policy', which = 'execute', value = false },\
                   { op = 'schedule', name = 'a', delay = 9 }, { op = 'shutdown_now', at = 5 }]",
            script: "clock 0 | Lines(3, None)\nadmit | Admitted\nhandle 0 cancel 0 | Cancel(Yes)\nclock 5 | Lines(3, None)\n\
                     retire 0 | Retired\n",
            trace: "0 policy execute false\n0 submit 0 schedule due 9\n0 clock\n0 outside 0 yes\n\
                    5 shutdown now\n5 clock\n",
        },
        "Shared Book Step(0) Step(1) Step(3) ",
    ),
    (
        Row {
            name: "a finish meets a cancel",
            plan: "version = 1\n[[block]]\ncall = [{ op = 'rate', name = 'a', first = 0, period = 5 }]",
            script: "clock 0 | Lines(2, None)\nstart 0 | Lines(1, Some(Work { task: 0, run: 0 }))\nadmit | Admitted\n\
                     handle 0 cancel 0 | Cancel(Yes)\nfinish 0 ok 1 | Lines(2, None)\n",
            trace: "0 submit 0 rate due 0\n0 clock\n0 start 0 task 0 run 0 due 0\n0 outside 0 yes\n\
                    0 finish 0 task 0 run 0 dropped\n",
        },
        "Shared Book Step(0) Step(2) Step(4) ",
    ),
    (
        Row {
            name: "each word is looked at",
            plan: TWO_TASKS,
            script: "clock 0 | Lines(3, None)\nadmit | Admitted\nhandle 0 cancel 0 | Cancel(Yes)\n\
                     handle 0 cancel 1 | Cancel(Yes)\nnote | Noted(2)\nnote | Noted(0)\n",
            trace: "0 submit 0 schedule due 0\n0 submit 1 schedule due 0\n0 clock\n0 outside 0 yes\n0 outside 1 yes\n",
        },
        "Shared Book Step(0) Step(1) Step(4) ",
    ),
];

#[test]
fn each_growth_of_a_row_is_refused(rt: HostRuntime) -> Result<(), Fail> {
    for (row, asking) in ROWS {
        refuse_each(&rt, row, asking)?;
    }
    Ok(())
}

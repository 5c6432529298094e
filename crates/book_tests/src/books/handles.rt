//! Several handles, cancels in the midst of a sweep, cancels that no move meets, and a handle that outlives the end of a task.
use super::{AMPLE, ONE_TASK, Row, TWO_TASKS, plays};
use std::alloc::AllocGlobal;
use std::process::Abort;
use std::test::Fail;

/// The plan of three tasks that a shutdown ends.
const SWEPT: &str =
    "version = 1\n[[block]]\ncall = [{ op = 'policy', which = 'execute', value = false },\
                     { op = 'schedule', name = 'a', delay = 9 }, { op = 'schedule', name = 'b', delay = 9 },\
                     { op = 'schedule', name = 'c', delay = 9 }, { op = 'shutdown', at = 5 }]";

const HANDLES_COME_BACK_IN_ORDER: Row<'static> = Row {
    name: "handles come back in order",
    plan: TWO_TASKS,
    script: "clock 0 | Lines(3, None)\nadmit | Admitted\nadmit | Admitted\nhandle 0 cancel 0 | Cancel(Yes)\n\
             handle 1 cancel 0 | Cancel(No)\nhandle 1 cancel 1 | Cancel(Yes)\nretire 0 | Retired\n\
             retire 1 | Retired\nnote | Noted(0)\n",
    trace: "0 submit 0 schedule due 0\n0 submit 1 schedule due 0\n0 clock\n0 outside 0 yes\n0 outside 1 yes\n",
};

pub const ROWS: &[Row<'static>] = &[
    Row {
        name: "a sweep meets the first task cancelled",
        plan: SWEPT,
        script: "clock 0 | Lines(5, None)\nadmit | Admitted\nhandle 0 cancel 0 | Cancel(Yes)\nclock 5 | Lines(5, None)\n\
                 retire 0 | Retired\n",
        trace: "0 policy execute false\n0 submit 0 schedule due 9\n0 submit 1 schedule due 9\n0 submit 2 schedule due 9\n\
                0 clock\n0 outside 0 yes\n\
                5 shutdown\n5 end 1\n5 end 2\n5 clock\n",
    },
    Row {
        name: "a sweep meets the middle task cancelled",
        plan: SWEPT,
        script: "clock 0 | Lines(5, None)\nadmit | Admitted\nhandle 0 cancel 1 | Cancel(Yes)\nclock 5 | Lines(5, None)\n\
                 retire 0 | Retired\n",
        trace: "0 policy execute false\n0 submit 0 schedule due 9\n0 submit 1 schedule due 9\n0 submit 2 schedule due 9\n\
                0 clock\n0 outside 1 yes\n\
                5 shutdown\n5 end 0\n5 end 2\n5 clock\n",
    },
    Row {
        name: "a sweep meets the last tasks cancelled",
        plan: SWEPT,
        script: "clock 0 | Lines(5, None)\nadmit | Admitted\nhandle 0 cancel 2 | Cancel(Yes)\n\
                 handle 0 cancel 1 | Cancel(Yes)\nclock 5 | Lines(5, None)\nretire 0 | Retired\n",
        trace: "0 policy execute false\n0 submit 0 schedule due 9\n0 submit 1 schedule due 9\n0 submit 2 schedule due 9\n\
                0 clock\n0 outside 1 yes\n0 outside 2 yes\n\
                5 shutdown\n5 end 0\n5 clock\n",
    },
    // A periodic task runs at a shutdown at once, before which a handle cancelled one of the tasks that wait. After it the handle
    // cancels the one that runs, and no other.
    Row {
        name: "a shutdown at once meets a cancel",
        plan: "version = 1\n[[block]]\ncall = [{ op = 'rate', name = 'a', first = 0, period = 5 },\
               { op = 'schedule', name = 'b', delay = 0 }, { op = 'schedule', name = 'c', delay = 9 },\
               { op = 'schedule', name = 'd', delay = 9 }, { op = 'shutdown_now', at = 5 }]",
        script: "clock 0 | Lines(5, None)\nstart 0 | Lines(1, Some(Work { task: 0, run: 0 }))\nadmit | Admitted\n\
                 handle 0 cancel 2 | Cancel(Yes)\nclock 5 | Lines(5, None)\nhandle 0 cancel 1 | Cancel(No)\n\
                 handle 0 cancel 3 | Cancel(No)\nhandle 0 cancel 0 | Cancel(Yes)\nfinish 0 ok 7 | Lines(2, None)\n\
                 retire 0 | Retired\n",
        trace: "0 submit 0 rate due 0\n0 submit 1 schedule due 0\n0 submit 2 schedule due 9\n0 submit 3 schedule due 9\n\
                0 clock\n0 start 0 task 0 run 0 due 0\n0 outside 2 yes\n\
                5 shutdown now\n5 end 1\n5 end 3\n5 clock\n5 outside 0 yes\n5 finish 0 task 0 run 0 dropped\n",
    },
    HANDLES_COME_BACK_IN_ORDER,
    Row {
        name: "handles come back in reverse",
        script: "clock 0 | Lines(3, None)\nadmit | Admitted\nadmit | Admitted\nhandle 0 cancel 0 | Cancel(Yes)\n\
                 handle 1 cancel 0 | Cancel(No)\nhandle 1 cancel 1 | Cancel(Yes)\nretire 1 | Retired\n\
                 retire 0 | Retired\nnote | Noted(0)\n",
        ..HANDLES_COME_BACK_IN_ORDER
    },
    // A start, a cancel, a finish and a sweep move words of other tasks, and leave the cancel to the look at each word.
    Row {
        name: "what no move meets is not noted",
        plan: "version = 1\n[[block]]\ncall = [{ op = 'schedule', name = 'a', delay = 0 },\
               { op = 'schedule', name = 'b', delay = 9 }, { op = 'rate', name = 'c', first = 9, period = 5 },\
               { op = 'shutdown', at = 5 }]",
        script: "clock 0 | Lines(4, None)\nadmit | Admitted\nhandle 0 cancel 1 | Cancel(Yes)\n\
                 start 0 | Lines(1, Some(Work { task: 0, run: 0 }))\ncancel 0 | Lines(1, None)\n\
                 finish 0 ok 7 | Lines(1, None)\nclock 5 | Lines(3, None)\nnote | Noted(1)\n",
        trace: "0 submit 0 schedule due 0\n0 submit 1 schedule due 9\n0 submit 2 rate due 9\n0 clock\n\
                0 start 0 task 0 run 0 due 0\n0 outside 0 yes\n0 finish 0 task 0 run 0 dropped\n\
                5 shutdown\n5 end 2\n5 clock\n5 outside 1 yes\n",
    },
    Row {
        name: "a handle outlives the end of a task",
        plan: ONE_TASK,
        script: "admit | Admitted\nhandle 0 state 0 | State(Unsubmitted)\nhandle 0 cancel 0 | Cancel(Absent)\n\
                 clock 0 | Lines(2, None)\nhandle 0 state 0 | State(Waiting)\n\
                 start 0 | Lines(1, Some(Work { task: 0, run: 0 }))\nhandle 0 state 0 | State(Running)\n\
                 finish 0 ok 7 | Lines(1, None)\nhandle 0 state 0 | State(Done)\nhandle 0 cancel 0 | Cancel(No)\n\
                 retire 0 | Retired\n",
        trace: "0 submit 0 schedule due 0\n0 clock\n0 start 0 task 0 run 0 due 0\n0 finish 0 task 0 run 0 done 7\n",
    },
];

#[test]
fn the_seats_are_given_again(rt: HostRuntime) -> Result<(), Fail> {
    let admitted = "admit | Admitted\n".repeat(rt.alloc(), 63)?;
    let behind =
        "admit | Refused(Seats)\nretire 5 | Retired\nadmit | Admitted\nadmit | Refused(Seats)\n";
    let script = [admitted.as_str(), behind].concat(rt.alloc())?;
    let row = Row {
        name: "the seats are given again",
        plan: ONE_TASK,
        script: script.as_str(),
        trace: "",
    };
    plays(&rt, &row, AMPLE)
}

/// The plan of nine tasks that a shutdown ends.
const NINE: &str = "version = 1\n\
                    [[block]]\ncall = [{ op = 'policy', which = 'execute', value = false }]\n\
                    [[block]]\ntimes = 9\nevery = 0\ncall = [{ op = 'schedule', name = 'a', delay = 9 }]\n\
                    [[block]]\nat = 5\ncall = [{ op = 'shutdown' }]\n";

/// A handle cancels nine tasks, in another order.
const NINE_CANCELS: &str =
    "clock 0 | Lines(11, None)\nadmit | Admitted\nhandle 0 cancel 7 | Cancel(Yes)\n\
                            handle 0 cancel 2 | Cancel(Yes)\nhandle 0 cancel 8 | Cancel(Yes)\n\
                            handle 0 cancel 0 | Cancel(Yes)\nhandle 0 cancel 5 | Cancel(Yes)\n\
                            handle 0 cancel 1 | Cancel(Yes)\nhandle 0 cancel 6 | Cancel(Yes)\n\
                            handle 0 cancel 3 | Cancel(Yes)\nhandle 0 cancel 4 | Cancel(Yes)\n";

/// The lines of what is submitted, and of the cancels.
const NINE_LINES: &str =
    "0 policy execute false\n0 submit 0 schedule due 9\n0 submit 1 schedule due 9\n\
                          0 submit 2 schedule due 9\n0 submit 3 schedule due 9\n0 submit 4 schedule due 9\n\
                          0 submit 5 schedule due 9\n0 submit 6 schedule due 9\n0 submit 7 schedule due 9\n\
                          0 submit 8 schedule due 9\n0 clock\n0 outside 0 yes\n0 outside 1 yes\n0 outside 2 yes\n\
                          0 outside 3 yes\n0 outside 4 yes\n0 outside 5 yes\n0 outside 6 yes\n0 outside 7 yes\n\
                          0 outside 8 yes\n";

/// What makes the book look at each word, and the lines of that behind those of the cancels.
const LOOKS: &[(&str, &str)] = &[
    ("note | Noted(9)", ""),
    ("retire 0 | Retired", ""),
    ("clock 5 | Lines(11, None)", "5 shutdown\n5 clock\n"),
];

/// Checks what nine cancels come to where this step is behind them, with these lines of its own.
fn plays_cancels(rt: &(impl Abort + AllocGlobal), last: &str, behind: &str) -> Result<(), Fail> {
    let script = [NINE_CANCELS, last, "\n"].concat(rt.alloc())?;
    let trace = [NINE_LINES, behind].concat(rt.alloc())?;
    let row = Row {
        name: last,
        plan: NINE,
        script: script.as_str(),
        trace: trace.as_str(),
    };
    plays(rt, &row, AMPLE)
}

#[test]
fn cancels_are_noted_in_ascending_number(rt: HostRuntime) -> Result<(), Fail> {
    for (last, behind) in LOOKS {
        plays_cancels(&rt, last, behind)?;
    }
    Ok(())
}

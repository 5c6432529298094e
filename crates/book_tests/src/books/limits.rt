//! Which errors come, which of them first, and that a refused event may be given again.
use super::{ONE_TASK, Row};

/// The row that is played with a limit of two events.
pub const FULL: &[Row<'static>] = &[Row {
    name: "noted cancels are no events",
    plan: ONE_TASK,
    script: "clock 0 | Lines(2, None)\nadmit | Admitted\nhandle 0 cancel 0 | Cancel(Yes)\nnote | Noted(1)\n\
             start 0 | Lines(1, None)\nstart 0 | Refused(Full)\nnote | Noted(0)\n",
    trace: "0 submit 0 schedule due 0\n0 clock\n0 outside 0 yes\n0 start 0 idle\n",
}];

/// Rows of few events.
pub const ROWS: &[Row<'static>] = &[
    Row {
        name: "AN_EVENT_MAY_CANCEL_TOO",
        plan: "version = 1\n[[block]]\ncall = [{ op = 'schedule', name = 'a', delay = 5 },\
               { op = 'schedule', name = 'b', delay = 5 }]",
        script: "clock 0 | Lines(3, None)\nadmit | Admitted\ncancel 0 | Lines(1, None)\nhandle 0 cancel 0 | Cancel(No)\n\
                 handle 0 cancel 1 | Cancel(Yes)\ncancel 1 | Lines(2, None)\ncancel 9 | Lines(1, None)\n",
        trace: "0 submit 0 schedule due 5\n0 submit 1 schedule due 5\n0 clock\n0 outside 0 yes\n0 outside 1 yes\n\
                0 outside 1 no\n0 error no task\n",
    },
    Row {
        name: "a plan cancel meets a cancel",
        plan: "version = 1\n[[block]]\ncall = [{ op = 'schedule', name = 'a', delay = 9 },\
               { op = 'cancel', name = 'a', at = 3 }]",
        script: "clock 0 | Lines(2, None)\nadmit | Admitted\nhandle 0 cancel 0 | Cancel(Yes)\nclock 4 | Lines(3, None)\n",
        trace: "0 submit 0 schedule due 9\n0 clock\n0 outside 0 yes\n\
                3 cancel 0 no\n\
                4 clock\n",
    },
];

//! The plan of one delayed task, with a command line and events, and how the program has to end.

use crate::world::{Ended, Given, file};
use std::process::{Abort, ExitCode};

/// The plan of one delayed task, in the file `plan.toml`.
pub const ONE_DELAY: &str =
    "version = 1\n\n[[block]]\n\n[[block.call]]\nop = \"schedule\"\nname = \"a\"\ndelay = 5\n";

/// A trace of that plan.
pub const TRACE: &str =
    "0 submit 0 schedule due 5\n5 clock\n5 start 0 task 0 run 0 due 5\n7 clock\n\
7 finish 0 task 0 run 0 done 7\n";

/// A command line that is given, with the plan of one delayed task and these events.
pub fn given<'a>(line: &'a str, events: &'a str) -> Given<'a> {
    Given {
        line,
        plan: file(ONE_DELAY, false),
        trace: file("", false),
        events: events.as_bytes(),
        is_closed: false,
        created: None,
    }
}

/// Checks that the program ended with this status, and wrote just these texts to standard output and to
/// standard error.
pub fn ends(rt: &impl Abort, name: &str, ended: &Ended, status: u8, out: &str, err: &str) {
    assert!(rt;
        ended.status == ExitCode::from(status),
        "{name}: status {status}"
    );
    assert!(rt; ended.out.as_slice() == out.as_bytes(), "{name}: {out}");
    assert!(rt; ended.err.as_slice() == err.as_bytes(), "{name}: {err}");
}

//! Pictures of a small trace.
use crate::one_delay::{TRACE, ends, given};
use crate::world::{Given, file, run_in};
use std::process::{Abort, ExitCode};
use std::sync::Wait;
use std::test::Fail;
use std::thread::Threads;

/// What stands in its picture, in this order.
const PARTS: [&str; 8] = [
    "<svg xmlns=\"http://www.w3.org/2000/svg\" width=\"1240\" height=\"232\" viewBox=\"0 0 1240 232\">\n",
    "<text class=\"row\" x=\"100\" y=\"187\">worker 0</text>\n",
    "<text class=\"tick\" x=\"867\" y=\"218\">5 ns</text>\n",
    "<text class=\"tick\" x=\"1170\" y=\"218\">7 ns</text>\n",
    "<rect class=\"done\" x=\"867\" y=\"172\" width=\"303\" height=\"22\"><title>a\n5 start 0 task 0 run 0 due 5\n7 finish 0 task 0 run 0 done 7\n</title></rect>\n",
    "<text class=\"run\" x=\"871\" y=\"187\">a #0</text>\n",
    "<use class=\"submit\" href=\"#submit\" x=\"110\" y=\"62\"><title>0 submit 0 schedule due 5\n</title></use>\n",
    "<use class=\"clock\" href=\"#clock\" x=\"1170\" y=\"134\"><title>7 clock\n</title></use>\n</svg>\n",
];

/// What stands in that of its first five nanoseconds.
const PARTS_TO_5: [&str; 4] = [
    "<text class=\"tick\" x=\"1170\" y=\"218\">5 ns</text>\n",
    "<rect class=\"done\" x=\"1170\" y=\"172\" width=\"3\" height=\"22\"><title>a\n",
    "<use class=\"submit\" href=\"#submit\" x=\"110\" y=\"62\">",
    "<use class=\"clock\" href=\"#clock\" x=\"1170\" y=\"134\"><title>5 clock\n</title></use>\n</svg>\n",
];

/// What the program prints to a command line that reads the trace, with status 0 and no fault.
fn drawn<R: AllocGlobal + Abort + Threads + Wait + Sync>(rt: &R, line: &str) -> Vec<u8> {
    let given = Given {
        trace: file(TRACE, false),
        ..given(line, "")
    };
    let ended = run_in(rt, given);
    assert!(rt; ended.status == ExitCode::from(0) && ended.err.is_empty());
    ended.out
}

/// Checks that a picture begins with the first of its parts, has the others in their order, and ends with the last one.
fn has_each<R: AllocGlobal + Abort + Threads + Wait + Sync>(
    rt: &R,
    line: &str,
    parts: &[&str],
) -> Result<(), Fail> {
    let out = drawn(rt, line);
    let mut rest = std::str::from_utf8(&out)?;
    assert!(rt; rest.starts_with(PARTS[0]));
    for part in parts {
        let (_, behind) = rest.split_once(*part).ok_or(*part)?;
        rest = behind;
    }
    assert!(rt; rest.is_empty());
    Ok(())
}

#[test]
fn draws_a_trace(rt: HostRuntime) -> Result<(), Fail> {
    has_each(&rt, "sched draw plan.toml trace.txt --workers 1", &PARTS)?;
    has_each(
        &rt,
        "sched draw plan.toml trace.txt --workers 1 --to 5",
        &PARTS_TO_5,
    )
}

#[test]
fn draws_the_window_and_the_workers_that_are_asked_for(rt: HostRuntime) -> Result<(), Fail> {
    let out = drawn(&rt, "sched draw plan.toml trace.txt --workers 1 --from 6");
    let text = std::str::from_utf8(&out)?;
    assert!(rt; text.contains("<title>7 clock\n"));
    assert!(rt; !text.contains("<title>5 clock\n"));
    assert!(rt; !text.contains("<title>0 submit"));
    let out = drawn(&rt, "sched draw plan.toml trace.txt --workers 2");
    assert!(rt; std::str::from_utf8(&out)?.contains(">worker 1</text>\n"));
    // As many marks as there are.
    let out = drawn(&rt, "sched draw plan.toml trace.txt --workers 1 --marks 3");
    assert!(rt; !out.is_empty());
    Ok(())
}

/// Pictures that are not drawn.
pub const SESSIONS: &str =
    "# TELLS_WHERE_A_TRACE_THAT_IS_TO_BE_DRAWN_BREAKS: the third line has a worker that is not there
$ sched draw plan.toml trace.txt --workers 1
trace 0 submit 0 schedule due 5⏎5 clock⏎5 start 1 task 0 run 0 due 5
> breaks 3
= 1
$ sched draw plan.toml trace.txt --workers 1
with closed output
trace 0 submit 0 schedule due 5⏎5 clock⏎5 start 1 task 0 run 0 due 5
! sched: write fault
$ sched draw plan.toml trace.txt --workers 1 --marks 0
trace 0 submit 0 schedule due 5⏎5 clock⏎5 start 1 task 0 run 0 due 5
> breaks 3
= 1

# TELLS_FAULTS_OF_A_PICTURE
$ sched draw plan.toml trace.txt --workers 1 --marks 2
trace 0 submit 0 schedule due 5⏎5 clock⏎5 start 0 task 0 run 0 due 5⏎7 clock⏎7 finish 0 task 0 run 0 done 7
! sched: 3 marks or bars are too many: --from and --to narrow the picture
$ sched draw plan.toml trace.txt --workers 1 --from 8
trace 0 submit 0 schedule due 5⏎5 clock⏎5 start 0 task 0 run 0 due 5⏎7 clock⏎7 finish 0 task 0 run 0 done 7
! sched: the picture ends before it begins
$ sched draw plan.toml trace.txt --workers 1
with closed output
trace 0 submit 0 schedule due 5⏎5 clock⏎5 start 0 task 0 run 0 due 5⏎7 clock⏎7 finish 0 task 0 run 0 done 7
! sched: write fault

# TELLS_FAULTS_OF_THE_FILES_OF_A_PICTURE
$ sched draw plan.toml trace.txt --workers 1
with broken trace
trace 0 submit 0 schedule due 5⏎5 clock
! sched: trace file not read⏎sched: trace.txt: unsupported
$ sched draw plan.toml trace.txt --workers 1
with broken trace
plan version = 3
trace 0 submit 0 schedule due 5⏎5 clock
! sched: plan: Version block 0 call 0
$ sched draw other.toml trace.txt --workers 1
with broken trace
plan version = 3
trace 0 submit 0 schedule due 5⏎5 clock
! sched: plan file not read⏎sched: other.toml: entity not found
$ sched draw plan.toml trace --workers=1
! sched: trace file not read⏎sched: trace: entity not found
";

/// A trace that has no line is one, and its picture no bar and no mark.
#[test]
fn draws_a_trace_of_no_line(rt: HostRuntime) {
    let line = "sched draw plan.toml trace.txt --workers 1 --marks 0";
    let ended = run_in(&rt, given(line, ""));
    assert!(rt; ended.out.ends_with(b"</svg>\n"));
    let out = std::str::from_utf8(&ended.out).unwrap_or("");
    ends(&rt, line, &ended, 0, out, "");
}

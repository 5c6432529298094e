//! Lines of calls by hand.
use call_text::{CallLine, read_call, split_call};
use sched_time::Which;
use std::process::Abort;

/// Lines by what they spell.
type Row = (&'static str, CallLine);

const SUBMISSIONS: &[Row] = &[
    ("call schedule 0\n", CallLine::Schedule(0)),
    ("call schedule 5000000\n", CallLine::Schedule(5_000_000)),
    (
        "call schedule 4611686018427387904\n",
        CallLine::Schedule(1 << 62),
    ),
    ("call execute\n", CallLine::Execute),
    ("call rate 0 1\n", CallLine::Rate(0, 1)),
    ("call rate 10 25\n", CallLine::Rate(10, 25)),
    (
        "call rate 4611686018427387904 4611686018427387904\n",
        CallLine::Rate(1 << 62, 1 << 62),
    ),
    ("call fixed 0 1\n", CallLine::Fixed(0, 1)),
    ("call fixed 10 25\n", CallLine::Fixed(10, 25)),
    (
        "call fixed 4611686018427387904 4611686018427387904\n",
        CallLine::Fixed(1 << 62, 1 << 62),
    ),
];

const OTHER_CALLS: &[Row] = &[
    ("call cancel 0\n", CallLine::Cancel(0)),
    ("call cancel 4294967295\n", CallLine::Cancel(u32::MAX)),
    (
        "call policy continue true\n",
        CallLine::Policy(Which::Continue, true),
    ),
    (
        "call policy execute false\n",
        CallLine::Policy(Which::Execute, false),
    ),
    (
        "call policy remove true\n",
        CallLine::Policy(Which::Remove, true),
    ),
    ("call shutdown\n", CallLine::Shutdown),
    ("call shutdown_now\n", CallLine::ShutdownNow),
    ("call ask\n", CallLine::Ask),
];

/// Bytes by the call at their front, and what follows its line.
const FRONTS: &[(&str, CallLine, &str)] = &[
    ("call ask\n", CallLine::Ask, ""),
    (
        "call shutdown\ncall shutdown_now\n",
        CallLine::Shutdown,
        "call shutdown_now\n",
    ),
    ("call rate 1 2\n\n", CallLine::Rate(1, 2), "\n"),
    ("call cancel 7\n 8\n", CallLine::Cancel(7), " 8\n"),
];

/// Checks that none of the lines, between which `|` stands, is a call.
fn refuses(rt: &impl Abort, lines: &str) {
    for line in lines.split('|') {
        assert!(rt; read_call(line.as_bytes()).is_none(), "{line}");
    }
}

/// Checks what each of the lines spells.
fn reads(rt: &impl Abort, lines: &[Row]) {
    for (line, call) in lines {
        assert!(rt; read_call(line.as_bytes()) == Some(*call), "{line}");
    }
}

#[test]
fn reads_each_submission(rt: HostRuntime) {
    reads(&rt, SUBMISSIONS);
}

#[test]
fn reads_each_other_call(rt: HostRuntime) {
    reads(&rt, OTHER_CALLS);
}

#[test]
fn refuses_other_words(rt: HostRuntime) {
    refuses(
        &rt,
        "|\n|call|call\n|call \n|call  ask\n| call ask\n|call ask|call ask \n|call ask\r\n\
         |call ask\n\n|call ask\ncall ask\n|call\task\n|Call ask\n|CALL ask\n|call Ask\n\
         |call asks\n|call ask 1\n|callask\n|ask\n|clock 5\n|call clock 5\n|call execute 1\n\
         |call execute \n|call Execute\n|call shut\n|call shutdown now\n|call shutdown_now \n\
         |call shutdown_\n|call shutdownnow\n|call shutdown\r\n|call shutdown",
    );
}

#[test]
fn refuses_other_spans(rt: HostRuntime) {
    refuses(
        &rt,
        "call schedule\n|call schedule \n|call schedule 05\n|call schedule 00\n|call schedule +5\n\
         |call schedule -5\n|call schedule 5 \n|call schedule  5\n|call schedule 5\
         |call schedule 5\r\n|call schedule 5 5\n|call schedule 5ns\n\
         |call schedule 4611686018427387905\n|call schedule 9223372036854775808\n\
         |call schedule 18446744073709551616\n|call schedule 46116860184273879040\n\
         |call Schedule 5\n",
    );
}

#[test]
fn refuses_other_periods(rt: HostRuntime) {
    refuses(
        &rt,
        "call rate 5\n|call rate 5 \n|call rate 5 0\n|call rate 0 0\n|call rate 05 5\n\
         |call rate 5 05\n|call rate 5  5\n|call rate 5 5 \n|call rate 5\t5\n|call rate 5 -5\n\
         |call rate 5 5 5\n|call rate 5 4611686018427387905\n|call rate 4611686018427387905 5\n\
         |call rate 5 5|call fixed 5\n|call fixed 5 0\n|call fixed 05 5\n|call fixed 5 05\n\
         |call fixed 5 +5\n|call fixed 5  5\n|call fixed 5 5\r\n\
         |call fixed 5 4611686018427387905\n|call fixed 4611686018427387905 5\n|call fixed  5 5\n",
    );
}

#[test]
fn refuses_other_cancels_and_policies(rt: HostRuntime) {
    refuses(
        &rt,
        "call cancel\n|call cancel \n|call cancel 07\n|call cancel -1\n|call cancel  1\n\
         |call cancel 1 \n|call cancel 1|call cancel 4294967296\n\
         |call cancel 18446744073709551616\n|call policy\n|call policy continue\n\
         |call policy continue \n|call policy keep true\n|call policy continues true\n\
         |call policy continue yes\n|call policy continue True\n|call policy Continue true\n\
         |call policy continue  true\n|call policy continue true \n|call policy continue true\
         |call policy true continue\n|call policy remove 1\n",
    );
}

#[test]
fn gives_what_follows(rt: HostRuntime) {
    for (bytes, call, left) in FRONTS {
        let found = split_call(bytes.as_bytes());
        assert!(rt; found == Some((*call, left.as_bytes())), "{bytes}");
    }
}

//! Live runs over bytes in memory.
mod usage;

use byte_ends::{Pieces, Reading, Writing};
use call_journal::{Journal, MadeCall};
use call_text::CallLine;
use live_engine::{LiveReport, run};
use refusing_allocator::Refusing;
use sched_engine::RunError;
use scripted_runs::ends::{Giving, Script, Taking, Trouble};
use std::alloc::Global;
use std::process::Abort;
use std::test::Fail;

/// What a run answers.
type Answer = Result<LiveReport, RunError>;

/// What a run by so many workers answers that reads at most `most` bytes at a time, and what it wrote.
fn ran(alloc: Global, workers: u8, input: &str, most: usize) -> (Answer, Vec<u8>) {
    let mut journal = Journal::new(alloc, false);
    let mut reader = Pieces::new(input.as_bytes(), most);
    let mut writer = Writing::new(Vec::new(alloc));
    let answer = run(alloc, workers, &mut journal, &mut reader, &mut writer);
    (answer, writer.into_inner())
}

/// Checks what a run by one worker answers and writes, whose input is read at once and a few bytes at a time.
fn answers(rt: &(impl AllocGlobal + Abort), name: &str, input: &str, wanted: Answer, trace: &str) {
    for most in [65_536usize, 1, 2, 7] {
        let (answer, written) = ran(rt.alloc(), 1, input, most);
        assert!(rt; answer == wanted, "{name}: {answer:?}");
        assert!(rt; written.as_slice() == trace.as_bytes(), "{name}");
    }
}

/// Checks the trace of an input that is taken whole.
fn traces(rt: &(impl AllocGlobal + Abort), name: &str, input: &str, trace: &str) {
    let report = LiveReport {
        lines_read: input.lines().count() as u64,
        lines_written: trace.lines().count() as u64,
    };
    answers(rt, name, input, Ok(report), trace)
}

/// Names of inputs that are taken whole, these, and their traces.
const TAKEN: &[(&str, &str, &str)] = &[
    (
        "EACH_KIND_OF_LINE_IS_ANSWERED",
        "call schedule 5\ncall execute\nclock 0\nstart 0\nfinish 0 ok 7\n\
         call rate 2 3\ncall fixed 1 4\ncall policy remove true\ncall cancel 3\ncancel 0\ncall ask\n\
         cancel 9\ncall shutdown\ncall shutdown\ncall execute\ncall shutdown_now\ncall ask\n",
        "0 submit 0 schedule due 5\n0 submit 1 schedule due 0\n0 clock\n\
         0 start 0 task 1 run 0 due 0\n0 finish 0 task 1 run 0 done 7\n\
         1 submit 2 rate due 3\n1 submit 3 fixed due 2\n1 policy remove true\n1 cancel 3 yes\n\
         1 outside 0 yes\n1 ask queue 1 running 0 shutdown no terminated no\n\
         1 error no task\n1 shutdown\n1 end 2\n1 shutdown again\n1 refuse 4 rejected\n\
         1 shutdown now\n1 ask queue 0 running 0 shutdown yes terminated yes\n",
    ),
    (
        "A_CALL_COMES_AFTER_THE_LAST_CLOCK",
        "clock 5\ncall execute\nclock 4\ncall execute\nclock 6\ncall ask\n",
        "5 clock\n6 submit 0 schedule due 6\n6 error backward\n6 submit 1 schedule due 6\n6 clock\n\
         7 ask queue 2 running 0 shutdown no terminated no\n",
    ),
    (
        "A_CANCEL_OF_A_NUMBER_GIVEN_OUT_LATER_CANCELS_NOTHING",
        "cancel 0\ncall schedule 5\ncall ask\n",
        "0 error no task\n0 submit 0 schedule due 5\n\
         0 ask queue 1 running 0 shutdown no terminated no\n",
    ),
    (
        "A_CALL_THAT_CANCELS_A_NUMBER_NOT_GIVEN_OUT_IS_THE_EVENT",
        "call cancel 1\nclock 3\ncall schedule 5\ncall cancel 1\ncall execute\ncall cancel 1\n\
         call cancel 4294967295\ncall ask\n",
        "0 error no task\n3 clock\n4 submit 0 schedule due 9\n4 error no task\n\
         4 submit 1 schedule due 4\n4 cancel 1 yes\n4 error no task\n\
         4 ask queue 2 running 0 shutdown no terminated no\n",
    ),
    (
        "A_CANCEL_OF_A_NUMBER_NOT_GIVEN_OUT_HAS_ROOM_BEHIND_THE_LAST_MOMENT",
        "clock 4611686018427387904\ncall cancel 0\n",
        "4611686018427387904 clock\n4611686018427387904 error no task\n",
    ),
];

#[test]
fn each_input_is_answered(rt: HostRuntime) {
    for (name, input, trace) in TAKEN {
        traces(&rt, name, input, trace);
    }
}

/// The trace of a first line that is taken.
const FIRST: &str = "0 submit 0 schedule due 0\n";

/// An input of which a line is refused, or for which there is no room behind the last moment, why, and the trace of the lines before.
const REFUSED: &[(&str, RunError, &str)] = &[
    (
        "call execute\nfoo\nclock 1\n",
        RunError::EventLine(2),
        FIRST,
    ),
    ("call execute\ncall", RunError::EventLine(2), FIRST),
    ("call cancel 00\n", RunError::EventLine(1), ""),
    ("call cancel 4294967296\n", RunError::EventLine(1), ""),
    ("call rate 1 0\n", RunError::EventLine(1), ""),
    ("clock 01\n", RunError::EventLine(1), ""),
    (
        "clock 4611686018427387904\ncall ask\ncall ask\n",
        RunError::Full,
        "4611686018427387904 clock\n",
    ),
];

#[test]
fn other_lines_are_refused(rt: HostRuntime) {
    for (input, error, trace) in REFUSED {
        answers(&rt, input, input, Err(*error), trace);
    }
}

#[test]
fn workers_are_1_to_64(rt: HostRuntime) {
    for workers in [0u8, 65, 255] {
        let (answer, trace) = ran(rt.alloc(), workers, "clock 0\n", 65_536);
        assert!(rt; answer == Err(RunError::Workers));
        assert!(rt; trace.is_empty());
    }
}

/// Two calls that are made at the moment 4, among events, and a cancel that is no call.
const INPUT_OF_CALLS: &[u8] = b"clock 3\ncall shutdown\ncancel 0\ncall cancel 0\ncall schedule 7\n";

/// These calls.
const CALLS: &[MadeCall] = &[
    MadeCall {
        moment: 4,
        call: CallLine::Shutdown,
    },
    MadeCall {
        moment: 4,
        call: CallLine::Schedule(7),
    },
];

/// Checks which calls of a run are in its journal, where they are wanted or not.
fn keeps(rt: &(impl AllocGlobal + Abort), is_wanted: bool, calls: &[MadeCall]) {
    let mut journal = Journal::new(rt.alloc(), is_wanted);
    let mut reader = Pieces::new(INPUT_OF_CALLS, 65_536);
    let mut writer = Writing::new(Vec::new(rt.alloc()));
    let answer = run(rt.alloc(), 1, &mut journal, &mut reader, &mut writer);
    assert!(rt; answer.is_ok());
    assert!(rt; journal.calls() == calls);
    assert!(rt; !journal.is_over());
}

#[test]
fn the_journal_keeps_each_call(rt: HostRuntime) {
    keeps(&rt, true, CALLS);
    keeps(&rt, false, &[]);
}

#[test]
fn a_fault_of_the_writer_ends_the_run(rt: HostRuntime) {
    let alloc = rt.alloc();
    let script = Script {
        trouble_at: 3,
        trouble: Trouble::TakesNothing,
        ..Script::smooth(4)
    };
    let mut journal = Journal::new(alloc, false);
    let mut reader = Reading::new(Giving::new(b"call ask\n", b"clock 0\n", Script::smooth(9)));
    let mut writer = Writing::new(Taking::new(alloc, script));
    let answer = run(alloc, 1, &mut journal, &mut reader, &mut writer);
    let sink = writer.into_inner();
    assert!(rt; answer == Err(RunError::Write), "{answer:?}");
    assert!(rt; sink.calls() == script.calls());
    assert!(rt; sink.taken() == b"0 ask qu".as_slice());
}

/// Whether a run that reads so many bytes at a time and wants its journal asks for so many growths, what it answers where the last
/// of them is refused, and what it wrote.
fn refused(alloc: Global, input: &str, most: usize, growth: u64) -> (bool, Answer, Vec<u8>) {
    let heap = Refusing::new(alloc);
    heap.refuse(growth);
    let mut journal = Journal::new(&heap, true);
    let mut reader = Pieces::new(input.as_bytes(), most);
    let mut writer = Writing::new(Vec::new(alloc));
    let answer = run(&heap, 1, &mut journal, &mut reader, &mut writer);
    (heap.has_refused(), answer, writer.into_inner())
}

/// An input whose last line is none, or one for which there is no room, or a cancel of a number not given out, which is an event;
/// the lines before it, and why it is not taken.
const ASKING_ALIKE: &[(&str, &str, Option<RunError>)] = &[
    ("", "call cancel 00\n", Some(RunError::EventLine(1))),
    (
        "clock 4611686018427387904\n",
        "clock 4611686018427387904\ncall ask\n",
        Some(RunError::Full),
    ),
    ("", "call cancel 0\n", None),
];

/// Checks that an input asks for this growth where the lines before do, and what it then answers.
fn asks_alike(
    rt: &(impl AllocGlobal + Abort),
    before: &str,
    input: &str,
    growth: u64,
    error: Option<RunError>,
) {
    let (is_met_before, _, _) = refused(rt.alloc(), before, 65_536, growth);
    let (is_met, answer, _) = refused(rt.alloc(), input, 65_536, growth);
    assert!(rt; is_met == is_met_before, "{input}: {growth}");
    let told = if is_met {
        Some(RunError::Memory)
    } else {
        error
    };
    assert!(rt; answer.err() == told, "{input}: {growth}");
}

#[test]
fn some_lines_ask_for_no_memory(rt: HostRuntime) {
    for (before, input, error) in ASKING_ALIKE {
        for growth in 1..20u64 {
            asks_alike(&rt, before, input, growth, *error);
        }
    }
}

/// Each growth that a run asks for is refused once: what was written is the answers to the lines before.
#[test]
fn want_of_memory_ends_the_run(rt: HostRuntime) {
    let input = "call schedule 5\ncall shutdown\ncall execute\n";
    let trace = b"0 submit 0 schedule due 5\n0 shutdown\n0 refuse 1 rejected\n";
    for growth in 1..20u64 {
        let (is_met, answer, written) = refused(rt.alloc(), input, 5, growth);
        assert!(rt;
            is_met == (answer == Err(RunError::Memory)),
            "{growth}: {answer:?}"
        );
        assert!(rt; is_met || written.as_slice() == trace.as_slice());
        assert!(rt; trace.starts_with(&written));
    }
}

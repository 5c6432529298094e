//! Runs whose ends follow a script.
use super::{CLOCKS, ONE_DELAY, REPORT, TRACE, is_same};
use byte_ends::{Reading, Writing};
use pool_engine::run_pool;
use sched_engine::{Report, RunError};
use scripted_runs::ends::{Giving, Script, Taking, Trouble};
use std::io::ErrorKind;
use std::process::Abort;
use std::sync::Wait;
use std::thread::Threads;

/// A run by two workers between ends with a script, and what it has to come to.
#[derive(Clone, Copy)]
struct Row<'a> {
    plan: &'a str,
    limit: u32,
    clocks: &'a str,
    /// What the reader gives behind the clocks, again and again.
    again: &'a str,
    reader: Script,
    writer: Script,
    answer: Result<Report, RunError>,
    /// The text that is written, up to the worker that starts the task.
    text: &'a str,
}

impl<'a> Row<'a> {
    /// The same between these ends.
    fn between(self, reader: Script, writer: Script) -> Row<'a> {
        Row {
            reader,
            writer,
            ..self
        }
    }

    /// The same with this fault, and this text.
    fn fails(self, fault: RunError, text: &'a str) -> Row<'a> {
        let answer = Err(fault);
        Row {
            answer,
            text,
            ..self
        }
    }
}

/// The example, read in pieces of 8 bytes, which are its lines.
const EXAMPLE: Row<'static> = Row {
    plan: ONE_DELAY,
    limit: 1_000_000,
    clocks: CLOCKS,
    again: "",
    reader: PLAIN,
    writer: PLAIN,
    answer: Ok(REPORT),
    text: TRACE,
};

/// Eight bytes a call, with no trouble.
const PLAIN: Script = Script {
    most: 8,
    interrupts: 0,
    trouble_at: 0,
    trouble: Trouble::TakesNothing,
};

/// An end that gives or takes so many bytes a call, is interrupted so often before each other one, and is in trouble at one.
fn script(most: usize, interrupts: u32, trouble_at: u32, trouble: Trouble) -> Script {
    Script {
        most,
        interrupts,
        trouble_at,
        trouble,
    }
}

/// Checks a run: its answer, that an end at fault was called no more, and what was written.
fn plays<R: Threads + Wait + Sync + AllocGlobal + Abort>(rt: &R, row: &Row<'_>) {
    let (clocks, again) = (row.clocks.as_bytes(), row.again.as_bytes());
    let mut reader = Reading::new(Giving::new(clocks, again, row.reader));
    let mut writer = Writing::new(Taking::new(rt.alloc(), row.writer));
    let plan = row.plan.as_bytes();
    let answer = run_pool(rt, rt.alloc(), plan, 2, row.limit, &mut reader, &mut writer);
    let reads = reader.into_inner().calls();
    let sink = writer.into_inner();
    assert!(rt; answer == row.answer, "{answer:?}");
    assert!(rt; answer != Err(RunError::Read) || reads == row.reader.calls());
    assert!(rt; answer != Err(RunError::Write) || sink.calls() == row.writer.calls());
    assert!(rt; is_same(sink.taken(), row.text));
}

#[test]
fn fruitless_calls_are_tried_again(rt: HostRuntime) {
    let slow = Script::smooth(1);
    let interrupted = script(8, 999, 0, Trouble::TakesNothing);
    for (reader, writer) in [
        (slow, slow),
        (interrupted, slow),
        (slow, interrupted),
        (interrupted, interrupted),
    ] {
        plays(&rt, &EXAMPLE.between(reader, writer));
    }
}

/// A reader at fault after `clock 0` and its newline. Nothing is run or written.
#[test]
fn tells_a_fault_of_the_reader(rt: HostRuntime) {
    for (interrupts, kind) in [
        (0u32, ErrorKind::Other),
        (999, ErrorKind::Other),
        (999, ErrorKind::Interrupted),
        (1_000, ErrorKind::Other),
    ] {
        let reader = script(8, interrupts, 2, Trouble::Fails(kind));
        let row = EXAMPLE.between(reader, PLAIN);
        plays(&rt, &row.fails(RunError::Read, ""));
    }
}

/// A writer at fault after 24 bytes.
#[test]
fn tells_a_fault_of_the_writer(rt: HostRuntime) {
    let front = "0 submit 0 schedule due ";
    for (interrupts, trouble, text) in [
        (0u32, Trouble::Fails(ErrorKind::BrokenPipe), front),
        (0, Trouble::TakesNothing, front),
        (999, Trouble::TakesNothing, front),
        (999, Trouble::Fails(ErrorKind::Interrupted), front),
        (1_000, Trouble::TakesNothing, ""),
    ] {
        let row = EXAMPLE.between(PLAIN, script(8, interrupts, 4, trouble));
        plays(&rt, &row.fails(RunError::Write, text));
    }
}

#[test]
fn ends_on_readers_without_end(rt: HostRuntime) {
    for (again, fault) in [
        ("a", RunError::EventLine(1)),
        ("\n", RunError::EventLine(1)),
        ("clock 0\n", RunError::Full),
    ] {
        let row = Row {
            plan: "version = 1",
            limit: 5,
            clocks: "",
            again,
            ..EXAMPLE
        };
        for most in [1usize, 65_536] {
            let row = row.between(Script::smooth(most), PLAIN);
            plays(&rt, &row.fails(fault, ""));
        }
    }
    let interrupted = script(8, u32::MAX, 0, Trouble::TakesNothing);
    let row = EXAMPLE.between(interrupted, PLAIN);
    plays(&rt, &row.fails(RunError::Read, ""));
}

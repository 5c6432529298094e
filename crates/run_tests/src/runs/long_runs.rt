//! Long runs through [`Reading`] and [`Writing`], as the program has them.
use super::scripted::{ScriptedRow, plays, script};
use super::*;
use sched_engine::run_in_memory;
use scripted_runs::ends::{Script, Trouble};

/// An event of 8 bytes, and the line of 18 bytes that answers it.
const EVENT: &str = "start 9\n";

const ANSWER: &str = "0 error no worker\n";

/// A run of an empty plan over 20,000 such events, with no trouble.
fn long_run<'a>(events: &'a str, text: &'a str, most: usize) -> ScriptedRow<'a> {
    ScriptedRow {
        plan: "version = 1",
        limit: 4_294_967_295,
        events,
        again: "",
        reader: Script::smooth(most),
        writer: Script::smooth(most),
        answer: Ok(report(20_000, 20_000)),
        text,
        least: 360_000,
        greatest: 360_000,
    }
}

/// Checks a run of an empty plan over so many such events between these ends: its answer, and how many bytes are written.
fn plays_long(
    rt: &(impl AllocGlobal + Abort),
    count: usize,
    ends: (Script, Script),
    answer: Result<Report, RunError>,
    bytes: (usize, usize),
) -> Result<(), Fail> {
    let events = EVENT.repeat(rt.alloc(), count)?;
    let text = ANSWER.repeat(rt.alloc(), count)?;
    let row = long_run(events.as_str(), text.as_str(), 1).between(ends.0, ends.1);
    plays(rt, &row.comes_to(answer, bytes.0, bytes.1));
    Ok(())
}

/// An interrupt in mid-stream is none of their faults.
#[test]
fn long_runs_end_well(rt: HostRuntime) -> Result<(), Fail> {
    let answer = Ok(report(20_000, 20_000));
    for most in [5usize, 1_000, 65_536, 1_000_000] {
        let end = script(most, 0, 2, Trouble::Fails(ErrorKind::Interrupted));
        plays_long(&rt, 20_000, (end, end), answer, (360_000, 360_000))?;
    }
    Ok(())
}

/// A reader that gives, and a writer that takes, one byte a call: more than 1 MiB is written whole.
#[test]
fn more_than_a_mebibyte_goes_a_byte_a_call(rt: HostRuntime) -> Result<(), Fail> {
    let text = ANSWER.repeat(rt.alloc(), 60_000)?;
    assert!(rt; text.len() > 1_048_576);
    let answer = Ok(report(60_000, 60_000));
    for most in [1usize, 65_536] {
        let ends = (Script::smooth(most), Script::smooth(1));
        plays_long(&rt, 60_000, ends, answer, (1_080_000, 1_080_000))?;
    }
    Ok(())
}

/// 5,000 bytes were read, which are 625 events. An end in mid-line is no event.
#[test]
fn trouble_of_the_reader_in_mid_stream_is_told_at_once(rt: HostRuntime) -> Result<(), Fail> {
    for (trouble_at, trouble, fault) in [
        (1_001, Trouble::Fails(ErrorKind::Other), RunError::Read),
        (1_001, Trouble::Fails(ErrorKind::WouldBlock), RunError::Read),
        (1_002, Trouble::TakesNothing, RunError::EventLine(626)),
    ] {
        let ends = (script(5, 0, trouble_at, trouble), Script::smooth(5));
        plays_long(&rt, 20_000, ends, Err(fault), (11_250, 11_250))?;
    }
    Ok(())
}

/// What was given to the writer is answered whole, and 1,000 writes took 7 bytes at most.
#[test]
fn a_fault_in_mid_stream_of_the_writer_is_told_at_once(rt: HostRuntime) -> Result<(), Fail> {
    for trouble in [Trouble::Fails(ErrorKind::BrokenPipe), Trouble::TakesNothing] {
        let ends = (Script::smooth(7), script(7, 0, 1_001, trouble));
        plays_long(&rt, 20_000, ends, Err(RunError::Write), (5_001, 7_000))?;
    }
    Ok(())
}

/// A plan of 256 calls, one each nanosecond.
fn many_calls(alloc: Global) -> Result<String, Fail> {
    let mut plan = String::from_str(alloc, "version = 1\n[[block]]\n")?;
    for n in 0..256u32 {
        write!(
            plan,
            "[[block.call]]\nop = \"schedule\"\nname = \"n{n}\"\ndelay = 0\nat = {n}\n"
        )?;
    }
    Ok(plan)
}

/// The trace of a clock that reaches them all.
fn trace_of_many_calls(alloc: Global) -> Result<String, Fail> {
    let mut trace = String::new(alloc);
    for n in 0..256u32 {
        writeln!(trace, "{n} submit {n} schedule due {n}")?;
    }
    trace.push_str("1000 clock\n")?;
    Ok(trace)
}

#[test]
fn one_clock_makes_all_calls(rt: HostRuntime) -> Result<(), Fail> {
    let plan = many_calls(rt.alloc())?;
    let trace = trace_of_many_calls(rt.alloc())?;
    let told = (Ok(report(1, 257)), trace.as_str());
    answers(&rt, "one clock", plan.as_str(), 1, 9, "clock 1000\n", told);
    Ok(())
}

/// A plan of one block that submits 4,096 tasks at moment 0.
const MANY_TASKS: &str = "\
version = 1
[[block]]
times = 4_096
every = 0
[[block.call]]
op = \"schedule\"
name = \"a\"
delay = 0
";

/// The trace of a clock that makes all these calls: more text than is held at once.
fn many_lines(alloc: Global) -> Result<String, Fail> {
    let mut trace = String::new(alloc);
    for n in 0..4_096u32 {
        writeln!(trace, "0 submit {n} schedule due 0")?;
    }
    trace.push_str("0 clock\n")?;
    Ok(trace)
}

/// A run of one such event with no trouble.
fn long_event(text: &str, most: usize) -> ScriptedRow<'_> {
    ScriptedRow {
        plan: MANY_TASKS,
        answer: Ok(report(1, 4_097)),
        least: text.len(),
        greatest: text.len(),
        ..long_run("clock 0\n", text, most)
    }
}

#[test]
fn the_text_of_a_long_event_is_written_as_it_comes(rt: HostRuntime) -> Result<(), Fail> {
    let text = many_lines(rt.alloc())?;
    for most in [1usize, 1_000, 1_000_000] {
        plays(&rt, &long_event(text.as_str(), most));
    }
    Ok(())
}

#[test]
fn a_fault_of_the_writer_in_mid_event_is_told_at_once(rt: HostRuntime) -> Result<(), Fail> {
    let text = many_lines(rt.alloc())?;
    // two writes take what is held first, which lacks less than a line of 65,536 bytes
    let writer = script(40_000, 0, 3, Trouble::TakesNothing);
    let row = long_event(text.as_str(), 40_000).between(Script::smooth(40_000), writer);
    plays(&rt, &row.comes_to(Err(RunError::Write), 65_408, 65_536));
    Ok(())
}

/// A plan that is at fault behind so many spaces.
fn fault_far_behind(alloc: Global, spaces: usize) -> Result<String, Fail> {
    let spaces = " ".repeat(alloc, spaces)?;
    Ok(format!(in alloc; "version = 1\n{spaces}\nversion = 2\n")?)
}

#[test]
fn a_fault_far_behind_in_the_plan_is_no_want_of_memory(rt: HostRuntime) -> Result<(), Fail> {
    let plan = fault_far_behind(rt.alloc(), 100_000)?;
    let (answer, trace) = run_in_memory(rt.alloc(), plan.as_bytes(), 1, 9, b"clock 0\n");
    assert!(rt; answer == Err(NO_TOML));
    assert!(rt; trace.is_empty());
    Ok(())
}

//! Traces with one byte changed, left out or doubled, at each place, and with one line left out, doubled or put behind the
//! next one, beside the slow program.
ghost use Rattle.std.specs.Prelude.{◌<◌, length, IfOk};
ghost use Rattle.queue_code.specs.Calls.{IsPlanned};

use super::plainly::plain_finding;
use super::*;
use executor_plain::planned_calls;
use queue_code::CodeCall;
use sched_time::{Timing, Which};
use scripted_runs::Row;
use scripted_runs::cancels::A_CANCEL_OF_A_RUN;
use scripted_runs::policies::POLICIES_THAT_SWEEP;
use scripted_runs::runs::{ERRORS, TWO_WORKERS};
use scripted_runs::shutdown::{A_SWEEP, AN_ENDED_RUN};
use scripted_runs::stopping::{A_SHUTDOWN_AT_ONCE, A_SHUTDOWN_AT_ONCE_AFTER_A_SHUTDOWN};

/// What is found of a text, where the check and the slow program find the same.
fn found_by_both(
    alloc: Global,
    plan: &Plan<Global>,
    calls: &[(u64, CodeCall)],
    workers: u8,
    text: &[u8],
) -> Result<Option<Finding>, AllocError>
    requires { IsPlanned calls.now }
{
    let finding = plain_finding(alloc, calls, workers, text)?;
    if text.len() > MOST_BYTES || check(alloc, plan, workers, text) != Ok(finding) {
        return Ok(None);
    }
    Ok(Some(finding))
}

/// A text with other bytes in the place of one.
fn changed(alloc: Global, text: &[u8], at: usize, instead: &[u8]) -> Result<Vec<u8>, AllocError>
    requires { at < length text.now }
{
    let mut changed = Vec::from_slice(alloc, &text[..at])?;
    changed.extend_from_slice(instead)?;
    changed.extend_from_slice(&text[at + 1..])?;
    Ok(changed)
}

/// Whether a trace with other bytes in the place of one is another text that conforms, where the check and the slow program find
/// the same.
fn is_another(
    rt: &(impl AllocGlobal + Abort),
    plan: &Plan<Global>,
    calls: &[(u64, CodeCall)],
    row: &Row,
    at: usize,
    instead: &[u8],
) -> Result<bool, AllocError>
    requires orderly { IsPlanned calls.now }
    requires within { at < length row.now.trace.now }
{
    let trace = row.trace.as_bytes();
    let text = changed(rt.alloc(), trace, at, instead)?;
    let found = found_by_both(rt.alloc(), plan, calls, row.workers, &text)?;
    assert!(rt; found.is_some(), "{}: {at}: {instead:?}", row.name);
    Ok(found == Some(Finding::Conforms) && text.as_slice() != trace)
}

/// Whether a trace with one byte twice is another text that conforms.
fn is_doubled_another(
    rt: &(impl AllocGlobal + Abort),
    plan: &Plan<Global>,
    calls: &[(u64, CodeCall)],
    row: &Row,
    at: usize,
) -> Result<bool, AllocError>
    requires orderly { IsPlanned calls.now }
    requires within { at < length row.now.trace.now }
{
    let code = row.trace.as_bytes()[at];
    is_another(rt, plan, calls, row, at, &[code, code])
}

/// What stands in the place of a byte, beside the byte twice.
const INSTEAD: &[&[u8]] = &[b"", b"0", b"9", b" ", b"\n", b"x"];

/// How many other texts conform, of those that have something else in the place of one byte of the trace of a row.
fn conforming_at(
    rt: &(impl AllocGlobal + Abort),
    plan: &Plan<Global>,
    calls: &[(u64, CodeCall)],
    row: &Row,
    at: usize,
) -> Result<usize, AllocError>
    requires orderly { IsPlanned calls.now }
    requires within { at < length row.now.trace.now }
{
    let mut conforming = 0usize;
    for instead in INSTEAD {
        if is_another(rt, plan, calls, row, at, instead)? {
            conforming = conforming.saturating_add(1);
        }
    }
    Ok(conforming)
}

/// Checks the texts that differ from the trace of a row by one byte, of which this many conform.
fn finds_byte_changes(
    rt: &(impl AllocGlobal + Abort),
    plan: &Plan<Global>,
    calls: &[(u64, CodeCall)],
    row: &Row,
    conforming: usize,
) -> Result<(), Fail>
    requires { IsPlanned calls.now }
{
    let mut met = 0usize;
    for at in 0..row.trace.len() {
        met = met.saturating_add(conforming_at(rt, plan, calls, row, at)?);
        if is_doubled_another(rt, plan, calls, row, at)? {
            met = met.saturating_add(1);
        }
    }
    assert!(rt; met == conforming, "{}: {met}", row.name);
    Ok(())
}

/// How often a changed line stands in its place, and behind the next one: it is left out, doubled, or put behind the next one.
const LINE_CHANGES: &[(usize, usize)] = &[(0, 0), (2, 0), (0, 1)];

/// Adds a line with its newline so many times.
fn add_copies(text: &mut String, line: &str, copies: usize) -> Result<(), AllocError> {
    for _copy in 0..copies {
        add_line(text, line)?;
    }
    Ok(())
}

/// A trace whose line at a place, counted from 0, stands there and behind the next one so many times.
fn with_line_changed(
    alloc: Global,
    trace: &str,
    at: usize,
    there: usize,
    behind: usize,
) -> Result<String, AllocError> {
    let changed = trace.lines().nth(at).unwrap_or("");
    let mut text = String::new(alloc);
    for (here, line) in trace.lines().enumerate() {
        add_copies(&mut text, line, if here == at { there } else { 1 })?;
        if here.checked_sub(1) == Some(at) {
            add_copies(&mut text, changed, behind)?;
        }
    }
    Ok(text)
}

/// Checks the texts that differ from the trace of a row by one line.
fn finds_line_changes(
    rt: &(impl AllocGlobal + Abort),
    plan: &Plan<Global>,
    calls: &[(u64, CodeCall)],
    row: &Row,
) -> Result<(), Fail>
    requires { IsPlanned calls.now }
{
    for at in 0..row.trace.lines().count() {
        for (there, behind) in LINE_CHANGES {
            let text = with_line_changed(rt.alloc(), row.trace, at, *there, *behind)?;
            let found = found_by_both(rt.alloc(), plan, calls, row.workers, text.as_bytes())?;
            assert!(rt; found.is_some(), "{}: {text}", row.name);
        }
    }
    Ok(())
}

/// Adds how often a task runs: `once`, or `rate` or `fixed` with the nanoseconds from one run to the next.
fn add_timing(text: &mut String, timing: Timing) -> Result<(), Fail> {
    match timing {
        Timing::Once => text.push_str("once")?,
        Timing::Rate(period) => write!(text, "rate {}", period.nanos())?,
        Timing::Fixed(delay) => write!(text, "fixed {}", delay.nanos())?,
    }
    Ok(())
}

/// Adds a submission, as `submit TASK TIMING DELAY`.
fn add_submission(text: &mut String, task: u32, timing: Timing, delay: u64) -> Result<(), Fail> {
    write!(text, "submit {task} ")?;
    add_timing(text, timing)?;
    write!(text, " {delay}")?;
    Ok(())
}

/// The word of a policy.
fn word_of(which: Which) -> &'static str {
    match which {
        Which::Continue => "continue",
        Which::Execute => "execute",
        Which::Remove => "remove",
    }
}

/// Adds a call, as a submission, `illegal TASK`, `cancel TASK`, `POLICY VALUE`, `shutdown`, `shutdown now` or `ask`.
fn add_call(text: &mut String, call: CodeCall) -> Result<(), Fail> {
    match call {
        CodeCall::Submit {
            task,
            timing,
            delay,
        } => add_submission(text, task, timing, delay)?,
        CodeCall::Illegal { task } => write!(text, "illegal {task}")?,
        CodeCall::Cancel { task } => write!(text, "cancel {task}")?,
        CodeCall::SetPolicy { which, value } => write!(text, "{} {value}", word_of(which))?,
        CodeCall::Shutdown => text.push_str("shutdown")?,
        CodeCall::ShutdownNow => text.push_str("shutdown now")?,
        CodeCall::Ask => text.push_str("ask")?,
    }
    Ok(())
}

/// Adds a call with its moment, as a line.
fn add_made(text: &mut String, moment: u64, call: CodeCall) -> Result<(), Fail> {
    write!(text, "{moment} ")?;
    add_call(text, call)?;
    text.push('\n')?;
    Ok(())
}

/// Calls, each a line: its moment and its words.
fn calls_text(alloc: Global, calls: &[(u64, CodeCall)]) -> Result<String, Fail> {
    let mut text = String::new(alloc);
    for (moment, call) in calls {
        add_made(&mut text, *moment, *call)?;
    }
    Ok(text)
}

/// The calls of a plan.
fn calls_of_plan(alloc: Global, plan: &Plan<Global>) -> Result<Vec<(u64, CodeCall)>, Fail>
    ensures { IfOk result (λ calls. IsPlanned calls.items) }
{
    let code = code_of(alloc, plan)?;
    let count = code.calls();
    let made = planned_calls(alloc, &code)?;
    if made.len() != count as usize {
        return Err(Fail::from("another number of calls"));
    }
    Ok(made)
}

/// Checks the trace of a row, and the texts that differ from it at one place: of those that differ by one byte this many conform.
fn finds_trace_changes(
    rt: &(impl AllocGlobal + Abort),
    plan: &Plan<Global>,
    calls: &[(u64, CodeCall)],
    row: &Row,
    conforming: usize,
) -> Result<(), Fail>
    requires { IsPlanned calls.now }
{
    let whole = found_by_both(rt.alloc(), plan, calls, row.workers, row.trace.as_bytes())?;
    assert!(rt; whole == Some(Finding::Conforms), "{}", row.name);
    finds_byte_changes(rt, plan, calls, row, conforming)?;
    finds_line_changes(rt, plan, calls, row)
}

/// Checks the calls of a row, as `calls_text` writes them, and what `finds_trace_changes` does.
fn finds_changes(
    rt: &(impl AllocGlobal + Abort),
    row: &Row,
    calls: &str,
    conforming: usize,
) -> Result<(), Fail> {
    let plan = plan_of(rt.alloc(), row.plan)?;
    let made = calls_of_plan(rt.alloc(), &plan)?;
    let told = calls_text(rt.alloc(), &made)?;
    assert!(rt; told.as_str() == calls, "{}: {told}", row.name);
    finds_trace_changes(rt, &plan, &made, row, conforming)
}

/// A task that is kept once it is cancelled, with a trace of purges, which no event is.
const PURGES: Row = Row {
    name: "purges",
    plan: "version = 1\nblock = [{ call = [\
           { op = 'schedule', name = 'a', delay = 10 },\
           { at = 2, op = 'cancel', name = 'a' },\
           { at = 3, op = 'ask' }] }]",
    workers: 1,
    events: "",
    trace: "0 purge\n0 submit 0 schedule due 10\n2 cancel 0 yes\n2 purge\n\
            3 ask queue 0 running 0 shutdown no terminated no\n3 purge\n",
};

/// A row, its calls as `calls_text` writes them, and how many of the texts that differ from its trace by one byte conform.
const ROWS: &[(Row, &str, usize)] = &[
    // The value of the last line may be 0 as well, and 99.
    (
        A_SWEEP,
        "0 execute false\n0 submit 0 once 1\n0 submit 1 once 100\n0 submit 2 rate 3 3\n5 shutdown\n6 shutdown\n6 ask\n",
        2,
    ),
    // The last clock may show 9 as well, and 44.
    (
        POLICIES_THAT_SWEEP,
        "0 continue true\n0 submit 0 rate 5 5\n0 submit 1 once 9\n1 shutdown\n2 cancel 1\n2 ask\n3 execute false\n3 ask\n\
            4 continue false\n4 ask\n",
        2,
    ),
    // The last clock may show 9 as well, and 44.
    (
        A_SHUTDOWN_AT_ONCE,
        "0 submit 0 once 9\n0 submit 1 rate 2 0\n0 submit 2 once 0\n0 submit 3 once 7\n1 cancel 3\n2 shutdown now\n2 ask\n\
            3 continue true\n4 submit 4 once 0\n",
        2,
    ),
    // The last clock may show 9 as well, and 33.
    (
        A_SHUTDOWN_AT_ONCE_AFTER_A_SHUTDOWN,
        "0 submit 0 rate 5 5\n0 continue true\n1 shutdown\n2 shutdown now\n3 shutdown\n3 shutdown now\n",
        2,
    ),
    (
        AN_ENDED_RUN,
        "0 submit 0 fixed 4 0\n1 shutdown\n2 continue true\n9 continue false\n",
        0,
    ),
    (A_CANCEL_OF_A_RUN, "0 submit 0 rate 5 0\n", 0),
    (PURGES, "0 submit 0 once 10\n2 cancel 0\n3 ask\n", 0),
    // The value 2 may be 0, 9 and 22 as well.
    (ERRORS, "0 submit 0 once 0\n", 3),
    // The last run may be worker 0's as well.
    (TWO_WORKERS, "0 submit 0 rate 10 10\n", 1),
];

#[test]
fn of_each_row(rt: HostRuntime) -> Result<(), Fail> {
    for (row, calls, conforming) in ROWS {
        finds_changes(&rt, row, calls, *conforming)?;
    }
    Ok(())
}

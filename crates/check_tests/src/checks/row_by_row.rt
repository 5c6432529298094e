//! The rows of the crate `scripted_runs`: a core and the plain program give the lines of the trace for the events, each front of the
//! trace conforms, and so does no text that ends in a line of it that is cut short or goes on.
use super::*;
use executor_core::{Core, CoreError};
use executor_model::{Event, Line};
use executor_plain::{planned_calls, trace};
use queue_code::Code;
use scripted_runs::{Row, TOPICS, topic};
use trace_text::{read_event, write_line};

/// The code of a row's plan.
fn code_of_row(alloc: Global, row: &Row) -> Result<Code<Global>, Fail> {
    let plan = plan_of(alloc, row.plan)?;
    code_of(alloc, &plan)
}

/// The events of a row.
fn events_of(rt: &(impl AllocGlobal + Abort), row: &Row) -> Result<Vec<Event>, Fail> {
    let mut events = Vec::new(rt.alloc());
    for words in row.events.lines() {
        let mut line = String::new(rt.alloc());
        add_line(&mut line, words)?;
        match read_event(line.as_bytes()) {
            Some(event) => events.push(event)?,
            None => assert!(rt; false, "{}: {words}", row.name),
        }
    }
    Ok(events)
}

/// Checks that these lines are the trace of a row.
fn is_trace(rt: &(impl AllocGlobal + Abort), row: &Row, lines: &[Line]) -> Result<(), Fail> {
    let mut text = Vec::new(rt.alloc());
    for line in lines {
        write_line(&mut text, line)?;
    }
    assert!(rt;
        text.as_slice() == row.trace.as_bytes(),
        "{}: {lines:?}",
        row.name
    );
    Ok(())
}

/// Takes an event, and adds what is answered.
fn take(core: &mut Core<Global>, event: Event, lines: &mut Vec<Line>) -> Result<(), CoreError> {
    core.event(event, lines)
}

/// What the core of a code answers to events.
fn answers_of(
    alloc: Global,
    code: Code<Global>,
    workers: u8,
    events: &[Event],
) -> Result<Vec<Line>, CoreError> {
    let mut core = Core::new(alloc, code, workers, u32::MAX)?;
    let mut lines = Vec::new(alloc);
    for event in events {
        take(&mut core, *event, &mut lines)?;
    }
    Ok(lines)
}

/// Checks that a core gives the trace of a row.
fn core_gives(rt: &(impl AllocGlobal + Abort), row: &Row) -> Result<(), Fail> {
    let code = code_of_row(rt.alloc(), row)?;
    let events = events_of(rt, row)?;
    let lines = answers_of(rt.alloc(), code, row.workers, &events)?;
    is_trace(rt, row, &lines)
}

/// Checks that the plain program gives the trace of a row.
fn plain_gives(rt: &(impl AllocGlobal + Abort), row: &Row) -> Result<(), Fail> {
    let code = code_of_row(rt.alloc(), row)?;
    // The calls are in order, as the plain program asks.
    let _count = code.calls();
    let made = planned_calls(rt.alloc(), &code)?;
    let events = events_of(rt, row)?;
    is_trace(rt, row, &trace(rt.alloc(), &made, row.workers, &events)?)
}

/// Checks what is found of a text that begins as the trace of a row.
fn finds(
    rt: &(impl AllocGlobal + Abort),
    row: &Row,
    text: &str,
    finding: Finding,
) -> Result<(), Fail> {
    let found = found_by(rt, row.plan, row.workers, text)?;
    assert!(rt; found == finding, "{}: {text}", row.name);
    Ok(())
}

/// A front of a trace conforms, unless the line behind it, which has this number, ends a task. That line breaks it where it
/// lacks its newline, and where it has a byte more.
fn conforms_before(
    rt: &(impl AllocGlobal + Abort),
    row: &Row,
    front: &str,
    line: &str,
    number: u64,
) -> Result<(), Fail> {
    let breaks = Finding::Breaks(number);
    let is_owed = line.contains(" end ");
    let wanted = if is_owed { breaks } else { Finding::Conforms };
    finds(rt, row, front, wanted)?;
    let mut text = text_of(rt.alloc(), front, &[line])?;
    finds(rt, row, &text, breaks)?;
    text.push_str("x\n")?;
    finds(rt, row, &text, breaks)
}

/// Checks the trace of a row, and each front of it.
fn conforms(rt: &(impl AllocGlobal + Abort), row: &Row) -> Result<(), Fail> {
    let mut front = String::new(rt.alloc());
    let mut number = 0u64;
    for line in row.trace.lines() {
        number = number.saturating_add(1);
        conforms_before(rt, row, &front, line, number)?;
        add_line(&mut front, line)?;
    }
    finds(rt, row, row.trace, Finding::Conforms)
}

#[test]
fn a_core_gives_the_trace_of_each_row(rt: HostRuntime) -> Result<(), Fail> {
    for number in 0..TOPICS {
        for row in topic(number) {
            core_gives(&rt, row)?;
        }
    }
    Ok(())
}

#[test]
fn the_plain_program_gives_the_trace_of_each_row(rt: HostRuntime) -> Result<(), Fail> {
    for number in 0..TOPICS {
        for row in topic(number) {
            plain_gives(&rt, row)?;
        }
    }
    Ok(())
}

#[test]
fn each_front_of_the_trace_of_each_row_conforms(rt: HostRuntime) -> Result<(), Fail> {
    for number in 0..TOPICS {
        for row in topic(number) {
            conforms(&rt, row)?;
        }
    }
    Ok(())
}

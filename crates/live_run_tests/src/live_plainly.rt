//! The plain program and the executor tell the same.
//!
//! The lines of a live input are sequences of letters here. The executor is driven by its calls, and what it tells is compared with
//! what the plain program tells of the same lines.
mod drawing;
mod executors;
mod growths;
mod refusals;
mod replies;
mod sequences;
mod usage;

use call_text::{LiveFront, front_line};
use executor_model::Line;
use executors::trace_of_executor;
use live_engine::LiveLine;
use live_plain::trace_of_lines;
use std::alloc::Global;
use std::test::Fail;
use trace_text::write_line;

/// The lines that a text spells.
fn read_lines(alloc: Global, text: &str) -> Result<Vec<LiveLine, Global>, Fail> {
    let mut lines = Vec::new(alloc);
    let mut rest = text.as_bytes();
    for _ in text.lines() {
        let (line, size) = match front_line(rest) {
            LiveFront::Event(event, size) => (LiveLine::Event(event), size),
            LiveFront::Call(call, size) => (LiveLine::Call(call), size),
            LiveFront::Part | LiveFront::Refused => return Err("a line is none".into()),
        };
        lines.push(line)?;
        rest = rest.get(size..).unwrap_or(&[]);
    }
    Ok(lines)
}

/// The text of some lines of a trace.
fn text_of(alloc: Global, lines: &[Line]) -> Result<Vec<u8>, Fail> {
    let mut text = Vec::new(alloc);
    for line in lines {
        write_line(&mut text, line)?;
    }
    Ok(text)
}

/// Whether both tell the same of some lines.
fn agree(alloc: Global, workers: u8, lines: &[LiveLine]) -> Result<bool, Fail> {
    let told = trace_of_executor(alloc, workers, lines)?;
    let plain = trace_of_lines(alloc, workers, lines)?;
    Ok(told == plain)
}

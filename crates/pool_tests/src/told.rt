//! What is told of a pool and of its lines, beside a script and beside a check.

use executor_model::Line;
use plan_compile::compile;
use plan_read::{Plan, read_plan};
use queue_code::Code;
use std::alloc::{AllocGlobal, Global};
use std::fmt::Debug;
use std::process::Abort;
use std::test::Fail;
use trace_check::{Finding, MOST_BYTES, check};
use trace_text::write_line;

/// A limit that is not reached.
pub const AMPLE: u32 = 1_000_000;

/// The code of a plan's text.
pub fn code_of(alloc: Global, plan: &str) -> Result<Code<Global>, Fail> {
    let plan = read_plan(alloc, plan.as_bytes())?;
    Ok(compile(alloc, &plan)?)
}

/// The step or call of a line of a script, and what is told of it behind ` | `, or nothing.
pub fn parts_of(line: &str) -> (&str, &str) {
    line.split_once(" | ").unwrap_or((line, ""))
}

/// Checks what is told of the step of a line of a script.
fn is_told<T: Debug>(
    rt: &(impl Abort + AllocGlobal),
    name: &str,
    told: &T,
    line: &str,
) -> Result<(), Fail> {
    let told = format!(in rt.alloc(); "{told:?}")?;
    assert!(rt; told.as_str() == parts_of(line).1, "{name}: {line}: {told}");
    Ok(())
}

/// Checks what is told of each step of a script.
pub fn are_told<T: Debug>(
    rt: &(impl Abort + AllocGlobal),
    name: &str,
    told: &[T],
    script: &str,
) -> Result<(), Fail> {
    assert!(rt; told.len() == script.lines().count(), "{name}");
    for (told, line) in told.iter().zip(script.lines()) {
        is_told(rt, name, told, line)?;
    }
    Ok(())
}

/// The text of some lines.
fn text_of(alloc: Global, lines: &[Line]) -> Result<Vec<u8>, Fail> {
    let mut text = Vec::new(alloc);
    for line in lines {
        write_line(&mut text, line)?;
    }
    Ok(text)
}

/// What is found of the text of some lines, held against a plan.
fn found(
    rt: &impl Abort,
    alloc: Global,
    plan: &Plan<Global>,
    workers: u8,
    lines: &[Line],
) -> Result<Finding, Fail> {
    let text = text_of(alloc, lines)?;
    assert!(rt; text.len() <= MOST_BYTES);
    Ok(check(alloc, plan, workers, &text)?)
}

/// Checks some lines by the plan alone.
pub fn conforms(
    rt: &(impl Abort + AllocGlobal),
    plan: &Plan<Global>,
    workers: u8,
    lines: &[Line],
) -> Result<(), Fail> {
    let finding = found(rt, rt.alloc(), plan, workers, lines)?;
    assert!(rt; finding == Finding::Conforms, "{finding:?}");
    Ok(())
}

/// Checks the text of the lines.
pub fn check_lines(
    rt: &(impl Abort + AllocGlobal),
    name: &str,
    lines: &[Line],
    text: &str,
) -> Result<(), Fail> {
    let written = text_of(rt.alloc(), lines)?;
    assert!(rt; written.as_slice() == text.as_bytes(), "{name}: {text}");
    Ok(())
}

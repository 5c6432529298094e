//! Texts by hand, and the traces of plans.
mod breaks;
mod changes;
mod examples;
mod heaps;
mod plainly;
mod reads;
mod row_by_row;
mod usage;

ghost use Rattle.std.specs.Prelude.{◌≤◌, length};
ghost use Rattle.trace_check.specs.Standing.{most_bytes};

use crate::plan_texts::{code_of, plan_of};
use plan_read::Plan;
use std::alloc::{AllocError, Allocator, Global};
use std::process::Abort;
use std::test::Fail;
use trace_check::{CheckError, Finding, MOST_BYTES};

/// That of the crate. All tests check through it: what it ensures is then looked at once.
fn check<A: Allocator + Copy>(
    alloc: A,
    plan: &Plan<Global>,
    workers: u8,
    text: &[u8],
) -> Result<Finding, CheckError>
    requires { length text.now ≤ most_bytes }
{
    trace_check::check(alloc, plan, workers, text)
}

/// What a check of a text answers, under a plan and this many workers.
fn checked(
    rt: &(impl AllocGlobal + Abort),
    plan: &str,
    workers: u8,
    text: &[u8],
) -> Result<Result<Finding, CheckError>, Fail> {
    let plan = plan_of(rt.alloc(), plan)?;
    assert!(rt; text.len() <= MOST_BYTES);
    Ok(check(rt.alloc(), &plan, workers, text))
}

/// What is found of a text with this many workers.
fn found_by(
    rt: &(impl AllocGlobal + Abort),
    plan: &str,
    workers: u8,
    text: &str,
) -> Result<Finding, Fail> {
    Ok(checked(rt, plan, workers, text.as_bytes())??)
}

/// The text of a front and of the parts behind it.
fn text_of(alloc: Global, front: &str, parts: &[&str]) -> Result<String, AllocError> {
    let mut text = String::from_str(alloc, front)?;
    for part in parts {
        text.push_str(part)?;
    }
    Ok(text)
}

/// Adds a line with its newline.
fn add_line(text: &mut String, line: &str) -> Result<(), AllocError> {
    text.push_str(line)?;
    text.push('\n')
}

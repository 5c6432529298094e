//! Tests of warnings, each kind, and where none is told.
mod forms;
mod memory;
mod refusals;
mod units;
mod unused;

use crate::plan_texts::plan_of;
use plan_read::{HeapAllocator, Plan};
use plan_warnings::Warning;
use std::alloc::{AllocError, Global};
use std::test::Fail;

/// That of the crate. All tests find warnings through it: what it ensures is then looked at once.
fn warnings_of<A: HeapAllocator>(
    alloc: A,
    plan: &Plan<Global>,
    text: &[u8],
) -> Result<Vec<Warning, A>, AllocError> {
    plan_warnings::warnings_of(alloc, plan, text)
}

/// Warnings of a file `p`, with ` + ` between two; `fine` where there are none.
fn joined<A: HeapAllocator>(
    alloc: Global,
    warnings: &Vec<Warning, A>,
) -> Result<String, AllocError> {
    if warnings.is_empty() {
        return String::from_str(alloc, "fine");
    }
    let mut all = String::new(alloc);
    for warning in warnings.as_slice() {
        if !all.is_empty() {
            all.push_str(" + ")?;
        }
        let told = warning.in_file("p").to_string(alloc)?;
        all.push_str(told.as_str())?;
    }
    Ok(all)
}

/// What is told of the text of a file `p`, which is a plan.
pub fn told(alloc: Global, text: &str) -> Result<String, Fail> {
    let plan = plan_of(alloc, text)?;
    let warnings = warnings_of(alloc, &plan, text.as_bytes())?;
    Ok(joined(alloc, &warnings)?)
}

#[test]
fn the_page_is_run(rt: HostRuntime) -> Result<(), Fail> {
    let alloc = rt.alloc();
    // example: plan_warnings
    let text =
        "version = 2\n\n[[block]]\n\n[[block.call]]\nop = \"shutdown\"\n\n[[block.call]]\nop = \"execute\"\nname = \"late\"\n";
    let plan = plan_of(alloc, text)?; // by `read_plan`
    let warnings = warnings_of(alloc, &plan, text.as_bytes())?;
    let first = warnings.first().ok_or("no warning")?;
    let told = first.in_file("plan.toml").to_string(alloc)?;
    let wanted = "plan.toml:10: warning: block 1, call 2, name = \"late\": refused each time; \
        block 1, call 1 shuts the executor down";
    assert_eq!(rt; told.as_str(), wanted);
    // end of example
    Ok(())
}

/// All tables of texts of plans.
pub const TABLES: &[&str] = &[
    forms::TABLES,
    refusals::TABLES,
    units::TABLES,
    unused::TABLES,
];

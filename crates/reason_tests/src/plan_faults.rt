//! Tests of reasons, each kind of fault at each of its places.
mod calls;
mod documents;
mod headers;
mod memory;
mod names;
mod orders;
mod shown;
mod times;
mod tops;
mod words;

use plan_read::{HeapAllocator, PlanFault, read_plan};
use plan_reasons::Reason;
use std::alloc::{AllocError, Global};
use std::test::Fail;

/// That of the crate. All tests find reasons through it: what it ensures is then looked at once.
fn reason_of<A: HeapAllocator>(alloc: A, text: &[u8]) -> Option<Reason> {
    plan_reasons::reason_of(alloc, text)
}

/// The fault of a text, if it has one.
fn fault(alloc: Global, text: &[u8]) -> Option<PlanFault> {
    match read_plan(alloc, text) {
        Ok(_) => None,
        Err(fault) => Some(fault),
    }
}

/// What is told of the text of a file `p`: `fine`, or the reason in one line. It is "another fault" where the fault is not that
/// of `read_plan`.
pub fn told(alloc: Global, text: &str) -> Result<String, AllocError> {
    let text = text.as_bytes();
    let fault = fault(alloc, text);
    let Some(reason) = reason_of(alloc, text) else {
        let told = if fault.is_none() {
            "fine"
        } else {
            "another fault"
        };
        return String::from_str(alloc, told);
    };
    if fault == Some(reason.fault) {
        reason.in_file("p").to_string(alloc)
    } else {
        String::from_str(alloc, "another fault")
    }
}

/// A text, and behind it this many copies of another one.
fn repeated(alloc: Global, front: &str, part: &str, count: usize) -> Result<String, AllocError> {
    let mut text = String::from_str(alloc, front)?;
    for _copy in 0..count {
        text.push_str(part)?;
    }
    Ok(text)
}

#[test]
fn the_page_is_run(rt: HostRuntime) -> Result<(), Fail> {
    let alloc = rt.alloc();
    // example: plan_reasons
    let text = b"version = 2\n\n[[block]]\n\n[[block.call]]\nop = \"sched\"\n";
    let reason = reason_of(alloc, text).ok_or("no reason")?;
    let told = reason.in_file("plan.toml").to_string(alloc)?;
    let wanted = "plan.toml:6: block 1, call 1, op = \"sched\": no such op; \
        one of schedule, execute, rate, fixed, cancel, policy, shutdown, shutdown_now, ask";
    assert_eq!(rt; told.as_str(), wanted);
    // end of example
    Ok(())
}

/// All tables of texts of plans.
pub const TABLES: &[&str] = &[
    calls::TABLES,
    documents::TABLES,
    headers::TABLES,
    names::TABLES,
    orders::TABLES,
    shown::TABLES,
    times::TABLES,
    tops::TABLES,
    words::TABLES,
];

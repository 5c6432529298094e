//! Want of memory.

use super::{ONE_DELAY, reason_of_trace};
use crate::plan_texts::plan_of;
use plan_read::Plan;
use refusing_allocator::Refusing;
use std::alloc::Global;
use std::process::Abort;
use std::test::Fail;
use trace_check::CheckError;

/// A text that breaks.
const TEXT: &[u8] = b"0 submit 0 schedule due 5\n5 start 0 idle\n";

/// What is told of it.
const TOLD: &str =
    "p:2: \"5 start 0 idle\": breaks; \"5 clock\" or \"0 start 0 idle\" could stand here";

/// Finds the reason of the text over a heap. Where a growth was refused, want of memory is answered, and else the reason. All
/// memory is given back.
fn finds_reason(
    rt: &(impl AllocGlobal + Abort),
    heap: &Refusing<Global>,
    plan: &Plan<Global>,
) -> Result<(), Fail> {
    match reason_of_trace(heap, plan, 1, TEXT) {
        Err(error) => assert!(rt; heap.has_refused() && error == CheckError::Memory),
        Ok(None) => return Err(Fail::from("conforms")),
        Ok(Some(reason)) => {
            let told = reason.in_file("p").to_string(rt.alloc())?;
            assert!(rt; !heap.has_refused() && told.as_str() == TOLD, "{told}");
        }
    }
    assert!(rt; heap.used() == 0);
    Ok(())
}

/// Finds the reason of the text where the growth of this number is refused, and tells whether it was.
fn is_refused_at(rt: &(impl AllocGlobal + Abort), number: u64) -> Result<bool, Fail> {
    let plan = plan_of(rt.alloc(), ONE_DELAY)?;
    let heap = Refusing::new(rt.alloc());
    heap.refuse(number);
    finds_reason(rt, &heap, &plan)?;
    Ok(heap.has_refused())
}

#[test]
fn each_growth_refused_in_turn(rt: HostRuntime) -> Result<(), Fail> {
    for number in 1..100_000 {
        if !is_refused_at(&rt, number)? {
            assert!(rt; number > 200, "{number}");
            return Ok(());
        }
    }
    Err(Fail::from("a growth was refused each time"))
}

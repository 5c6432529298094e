//! Want of memory.

use super::reason_of;
use plan_read::PlanFaultKind;
use plan_reasons::{Found, Reason};
use refusing_allocator::Refusing;
use std::process::Abort;
use std::test::Fail;

const TEXT: &str = "version = 2\n\
    [[block]]\n\
    call = [\n\
    { op = \"execute\", name = \"abc\" },\n\
    { op = \"cancel\", name = \"abd\" } ]\n";

/// What is told of it.
const TOLD: &str =
    "p:5: block 1, call 2, name = \"abd\": no such name; abc may be meant; that of a submission before it";

/// Whether a reason is want of memory, and tells no more than that.
fn is_want_of_memory(reason: &Reason) -> bool {
    let is_bare = reason.line.is_none() && reason.key.is_none();
    is_bare && reason.fault.kind == PlanFaultKind::Memory && matches!(reason.found, Found::Nothing)
}

/// Finds the reason of the text where the growth of this number is refused, and tells whether it was. Then the reason is want of
/// memory, and else that of the text.
fn is_refused_at(rt: &(impl AllocGlobal + Abort), number: u64) -> Result<bool, Fail> {
    let heap = Refusing::new(rt.alloc());
    heap.refuse(number);
    let Some(reason) = reason_of(&heap, TEXT.as_bytes()) else {
        return Err(Fail::from("a plan"));
    };
    let is_refused = heap.has_refused();
    let told = reason.in_file("p").to_string(rt.alloc())?;
    let wanted = if is_refused { "p: out of memory" } else { TOLD };
    assert!(rt; told.as_str() == wanted, "{told}");
    assert!(rt; !is_refused || is_want_of_memory(&reason));
    Ok(is_refused)
}

#[test]
fn each_growth_refused_in_turn(rt: HostRuntime) -> Result<(), Fail> {
    let mut refused = 0u32;
    for number in 1..100 {
        if is_refused_at(&rt, number)? {
            refused = refused.saturating_add(1);
        }
    }
    assert!(rt; refused > 2 && refused < 50, "{refused}");
    Ok(())
}

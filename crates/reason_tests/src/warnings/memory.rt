//! Want of memory.

use super::{joined, warnings_of};
use crate::plan_texts::plan_of;
use refusing_allocator::Refusing;
use std::process::Abort;
use std::test::Fail;

const TEXT: &str = "version = 2\n\
    [[block]]\n\
    call = [\n\
    { op = \"rate\", name = \"a\", first = 0, period = 0 },\n\
    { op = \"cancel\", name = \"a\" } ]\n";

/// What is told of it.
const TOLD: &str =
    "p:4: warning: block 1, call 1, period = 0: not above 0; refused as illegal each time \
    + p:5: warning: block 1, call 2, name = \"a\": cancels nothing; its submission is refused each time";

/// Finds the warnings of the text where the growth of this number is refused, and tells whether it was. Then the answer is want of
/// memory, and else the warnings of the text.
fn is_refused_at(rt: &(impl AllocGlobal + Abort), number: u64) -> Result<bool, Fail> {
    let plan = plan_of(rt.alloc(), TEXT)?;
    let heap = Refusing::new(rt.alloc());
    heap.refuse(number);
    let told = match warnings_of(&heap, &plan, TEXT.as_bytes()) {
        Ok(warnings) => Some(joined(rt.alloc(), &warnings)?),
        Err(_) => None,
    };
    let is_refused = heap.has_refused();
    assert!(rt; told.is_none() == is_refused);
    if let Some(told) = told {
        assert!(rt; told.as_str() == TOLD, "{told}");
    }
    Ok(is_refused)
}

#[test]
fn each_growth_refused_in_turn(rt: HostRuntime) -> Result<(), Fail> {
    let mut refused = 0u32;
    for number in 1..20 {
        if is_refused_at(&rt, number)? {
            refused = refused.saturating_add(1);
        }
    }
    assert!(rt; refused > 3 && refused < 15, "{refused}");
    Ok(())
}

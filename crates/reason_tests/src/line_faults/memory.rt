//! Want of memory.

use super::reason_of_events;
use refusing_allocator::Refusing;
use std::process::Abort;
use std::test::Fail;

/// What is told of the text without the words that may be meant: what stands before them, and behind.
const FRONT: &str = "line 2, \"clok 5\": \"clok\" is no event; ";

const END: &str = "one of clock, start, finish, cancel";

/// Finds the reason of a text where the growth of this number is refused, and tells whether it was. Where it was, no word may be
/// told as meant, and all else is as it is with memory.
fn is_refused_at(rt: &(impl AllocGlobal + Abort), number: u64) -> Result<bool, Fail> {
    let heap = Refusing::new(rt.alloc());
    heap.refuse(number);
    let Some(reason) = reason_of_events(&heap, b"start 0\nclok 5\n") else {
        return Err(Fail::from("fine"));
    };
    let told = reason.to_string(rt.alloc())?;
    assert!(rt; told.starts_with(FRONT) && told.ends_with(END), "{told}");
    assert!(rt;
        told.contains("clock may be meant") || heap.has_refused(),
        "{told}"
    );
    Ok(heap.has_refused())
}

#[test]
fn each_growth_refused_in_turn(rt: HostRuntime) -> Result<(), Fail> {
    let mut refused = 0u32;
    for number in 1..60 {
        if is_refused_at(&rt, number)? {
            refused = refused.saturating_add(1);
        }
    }
    assert!(rt; refused > 0 && refused < 50, "{refused}");
    Ok(())
}

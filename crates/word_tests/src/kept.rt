//! Tests of what is kept behind a pointer that C holds.

use c_slot::Kept;
use std::process::Abort;
use std::test::Fail;

#[test]
fn an_object_comes_back(rt: HostRuntime) -> Result<(), Fail> {
    let alloc = rt.alloc();
    // example: c_slot
    let kept = Kept::of(Box::new(alloc, 7u32)?);
    let seven = kept.into_box();
    assert_eq!(rt; *seven, 7);
    // end of example
    Ok(())
}

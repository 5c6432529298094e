//! A plan as large as plans may be: nothing gives up for want of memory on what real use brings.
use crate::calls::{compile, listing, read_plan};
use queue_code::{Code, CodeCall, Cursor};
use std::alloc::Global;
use std::fmt::Write;
use std::test::Fail;

/// The text of 256 blocks with 256 questions each, the blocks a nanosecond apart.
fn largest_plan(alloc: Global) -> Result<String, Fail> {
    let mut text = String::from_str(alloc, "version = 1\n")?;
    for at in 0..256u32 {
        write!(text, "[[block]]\nat = {at}\ncall = [")?;
        for _ in 0..256u32 {
            text.push_str("{op=\"ask\"},")?;
        }
        text.push_str("]\n")?;
    }
    Ok(text)
}

/// Whether a code asks 65,536 questions by as many instructions, 256 at each nanosecond, and then halts.
fn asks_each(code: &Code<Global>) -> bool {
    let mut cursor = Cursor::new(code);
    for call in 0..65_536u64 {
        if cursor.fetch(code) != Some((call / 256, CodeCall::Ask)) {
            return false;
        }
    }
    cursor.fetch(code).is_none() && cursor.steps() == 65_537
}

#[test]
fn the_largest_plan_is_compiled_and_listed(rt: HostRuntime) -> Result<(), Fail> {
    let plan = read_plan(rt.alloc(), largest_plan(rt.alloc())?.as_bytes())?;
    let code = compile(rt.alloc(), &plan)?;
    assert!(rt; code.calls() == 65_536 && code.tasks() == 0);
    assert!(rt; asks_each(&code));
    let text = listing(rt.alloc(), &code)?;
    // The 316,570 digits of the indexes, 256 times the 658 of the moments, 6 bytes more a line, and the line of the halt.
    assert!(rt; text.len() == 878_245);
    assert!(rt; text.as_str().starts_with("0 ask 0\n1 ask 0\n2 ask 0\n"));
    assert!(rt; text.as_str().ends_with("\n65535 ask 255\n65536 halt\n"));
    Ok(())
}

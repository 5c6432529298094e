//! Codes as long as codes may be: nothing gives up for want of memory on what real use brings.
use queue_code::{Code, CodeFault, Cursor, Instr, listing};
use sched_time::Timing;
use std::alloc::{AllocError, Global};
use std::test::Fail;

/// A submission, this many questions a nanosecond apart, and the halt.
fn questions(alloc: Global, count: u64) -> Result<Vec<Instr>, AllocError> {
    let mut instrs = Vec::new(alloc);
    instrs.push(Instr::Submit(0, Timing::Once, 0))?;
    for at in 1..=count {
        instrs.push(Instr::Ask(at))?;
    }
    instrs.push(Instr::Halt)?;
    Ok(instrs)
}

/// This many loops of one submission each, and the halt.
fn loops(alloc: Global, count: u32) -> Result<Vec<Instr>, AllocError> {
    let mut instrs = Vec::new(alloc);
    for _ in 0..count {
        instrs.push(Instr::Loop(1, 0))?;
        instrs.push(Instr::Submit(7, Timing::Once, 0))?;
        instrs.push(Instr::EndLoop)?;
    }
    instrs.push(Instr::Halt)?;
    Ok(instrs)
}

/// How many calls a cursor fetches from a code, and how many instructions it executes for them.
fn walked(code: &Code<Global>) -> (u32, u64) {
    let mut cursor = Cursor::new(code);
    let mut calls = 0u32;
    for _ in 0..=65_536u32 {
        if cursor.fetch(code).is_none() {
            break;
        }
        calls = calls.saturating_add(1);
    }
    (calls, cursor.steps())
}

#[test]
fn the_longest_straight_code_is_checked_and_listed(rt: HostRuntime) -> Result<(), Fail> {
    let code = Code::check(rt.alloc(), questions(rt.alloc(), 65_535)?)?;
    assert_eq!(rt; (code.calls(), code.tasks()), (65_536, 1));
    assert_eq!(rt; walked(&code), (65_536, 65_537));
    let text = listing(rt.alloc(), &code)?;
    // The line of the submission, for each number from 1 to 65,535 twice its digits, 316,569 in all, and 6 bytes more,
    // and the line of the halt.
    assert_eq!(rt; text.len(), 1_026_381);
    assert!(rt;
        text.as_str()
            .starts_with("0 submit 0 schedule 0\n1 ask 1\n2 ask 2\n")
    );
    assert!(rt; text.as_str().ends_with("\n65535 ask 65535\n65536 halt\n"));
    Ok(())
}

#[test]
fn one_question_more_is_too_many(rt: HostRuntime) -> Result<(), Fail> {
    let refused = Code::check(rt.alloc(), questions(rt.alloc(), 65_536)?);
    assert_eq!(rt; refused.err(), Some(CodeFault::TooMany));
    Ok(())
}

#[test]
fn as_many_loops_as_calls_are_checked_and_listed(rt: HostRuntime) -> Result<(), Fail> {
    let code = Code::check(rt.alloc(), loops(rt.alloc(), 65_536)?)?;
    assert_eq!(rt; (code.calls(), code.tasks()), (65_536, 65_536));
    assert_eq!(rt; walked(&code), (65_536, 196_609));
    let text = listing(rt.alloc(), &code)?;
    assert!(rt;
        text.as_str()
            .starts_with("0 loop 1 every 0\n1 submit 7 schedule 0\n2 endloop\n")
    );
    assert!(rt; text.as_str().ends_with("\n196607 endloop\n196608 halt\n"));
    Ok(())
}

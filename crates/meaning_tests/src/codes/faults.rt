//! Each fault, beside later ones and beside others at the same index.
use super::code_of;
use queue_code::{CodeFault, Instr};
use sched_time::{LONGEST, Timing, Which};
use std::alloc::{AllocError, Global};
use std::process::Abort;
use std::test::Fail;

/// A name, instructions, and the fault that they have, if any.
type Row<'a> = (&'a str, &'a [Instr], Option<CodeFault>);

/// Rows, in which instructions stand by their names.
macro_rules! rows {
    ($($name:literal: [$($instr:tt)*] => $fault:expr;)*) => {
        &[$(($name, &instrs![$($instr)*], $fault)),*]
    };
}

/// The fault of some instructions.
fn fault_of(alloc: Global, instrs: &[Instr]) -> Option<CodeFault> {
    code_of(alloc, instrs).err()
}

/// 65,536 questions at 0, and these instructions.
fn most_calls(alloc: Global, rest: &[Instr]) -> Result<Vec<Instr>, AllocError> {
    let calls = [Instr::Ask(0); 256];
    let mut instrs = Vec::from_slice(alloc, &calls)?;
    for _ in 0..255u32 {
        instrs.extend_from_slice(&calls)?;
    }
    instrs.extend_from_slice(rest)?;
    Ok(instrs)
}

/// A call at 7 nanoseconds.
const CALL: Instr = Instr::Illegal(7);

/// The beginning of a loop of two iterations.
const TWICE: Instr = Instr::Loop(2, 5);

const END: Instr = Instr::EndLoop;

const HALT: Instr = Instr::Halt;

/// A cancel of a task that was not made before.
const BEFORE: Instr = Instr::CancelFixed(6, 0);

/// The same of a task of the iteration.
const HERE: Instr = Instr::CancelHere(6, 0);

/// Whether a call that makes no task has its faults, where it is made at 2^62, one later, and 6 nanoseconds.
fn has_its_faults(alloc: Global, last: &Instr, late: &Instr, early: &Instr) -> bool {
    let lists = [
        ([*last, HALT, HALT, HALT], CodeFault::NoHalt),
        ([*late, HALT, HALT, HALT], CodeFault::TooLarge),
        ([CALL, *early, HALT, HALT], CodeFault::Order),
        ([TWICE, *early, END, END], CodeFault::Unclosed),
        ([TWICE, *last, END, HALT], CodeFault::TooLarge),
        ([*early, BEFORE, HALT, HALT], CodeFault::BadTask),
        ([TWICE, *early, HERE, END], CodeFault::BadTask),
    ];
    for (list, fault) in &lists {
        if fault_of(alloc, list) != Some(*fault) {
            return false;
        }
    }
    fault_of(alloc, &[*last, HALT]).is_none()
        && fault_of(alloc, &[TWICE, *early, END, HALT]).is_none()
}

/// A call at 2^62 nanoseconds, the same one later, and at 6.
macro_rules! moments {
    ($call:ident $(, $value:expr)*) => {
        (
            Instr::$call(LONGEST $(, $value)*),
            Instr::$call(LONGEST + 1 $(, $value)*),
            Instr::$call(6 $(, $value)*),
        )
    };
}

#[test]
fn policies_shutdowns_and_questions_have_their_faults(rt: HostRuntime) -> Result<(), Fail> {
    for (name, (last, late, early)) in [
        ("policy", moments!(SetPolicy, Which::Remove, false)),
        ("shutdown", moments!(Shutdown)),
        ("shutdown at once", moments!(ShutdownNow)),
        ("question", moments!(Ask)),
    ] {
        assert!(rt; has_its_faults(rt.alloc(), &last, &late, &early), "{name}");
    }
    Ok(())
}

/// Checks the fault of each row's instructions with others behind them.
fn have_their_faults(
    rt: &(impl AllocGlobal + Abort),
    rows: &[Row<'_>],
    behind: &[Instr],
) -> Result<(), Fail> {
    for (name, instrs, fault) in rows {
        let mut list = Vec::from_slice(rt.alloc(), instrs)?;
        list.extend_from_slice(behind)?;
        assert_eq!(rt; fault_of(rt.alloc(), &list), *fault, "{name}");
    }
    Ok(())
}

#[test]
fn straight_codes_and_loops_have_their_faults(rt: HostRuntime) -> Result<(), Fail> {
    let rows: &[Row<'_>] = rows! {
        "no instruction": [] => Some(CodeFault::NoHalt);
        "two halts": [Halt, Halt] => Some(CodeFault::NoHalt);
        "a halt before the end of a loop": [Halt, EndLoop] => Some(CodeFault::NoHalt);
        "a cancel of no task": [CancelFixed(0, 0), Halt] => Some(CodeFault::BadTask);
        "a cancel of an iteration's task outside a loop": [CancelHere(0, 0), Halt] => Some(CodeFault::BadTask);
        "a call at the last moment": [Ask(LONGEST), Halt] => None;
        "a call after the last moment": [Ask(LONGEST + 1), Halt] => Some(CodeFault::TooLarge);
        "moments that fall": [Submit(5, Timing::Once, 0), Ask(4), Halt] => Some(CodeFault::Order);
        "a loop in a loop": [Loop(1, 0), Loop(1, 0), Ask(0), EndLoop, EndLoop, Halt] => Some(CodeFault::Nested);
        "an end without a loop": [EndLoop, Halt] => Some(CodeFault::Unclosed);
        "a loop without its end": [Loop(1, 0), Ask(0), Halt] => Some(CodeFault::Unclosed);
        "a loop without a call": [Loop(1, 0), EndLoop, Halt] => Some(CodeFault::Empty);
        "iterations that overlap": [Loop(2, 3), Ask(0), Ask(5), EndLoop, Halt] => Some(CodeFault::Order);
        "iterations that touch": [Loop(2, 5), Ask(0), Ask(5), EndLoop, Halt] => None;
        "no iteration": [Loop(0, 0), Ask(0), EndLoop, Halt] => Some(CodeFault::TooMany);
        "an iteration too many": [Loop(65_537, 0), Ask(0), EndLoop, Halt] => Some(CodeFault::TooMany);
        "most calls by a loop": [Loop(65_536, 0), Ask(0), EndLoop, Halt] => None;
        "one call more": [Loop(65_536, 0), Ask(0), EndLoop, Ask(0), Halt] => Some(CodeFault::TooMany);
    };
    have_their_faults(&rt, rows, &[])
}

#[test]
fn too_many_calls(rt: HostRuntime) -> Result<(), Fail> {
    let most = most_calls(rt.alloc(), &[HALT])?;
    assert_eq!(rt; fault_of(rt.alloc(), &most), None);
    let more = most_calls(rt.alloc(), &[Instr::Ask(0), HALT])?;
    assert_eq!(rt; fault_of(rt.alloc(), &more), Some(CodeFault::TooMany));
    Ok(())
}

/// Lists have the fault at their first index that is wrong, whatever is wrong behind it.
#[test]
fn the_least_index_decides(rt: HostRuntime) -> Result<(), Fail> {
    let rows: &[Row<'_>] = rows! {
        "a halt": [Illegal(7), Halt] => Some(CodeFault::NoHalt);
        "a loop in a loop": [Loop(2, 5), Illegal(7), Loop(1, 0)] => Some(CodeFault::Nested);
        "an end": [Illegal(7), EndLoop] => Some(CodeFault::Unclosed);
        "a loop without a call": [Illegal(7), Loop(2, 5), EndLoop] => Some(CodeFault::Empty);
        "a cancel of a later task": [Illegal(7), CancelFixed(7, 1)] => Some(CodeFault::BadTask);
        "a cancel of no task of the iteration": [Illegal(7), Loop(2, 5), CancelHere(7, 0)] => Some(CodeFault::BadTask);
        "a loop's step": [Loop(1, LONGEST + 1)] => Some(CodeFault::TooLarge);
        "the moment of the last iteration": [Loop(2, 5), Illegal(LONGEST - 4)] => Some(CodeFault::TooLarge);
        "a moment that falls": [Illegal(7), Illegal(6)] => Some(CodeFault::Order);
        "no iteration": [Loop(0, 0)] => Some(CodeFault::TooMany);
        "too many calls": [Loop(65_536, 1), Illegal(7), Illegal(7), EndLoop] => Some(CodeFault::TooMany);
    };
    let behind =
        instrs! { CancelHere(LONGEST + 1, 9), EndLoop, EndLoop, Halt, Loop(0, LONGEST + 1), Illegal(0) };
    have_their_faults(&rt, rows, &behind)
}

/// Instructions that fail two checks at their last index have the fault that stands first.
#[test]
fn the_first_check_decides_at_one_index(rt: HostRuntime) -> Result<(), Fail> {
    let rows: &[Row<'_>] = rows! {
        "NoHalt and Unclosed": [Loop(1, 0), Halt, Halt] => Some(CodeFault::NoHalt);
        "Nested and TooLarge": [Loop(1, 0), Loop(1, LONGEST + 1)] => Some(CodeFault::Nested);
        "Nested and TooMany": [Loop(1, 0), Loop(0, 0)] => Some(CodeFault::Nested);
        "Empty and Order": [Illegal(7), Loop(2, 0), EndLoop] => Some(CodeFault::Empty);
        "BadTask and TooLarge": [CancelFixed(LONGEST + 1, 0)] => Some(CodeFault::BadTask);
        "BadTask and Order": [Illegal(7), CancelFixed(6, 1)] => Some(CodeFault::BadTask);
        "TooLarge and Order": [Illegal(7), Submit(6, Timing::Once, LONGEST + 1)] => Some(CodeFault::TooLarge);
        "TooLarge and TooMany": [Loop(0, LONGEST + 1)] => Some(CodeFault::TooLarge);
        "Order and TooMany": [Loop(65_536, 0), Illegal(7), Illegal(8), EndLoop] => Some(CodeFault::Order);
    };
    have_their_faults(&rt, rows, &[])
}

#[test]
fn each_fault_has_its_text(rt: HostRuntime) -> Result<(), Fail> {
    let alloc = rt.alloc();
    for (fault, text) in [
        (
            CodeFault::NoHalt,
            "the halt is missing or not the last instruction",
        ),
        (CodeFault::Nested, "a loop in a loop"),
        (
            CodeFault::Unclosed,
            "a loop without its beginning or its end",
        ),
        (CodeFault::Empty, "a loop without a call"),
        (
            CodeFault::BadTask,
            "a cancel of a task that is not made before it",
        ),
        (CodeFault::TooLarge, "more than 2^62 nanoseconds"),
        (CodeFault::Order, "a call before the one in front of it"),
        (
            CodeFault::TooMany,
            "more than 65,536 calls, or a loop that is not made 1 to 65,536 times",
        ),
        (CodeFault::Memory, "out of memory"),
    ] {
        assert!(rt; fault.to_string(alloc)?.as_str() == text);
    }
    Ok(())
}

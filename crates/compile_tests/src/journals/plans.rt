//! The plan of calls: its text, and what is read in it.
use super::*;
use plan_read::{Op, Plan, PlanFault, PlanFaultKind};
use sched_time::{Span, Which};
use std::alloc::Global;

/// The text of the plan of [`ALL_KINDS`].
const TEXT_OF_ALL_KINDS: &str = "\
    version = 2\n\n\
    [[block]]\n\n\
    [[block.call]]\ndelay = 5\ndelay_unit = \"ns\"\nname = \"t0\"\nop = \"schedule\"\n\n\
    [[block.call]]\nname = \"t1\"\nop = \"execute\"\n\n\
    [[block.call]]\nat = 3\nat_unit = \"ns\"\nfirst = 0\nfirst_unit = \"ns\"\n\
    name = \"t2\"\nop = \"rate\"\nperiod = 7\nperiod_unit = \"ns\"\n\n\
    [[block.call]]\nat = 3\nat_unit = \"ns\"\ndelay = 1\ndelay_unit = \"ns\"\nfirst = 4611686018427387904\nfirst_unit = \"ns\"\n\
    name = \"t3\"\nop = \"fixed\"\n\n\
    [[block.call]]\nat = 4\nat_unit = \"ns\"\nname = \"t2\"\nop = \"cancel\"\n\n\
    [[block.call]]\nat = 4\nat_unit = \"ns\"\nop = \"policy\"\nvalue = true\nwhich = \"continue\"\n\n\
    [[block.call]]\nat = 5\nat_unit = \"ns\"\nop = \"policy\"\nvalue = false\nwhich = \"execute\"\n\n\
    [[block.call]]\nat = 5\nat_unit = \"ns\"\nop = \"policy\"\nvalue = true\nwhich = \"remove\"\n\n\
    [[block.call]]\nat = 6\nat_unit = \"ns\"\nop = \"ask\"\n\n\
    [[block.call]]\nat = 1000000007\nat_unit = \"ns\"\nop = \"shutdown\"\n\n\
    [[block.call]]\nat = 1000000007\nat_unit = \"ns\"\ndelay = 0\ndelay_unit = \"ns\"\n\
    name = \"t4\"\nop = \"schedule\"\n\n\
    [[block.call]]\nat = 1000000007\nat_unit = \"ns\"\nfirst = 0\nfirst_unit = \"ns\"\n\
    name = \"t5\"\nop = \"rate\"\nperiod = 0\nperiod_unit = \"ns\"\n\n\
    [[block.call]]\nat = 1000000008\nat_unit = \"ns\"\nname = \"t5\"\nop = \"cancel\"\n\n\
    [[block.call]]\nat = 4611686018427387904\nat_unit = \"ns\"\nop = \"shutdown_now\"\n";

/// A call at a moment.
fn made(moment: u64, call: CallLine) -> MadeCall {
    MadeCall { moment, call }
}

/// Calls: the moment of each, and what is asked for.
macro_rules! calls {
    ($($moment:literal => $call:expr;)*) => {
        &[$(MadeCall { moment: $moment, call: $call }),*]
    };
}

/// Each kind of call, with numbers of all sizes.
const ALL_KINDS: &[MadeCall] = calls! {
    0 => CallLine::Schedule(5);
    0 => CallLine::Execute;
    3 => CallLine::Rate(0, 7);
    3 => CallLine::Fixed(4_611_686_018_427_387_904, 1);
    4 => CallLine::Cancel(2);
    4 => CallLine::Policy(Which::Continue, true);
    5 => CallLine::Policy(Which::Execute, false);
    5 => CallLine::Policy(Which::Remove, true);
    6 => CallLine::Ask;
    1_000_000_007 => CallLine::Shutdown;
    1_000_000_007 => CallLine::Schedule(0);
    1_000_000_007 => CallLine::Rate(0, 0);
    1_000_000_008 => CallLine::Cancel(5);
    4_611_686_018_427_387_904 => CallLine::ShutdownNow;
};

/// A cancel of the task that is submitted behind it.
const CANCELLED_BEFORE: &[MadeCall] = calls! {
    3 => CallLine::Cancel(0);
    3 => CallLine::Execute;
};

/// The plan of a text. All tests read plans through it: what `read_plan` ensures is then looked at once.
fn read(alloc: Global, text: &str) -> Result<Plan<Global>, PlanFault> {
    read_plan(alloc, text.as_bytes())
}

/// The text of calls. All tests print plans through it, for the same end.
fn printed(alloc: Global, calls: &[MadeCall]) -> Result<String, PlanFault> {
    plan_text(alloc, calls)
}

/// The name of a task that a call of a plan submits.
fn name_of(op: &Op) -> Option<&str> {
    match op {
        Op::Schedule { name, .. } => Some(name.as_str()),
        Op::Execute { name } => Some(name.as_str()),
        Op::Rate { name, .. } => Some(name.as_str()),
        Op::Fixed { name, .. } => Some(name.as_str()),
        _ => None,
    }
}

/// The nanoseconds of a period, and 0 where there is none.
fn nanos(period: &Option<Span>) -> u64 {
    period.map_or(0, |span| span.nanos())
}

/// The call of a plan's, where `firsts` has the number of the first task of each block so far.
fn call_of(firsts: &[u64], op: &Op) -> Result<CallLine, Fail> {
    let call = match op {
        Op::Schedule { delay, .. } => CallLine::Schedule(delay.nanos()),
        Op::Execute { .. } => CallLine::Execute,
        Op::Rate { first, period, .. } => CallLine::Rate(first.nanos(), nanos(period)),
        Op::Fixed { first, delay, .. } => CallLine::Fixed(first.nanos(), nanos(delay)),
        Op::Cancel(target) => {
            let first = firsts.get(target.block).ok_or("no block")?;
            CallLine::Cancel(u32::try_from(first.saturating_add(target.sub as u64))?)
        }
        Op::Policy { which, value } => CallLine::Policy(*which, *value),
        Op::Shutdown => CallLine::Shutdown,
        Op::ShutdownNow => CallLine::ShutdownNow,
        Op::Ask => CallLine::Ask,
    };
    Ok(call)
}

/// Checks that the task that a call submits, if it does, is named by this number, and gives the number of the next one.
fn number_behind(alloc: Global, tasks: u64, op: &Op) -> Result<u64, Fail> {
    let Some(name) = name_of(op) else {
        return Ok(tasks);
    };
    if name != format!(in alloc; "t{tasks}")?.as_str() {
        return Err("another name".into());
    }
    Ok(tasks.saturating_add(1))
}

/// The calls that a plan makes, whose blocks are made once. Tasks are numbered in the order of their submissions, and each is to be
/// named by its number.
fn calls_of(alloc: Global, plan: &Plan<Global>) -> Result<Vec<MadeCall>, Fail> {
    let mut calls = Vec::new(alloc);
    let mut firsts = Vec::new(alloc);
    let mut tasks = 0u64;
    for block in plan.blocks() {
        firsts.push(tasks)?;
        for call in block.calls() {
            tasks = number_behind(alloc, tasks, &call.op)?;
            let moment = block.at().saturating_add(call.at);
            calls.push(made(moment, call_of(&firsts, &call.op)?))?;
        }
    }
    Ok(calls)
}

/// Whether the text of calls is that of a plan of so many blocks that makes exactly these calls.
fn is_read_back(alloc: Global, calls: &[MadeCall], blocks: usize) -> Result<bool, Fail> {
    let plan = read(alloc, printed(alloc, calls)?.as_str())?;
    let back = calls_of(alloc, &plan)?;
    Ok(back.as_slice() == calls && plan.blocks().len() == blocks)
}

/// So many calls of one kind, at one moment.
fn many(alloc: Global, count: usize, moment: u64, call: CallLine) -> Result<Vec<MadeCall>, Fail> {
    let mut calls = Vec::with_capacity(alloc, count)?;
    for _ in 0..count {
        calls.push(made(moment, call))?;
    }
    Ok(calls)
}

/// The fault of printing calls.
fn told_of_printing(alloc: Global, calls: &[MadeCall]) -> Option<PlanFault> {
    printed(alloc, calls).err()
}

/// The fault of the text that calls are printed as.
fn told_of_reading(alloc: Global, calls: &[MadeCall]) -> Option<PlanFault> {
    let text = printed(alloc, calls).ok()?;
    read(alloc, text.as_str()).err()
}

/// A fault of this kind, at this call of this block; 0 stands for none.
fn fault(kind: PlanFaultKind, block: u32, call: u32) -> Option<PlanFault> {
    Some(PlanFault { kind, block, call })
}

#[test]
fn each_kind_is_printed(rt: HostRuntime) -> Result<(), Fail> {
    let text = printed(rt.alloc(), ALL_KINDS)?;
    assert!(rt; text.as_str() == TEXT_OF_ALL_KINDS, "{text}");
    Ok(())
}

#[test]
fn each_kind_is_read_back(rt: HostRuntime) -> Result<(), Fail> {
    assert!(rt; is_read_back(rt.alloc(), ALL_KINDS, 1)?);
    for call in ALL_KINDS {
        // The cancel of a task that no call submits is no plan.
        let is_alone = !matches!(call.call, CallLine::Cancel(_));
        assert!(rt;
            !is_alone || is_read_back(rt.alloc(), [*call].as_slice(), 1)?,
            "{call:?}"
        );
    }
    Ok(())
}

#[test]
fn no_call_is_a_plan_without_blocks(rt: HostRuntime) -> Result<(), Fail> {
    let text = printed(rt.alloc(), &[])?;
    assert!(rt; text.as_str() == "version = 2\n");
    assert!(rt; is_read_back(rt.alloc(), &[], 0)?);
    Ok(())
}

#[test]
fn a_block_has_256_calls(rt: HostRuntime) -> Result<(), Fail> {
    let alloc = rt.alloc();
    let mut calls = many(alloc, 256, 3, CallLine::Execute)?;
    assert!(rt; is_read_back(alloc, calls.as_slice(), 1)?);
    calls.push(made(7, CallLine::Cancel(255)))?;
    assert!(rt; is_read_back(alloc, calls.as_slice(), 2)?);
    for moment in 8..300 {
        calls.push(made(moment, CallLine::Fixed(moment, 2)))?;
        calls.push(made(moment, CallLine::Cancel(moment as u32)))?;
    }
    assert!(rt; is_read_back(alloc, calls.as_slice(), 4)?);
    Ok(())
}

#[test]
fn a_task_that_no_call_submits_is_unknown(rt: HostRuntime) {
    let told = told_of_reading(rt.alloc(), CANCELLED_BEFORE);
    assert!(rt; told == fault(PlanFaultKind::UnknownName, 1, 1), "{told:?}");
}

#[test]
fn a_span_that_no_call_has_is_too_large(rt: HostRuntime) {
    for span in [4_611_686_018_427_387_905, u64::MAX] {
        let call = made(0, CallLine::Schedule(span));
        let told = told_of_reading(rt.alloc(), [call].as_slice());
        assert!(rt; told == fault(PlanFaultKind::TooLarge, 1, 1), "{told:?}");
    }
}

#[test]
fn as_many_tasks_are_named_as_a_text_has_room_for(rt: HostRuntime) -> Result<(), Fail> {
    let calls = many(rt.alloc(), 19_000, 1, CallLine::Execute)?;
    assert!(rt; is_read_back(rt.alloc(), calls.as_slice(), 75)?);
    Ok(())
}

/// The calls of a text that is as long as it may be, where the delay has four digits: `version` takes 12 bytes, each of the 152 blocks
/// 11, each of the 38,771 questions 27, and the submission 71 and the digits.
fn longest(alloc: Global, delay: u64) -> Result<Vec<MadeCall>, Fail> {
    let mut calls = many(alloc, 38_771, 0, CallLine::Ask)?;
    calls.push(made(0, CallLine::Schedule(delay)))?;
    Ok(calls)
}

#[test]
fn a_text_has_at_most_1_048_576_bytes(rt: HostRuntime) -> Result<(), Fail> {
    let calls = longest(rt.alloc(), 1000)?;
    assert!(rt; printed(rt.alloc(), &calls)?.len() == 1_048_576);
    assert!(rt; is_read_back(rt.alloc(), &calls, 152)?);
    let calls = longest(rt.alloc(), 10_000)?;
    let told = told_of_printing(rt.alloc(), &calls);
    assert!(rt; told == fault(PlanFaultKind::TooLong, 0, 0), "{told:?}");
    Ok(())
}

#[test]
fn more_calls_than_a_plan_has_are_too_many(rt: HostRuntime) -> Result<(), Fail> {
    let mut calls = many(rt.alloc(), 65_536, 0, CallLine::Ask)?;
    let told = told_of_printing(rt.alloc(), &calls);
    assert!(rt; told == fault(PlanFaultKind::TooLong, 0, 0), "{told:?}");
    calls.push(made(0, CallLine::Ask))?;
    let told = told_of_printing(rt.alloc(), &calls);
    assert!(rt; told == fault(PlanFaultKind::TooMany, 0, 0), "{told:?}");
    Ok(())
}

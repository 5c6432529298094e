//! Plan texts by hand: each fault at each of its places, limits, and what a plan keeps.
mod calls;
mod controls;
mod documents;
mod headers;
mod longest;
mod migrations;
mod names;
mod nesting;
mod numbers;
mod parts;
mod repeated;
mod sizes;
mod times;
mod tops;
mod unit_faults;
mod units;

use parts::Kept;
use plan_read::{Block, Call, Op, Plan, PlanFault, PlanFaultKind, migrate, read_plan};
use sched_time::Span;
use std::alloc::{AllocError, Global};
use std::process::Abort;
use std::test::Fail;

/// What stands before the keys of a plan's only block.
const HEADER: &str = "version = 1\n[[block]]\n";

/// What stands before the keys of a plan's first block, which begins at 100.
const LATE_BLOCK: &str = "version = 1\n[[block]]\nat = 100\n";

/// What stands before the keys of a plan's only call.
const CALL: &str = "version = 1\n[[block]]\n[[block.call]]\n";

/// What stands before the keys of the only block of a plan of version 2.
const HEADER_2: &str = "version = 2\n[[block]]\n";

/// What stands before the keys of the only call of a plan of version 2.
const CALL_2: &str = "version = 2\n[[block]]\n[[block.call]]\n";

/// The plan of a text. All tests read plans through it: what `read_plan` ensures is then looked at once.
fn read(alloc: Global, text: &[u8]) -> Result<Plan<Global>, PlanFault> {
    read_plan(alloc, text)
}

/// The migrated text of a text. All tests migrate texts through it, for the same end.
fn migrated(alloc: Global, text: &[u8]) -> Result<String, PlanFault> {
    migrate(alloc, text)
}

/// The text of a fault.
fn text_of_fault(alloc: Global, fault: &PlanFault) -> Result<String, Fail> {
    Ok(fault.to_string(alloc)?)
}

/// What is told of a text: its fault, or that it is a plan, of version 1 ("plan") or of version 2 ("plan 2"). Each text
/// is migrated too, and what is told is none of these where it does not migrate as it has to.
fn told(alloc: Global, text: &str) -> Result<String, Fail> {
    let migrated = migrated(alloc, text.as_bytes());
    match read(alloc, text.as_bytes()) {
        Ok(plan) => migrations::told_of_plan(alloc, &plan, &migrated),
        Err(fault) => migrations::told_of_fault(alloc, &fault, &migrated),
    }
}

/// Signs of a row for a newline, a return, a tab and a byte order mark.
fn meant(sign: char) -> char {
    match sign {
        '⏎' => '\n',
        '␍' => '\r',
        '␉' => '\t',
        '⊕' => '\u{feff}',
        other => other,
    }
}

/// A text that a row spells: ` / ` stands between its lines, and signs for some characters.
fn spelled(alloc: Global, row: &str) -> Result<String, AllocError> {
    let lines = row.replace(alloc, " / ", "⏎")?;
    let mut text = String::new(alloc);
    for sign in lines.as_str().chars() {
        text.push(meant(sign))?;
    }
    Ok(text)
}

/// Checks what is told of a text, which `row` shows.
fn tells_row(
    rt: &(impl AllocGlobal + Abort),
    row: &str,
    text: &str,
    fault: &str,
) -> Result<(), Fail> {
    let answer = told(rt.alloc(), text)?;
    assert!(rt; answer.as_str() == fault, "{fault} | {row}: {answer}");
    Ok(())
}

/// Checks what is told of a text that may be long.
fn tells(rt: &(impl AllocGlobal + Abort), text: &str, fault: &str) -> Result<(), Fail> {
    tells_row(rt, "", text, fault)
}

/// Checks what is told of the text that a row spells behind `front`.
fn tells_spelled(
    rt: &(impl AllocGlobal + Abort),
    front: &str,
    row: &str,
    fault: &str,
) -> Result<(), Fail> {
    let text = spelled(rt.alloc(), row)?;
    let text = [front, text.as_str()].concat(rt.alloc())?;
    tells_row(rt, row, text.as_str(), fault)
}

/// Checks what is told of the text that two pieces of a row spell, one after the other, behind `front`.
fn tells_pair(
    rt: &(impl AllocGlobal + Abort),
    front: &str,
    first: &str,
    second: &str,
    fault: &str,
) -> Result<(), Fail> {
    let row = [first, " / ", second].concat(rt.alloc())?;
    tells_spelled(rt, front, row.as_str(), fault)
}

/// Checks what is told of each text of a table: a row has that, ` | `, and the text behind `front`. Where ` ⇄ ` stands between
/// two pieces it is that of two texts, which have the pieces in either order.
fn tells_each(rt: &(impl AllocGlobal + Abort), front: &str, table: &str) -> Result<(), Fail> {
    for row in table.lines() {
        let (fault, text) = row.split_once(" | ").ok_or("no text")?;
        match text.split_once(" ⇄ ") {
            Some((one, other)) => {
                tells_pair(rt, front, one, other, fault)?;
                tells_pair(rt, front, other, one, fault)?;
            }
            None => tells_spelled(rt, front, text, fault)?,
        }
    }
    Ok(())
}

/// Whether a plan has this many blocks, with this many calls in each.
fn has_sizes(plan: &Plan<Global>, blocks: usize, calls: usize) -> bool {
    plan.blocks().len() == blocks
        && plan
            .blocks()
            .iter()
            .all(|block| block.calls().len() == calls)
}

/// Half of the greatest number of bytes of a plan's text: one of fewer bytes migrates to one that is not too long.
const HALF: usize = 524_288;

/// Checks that a text is told to be a plan of its version, and so that it migrates as it has to.
fn is_told(rt: &(impl AllocGlobal + Abort), text: &str) -> Result<(), Fail> {
    let answer = told(rt.alloc(), text)?;
    let is_long = text.len() > HALF && answer.as_str() == "plan TooLong block 0 call 0";
    let wanted = if text.contains("version = 2") {
        "plan 2"
    } else {
        "plan"
    };
    assert!(rt; is_long || answer.as_str() == wanted, "{answer}");
    Ok(())
}

/// Checks how many blocks the plan of a text has, and how many calls each of them has.
fn reads_sizes(
    rt: &(impl AllocGlobal + Abort),
    text: &str,
    blocks: usize,
    calls: usize,
) -> Result<(), Fail> {
    let plan = read(rt.alloc(), text.as_bytes())?;
    assert!(rt; has_sizes(&plan, blocks, calls), "{text}");
    is_told(rt, text)
}

/// Writes a period or a fixed delay, in nanoseconds.
fn write_period(out: &mut String, period: Option<Span>) -> Result<(), Fail> {
    match period {
        Some(period) => write!(out, "{}", period.nanos())?,
        None => out.push_str("none")?,
    }
    Ok(())
}

/// Writes what a call asks for as words, with its times in nanoseconds.
fn write_op(out: &mut String, op: &Op) -> Result<(), Fail> {
    match op {
        Op::Schedule { name, delay } => {
            write!(out, "schedule {} {}", name.as_str(), delay.nanos())?;
        }
        Op::Execute { name } => write!(out, "execute {}", name.as_str())?,
        Op::Rate {
            name,
            first,
            period,
        } => {
            write!(out, "rate {} {} ", name.as_str(), first.nanos())?;
            write_period(out, *period)?;
        }
        Op::Fixed { name, first, delay } => {
            write!(out, "fixed {} {} ", name.as_str(), first.nanos())?;
            write_period(out, *delay)?;
        }
        Op::Cancel(target) => write!(out, "cancel {} {}", target.block, target.sub)?,
        Op::Policy { which, value } => write!(out, "policy {which:?} {value}")?,
        Op::Shutdown => out.push_str("shutdown")?,
        Op::ShutdownNow => out.push_str("shutdown_now")?,
        Op::Ask => out.push_str("ask")?,
    }
    Ok(())
}

/// Writes a call as words: its offset, and what it asks for.
fn write_call(out: &mut String, call: &Call) -> Result<(), Fail> {
    write!(out, "{} ", call.at)?;
    write_op(out, &call.op)?;
    out.push('\n')?;
    Ok(())
}

/// Writes a block: its moment, its unit, how often its calls are made and how far apart, and then its calls.
fn write_block(out: &mut String, block: &Block<Global>) -> Result<(), Fail> {
    write!(
        out,
        "block {} {:?} {} {}\n",
        block.at(),
        block.unit(),
        block.times(),
        block.every()
    )?;
    for call in block.calls() {
        write_call(out, call)?;
    }
    Ok(())
}

/// Checks the blocks and the calls of the plan of a text, a line for each.
fn reads(rt: &(impl AllocGlobal + Abort), name: &str, text: &str, lines: &str) -> Result<(), Fail> {
    let plan = read(rt.alloc(), text.as_bytes())?;
    let mut out = String::new(rt.alloc());
    for block in plan.blocks() {
        write_block(&mut out, block)?;
    }
    assert!(rt; out.as_str() == lines, "{name}: {out}");
    is_told(rt, text)
}

/// Each fault by an example.
const ANSWERS_EACH_EXAMPLE: &str = r#"Toml block 0 call 0 | version =
Version block 0 call 0 | version = "1"
UnknownKey block 0 call 0 | version = 1 / x = 1
WrongType block 0 call 0 | version = 1 / block = 1
Missing block 1 call 0 | version = 1 / [[block]] / times = 2
BadUnit block 1 call 0 | version = 1 / [[block]] / unit = "year"
BadTimes block 1 call 0 | version = 1 / [[block]] / times = 0
Negative block 1 call 0 | version = 1 / [[block]] / at = -1
Missing block 1 call 1 | version = 1 / [[block]] / [[block.call]] / at = 1
WrongType block 1 call 1 | version = 1 / [[block]] / [[block.call]] / op = "run"
UnknownKey block 1 call 1 | version = 1 / [[block]] / [[block.call]] / op = "ask" / name = "a"
BadName block 1 call 1 | version = 1 / [[block]] / [[block.call]] / op = "cancel" / name = ""
UnknownName block 1 call 1 | version = 1 / [[block]] / [[block.call]] / op = "cancel" / name = "a"
OutOfOrder block 1 call 2 | version = 1 / [[block]] / [[block.call]] / op = "ask" / at = 2 / [[block.call]] / op = "ask" / at = 1
DuplicateName block 1 call 2 | version = 1 /  / [[block]] /  / [[block.call]] / op = "schedule" / name = "a" / delay = 5 /  / [[block.call]] / op = "schedule" / name = "a" / delay = 5
TooLarge block 1 call 1 | version = 1 / [[block]] / call = [{ op = "schedule", name = "a", delay = 4611686018427387905 }]
Ambiguous block 2 call 1 | version = 1 / [[block]] / at = 100 / times = 3 / every = 10 / call = [{ op = "schedule", name = "a", delay = 50 }, { op = "cancel", name = "a", at = 4 }] / [[block]] / at = 200 / call = [{ op = "cancel", name = "a" }]
TooMany block 1 call 0 | version = 1 / [[block]] / times = 65536 / every = 0 / [[block.call]] / op = "ask" / [[block.call]] / op = "ask""#;

#[test]
fn answers_each_example(rt: HostRuntime) -> Result<(), Fail> {
    tells_each(&rt, "", ANSWERS_EACH_EXAMPLE)
}

/// The kinds of faults, and the text of each.
const KINDS: &[(PlanFaultKind, &str)] = &[
    (PlanFaultKind::TooLong, "TooLong block 1 call 2"),
    (PlanFaultKind::Toml, "Toml block 1 call 2"),
    (PlanFaultKind::Version, "Version block 1 call 2"),
    (PlanFaultKind::UnknownKey, "UnknownKey block 1 call 2"),
    (PlanFaultKind::Missing, "Missing block 1 call 2"),
    (PlanFaultKind::WrongType, "WrongType block 1 call 2"),
    (PlanFaultKind::BadUnit, "BadUnit block 1 call 2"),
    (PlanFaultKind::BadTimes, "BadTimes block 1 call 2"),
    (PlanFaultKind::Negative, "Negative block 1 call 2"),
    (PlanFaultKind::BadName, "BadName block 1 call 2"),
    (PlanFaultKind::DuplicateName, "DuplicateName block 1 call 2"),
    (PlanFaultKind::UnknownName, "UnknownName block 1 call 2"),
    (PlanFaultKind::Ambiguous, "Ambiguous block 1 call 2"),
    (PlanFaultKind::OutOfOrder, "OutOfOrder block 1 call 2"),
    (PlanFaultKind::TooLarge, "TooLarge block 1 call 2"),
    (PlanFaultKind::TooMany, "TooMany block 1 call 2"),
    (PlanFaultKind::Memory, "Memory block 1 call 2"),
];

#[test]
fn spells_each_fault(rt: HostRuntime) -> Result<(), Fail> {
    for (kind, line) in KINDS {
        let fault = PlanFault {
            kind: *kind,
            block: 1,
            call: 2,
        };
        let text = text_of_fault(rt.alloc(), &fault)?;
        assert!(rt; text.as_str() == *line, "{line}: {text}");
    }
    Ok(())
}

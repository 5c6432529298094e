//! Migrations: what is told of a text by what it migrates to, and what stands in a migrated text.
use super::*;
use plan_compile::compile;
use queue_code::listing;

/// The fault of migrating a text of version 2.
const IS_MIGRATED: PlanFault = PlanFault {
    kind: PlanFaultKind::Version,
    block: 0,
    call: 0,
};

/// The listing of a plan's code.
fn listing_of(alloc: Global, plan: &Plan<Global>) -> Result<String, Fail> {
    let code = compile(alloc, plan)?;
    Ok(listing(alloc, &code)?)
}

/// Whether a text writes a plan of the same code, whose run is therefore answered the same, and is of version 2.
fn is_second_text_of(alloc: Global, plan: &Plan<Global>, text: &str) -> Result<bool, Fail> {
    if migrated(alloc, text.as_bytes()).err() != Some(IS_MIGRATED) {
        return Ok(false);
    }
    let second = read(alloc, text.as_bytes())?;
    Ok(listing_of(alloc, plan)?.as_str() == listing_of(alloc, &second)?.as_str())
}

/// What is told of a plan by what its text migrates to: "plan" where that is a text of version 2 with the same code, "plan 2"
/// where the text is of version 2 itself, and behind "plan" the fault where there is another.
pub fn told_of_plan(
    alloc: Global,
    plan: &Plan<Global>,
    migrated: &Result<String, PlanFault>,
) -> Result<String, Fail> {
    match migrated {
        Ok(text) => {
            let is_same = is_second_text_of(alloc, plan, text.as_str())?;
            let word = if is_same {
                "plan"
            } else {
                "plan that migrates to none or another"
            };
            Ok(String::from_str(alloc, word)?)
        }
        Err(fault) => {
            if *fault == IS_MIGRATED {
                return Ok(String::from_str(alloc, "plan 2")?);
            }
            Ok(format!(in alloc; "plan {fault}")?)
        }
    }
}

/// What is told of a text's fault: the fault, where migrating the text has the same.
pub fn told_of_fault(
    alloc: Global,
    fault: &PlanFault,
    migrated: &Result<String, PlanFault>,
) -> Result<String, Fail> {
    match migrated {
        Ok(_) => Ok(format!(in alloc; "{fault}, but it migrates")?),
        Err(other) => {
            if *other == *fault {
                return text_of_fault(alloc, fault);
            }
            Ok(format!(in alloc; "{fault}, but to migrate it is {other}")?)
        }
    }
}

/// Whether a text has this line.
fn has_line(text: &str, line: &str) -> bool {
    text.lines().any(|other| other == line)
}

/// Whether a text has each line of a list.
fn has_lines(text: &str, lines: &str) -> bool {
    for line in lines.split(", ") {
        if !has_line(text, line) {
            return false;
        }
    }
    true
}

/// Whether a text has a piece of a list.
fn has_piece(text: &str, pieces: &str) -> bool {
    for piece in pieces.split(", ") {
        if text.contains(piece) {
            return true;
        }
    }
    false
}

/// Texts of version 1, lines that their migrated texts have, and pieces that those have not.
const MIGRATED: &str =
    r#"version = 1 / [[block]] / unit = "s" / [[block.call]] / op = "schedule" / name = "a" / delay = 4611686018 | version = 2, delay = 4611686018, delay_unit = "s" | at_unit, every_unit, first_unit, period_unit, ⏎unit
version = 1 / [[block]] / unit = "ms" / at = 0 / every = 3 / [[block.call]] / op = "ask" | version = 2, at = 0, at_unit = "ms", every = 3, every_unit = "ms", op = "ask" | delay_unit, first_unit, period_unit, ⏎unit
version = 1 / [[block]] / unit = "us" / [[block.call]] / op = "rate" / name = "a" / first = 4 / period = -5 / at = 6 | first = 4, first_unit = "us", period = -5, period_unit = "us", at = 6, at_unit = "us" | delay_unit, every_unit, ⏎unit
version = 1 / [[block]] / at = 3 / [[block.call]] / op = "execute" / name = "a" / at = 1 | version = 2, at = 3, at = 1, name = "a" | unit
version = 1 # one / [[block]] / unit = "s" | version = 2, [[block]] | unit, one"#;

/// Checks which lines the migrated text of a text has, which pieces it has not, and what is told of both.
fn migrates(
    rt: &(impl AllocGlobal + Abort),
    text: &str,
    lines: &str,
    absent: &str,
) -> Result<(), Fail> {
    let second = migrated(rt.alloc(), text.as_bytes())?;
    assert!(rt; has_lines(second.as_str(), lines), "{lines}: {second}");
    assert!(rt; !has_piece(second.as_str(), absent), "{absent}: {second}");
    tells(rt, text, "plan")?;
    tells(rt, second.as_str(), "plan 2")
}

#[test]
fn a_migrated_text_has_the_unit_beside_each_time(rt: HostRuntime) -> Result<(), Fail> {
    for row in MIGRATED.lines() {
        let columns: Vec<&str> = row.split(" | ").collect(rt.alloc())?;
        let [text, lines, absent] = columns.as_slice() else {
            return Err("a row is short".into());
        };
        let text = spelled(rt.alloc(), text)?;
        let absent = spelled(rt.alloc(), absent)?;
        migrates(&rt, text.as_str(), lines, absent.as_str())?;
    }
    Ok(())
}

/// Texts of version 1 and what their migrated texts write.
const KEPT: &[Kept<'_>] = &[
    Kept {
        lines: "block 7000 Ns 2 9000\n2000 rate Az-_09 4000 5000\n9000 fixed never 6000 none\n\
                block 1000000 Ns 1 0\n",
        ..parts::PARTS_OF_A_PLAN
    },
    Kept {
        name: "calls of two units",
        text: "version = 1\n[[block]]\nunit = 's'\nat = 1\ncall = [\
               { op = 'schedule', name = 'a', delay = -1 }, { op = 'policy', which = 'remove', value = false }]\n\
               [[block]]\nunit = 'ms'\nat = 1000\ncall = [\
               { op = 'cancel', name = 'a' }, { op = 'ask', at = 1 }, { op = 'shutdown', at = 2 }]",
        lines: "block 1000000000 Ns 1 0\n0 schedule a 0\n0 policy Remove false\n\
                block 1000000000 Ns 1 0\n0 cancel 0 0\n1000000 ask\n2000000 shutdown\n",
    },
    Kept {
        name: "no block",
        text: "version = 1\nblock = []",
        lines: "",
    },
];

#[test]
fn a_migrated_text_keeps_the_plan_in_nanoseconds(rt: HostRuntime) -> Result<(), Fail> {
    for row in KEPT {
        let second = migrated(rt.alloc(), row.text.as_bytes())?;
        reads(&rt, row.name, second.as_str(), row.lines)?;
    }
    Ok(())
}

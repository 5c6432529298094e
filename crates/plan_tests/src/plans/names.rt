//! Names: of all blocks, and how long they may be.
use super::*;

/// Names of a third block.
const REFUSES_NAMES_OVER_ALL_BLOCKS: &str =
    r#"DuplicateName block 3 call 1 | call = [{ op = "schedule", name = "a", delay = 1 }] / [[block]] / at = 9 / [[block]] / at = 9 / call = [{ op = "schedule", name = "a", delay = 1 }]
DuplicateName block 3 call 1 | call = [{ op = "schedule", name = "a", delay = 1 }] / [[block]] / at = 9 / [[block]] / at = 9 / call = [{ op = "rate", name = "a", first = 1, period = 0 }]
UnknownName block 3 call 1 | call = [{ op = "schedule", name = "a", delay = 1 }] / [[block]] / at = 9 / [[block]] / at = 9 / call = [{ op = "cancel", name = "b" }]
DuplicateName block 3 call 1 | times = 2 / every = 5 / call = [{ op = "schedule", name = "a", delay = 1 }] / [[block]] / at = 9 / [[block]] / at = 9 / call = [{ op = "fixed", name = "a", first = 1, delay = 1 }]
DuplicateName block 3 call 1 | call = [{ op = "execute", name = "a" }] / [[block]] / at = 9 / [[block]] / at = 9 / call = [{ op = "execute", name = "a" }]
Ambiguous block 3 call 1 | times = 2 / every = 5 / call = [{ op = "execute", name = "a" }] / [[block]] / at = 9 / [[block]] / at = 9 / call = [{ op = "cancel", name = "a" }]
Ambiguous block 3 call 1 | times = 2 / every = 5 / call = [{ op = "schedule", name = "a", delay = 1 }] / [[block]] / at = 9 / [[block]] / at = 9 / call = [{ op = "cancel", name = "a" }]
Ambiguous block 3 call 1 | times = 2 / every = 5 / call = [{ op = "schedule", name = "a", delay = 1 }] / [[block]] / at = 9 / [[block]] / at = 9 / call = [{ op = "cancel", name = "a", at = -1 }]
UnknownName block 3 call 1 | times = 2 / every = 5 / call = [{ op = "schedule", name = "a", delay = 1 }] / [[block]] / at = 9 / [[block]] / at = 9 / call = [{ op = "cancel", name = "b", at = -1 }]"#;

/// Lengths of names, and what is told of them.
const LENGTHS: &[(usize, &str)] = &[(32, "plan"), (33, "BadName block 1 call 1")];

#[test]
fn takes_names_of_32_bytes(rt: HostRuntime) -> Result<(), Fail> {
    for (length, fault) in LENGTHS {
        let name = "n".repeat(rt.alloc(), *length)?;
        let name = name.as_str();
        let text = [CALL, "op = \"schedule\"\ndelay = 0\nname = \"", name, "\""].concat(
            rt.alloc(),
        )?;
        tells(&rt, text.as_str(), fault)?;
    }
    Ok(())
}

#[test]
fn refuses_names_over_all_blocks(rt: HostRuntime) -> Result<(), Fail> {
    tells_each(&rt, HEADER, REFUSES_NAMES_OVER_ALL_BLOCKS)
}

//! The unit keys of a plan: in version 2 beside each time, also one that is left out, and in version 1 none.
use super::*;

/// What is told of each value of a unit key of version 2, where it may stand.
const VALUES: &str = r#"plan 2 | "ns"
plan 2 | "us"
plan 2 | "ms"
plan 2 | "s"
plan 2 | "min"
plan 2 | "h"
plan 2 | "d"
BadUnit | ""
BadUnit | "NS"
BadUnit | "m"
BadUnit | "mins"
BadUnit | "hour"
BadUnit | "day"
BadUnit | "D"
BadUnit | " s"
WrongType | 1
WrongType | true
WrongType | ["s"]
WrongType | { unit = "s" }"#;

/// The unit keys of times, and the names of other keys with `_unit` behind them.
const UNIT_KEYS: &str =
    "at_unit every_unit delay_unit first_unit period_unit unit times_unit name_unit op_unit At_unit";

/// Headers, with their times and without them: the unit keys that they may have in version 2, and their keys.
const HEADERS: &str = "at_unit every_unit | at = 1 / every = 1
at_unit every_unit | times = 2 / every = 1
at_unit every_unit | ";

/// Calls of each operation, some with their offset and some without it: the unit keys that they may have in version 2, and their
/// keys. One call stands before each.
const CALLS: &str = r#"at_unit delay_unit | op = "schedule" / name = "b" / delay = 1
at_unit | op = "execute" / name = "b"
at_unit first_unit period_unit | op = "rate" / name = "b" / first = 1 / period = 1
at_unit first_unit delay_unit | op = "fixed" / name = "b" / first = 1 / delay = 1
at_unit | op = "cancel" / name = "a"
at_unit | op = "policy" / which = "remove" / value = true
at_unit | op = "shutdown"
at_unit | op = "shutdown_now"
at_unit | op = "ask"
at_unit | op = "ask" / at = 1
at_unit delay_unit | op = "schedule" / name = "b" / delay = -1 / at = 0
at_unit first_unit delay_unit | op = "fixed" / name = "b" / first = 1 / delay = 0 / at = 1"#;

/// What stands before the second call of a plan's only block.
const SECOND_CALL: &str =
    "version = 1\n[[block]]\n[[block.call]]\nop = \"execute\"\nname = \"a\"\n[[block.call]]\n";

/// The same in version 2.
const SECOND_CALL_2: &str =
    "version = 2\n[[block]]\n[[block.call]]\nop = \"execute\"\nname = \"a\"\n[[block.call]]\n";

/// What is told of a value: that it is part of a plan of version 2, or a fault of this kind at a place.
fn told_at(alloc: Global, kind: &str, place: &str) -> Result<String, AllocError> {
    if kind == "plan 2" {
        return String::from_str(alloc, kind);
    }
    [kind, " ", place].concat(alloc)
}

/// Checks what is told of a table, at a place, that has each value at a unit key, which may or may not stand there.
fn tells_values(
    rt: &(impl AllocGlobal + Abort),
    front: &str,
    place: &str,
    key: &str,
    is_own: bool,
) -> Result<(), Fail> {
    for row in VALUES.lines() {
        let (kind, value) = row.split_once(" | ").ok_or("no value")?;
        let kind = if is_own { kind } else { "UnknownKey" };
        let fault = told_at(rt.alloc(), kind, place)?;
        let text = format!(in rt.alloc(); "{front}{key} = {value}\n")?;
        tells(rt, text.as_str(), fault.as_str())?;
    }
    Ok(())
}

/// Checks what is told of a table by what stands at each unit key, where `own` are those that it may have.
fn tells_unit_keys(
    rt: &(impl AllocGlobal + Abort),
    front: &str,
    place: &str,
    own: &str,
) -> Result<(), Fail> {
    for key in UNIT_KEYS.split(' ') {
        let is_own = own.split(' ').any(|other| other == key);
        tells_values(rt, front, place, key, is_own)?;
    }
    Ok(())
}

/// Checks what is told of each table of a list by what stands at each unit key, where it may have its own or none.
fn tells_units(
    rt: &(impl AllocGlobal + Abort),
    front: &str,
    place: &str,
    tables: &str,
    has_own: bool,
) -> Result<(), Fail> {
    for table in tables.lines() {
        let (own, keys) = table.split_once(" | ").ok_or("no keys")?;
        let keys = spelled(rt.alloc(), keys)?;
        let front = [front, keys.as_str(), "\n"].concat(rt.alloc())?;
        let own = if has_own { own } else { "" };
        tells_unit_keys(rt, front.as_str(), place, own)?;
    }
    Ok(())
}

/// Headers and calls of version 2, and calls of version 1.
#[test]
fn only_version_2_has_a_unit_for_each_time(rt: HostRuntime) -> Result<(), Fail> {
    tells_units(&rt, HEADER_2, "block 1 call 0", HEADERS, true)?;
    tells_units(&rt, SECOND_CALL_2, "block 1 call 2", CALLS, true)?;
    tells_units(&rt, SECOND_CALL, "block 1 call 2", CALLS, false)
}

/// Headers of version 1: its one unit, which is none of the longer ones, and the unit keys of version 2.
const A_HEADER_OF_VERSION_1_HAS_ONE_UNIT: &str = r#"plan | unit = "ns"
plan | unit = "us"
plan | unit = "ms"
plan | unit = "s"
BadUnit block 1 call 0 | unit = "min"
BadUnit block 1 call 0 | unit = "h"
BadUnit block 1 call 0 | unit = "d"
BadUnit block 1 call 0 | at = 0 / unit = "d" / every = 0
BadUnit block 1 call 0 | unit = "min" / times = 0
WrongType block 1 call 0 | unit = "h" / times = "2"
UnknownKey block 1 call 0 | at_unit = "s"
UnknownKey block 1 call 0 | at = 1 / at_unit = "s"
UnknownKey block 1 call 0 | every_unit = "s"
UnknownKey block 1 call 0 | every = 1 / every_unit = "s"
UnknownKey block 1 call 0 | unit = "s" / at = 1 / at_unit = "s"
UnknownKey block 1 call 0 | unit = 1 / every_unit = "s"
UnknownKey block 1 call 0 | delay_unit = "s"
UnknownKey block 1 call 0 | first_unit = "s"
UnknownKey block 1 call 0 | period_unit = "s""#;

#[test]
fn a_header_of_version_1_has_one_unit(rt: HostRuntime) -> Result<(), Fail> {
    tells_each(&rt, HEADER, A_HEADER_OF_VERSION_1_HAS_ONE_UNIT)
}

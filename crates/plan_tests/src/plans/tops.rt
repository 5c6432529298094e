//! Faults of the text and of the top: its length, its version and its keys.
use super::*;

/// What stands first in a text, the byte of which the rest is, how long the text is, and its fault.
const LONG: &[(&str, &str, usize, &str)] = &[
    ("", " ", 1_048_577, "TooLong block 0 call 0"),
    ("", "=", 1_048_577, "TooLong block 0 call 0"),
    ("", " ", 1_048_576, "Version block 0 call 0"),
    ("version = 1", " ", 1_048_576, "plan"),
];

#[test]
fn takes_a_plan_of_the_longest_text(rt: HostRuntime) -> Result<(), Fail> {
    for (front, byte, length, fault) in LONG {
        let rest = byte.repeat(rt.alloc(), length.saturating_sub(front.len()))?;
        let text = format!(in rt.alloc(); "{front}{rest}")?;
        assert!(rt; text.len() == *length);
        tells(&rt, text.as_str(), fault)?;
    }
    Ok(())
}

/// Versions, and faults at the top.
const TAKES_VERSIONS_1_AND_2_AND_REFUSES_AT_THE_TOP: &str =
    r#"Version block 0 call 0 | version = 1.0
Version block 0 call 0 | version = 2.0
Version block 0 call 0 | version = -1
Version block 0 call 0 | version = 0
Version block 0 call 0 | version = 3
Version block 0 call 0 | version = 12
Version block 0 call 0 | version = 9223372036854775807
Version block 0 call 0 | version = "2"
Version block 0 call 0 | version = [2]
Version block 0 call 0 | version = 3 / x = 1
Version block 0 call 0 | x = 1 / version = 3
Version block 0 call 0 | version = 3 / block = 1
Version block 0 call 0 | x = 1
plan | version = 1
plan 2 | version = 2
plan 2 | version = 0b10
plan 2 | version = 2 / block = []
plan 2 | version = 2 / [[block]]
UnknownKey block 0 call 0 | version = 1 / x = 1 / block = 1
UnknownKey block 0 call 0 | block = 1 / x = 1 / version = 1
UnknownKey block 0 call 0 | version = 2 / x = 1
UnknownKey block 0 call 0 | x = 1 / version = 2
UnknownKey block 0 call 0 | version = 2 / unit = "s"
UnknownKey block 0 call 0 | version = 2 / at_unit = "s"
UnknownKey block 0 call 0 | version = 2 / block_unit = "s" / block = 1
WrongType block 0 call 0 | version = 1 / block = [{}, 1]
WrongType block 0 call 0 | version = 1 / [block]
WrongType block 0 call 0 | version = 2 / block = [{}, 1]
WrongType block 0 call 0 | version = 2 / [block]"#;

#[test]
fn takes_versions_1_and_2_and_refuses_at_the_top(rt: HostRuntime) -> Result<(), Fail> {
    tells_each(&rt, "", TAKES_VERSIONS_1_AND_2_AND_REFUSES_AT_THE_TOP)
}

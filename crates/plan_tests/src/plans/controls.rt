//! Control characters: TOML has a tab in comments, in strings and between words, and a newline, alone or behind a return, where
//! a line may end. Each other one is refused.
use super::*;

/// Spots in comments, between words, in each form of string, and in words: what is told of the text where a control character may
/// stand there, which may, and the text before it and behind it.
const SPOTS: &str = r#"plan¦␉⏎¦version = 1 #¦
plan¦␉⏎␍¦version = 1 #¦⏎
plan¦␉⏎¦¦version = 1
plan¦␉¦version =¦1
plan¦␉⏎¦version = 1¦
plan¦␉⏎␍¦version = 1¦⏎[[block]]
UnknownKey block 0 call 0¦␉⏎¦version = 1⏎x = [¦]
UnknownKey block 0 call 0¦␉⏎¦version = 1⏎x = {¦}
UnknownKey block 0 call 0¦␉¦version = 1⏎x = "¦"
UnknownKey block 0 call 0¦␉¦version = 1⏎x = '¦'
UnknownKey block 0 call 0¦␉⏎¦version = 1⏎x = """¦"""
UnknownKey block 0 call 0¦␉⏎␍¦version = 1⏎x = '''a¦⏎'''
plan¦¦ver¦sion = 1
plan¦¦version = 1⏎[[blo¦ck]]"#;

/// A text that has a control character between two pieces.
fn with_control(alloc: Global, front: &str, code: u8, rest: &str) -> Result<String, AllocError> {
    let mut text = spelled(alloc, front)?;
    let rest = spelled(alloc, rest)?;
    text.push(char::from(code))?;
    text.push_str(rest.as_str())?;
    Ok(text)
}

/// Whether a control character is one of those that a row spells.
fn is_among(alloc: Global, row: &str, code: u8) -> Result<bool, AllocError> {
    Ok(spelled(alloc, row)?.as_bytes().contains(&code))
}

/// Checks what is told of the text that has a control character at a spot.
fn tells_at(rt: &(impl AllocGlobal + Abort), spot: &str, code: u8) -> Result<(), Fail> {
    let columns: Vec<&str> = spot.split("¦").collect(rt.alloc())?;
    let [fault, allowed, front, rest] = columns.as_slice() else {
        return Err("a row is short".into());
    };
    let text = with_control(rt.alloc(), front, code, rest)?;
    let expected = if is_among(rt.alloc(), allowed, code)? {
        *fault
    } else {
        "Toml block 0 call 0"
    };
    tells_row(rt, text.as_str(), text.as_str(), expected)
}

#[test]
fn takes_control_characters_where_they_may_stand(rt: HostRuntime) -> Result<(), Fail> {
    for spot in SPOTS.lines() {
        for code in 0..32u8 {
            tells_at(&rt, spot, code)?;
        }
        tells_at(&rt, spot, 127)?;
    }
    Ok(())
}

/// What stands before the escapes.
const NAMED: &str = "version = 1\n[[block]]\n[[block.call]]\nop = \"cancel\"\n";

/// Escapes in a name: control characters and others that no name has, and escapes that TOML has not.
const TAKES_NO_NAME_OF_CONTROLS: &str = r#"BadName block 1 call 1 | name = "\u0000"
BadName block 1 call 1 | name = "\x7f"
BadName block 1 call 1 | name = "\t"
BadName block 1 call 1 | name = "\n"
BadName block 1 call 1 | name = "\r"
BadName block 1 call 1 | name = "\U0010FFFF"
Toml block 0 call 0 | name = "\U00110000"
Toml block 0 call 0 | name = "\uD800"
Toml block 0 call 0 | name = "\u61"
Toml block 0 call 0 | name = "\a""#;

#[test]
fn takes_no_name_of_controls(rt: HostRuntime) -> Result<(), Fail> {
    tells_each(&rt, NAMED, TAKES_NO_NAME_OF_CONTROLS)
}

//! Values and keys to the depth that `toml` takes, 80, and beyond; and long texts that are all of one piece, or all of keys.
use super::*;

/// Arrays, inline tables, both by turns, the parts of a key and those of a header: what is told of a text, how often it has its piece,
/// and then the text behind `version = 1`: a front, the piece, a middle, and what closes a piece.
const DEEP: &str = r#"UnknownKey block 0 call 0¦80¦x = ¦[¦¦]
Toml block 0 call 0¦81¦x = ¦[¦¦]
UnknownKey block 0 call 0¦80¦x = ¦[¦1¦]
Toml block 0 call 0¦81¦x = ¦[¦1¦]
UnknownKey block 0 call 0¦80¦x = ¦{x=¦1¦}
Toml block 0 call 0¦81¦x = ¦{x=¦1¦}
UnknownKey block 0 call 0¦40¦x = ¦[{x=¦1¦}]
Toml block 0 call 0¦40¦x = ¦[{x=¦[]¦}]
Toml block 0 call 0¦40¦x = ¦[{x=¦{}¦}]
UnknownKey block 0 call 0¦79¦¦x.¦x = 1¦
Toml block 0 call 0¦80¦¦x.¦x = 1¦
UnknownKey block 0 call 0¦79¦[¦x.¦x]¦
Toml block 0 call 0¦80¦[¦x.¦x]¦
UnknownKey block 0 call 0¦79¦[[¦x.¦x]]¦
Toml block 0 call 0¦80¦[[¦x.¦x]]¦
WrongType block 0 call 0¦80¦block = ¦[¦¦]
Toml block 0 call 0¦81¦block = ¦[¦¦]
WrongType block 1 call 0¦80¦[[block]]⏎at = ¦[¦¦]
Toml block 0 call 0¦81¦[[block]]⏎at = ¦[¦¦]
Toml block 0 call 0¦10000¦x = ¦[¦¦]
Toml block 0 call 0¦10000¦x = ¦{x=¦1¦}
Toml block 0 call 0¦10000¦¦x.¦x = 1¦"#;

/// Long texts, each made of one piece.
const LONG: &str = r#"Toml block 0 call 0¦100000¦¦[¦¦
Toml block 0 call 0¦100000¦x = ¦[¦¦
Toml block 0 call 0¦30000¦x = ¦{x=¦¦
Toml block 0 call 0¦30000¦x = ¦[{x=¦¦
Toml block 0 call 0¦100000¦x = ¦1¦¦
Toml block 0 call 0¦100000¦x = ¦0¦1¦
Toml block 0 call 0¦100000¦x = ¦"¦¦
UnknownKey block 0 call 0¦100000¦¦x¦ = 1¦
UnknownKey block 0 call 0¦20000¦¦[[x]]⏎¦¦
UnknownKey block 0 call 0¦50000¦x = [¦1,¦]¦
UnknownKey block 0 call 0¦30000¦x = [¦[],¦]¦
UnknownKey block 0 call 0¦50000¦x = "¦\t¦"¦
TooMany block 0 call 0¦10000¦¦[[block]]⏎¦¦
TooMany block 0 call 0¦30000¦block = [¦{},¦]¦
TooMany block 1 call 0¦30000¦[[block]]⏎call = [¦{},¦]¦
BadName block 1 call 1¦100000¦[[block]]⏎call = [{ op = "cancel", name = "¦a¦" }]¦
plan¦100000¦¦⏎¦[[block]]¦
plan¦30000¦¦#␍⏎¦[[block]]¦"#;

/// The text of a row.
fn pieced(alloc: Global, columns: &[&str]) -> Result<String, Fail> {
    let [_, count, front, piece, middle, close] = columns else {
        return Err("a row is short".into());
    };
    let count = count.parse::<usize>()?;
    let pieces = piece.repeat(alloc, count)?;
    let closed = close.repeat(alloc, count)?;
    let (pieces, closed) = (pieces.as_str(), closed.as_str());
    let text = ["version = 1\n", front, pieces, middle, closed].concat(alloc)?;
    Ok(spelled(alloc, text.as_str())?)
}

/// Checks what is told of each text.
fn tells_pieces(rt: &(impl AllocGlobal + Abort), rows: &str) -> Result<(), Fail> {
    for row in rows.lines() {
        let columns: Vec<&str> = row.split("¦").collect(rt.alloc())?;
        let text = pieced(rt.alloc(), &columns)?;
        tells_row(
            rt,
            row,
            text.as_str(),
            columns.first().copied().unwrap_or(""),
        )?;
    }
    Ok(())
}

#[test]
fn takes_values_and_keys_80_deep(rt: HostRuntime) -> Result<(), Fail> {
    tells_pieces(&rt, DEEP)
}

#[test]
fn answers_long_texts_of_one_piece(rt: HostRuntime) -> Result<(), Fail> {
    tells_pieces(&rt, LONG)
}

/// What stands before the number of a key or of a header, and behind it.
const KEYS: &[(&str, &str)] = &[
    ("", "=1"),
    ("x.", "=1"),
    ("[", "]"),
    ("[[", "]]"),
    ("[x.", "]"),
];

/// A text of 10,000 keys of its own, or of as many headers: what stands before the number of each, and behind it.
fn many_keys(alloc: Global, open: &str, close: &str) -> Result<String, Fail> {
    let mut text = String::from_str(alloc, "version = 1\n")?;
    for key in 0..10_000u32 {
        write!(text, "{open}{key}{close}\n")?;
    }
    Ok(text)
}

#[test]
fn answers_texts_of_many_keys(rt: HostRuntime) -> Result<(), Fail> {
    for (open, close) in KEYS {
        let text = many_keys(rt.alloc(), open, close)?;
        // It is read once, and not migrated too, as `told` does: each reading of the third takes a while.
        let fault = read(rt.alloc(), text.as_bytes()).err().ok_or("a plan")?;
        assert!(rt; text_of_fault(rt.alloc(), &fault)?.as_str() == "UnknownKey block 0 call 0");
    }
    Ok(())
}

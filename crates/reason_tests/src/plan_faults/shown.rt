//! What stands in a text, in one line.
use super::reason_of;
use std::process::Abort;
use std::test::Fail;

/// Tables that `tell_table` reads.
pub const TABLES: &str = "\
    characters of names that cannot be seen are escaped | version = 2 / [[block]] / call = [{ op = \"cancel\", name = \n\
    p:3: block 1, call 1, name = \"a\\nb\": not a name; 1 to 32 ASCII letters, digits, - and _ | \"a\\nb\" }]\n\
    p:3: block 1, call 1, name = \"\\r\\t\\u001B\\u0000\": not a name; 1 to 32 ASCII letters, digits, - and _ | \"\\r\\t\\u001b\\u0000\" }]\n\
    p:3: block 1, call 1, name = \"\\u007F\\u0085\": not a name; 1 to 32 ASCII letters, digits, - and _ | \"\\u007f\\u0085\" }]\n\
    p:3: block 1, call 1, name = \"a\\u200B\\u00A0\\uFEFF b\": not a name; 1 to 32 ASCII letters, digits, - and _ | \"a\u{200B}\u{A0}\u{FEFF} b\" }]\n\
    p:3: block 1, call 1, name = \"\\\"\\\\ '\": not a name; 1 to 32 ASCII letters, digits, - and _ | \"\\\"\\\\ '\" }]\n\
    \n\
    characters of keys that cannot be seen are escaped | version = 2 / \n\
    p: \"a\\nb\" = 1: no such key; one of version, block | \"a\\nb\" = 1\n\
    p:2: \"\" = 1: no such key; one of version, block | \"\" = 1\n\
    p:2: \"a.b\" = 1: no such key; one of version, block | 'a.b' = 1\n\
    p:2: a-b_1 = 1: no such key; one of version, block | \"a-b_1\" = 1\n\
    \n\
    long texts are cut | version = 2 / \n\
    p:2: a234567890b234567890c234567890d234567890 = 1: no such key; one of version, block | a234567890b234567890c234567890d234567890 = 1\n\
    p:2: a234567890b234567890c234567890d234567890... = 1: no such key; one of version, block | a234567890b234567890c234567890d2345678901 = 1\n\
    p:2: x = \"a234567890b234567890c234567890d234567890\": no such key; one of version, block | x = \"a234567890b234567890c234567890d234567890\"\n\
    p:2: x = \"a234567890b234567890c234567890d234567890\"...: no such key; one of version, block | x = \"a234567890b234567890c234567890d234567890!\"\n\
    p:2: x = \"\u{E4}234567890\u{F6}234567890c234567890d23456789\u{20AC}\"...: no such key; one of version, block | x = \"\u{E4}234567890\u{F6}234567890c234567890d23456789\u{20AC}!\"\n\
    \n\
    values of all types | version = 2 / \n\
    p:2: x = -9223372036854775808: no such key; one of version, block | x = -9223372036854775808\n\
    p:2: x = 1.5: no such key; one of version, block | x = 1.5\n\
    p:2: x = inf: no such key; one of version, block | x = +inf\n\
    p:2: x = false: no such key; one of version, block | x = false\n\
    p:2: x = 1979-05-27T07:32:00Z: no such key; one of version, block | x = 1979-05-27T07:32:00Z\n\
    p:2: x = an array of 3: no such key; one of version, block | x = [1, 2, 3]\n\
    p:2: x = a table: no such key; one of version, block | x = {}\n\
    \n\
    several faults have one line | version = 2 / [[block]] / [[block.call]] / \n\
    p:6: block 1, call 1, a = 1: no such key; at may be meant; one of op, at, at_unit | op = \"ask\" / z = 1 / a = 1 / m = 2";

#[test]
fn names_of_files_are_escaped(rt: HostRuntime) -> Result<(), Fail> {
    let Some(reason) = reason_of(rt.alloc(), b"version = 3") else {
        return Err(Fail::from("a plan"));
    };
    let file = "a\nlong/folder/of/plans/and/a/long/name/of/\u{202E}a plan.toml";
    let told = reason.in_file(file).to_string(rt.alloc())?;
    let wanted =
        "a\\nlong/folder/of/plans/and/a/long/name/of/\\u202Ea plan.toml:1: version = 3: no such version; one of 1, 2";
    assert!(rt; told.as_str() == wanted, "{told}");
    let told = reason.to_string(rt.alloc())?;
    assert!(rt;
        told.as_str() == "version = 3: no such version; one of 1, 2",
        "{told}"
    );
    Ok(())
}

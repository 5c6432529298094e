//! Faults of the top of a plan.
use super::{repeated, told};
use std::process::Abort;
use std::test::Fail;

/// Tables that `tell_table` reads.
pub const TABLES: &str = "\
    what is fine | \n\
    fine | version = 2\n\
    fine | version = 1 / block = []\n\
    fine | version = 2 / [[block]] / [[block.call]] / op = \"ask\"\n\
    \n\
    versions | \n\
    p: version: missing; one of 1, 2 | x = 1\n\
    p:2: version = 3: no such version; one of 1, 2 | # a plan / version = 3\n\
    p:1: version = \"2\": of the wrong type; one of 1, 2 | version = \"2\"\n\
    p:1: version = an array of 1: of the wrong type; one of 1, 2 | version = [2]\n\
    p:1: version = a table: of the wrong type; one of 1, 2 | [version] / x = 1\n\
    p:1: version = 2.0: of the wrong type; one of 1, 2 | version = 2.0\n\
    \n\
    unknown keys of plans | version = 2 / \n\
    p:2: x = 1: no such key; one of version, block | x = 1\n\
    p:2: blok = an array of 1: no such key; block may be meant; one of version, block | [[blok]]\n\
    p:3: blocks = a table: no such key; block may be meant; one of version, block | # / [blocks.call]\n\
    p:2: \"a key\" = true: no such key; one of version, block | \"a key\" = true\n\
    p: name = 1: no such key; one of version, block | \"n\\u0061me\" = 1\n\
    \n\
    wrong types of blocks | version = 2 / \n\
    p:2: block = 1: of the wrong type; an array of tables | block = 1\n\
    p:2: block = a table: of the wrong type; an array of tables | [block] / at = 1\n\
    p:3: block = an array of 2: of the wrong type; an array of tables | # / block = [{}, 1]\n\
    p:2: block = a table: of the wrong type; an array of tables | [[block.call]] / op = \"ask\"";

/// Numbers of blocks, and what is told of a plan that has so many.
const BLOCKS: &[(usize, &str)] = &[
    (256, "fine"),
    (257, "p:258: block = an array of 257: too many; at most 256"),
    (258, "p:258: block = an array of 258: too many; at most 256"),
];

#[test]
fn too_many_blocks(rt: HostRuntime) -> Result<(), Fail> {
    for (count, wanted) in BLOCKS {
        let text = repeated(rt.alloc(), "version = 2\n", "[[block]]\n", *count)?;
        let told = told(rt.alloc(), text.as_str())?;
        assert!(rt; told.as_str() == *wanted, "{told}");
    }
    Ok(())
}

#[test]
fn too_many_inline_blocks(rt: HostRuntime) -> Result<(), Fail> {
    let mut text = repeated(rt.alloc(), "version = 2\nblock = [\n", "{},\n", 257)?;
    text.push_str("]\n")?;
    let told = told(rt.alloc(), text.as_str())?;
    assert!(rt;
        told.as_str() == "p:259: block = an array of 257: too many; at most 256",
        "{told}"
    );
    Ok(())
}

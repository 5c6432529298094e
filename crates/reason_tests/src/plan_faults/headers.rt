//! Faults of the header of a block.
use super::{repeated, told};
use std::process::Abort;
use std::test::Fail;

/// Tables that `tell_table` reads.
pub const TABLES: &str = "\
    unknown keys of headers | version = 2 / [[block]] / \n\
    p:3: block 1, tims = 2: no such key; times may be meant; one of at, at_unit, times, every, every_unit, call | tims = 2\n\
    p:3: block 1, unit = \"s\": no such key; one of at, at_unit, times, every, every_unit, call | unit = \"s\"\n\
    p:4: block 2, calls = an array of 0: no such key; call may be meant; one of at, at_unit, times, every, every_unit, call | [[block]] / calls = []\n\
    p:3: block 1, x = a table: no such key; one of at, at_unit, times, every, every_unit, call | x.y = 2\n\
    p:3: block 1, At = 1: no such key; at may be meant; one of at, at_unit, times, every, every_unit, call | At = 1\n\
    \n\
    unknown keys of headers, in version 1 | version = 1 / \n\
    p:2: block 1, at_unit = \"s\": no such key; one of at, unit, times, every, call | block = [{ at_unit = \"s\" }]\n\
    \n\
    wrong types in headers | version = 2 / [[block]] / \n\
    p:3: block 1, at = \"1\": of the wrong type; an integer | at = \"1\"\n\
    p:4: block 1, every = 1.5: of the wrong type; an integer | at = 1 / every = 1.5\n\
    p:3: block 1, call = an array of 1: of the wrong type; an array of tables | call = [1]\n\
    p:3: block 1, call = a table: of the wrong type; an array of tables | [block.call] / op = \"ask\"\n\
    p:3: block 1, at_unit = 1979-05-27: of the wrong type; a text | at_unit = 1979-05-27\n\
    p:3: block 1, times = true: of the wrong type; an integer | times = true\n\
    \n\
    bad units in headers | version = 2 / [[block]] / \n\
    p:3: block 1, at_unit = \"year\": no such unit; one of ns, us, ms, s, min, h, d | at_unit = \"year\"\n\
    p:4: block 1, every_unit = \"mins\": no such unit; min may be meant; one of ns, us, ms, s, min, h, d | every = 1 / every_unit = \"mins\"\n\
    p:3: block 1, at_unit = \"\": no such unit; one of ns, us, ms, s, min, h, d | at_unit = \"\"\n\
    \n\
    bad units in headers, in version 1 | version = 1 / [[block]] / \n\
    p:3: block 1, unit = \"min\": no such unit; one of ns, us, ms, s | unit = \"min\"\n\
    p:3: block 1, unit = \"msec\": no such unit; ms may be meant; one of ns, us, ms, s | unit = \"msec\"\n\
    p:3: block 1, unit = \"S\": no such unit; s may be meant; one of ns, us, ms, s | unit = \"S\"\n\
    p:3: block 1, unit = \"MS\": no such unit; ms may be meant; one of ns, us, ms, s | unit = \"MS\"\n\
    \n\
    bad times | version = 2 / [[block]] / \n\
    p:3: block 1, times = 0: out of range; 1 to 65536 | times = 0\n\
    p:3: block 1, times = -5: out of range; 1 to 65536 | times = -5\n\
    p:4: block 1, times = 65537: out of range; 1 to 65536 | # / times = 65537\n\
    \n\
    missing every | version = 2 / \n\
    p:2: block 1, every: missing; an integer, since times is 2 | [[block]] / times = 2\n\
    p:4: block 2, every: missing; an integer, since times is 65536 | [[block]] / # / [[block]] / times = 65536\n\
    p:2: block 1, every: missing; an integer, since times is 3 | block = [{ times = 3, every_unit = \"s\" }]\n\
    \n\
    too many calls in all | version = 2 / [[block]] / times = 65536 / every = 0 / \n\
    p:5: block 1, call = an array of 2: too many; at most 65536 calls in all, and these make 131072 | call = [{ op = \"ask\" }, { op = \"ask\" }]\n\
    p:8: block 2, call = an array of 1: too many; at most 65536 calls in all, and these make 65537 | [[block.call]] / op = \"ask\" / [[block]] / [[block.call]] / op = \"ask\"\n\
    fine | [[block.call]] / op = \"ask\" / [[block]]";

/// Numbers of calls, and what is told of a plan whose block has so many.
const CALLS: &[(usize, &str)] = &[
    (256, "fine"),
    (
        257,
        "p:515: block 1, call = an array of 257: too many; at most 256",
    ),
];

#[test]
fn too_many_calls_of_a_block(rt: HostRuntime) -> Result<(), Fail> {
    for (count, wanted) in CALLS {
        let call = "[[block.call]]\nop = \"ask\"\n";
        let text = repeated(rt.alloc(), "version = 2\n[[block]]\n", call, *count)?;
        let told = told(rt.alloc(), text.as_str())?;
        assert!(rt; told.as_str() == *wanted, "{told}");
    }
    Ok(())
}

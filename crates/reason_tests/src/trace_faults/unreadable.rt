//! Lines that cannot be read.
use super::{ONE_DELAY, told};
use std::process::Abort;
use std::test::Fail;

/// Tables of texts that are held against `ONE_DELAY`. What is wanted is told by the words that can be read.
pub const TABLES: &str = "\
    words that tell enough | 0 submit 0 schedule due 5 / 5 clock / \n\
    p:3: \"05 start 0 task 0 run 0 due 5\": leading zero in \"05\"; a number has none; \"5 start 0 task 0 run 0 due 5\" could stand here | 05 start 0 task 0 run 0 due 5\n\
    p:3: \"5  start 0\": two spaces; one space stands between two words; \"5 start 0 task 0 run 0 due 5\" could stand here | 5  start 0\n\
    p:3: \"start 0\": no such line; \"5 start 0 task 0 run 0 due 5\" could stand here | start 0\n\
    p:3: \"clock 7\": no such line; \"7 clock\" could stand here | clock 7\n\
    p:3: \"5 purge 0\": no such line; \"5 purge\" could stand here | 5 purge 0\n\
    p:3: \"5 purge \": space at the end; a line ends with a word; \"5 purge\" could stand here | 5 purge \n\
    p:3: \"purge\": no such line; \"5 purge\" could stand here | purge\n\
    p:3: \"7 clock \": space at the end; a line ends with a word; \"7 clock\" could stand here | 7 clock \n\
    \n\
    words that tell nothing | 0 submit 0 schedule due 5 / 5 clock / \n\
    p:3: \"\": empty; a line has a word at least; \"5 clock\" or \"5 start 0 task 0 run 0 due 5\" could stand here | \n\
    p:3: \"5 begin 0\": no such line; \"5 clock\" or \"5 start 0 task 0 run 0 due 5\" could stand here | 5 begin 0\n\
    p:3: \"5 start x\": no such line; \"5 clock\" or \"5 start 0 task 0 run 0 due 5\" could stand here | 5 start x\n\
    p:3: \"9 begin 0\": no such line; \"9 clock\" or \"5 start 0 task 0 run 0 due 5\" could stand here | 9 begin 0\n\
    \n\
    words that tell nothing in the first line | \n\
    p:1: \"x\": no such line; \"0 submit 0 schedule due 5\" or \"0 start 0 idle\" could stand here | x";

/// Texts with other bytes, and what is told of them.
const OTHER_BYTES: &[(&[u8], &str)] = &[
    (
        b"0 submit 0 schedule due 5\n5 clock",
        "p:2: \"5 clock\": no newline; each line ends with one; \"5 clock\" could stand here",
    ),
    (
        b"0 submit 0 schedule due 5\r\n5 clock\r\n",
        "p:1: \"0 submit 0 schedule due 5\\r\": carriage return; a line ends with a newline alone; \"0 submit 0 schedule due 5\" could stand here",
    ),
    (
        b"\xFF\x00\n",
        "p:1: \"\\xFF\\u0000\": no such line; \"0 submit 0 schedule due 5\" or \"0 start 0 idle\" could stand here",
    ),
];

#[test]
fn other_bytes(rt: HostRuntime) -> Result<(), Fail> {
    for (text, wanted) in OTHER_BYTES {
        let told = told(&rt, ONE_DELAY, 1, text)?;
        assert!(rt; told.as_str() == *wanted, "{told}");
    }
    Ok(())
}

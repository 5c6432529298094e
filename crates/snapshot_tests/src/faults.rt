//! Why a text is no snapshot.
use crate::texts::{TEXT, read};
use std::alloc::{AllocError, Global};
use std::test::Fail;

/// A line of the text by its number, what stands there instead, and what is told then. `-` is no line at all.
const FAULTS: &str = "\
1 sched snapshot 2 | no snapshot of version 1
1 - | no snapshot of version 1
11 task 3 slot 5 due 900 run 0 once waits. | line 11
11 task 03 slot 5 due 900 run 0 once waits | line 11
11 task 3 slot 4294967296 due 900 run 0 once waits | line 11
12 task 7 slot 1 due 4000 run 31 rate 4611686018427387905 runs 2 | line 12
12 task 7 slot 1 due 4000 run 31 rate 100 runs 256 | line 12
13 task 9 slot 0 due 4100 run 0 twice kept | line 13
14 task 11 slot 2 due 80 run 4 fixed 5 runs 1  cancelled | line 14
15 free 4294967296 | line 15
15 task 3 slot 5 due 900 run 0 once waits | another number of tasks
16 data 5 | line 16
16 - | another sum
11 task 3 slot 4 due 900 run 0 once waits | another sum
4 moment 5000 earliest 5002 | another sum
17 end 5 9202126142331287350 | another number of tasks
17 end 4 9202126142331287351 | another sum
17 end 4 18446744073709551616 | line 17
17 - | line 17
";

/// The text with another line in place of the one of this number.
fn text_with(alloc: Global, number: usize, line: &str) -> Result<String, AllocError> {
    let mut text = String::new(alloc);
    for (place, old) in TEXT.lines().enumerate() {
        let new = if place + 1 == number { line } else { old };
        if new != "-" {
            text.push_str(new)?;
            text.push_str("\n")?;
        }
    }
    Ok(text)
}

/// What is told of a text.
fn told(alloc: Global, text: &str) -> Result<String, AllocError> {
    match read(alloc, text.as_bytes()) {
        Ok(_) => String::from_str(alloc, "a snapshot"),
        Err(fault) => fault.to_string(alloc),
    }
}

#[test]
fn each_fault_is_told(rt: HostRuntime) -> Result<(), Fail> {
    for row in FAULTS.lines() {
        let (change, wanted) = row.split_once(" | ").ok_or("nothing told")?;
        let (number, line) = change.split_once(' ').ok_or("no line")?;
        let text = text_with(rt.alloc(), number.parse::<usize>()?, line)?;
        let found = told(rt.alloc(), text.as_str())?;
        assert!(rt; found.as_str() == wanted, "{row}");
    }
    Ok(())
}

#[test]
fn nothing_may_follow(rt: HostRuntime) -> Result<(), Fail> {
    let text = format!(in rt.alloc(); "{TEXT}\n")?;
    assert!(rt; told(rt.alloc(), text.as_str())?.as_str() == "line 18");
    Ok(())
}

#[test]
fn no_front_is_a_snapshot(rt: HostRuntime) -> Result<(), Fail> {
    for length in 0..TEXT.len() {
        assert!(rt;
            read(rt.alloc(), &TEXT.as_bytes()[..length]).is_err(),
            "{length}"
        );
    }
    Ok(())
}

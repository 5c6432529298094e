//! Reasons in one line.

use super::{ONE_DELAY, reason_of_trace};
use crate::plan_texts::plan_of;
use std::alloc::{AllocError, Global};
use std::process::Abort;
use std::test::Fail;
use trace_reasons::TraceReason;

/// Tables of texts that are held against `ONE_DELAY`.
pub const TABLES: &str = "\
    long lines are cut | 0 submit 0 schedule due 5 / \n\
    p:2: \"a234567890b234567890c234567890d234567890\": no such line; \"0 clock\" or \"0 start 0 idle\" could stand here | a234567890b234567890c234567890d234567890\n\
    p:2: \"a234567890b234567890c234567890d234567890\"...: no such line; \"0 clock\" or \"0 start 0 idle\" could stand here | a234567890b234567890c234567890d2345678901";

/// Numbers of workers, and how they are told.
const NUMBERS: &[(&[u8], &str)] = &[
    (
        &[1, 2, 3, 4],
        "line 1, the text ends: breaks; conforms with --workers 1 to 4",
    ),
    (
        &[1, 2, 3, 64],
        "line 1, the text ends: breaks; conforms with --workers 1 to 3 or 64",
    ),
    (
        &[2, 4, 6, 7],
        "line 1, the text ends: breaks; conforms with --workers 2, 4 or 6 to 7",
    ),
    (
        &[2, 3, 5, 64],
        "line 1, the text ends: breaks; conforms with --workers 2 to 3, 5 or 64",
    ),
    (
        &[7],
        "line 1, the text ends: breaks; conforms with --workers 7",
    ),
    (&[], "line 1, the text ends: breaks"),
];

/// A reason that tells of nothing but these numbers of workers.
fn reason_of_numbers(
    alloc: Global,
    numbers: &[u8],
) -> Result<TraceReason<'static, Global>, AllocError> {
    Ok(TraceReason {
        line: 1,
        found: None,
        fault: None,
        lines: Vec::new(alloc),
        workers: Vec::from_slice(alloc, numbers)?,
    })
}

#[test]
fn numbers_in_runs(rt: HostRuntime) -> Result<(), Fail> {
    for (numbers, wanted) in NUMBERS {
        let told = reason_of_numbers(rt.alloc(), numbers)?.to_string(rt.alloc())?;
        assert!(rt; told.as_str() == *wanted, "{told}");
    }
    Ok(())
}

/// What is told of a text of one line.
const ONE_LINE: &str =
    "line 1, \"0 clock\": breaks; \"0 submit 0 schedule due 5\" could stand here";

/// What is told of it in a file.
const IN_FILE: &str =
    "a\\nb:1: \"0 clock\": breaks; \"0 submit 0 schedule due 5\" could stand here";

#[test]
fn with_no_file(rt: HostRuntime) -> Result<(), Fail> {
    let plan = plan_of(rt.alloc(), ONE_DELAY)?;
    let Some(reason) = reason_of_trace(rt.alloc(), &plan, 1, b"0 clock\n")? else {
        return Err(Fail::from("conforms"));
    };
    let told = reason.to_string(rt.alloc())?;
    assert!(rt; told.as_str() == ONE_LINE, "{told}");
    let told = reason.in_file("a\nb").to_string(rt.alloc())?;
    assert!(rt; told.as_str() == IN_FILE, "{told}");
    Ok(())
}

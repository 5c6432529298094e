//! Where lines stand.

use super::ends::A_SWEEP;
use super::reason_of_trace;
use crate::plan_texts::plan_of;
use std::process::Abort;
use std::test::Fail;
use trace_check::MOST_BYTES;

/// A text that breaks, the number of the line at which it does, and what stands there.
struct Broken {
    plan: &'static str,
    text: &'static str,
    line: u64,
    found: Option<&'static str>,
    /// What is told.
    told: &'static str,
}

/// A plan of no calls.
const EMPTY: &str = "version = 2\n";

/// Lines with their newlines, and texts that end.
const BROKEN: &[Broken] = &[
    Broken {
        plan: EMPTY,
        text: "ab\n\ncd",
        line: 1,
        found: Some("ab\n"),
        told: "line 1, \"ab\": no such line; \"0 clock\" or \"0 start 0 idle\" could stand here",
    },
    Broken {
        plan: EMPTY,
        text: "7 clock\n\ncd",
        line: 2,
        found: Some("\n"),
        told: "line 2, \"\": empty; a line has a word at least; \"7 clock\" or \"7 start 0 idle\" could stand here",
    },
    Broken {
        plan: EMPTY,
        text: "7 clock\n8 clock\ncd",
        line: 3,
        found: Some("cd"),
        told: "line 3, \"cd\": no newline; each line ends with one; \"8 clock\" or \"8 start 0 idle\" could stand here",
    },
    Broken {
        plan: EMPTY,
        text: "a\n",
        line: 1,
        found: Some("a\n"),
        told: "line 1, \"a\": no such line; \"0 clock\" or \"0 start 0 idle\" could stand here",
    },
    Broken {
        plan: A_SWEEP,
        text: "0 policy execute false\n0 submit 0 schedule due 1\n0 submit 1 schedule due 100\n0 submit 2 rate due 3\n5 shutdown\n5 end 1",
        line: 6,
        found: Some("5 end 1"),
        told: "line 6, \"5 end 1\": no newline; each line ends with one; \"5 end 1\" is wanted",
    },
    Broken {
        plan: A_SWEEP,
        text: "0 policy execute false\n0 submit 0 schedule due 1\n0 submit 1 schedule due 100\n0 submit 2 rate due 3\n5 shutdown\n5 end 1\n",
        line: 7,
        found: None,
        told: "line 7, the text ends: breaks; \"5 end 2\" is wanted",
    },
];

/// Checks where a text breaks, and what is told.
fn breaks(rt: &(impl AllocGlobal + Abort), broken: &Broken) -> Result<(), Fail> {
    let plan = plan_of(rt.alloc(), broken.plan)?;
    let text = broken.text.as_bytes();
    assert!(rt; text.len() <= MOST_BYTES);
    let Some(reason) = reason_of_trace(rt.alloc(), &plan, 1, text)? else {
        return Err(Fail::from("conforms"));
    };
    assert!(rt; reason.line == broken.line, "{}", broken.told);
    assert!(rt;
        reason.found == broken.found.map(str::as_bytes),
        "{}",
        broken.told
    );
    let told = reason.to_string(rt.alloc())?;
    assert!(rt; told.as_str() == broken.told, "{told}");
    Ok(())
}

#[test]
fn lines_with_their_newlines(rt: HostRuntime) -> Result<(), Fail> {
    for broken in BROKEN {
        breaks(&rt, broken)?;
    }
    Ok(())
}

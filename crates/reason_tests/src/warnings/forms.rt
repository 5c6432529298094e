//! What stands in a warning, in each form that a text has, and which lines are told.
use super::warnings_of;
use crate::plan_texts::plan_of;
use std::alloc::{AllocError, Global};
use std::process::Abort;
use std::test::Fail;

/// Tables that `tell_table` reads.
pub const TABLES: &str = "\
    plans without calls | version = 2 / \n\
    fine | \n\
    fine | block = []\n\
    fine | [[block]] / times = 2 / every = 5\n\
    \n\
    keys in other forms | version = 2 / [[block]] / [[block.call]] / op = \"shutdown\" / [[block.call]] / op = \"execute\" / \n\
    p:7: warning: block 1, call 2, name = \"a\": refused each time; block 1, call 1 shuts the executor down | 'name' = \"a\"\n\
    p: warning: block 1, call 2, name = \"a\": refused each time; block 1, call 1 shuts the executor down | \"n\\u0061me\" = \"\\u0061\"\n\
    \n\
    inline blocks | version = 2 / \n\
    p:2: warning: block 2, call 1, name = \"a-B_9\": refused each time; block 1, call 1 shuts the executor down | block = [{ call = [{ op = \"shutdown\" }] }, { call = [{ op = \"execute\", name = \"a-B_9\" }] }]";

/// Behind a comment that makes the text as long as one may be, this many short periods.
fn long_text(alloc: Global, count: usize) -> Result<String, AllocError> {
    let mut text = String::from_str(alloc, "version = 2\n#")?;
    for _line in 0..32_000usize {
        text.push_str("a comment of thirty-two letters.")?;
    }
    text.push_str("\n[[block]]\ncall = [\n")?;
    for number in 0..count {
        let call = format!(in alloc;
            "{{ op = \"rate\", name = \"t{number}\", first = 0, period = 5 }},\n"
        )?;
        text.push_str(call.as_str())?;
    }
    text.push_str("]\n")?;
    Ok(text)
}

#[test]
fn a_long_text_is_gone_over_for_16_lines(rt: HostRuntime) -> Result<(), Fail> {
    let text = long_text(rt.alloc(), 20)?;
    let plan = plan_of(rt.alloc(), text.as_str())?;
    let warnings = warnings_of(rt.alloc(), &plan, text.as_bytes())?;
    assert!(rt; warnings.len() == 20);
    let mut lines = 0usize;
    for warning in warnings.as_slice() {
        if warning.line.is_some() {
            lines = lines.saturating_add(1);
        }
    }
    assert!(rt; lines == 16, "{lines}");
    Ok(())
}

#[test]
fn names_of_files_are_escaped(rt: HostRuntime) -> Result<(), Fail> {
    let text =
        "version = 2\n[[block]]\ncall = [{ op = \"rate\", name = \"a\", first = 0, period = 0 }]\n";
    let plan = plan_of(rt.alloc(), text)?;
    let warnings = warnings_of(rt.alloc(), &plan, text.as_bytes())?;
    let warning = warnings.first().ok_or("no warning")?;
    let told = warning.in_file("a\nb.toml").to_string(rt.alloc())?;
    let wanted =
        "a\\nb.toml:3: warning: block 1, call 1, period = 0: not above 0; refused as illegal each time";
    assert!(rt; told.as_str() == wanted, "{told}");
    let told = warning.to_string(rt.alloc())?;
    let wanted = "block 1, call 1, period = 0: not above 0; refused as illegal each time";
    assert!(rt; told.as_str() == wanted, "{told}");
    Ok(())
}

#[test]
fn another_text_is_none_of_a_plan(rt: HostRuntime) -> Result<(), Fail> {
    let plan = plan_of(rt.alloc(), "version = 2\n")?;
    assert!(rt; warnings_of(rt.alloc(), &plan, b"version = ").is_err());
    assert!(rt; warnings_of(rt.alloc(), &plan, b"").is_ok());
    Ok(())
}

//! The example whose trace breaks, with the bytes of its files: `tools/examples` compares them.
use super::*;

#[test]
fn audit(rt: HostRuntime) -> Result<(), Fail> {
    let found = found_by(&rt, AUDIT_PLAN, 1, AUDIT_TRACE)?;
    assert!(rt; found == Finding::Breaks(4));
    Ok(())
}

const AUDIT_PLAN: &str = "\
# One task that runs every 10 nanoseconds, 10 after it is submitted. Line 4 of its
# trace breaks: `sched lint plan.toml --trace trace.txt --workers 1` says why.
version = 2

[[block]]

[[block.call]]
op = \"rate\"
name = \"beat\"
first = 10
first_unit = \"ns\"
period = 10
period_unit = \"ns\"
";

const AUDIT_TRACE: &str = "\
0 submit 0 rate due 10
25 clock
25 start 0 task 0 run 0 due 10
25 finish 0 task 0 run 0 again due 35
";

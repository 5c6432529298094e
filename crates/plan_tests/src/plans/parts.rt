//! What a plan keeps of its text.
use super::*;

/// A text, and what its plan keeps: a line for each block and each call.
#[derive(Clone, Copy)]
pub struct Kept<'a> {
    pub name: &'a str,
    pub text: &'a str,
    pub lines: &'a str,
}

pub const PARTS_OF_A_PLAN: Kept<'static> = Kept {
    name: "parts of a plan",
    text: "version = 1\n[[block]]\nat = 7\nunit = 'us'\ntimes = 2\nevery = 9\ncall = [\n\
           { op = 'rate', name = 'Az-_09', first = 4, period = 5, at = 2 },\n\
           { op = 'fixed', name = 'never', first = 6, delay = 0, at = 9 },\n]\n\
           [[block]]\nat = 1000000\n",
    lines: "block 7000 Us 2 9000\n2000 rate Az-_09 4000 5000\n9000 fixed never 6000 none\n\
            block 1000000 Ns 1 0\n",
};

const POLICIES_SHUTDOWNS_AND_QUESTIONS: Kept<'static> = Kept {
    name: "policies, shutdowns and questions",
    text: "version = 1\n[[block]]\nunit = 'us'\ncall = [\
           { op = 'policy', which = 'continue', value = true },\
           { op = 'policy', which = 'execute', value = false, at = 1 },\
           { op = 'policy', which = 'remove', value = true, at = 2 },\
           { op = 'shutdown', at = 2 }, { op = 'shutdown_now', at = 2 }, { op = 'ask', at = 3 }]",
    lines: "block 0 Us 1 0\n0 policy Continue true\n1000 policy Execute false\n\
            2000 policy Remove true\n2000 shutdown\n2000 shutdown_now\n3000 ask\n",
};

const TARGETS_OF_CANCELS: Kept<'static> = Kept {
    name: "targets of cancels",
    text: "version = 1\n[[block]]\ncall = [\
           { op = 'schedule', name = 'a', delay = 1 }, { op = 'rate', name = 'b', first = 1, period = 0 }]\n\
           [[block]]\ntimes = 2\nevery = 5\ncall = [\
           { op = 'schedule', name = 'c', delay = 1 }, { op = 'cancel', name = 'b' },\
           { op = 'fixed', name = 'd', first = 1, delay = 1 }, { op = 'execute', name = 'e', at = 3 },\
           { op = 'cancel', name = 'd', at = 5 }, { op = 'cancel', name = 'e', at = 5 }]",
    lines: "block 0 Ns 1 0\n0 schedule a 1\n0 rate b 1 none\n\
            block 0 Ns 2 5\n0 schedule c 1\n0 cancel 0 1\n0 fixed d 1 1\n3 execute e\n5 cancel 1 1\n5 cancel 1 2\n",
};

/// Texts, and what their plans keep.
const KEPT_PARTS: &[Kept<'_>] = &[
    PARTS_OF_A_PLAN,
    POLICIES_SHUTDOWNS_AND_QUESTIONS,
    TARGETS_OF_CANCELS,
    times::FOUR_UNITS,
    times::NANOSECONDS_BESIDE_UNITS,
];

/// Plans without calls, and times: the longest of each unit of version 1, and some in days. A row has what the plan keeps, ` | `, and
/// the text.
const KEPT: &str = r#" | version = 1
 | version = 1 / block = []
block 0 Ns 1 0 | version = 1 / [[block]]
block 0 Ns 1 0 / block 0 Ns 1 0 | version = 1 / [[block]] / call = [] / [[block]]
block 0 Ns 65536 4611686018427387904 | block = [{ call = [], times = 65536, every = 4611686018427387904 }] / version = 1
block 0 Ns 1 0 / 4611686018427387904 schedule a 4611686018427387904 | version = 1 / [[block]] / unit = "ns" / [[block.call]] / op = "schedule" / name = "a" / delay = 4611686018427387904 / at = 4611686018427387904
block 0 Us 1 0 / 4611686018427387000 schedule a 4611686018427387000 | version = 1 / [[block]] / unit = "us" / [[block.call]] / op = "schedule" / name = "a" / delay = 4611686018427387 / at = 4611686018427387
block 0 Ms 1 0 / 4611686018427000000 schedule a 4611686018427000000 | version = 1 / [[block]] / unit = "ms" / [[block.call]] / op = "schedule" / name = "a" / delay = 4611686018427 / at = 4611686018427
block 0 S 1 0 / 4611686018000000000 schedule a 4611686018000000000 | version = 1 / [[block]] / unit = "s" / [[block.call]] / op = "schedule" / name = "a" / delay = 4611686018 / at = 4611686018
block 0 S 1 0 / 0 schedule a 0 | version = 1 / [[block]] / unit = "s" / call = [{ op = "schedule", name = "a", delay = -9223372036854775808 }]
block 0 Ns 1 0 / 0 schedule a 4611600000000000000 | version = 2 / [[block]] / [[block.call]] / op = "schedule" / name = "a" / delay_unit = "d" / delay = 53375"#;

/// Checks the plan of a row of `KEPT`.
fn reads_row(rt: &(impl AllocGlobal + Abort), row: &str) -> Result<(), Fail> {
    let (lines, text) = row.split_once(" | ").ok_or("no text")?;
    let mut lines = spelled(rt.alloc(), lines)?;
    if !lines.is_empty() {
        lines.push('\n')?;
    }
    let text = spelled(rt.alloc(), text)?;
    reads(rt, row, text.as_str(), lines.as_str())
}

#[test]
fn keeps_each_part(rt: HostRuntime) -> Result<(), Fail> {
    for row in KEPT_PARTS {
        reads(&rt, row.name, row.text, row.lines)?;
    }
    for row in KEPT.lines() {
        reads_row(&rt, row)?;
    }
    Ok(())
}

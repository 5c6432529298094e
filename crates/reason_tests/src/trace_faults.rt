//! Tests of reasons, each kind of broken line.
mod conforming;
mod ends;
mod events;
mod memory;
mod places;
mod shown;
mod unreadable;
mod usage;
mod workers;

ghost use Rattle.std.specs.Prelude.{◌≤◌, length};
ghost use Rattle.trace_check.specs.Standing.{most_bytes};

use crate::plan_texts::plan_of;
use crate::tables::Tables;
use plan_read::Plan;
use std::alloc::{Allocator, Global};
use std::process::Abort;
use std::test::Fail;
use trace_check::{CheckError, MOST_BYTES};
use trace_reasons::TraceReason;

/// That of the crate. All tests find reasons through it: what it ensures is then looked at once.
fn reason_of_trace<'t, A: Allocator + Copy>(
    alloc: A,
    plan: &Plan<Global>,
    workers: u8,
    text: &'t [u8],
) -> Result<Option<TraceReason<'t, A>>, CheckError>
    requires { length text.now ≤ most_bytes }
{
    trace_reasons::reason_of_trace(alloc, plan, workers, text)
}

/// What is answered of a text in a file `p`, held against a plan with this many workers: `conforms`, or the reason in one line.
fn answered(
    rt: &(impl AllocGlobal + Abort),
    plan: &str,
    workers: u8,
    text: &[u8],
) -> Result<Result<String, CheckError>, Fail> {
    let plan = plan_of(rt.alloc(), plan)?;
    assert!(rt; text.len() <= MOST_BYTES);
    match reason_of_trace(rt.alloc(), &plan, workers, text) {
        Ok(None) => Ok(Ok(String::from_str(rt.alloc(), "conforms")?)),
        Ok(Some(reason)) => Ok(Ok(reason.in_file("p").to_string(rt.alloc())?)),
        Err(error) => Ok(Err(error)),
    }
}

/// What is told of a text in a file `p`, held against a plan with this many workers: `conforms`, or the reason in one line.
pub fn told(
    rt: &(impl AllocGlobal + Abort),
    plan: &str,
    workers: u8,
    text: &[u8],
) -> Result<String, Fail> {
    Ok(answered(rt, plan, workers, text)??)
}

/// All tables of texts of traces.
pub const TABLES: &[Tables] = &[
    Tables {
        plan: ONE_DELAY,
        workers: 1,
        tables: conforming::FRONTS,
    },
    Tables {
        plan: conforming::A_SHUTDOWN,
        workers: 1,
        tables: conforming::WANTING,
    },
    Tables {
        plan: ends::A_SWEEP,
        workers: 1,
        tables: ends::OF_A_SWEEP,
    },
    Tables {
        plan: ONE_DELAY,
        workers: 1,
        tables: ends::PAST_THE_LAST,
    },
    Tables {
        plan: ONE_DELAY,
        workers: 1,
        tables: events::OF_ONE_DELAY,
    },
    Tables {
        plan: A_RATE,
        workers: 1,
        tables: events::OF_A_RATE,
    },
    Tables {
        plan: events::A_KEPT_TASK,
        workers: 1,
        tables: events::OF_A_KEPT_TASK,
    },
    Tables {
        plan: ONE_DELAY,
        workers: 1,
        tables: shown::TABLES,
    },
    Tables {
        plan: ONE_DELAY,
        workers: 1,
        tables: unreadable::TABLES,
    },
    Tables {
        plan: A_RATE,
        workers: 1,
        tables: workers::OF_ONE,
    },
    Tables {
        plan: A_RATE,
        workers: 3,
        tables: workers::OF_THREE,
    },
];

/// A task that runs once, 5 nanoseconds later.
const ONE_DELAY: &str = "\
version = 1

[[block]]

[[block.call]]
op = \"schedule\"
name = \"a\"
delay = 5
";

/// A task that runs every 10 nanoseconds.
const A_RATE: &str = "\
version = 1

[[block]]
call = [
  { op = \"rate\", name = \"a\", first = 10, period = 10 },
]
";

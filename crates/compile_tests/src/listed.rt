//! The lines of the tasks of plans, and what is told where they are not written.
mod memory;
mod plans;
mod usage;
mod writers;

use byte_ends::{Sink, Writing};
use heap_allocator::HeapAllocator;
use plan_list::write_tasks;
use plan_read::{PlanFault, PlanFaultKind};
use sched_engine::RunError;
use std::alloc::Global;
use std::process::Abort;
use std::test::Fail;

/// A plan with each kind of submission, and calls that are none. Its block is made twice, and so is a second one.
pub const EACH_KIND: &str = "\
version = 1

[[block]]
at = 100
times = 2
every = 10
call = [
  { op = \"schedule\", name = \"once\", delay = 50 },
  { at = 1, op = \"ask\" },
  { at = 2, op = \"execute\", name = \"at-once\" },
  { at = 3, op = \"rate\", name = \"by_rate\", first = 4, period = 5 },
  { at = 4, op = \"cancel\", name = \"once\" },
  { at = 5, op = \"fixed\", name = \"F\", first = 6, delay = 7 },
]

[[block]]
at = 200
call = [
  { op = \"rate\", name = \"never\", first = 1, period = 0 },
  { op = \"shutdown\" },
  { at = 1, op = \"fixed\", name = \"nor-this\", first = 1, delay = -1 },
]
";

/// Its tasks.
const ITS_TASKS: &str = "\
0 once schedule submitted 100 due 150
1 at-once schedule submitted 102 due 102
2 by_rate rate submitted 103 due 107
3 F fixed submitted 105 due 111
4 once schedule submitted 110 due 160
5 at-once schedule submitted 112 due 112
6 by_rate rate submitted 113 due 117
7 F fixed submitted 115 due 121
8 never rate submitted 200 refused illegal
9 nor-this fixed submitted 201 refused illegal
";

/// Writes the tasks of a plan. All tests do it through this: what it ensures is then looked at once.
fn write<A: HeapAllocator, W: Sink>(alloc: A, plan: &str, writer: &mut W) -> Result<(), RunError> {
    Ok(write_tasks(alloc, plan.as_bytes(), writer)?)
}

/// What the writing of a plan's tasks answered, and what it wrote.
fn written(alloc: Global, plan: &str) -> (Result<(), RunError>, Vec<u8>) {
    let mut writer = Writing::new(Vec::new(alloc));
    let answer = write(alloc, plan, &mut writer);
    (answer, writer.into_inner())
}

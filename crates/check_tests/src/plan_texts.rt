//! Plans of texts, and their codes. Tests make both through here: what the calls ensure is then looked at once.

use plan_read::{Plan, PlanFault};
use queue_code::Code;
use std::alloc::Global;
use std::test::Fail;

/// That of `plan_read`.
pub fn read_plan(alloc: Global, text: &[u8]) -> Result<Plan<Global>, PlanFault> {
    plan_read::read_plan(alloc, text)
}

/// The plan that a text writes.
pub fn plan_of(alloc: Global, text: &str) -> Result<Plan<Global>, Fail> {
    Ok(read_plan(alloc, text.as_bytes())?)
}

/// The code of a plan.
pub fn code_of(alloc: Global, plan: &Plan<Global>) -> Result<Code<Global>, Fail> {
    Ok(plan_compile::compile(alloc, plan)?)
}

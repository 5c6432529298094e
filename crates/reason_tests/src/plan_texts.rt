//! Plans of texts.

use plan_read::{Plan, read_plan};
use std::alloc::Global;
use std::test::Fail;

/// The plan that a text writes. Tests read their plans through it: what `read_plan` ensures is then looked at once.
pub fn plan_of(alloc: Global, text: &str) -> Result<Plan<Global>, Fail> {
    Ok(read_plan(alloc, text.as_bytes())?)
}

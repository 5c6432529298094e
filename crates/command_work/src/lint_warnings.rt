//! The lines that tell what is odd of a plan.

ghost use Rattle.std.specs.Prelude.{IfOk, length};
ghost use Rattle.command_work.specs.Linting.{AreWarned};

use crate::refusal::Refusal;
use plan_read::Plan;
use plan_warnings::warnings_of;
use std::alloc::{AllocError, Global};

/// A line for each warning of the plan that the text of a file writes, in the order of the text. `Err` is want of memory.
pub fn warning_lines(
    heap: Global,
    name: &str,
    plan: &Plan<Global>,
    text: &[u8],
) -> Result<Vec<Refusal>, AllocError>
    ensures told { IfOk result (λ lines. AreWarned text.now plan.now (length lines.items)) }
{
    let warnings = warnings_of(heap, plan, text)?;
    let mut lines = Vec::new(heap);
    for warning in &warnings {
        lines.push(Refusal::of(heap, &warning.in_file(name))?)?;
    }
    Ok(lines)
}

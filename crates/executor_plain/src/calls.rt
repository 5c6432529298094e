//! The calls of a code, written out.
ghost use Rattle.std.specs.Prelude.{◌≡◌, IfOk};
ghost use Rattle.queue_code.specs.Codes.{calls_of};

use queue_code::{Code, CodeCall, Cursor};
use std::alloc::{AllocError, Allocator};

/// The calls that a code makes, one after the other, each with its moment in nanoseconds. `Err` is want of memory.
pub fn planned_calls<A: Allocator + Copy>(
    alloc: A,
    code: &Code<A>,
) -> Result<Vec<(u64, CodeCall), A>, AllocError>
    ensures { IfOk result (λ calls. calls.items ≡ calls_of code.now) }
{
    let mut calls = Vec::new(alloc);
    let mut cursor = Cursor::new(code);
    while let Some(planned) = cursor.fetch(code) {
        calls.push(planned)?;
    }
    Ok(calls)
}

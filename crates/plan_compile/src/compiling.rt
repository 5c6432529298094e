//! The code of a plan.

ghost use Rattle.std.specs.Prelude.{◌≡◌, IfOk};
ghost use Rattle.std.specs.List.{All};
ghost use Rattle.queue_code.specs.Codes.{calls_of as code_calls};
ghost use Rattle.plan_compile.specs.PlanCalls.{calls_of_plan};
ghost use Rattle.plan_compile.specs.PlanCode.{instrs_of, HasNoZeroPeriod};

use crate::emitting::emit;
use crate::fault::CompileFault;
use plan_read::Plan;
use queue_code::{Code, CodeFault};
use std::alloc::Allocator;

/// The code of a plan: it makes the plan's calls, with their moments in nanoseconds and their numbers, and a block
/// that is repeated stands in it once, as a loop. Each period and each fixed delay of its submissions is at least 1
/// nanosecond.
///
/// The only error is [`CompileFault::Memory`], where the allocator refused memory; what was begun is dropped then.
///
/// ```rust
/// let text = b"version = 2\n[[block]]\nat = 5\n[[block.call]]\nop = \"ask\"\n";
/// let code = compile(alloc, &read_plan(alloc, text)?)?;
/// assert_eq!(rt; (code.calls(), code.tasks()), (1, 0));
/// let mut cursor = Cursor::new(&code);
/// assert_eq!(rt; cursor.fetch(&code), Some((5, CodeCall::Ask)));
/// assert_eq!(rt; cursor.fetch(&code), None);
/// ```
pub fn compile<A: Allocator + Copy, B: Allocator>(
    alloc: A,
    plan: &Plan<B>,
) -> Result<Code<A>, CompileFault>
    ensures calls { IfOk result (λ code. code_calls code ≡ calls_of_plan plan.now) }
    ensures code { IfOk result (λ code. code ≡ instrs_of plan.now) }
    ensures periods { IfOk result (λ code. All HasNoZeroPeriod code) }
{
    let instrs = emit(alloc, plan.blocks())?;
    match Code::check(alloc, instrs) {
        Ok(code) => Ok(code),
        Err(fault) => Err(want_of_memory(fault)),
    }
}

/// The only fault that the code of a plan may meet.
fn want_of_memory(fault: CodeFault) -> CompileFault
    requires { fault ≡ CodeFault.Memory }
{
    match fault {
        CodeFault::Memory => CompileFault::Memory,
        _ => unreachable!(),
    }
}

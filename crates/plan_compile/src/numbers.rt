//! The numbers of submissions.

ghost use Rattle.std.specs.Prelude.{◌≡◌, ◌≤◌};
ghost use Rattle.queue_code.specs.Calls.{most_calls_of_code};
ghost use Rattle.plan_read.specs.Plans.{tasks_after};
ghost use Rattle.plan_compile.specs.PlanCalls.{target_number};

use plan_read::{Op, Target};

/// The number of a cancel's target, where `firsts` has the first number of each block before the
/// cancel's own, and its own iteration begins with the number `start`.
pub fn target_number(firsts: &[u32], start: u32, target: Target) -> u32
    requires { target_number firsts.now start target ≤ most_calls_of_code }
    ensures { result ≡ target_number firsts.now start target }
{
    let first = firsts.get(target.block).copied().unwrap_or(start);
    first + target.sub as u32
}

/// How many submissions there are up to and with an operation.
pub fn tasks_after(task: u32, op: &Op) -> u32
    requires { task ≤ most_calls_of_code }
    ensures { result ≡ tasks_after task op.now }
{
    if op.is_submission() { task + 1 } else { task }
}

//! The instructions of a plan's operations.

ghost use Rattle.std.specs.Prelude.{◌≡◌, ◌≤◌};
ghost use Rattle.sched_time.specs.Times.{longest};
ghost use Rattle.queue_code.specs.Calls.{most_calls_of_code};
ghost use Rattle.plan_compile.specs.PlanCalls.{target_number};
ghost use Rattle.plan_compile.specs.PlanCode.{cancel_instr, instr_of};
ghost use Rattle.plan_compile.specs.own.PlanCode.{IsBelow};

use crate::numbers::target_number;
use plan_read::{Op, Target};
use queue_code::Instr;
use sched_time::Timing;

/// The instruction of an operation at an offset from the beginning of the code, in a block that is `repeated` or
/// not and begins with the number `first`, where `firsts` has the first number of each block before it.
///
/// A submission with a period, or a fixed delay, that is zero or negative is an illegal one. An `execute` is the
/// submission that a `schedule` with delay 0 is, as the Java documentation of `ScheduledThreadPoolExecutor.execute` has it.
pub fn instr_of(firsts: &[u32], first: u32, repeated: bool, offset: u64, op: &Op) -> Instr
    requires offset { offset ≤ longest }
    requires target { IsBelow firsts.now first most_calls_of_code op.now }
    ensures { result ≡ instr_of firsts.now first repeated offset op.now }
{
    match op {
        Op::Schedule { delay, .. } => Instr::Submit(offset, Timing::Once, delay.nanos()),
        Op::Execute { .. } => Instr::Submit(offset, Timing::Once, 0),
        Op::Rate {
            first: delay,
            period: Some(period),
            ..
        } => Instr::Submit(offset, Timing::Rate(*period), delay.nanos()),
        Op::Fixed {
            first: delay,
            delay: Some(gap),
            ..
        } => Instr::Submit(offset, Timing::Fixed(*gap), delay.nanos()),
        Op::Rate { period: None, .. } | Op::Fixed { delay: None, .. } => Instr::Illegal(offset),
        Op::Cancel(target) => cancel_instr(firsts, first, repeated, offset, *target),
        Op::Policy { which, value } => Instr::SetPolicy(offset, *which, *value),
        Op::Shutdown => Instr::Shutdown(offset),
        Op::ShutdownNow => Instr::ShutdownNow(offset),
        Op::Ask => Instr::Ask(offset),
    }
}

/// The instruction of a cancel: in a repeated block, a submission of the same iteration is named by its place in it,
/// and every other one by its number in the plan.
fn cancel_instr(firsts: &[u32], first: u32, repeated: bool, offset: u64, target: Target) -> Instr
    requires { target_number firsts.now first target ≤ most_calls_of_code }
    ensures { result ≡ cancel_instr firsts.now first repeated offset target }
{
    let is_own = firsts.get(target.block).is_none();
    if repeated && is_own {
        Instr::CancelHere(offset, target.sub as u32)
    } else {
        Instr::CancelFixed(offset, target_number(firsts, first, target))
    }
}

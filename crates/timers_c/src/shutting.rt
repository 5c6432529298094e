//! The calls that set a policy, shut the timers down, or ask.
ghost use Rattle.std.specs.Prelude.{◌≡◌, IfSome, IsNone};
ghost use Rattle.timers_c.specs.Calls.{holding, IsNoPolicy, IsPolicy, TakesAsk, TakesPolicy, TakesShutdown, TakesShutdownNow};

use crate::slot::Slot;
use crate::state::{Counts, bool_number};
use crate::status::Status;
use sched_time::Which;
use std::alloc::Global;

/// Sets the policy of a number.
pub fn set_policy(alloc: Global, slot: &mut Slot, now: u64, policy: u32, value: bool) -> Status
    ensures { TakesPolicy result now policy value (holding slot.old.full slot.old.held.value)
        (holding slot.new.full slot.new.held.value) }
{
    if !slot.full {
        return Status::NoTimers;
    }
    let Some(which) = policy_of(policy) else {
        return Status::Illegal;
    };
    let Some(mut session) = slot.take(alloc) else {
        return Status::NoTimers;
    };
    let set = session.set_policy(now, which, value).is_ok();
    slot.put(session);
    if set { Status::Done } else { Status::TooFar }
}

/// The policy of a number, and `None` where there is none.
fn policy_of(number: u32) -> Option<Which>
    ensures there { IfSome result (λ which. IsPolicy number which) }
    ensures none { IsNone result → IsNoPolicy number }
{
    match number {
        0 => Some(Which::Continue),
        1 => Some(Which::Execute),
        2 => Some(Which::Remove),
        _ => None,
    }
}

/// Shuts the timers down in order.
pub fn shut_down(alloc: Global, slot: &mut Slot, now: u64, first: &mut u32) -> Status
    ensures { TakesShutdown result now first.new (holding slot.old.full slot.old.held.value)
        (holding slot.new.full slot.new.held.value) }
{
    *first = 0;
    let Some(mut session) = slot.take(alloc) else {
        return Status::NoTimers;
    };
    let shut = session.shut_down(now);
    slot.put(session);
    match shut {
        Ok(is_first) => {
            *first = bool_number(is_first);
            Status::Done
        }
        Err(_) => Status::TooFar,
    }
}

/// Shuts the timers down at once.
pub fn shut_down_now(alloc: Global, slot: &mut Slot, now: u64) -> Status
    ensures { TakesShutdownNow result now (holding slot.old.full slot.old.held.value)
        (holding slot.new.full slot.new.held.value) }
{
    let Some(mut session) = slot.take(alloc) else {
        return Status::NoTimers;
    };
    let shut = session.shut_down_now(now).is_ok();
    slot.put(session);
    if shut { Status::Done } else { Status::TooFar }
}

/// Asks how many tasks there are, by a call.
pub fn ask(alloc: Global, slot: &mut Slot, now: u64, counts: &mut Counts) -> Status
    ensures { TakesAsk result now counts.new (holding slot.old.full slot.old.held.value)
        (holding slot.new.full slot.new.held.value) }
{
    *counts = Counts::none();
    let Some(mut session) = slot.take(alloc) else {
        return Status::NoTimers;
    };
    let asked = session.ask(now);
    slot.put(session);
    match asked {
        Ok(asked) => {
            *counts = Counts::of(asked);
            Status::Done
        }
        Err(_) => Status::TooFar,
    }
}

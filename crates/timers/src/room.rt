//! Room for one more task, and for its data.
ghost use Rattle.std.specs.Prelude.{◌≡◌, ◌<◌, ◌^◌, length, false, OnOk, OnErr};
ghost use Rattle.live_core.specs.Said.{AreTaken};
ghost use Rattle.timers.specs.Calls.{IsHalfMore};
ghost use Rattle.timers.specs.own.Rooms.{Grows, MakesRoom, seen};

use live_core::ScheduledExecutor;
use std::alloc::{AllocError, Allocator};

/// Makes room for one more task, where the executor is not shut. Where each slot holds a task, there are half as many slots more
/// then, and four.
///
/// # Errors
///
/// `AllocError` where each slot holds a task, and memory for more is refused, or there are 2^30 slots: nothing has changed then.
pub(crate) fn make_room<A: Allocator>(
    executor: &mut ScheduledExecutor<A>,
    user_data: &mut Vec<u64, A>,
) -> Result<(), AllocError>
    requires size { length user_data.old.items ≡ length executor.old.table.slots }
    requires unshut { executor.old.table.shut ≡ false }
    ensures size { length user_data.new.items ≡ length executor.new.table.slots }
    ensures made { MakesRoom (seen executor.old user_data.old.items)
        (seen executor.new user_data.new.items) }
    ensures room { OnOk result (AreTaken executor.new.table.slots → ⊥) }
    ensures full { OnErr result (AreTaken executor.old.table.slots) }
    ensures executor { OnErr result (executor.new ≡ executor.old) }
    ensures user_data { OnErr result (user_data.new.items ≡ user_data.old.items) }
{
    let slots = user_data.len();
    if executor.len() < slots {
        return Ok(());
    }
    if slots >= 1073741824 {
        return Err(AllocError);
    }
    grow(executor, user_data, half_more(slots as u32))
}

/// Half as many slots more, and four.
fn half_more(slots: u32) -> u32
    requires { slots < 2 ^ 30 }
    ensures { IsHalfMore slots result }
{
    slots + slots / 2 + 4
}

/// Makes room for so many slots in all.
pub(crate) fn grow<A: Allocator>(
    executor: &mut ScheduledExecutor<A>,
    user_data: &mut Vec<u64, A>,
    slots: u32,
) -> Result<(), AllocError>
    requires size { length user_data.old.items ≡ length executor.old.table.slots }
    requires more { length executor.old.table.slots < slots }
    ensures size { length user_data.new.items ≡ length executor.new.table.slots }
    ensures grown { OnOk result
        (Grows (seen executor.old user_data.old.items) (seen executor.new user_data.new.items)
        slots) }
    ensures executor { OnErr result (executor.new ≡ executor.old) }
    ensures user_data { OnErr result (user_data.new.items ≡ user_data.old.items) }
{
    let before = user_data.len();
    user_data.resize(slots as usize, 0)?;
    if executor.reserve(slots).is_err() {
        user_data.truncate(before);
        return Err(AllocError);
    }
    Ok(())
}

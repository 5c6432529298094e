//! Room for tasks, made ahead.
ghost use Rattle.std.specs.Prelude.{◌≡◌, ◌≤◌, List, length, IsOk, IfErr, OnOk, OnErr};
ghost use Rattle.queue_code.specs.Calls.{Planned};
ghost use Rattle.executor_model.specs.Histories.{HistoryEntry};
ghost use Rattle.live_core.specs.declared.error.CallError.TheVariants as call_error;

use crate::error::CallError;
use crate::executor::ScheduledExecutor;
use crate::room::grow;
use std::alloc::Allocator;

impl<A: Allocator> ScheduledExecutor<A> {
    ghost use Rattle.task_table.specs.Changes.{grown};
    ghost use Rattle.live_core.specs.Lives.{Stands};

    /// Makes at least so many slots, so that no submission needs memory while fewer tasks than that have one. It is no call.
    ///
    /// # Errors
    ///
    /// [`CallError::Memory`] where memory is refused: nothing has changed then.
    pub fn reserve(&mut self, tasks: u32) -> Result<(), CallError>
        ensures made { OnOk result
            (self.new ≡ record self.old { table = grown self.old.table tasks }) }
        ensures stands { (calls : List Planned) (past : List HistoryEntry)
            → Stands self.old calls past → Stands self.new calls past }
        ensures roomy { tasks ≤ length self.old.table.slots → IsOk result }
        ensures refused { OnErr result (self.new ≡ self.old) }
        ensures failed { IfErr result (λ error. error ≡ call_error.Memory) }
    {
        if self.table.slots() >= tasks as usize {
            return Ok(());
        }
        match grow(
            &mut self.table,
            &mut self.notes,
            &mut self.ended,
            self.count,
            tasks,
        ) {
            Ok(()) => Ok(()),
            Err(_) => Err(CallError::Memory),
        }
    }
}

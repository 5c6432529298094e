//! What is written of an executor.
ghost use Rattle.std.specs.Prelude.{◌≡◌, IfOk};
ghost use Rattle.task_table.specs.Images as images;

use crate::executor::ScheduledExecutor;
use crate::frame::ExecutorFrame;
use std::alloc::{AllocError, Allocator};
use task_table::Image;

impl<A: Allocator> ScheduledExecutor<A> {
    ghost use Rattle.live_core.specs.Empties.{held_numbers, AreEmpty};
    ghost use Rattle.live_core.specs.Snapshots.{HasFrame};

    /// What is written of the executor beside its tasks and its empty slots.
    pub fn frame(&self) -> ExecutorFrame
        ensures { HasFrame self.now result }
    {
        ExecutorFrame {
            table: self.table.frame(),
            earliest: self.earliest,
            count: self.count,
            accepted: self.accepted,
        }
    }

    /// What is written of the tasks in slots, ascending by number.
    ///
    /// # Errors
    ///
    /// `AllocError` where `alloc` refuses the memory for it.
    pub fn images<B: Allocator>(&self, alloc: B) -> Result<Vec<Image, B>, AllocError>
        ensures { IfOk result (λ v. images.AreImages self.now.table v.items) }
    {
        let tasks = self.len();
        self.notes.images(&self.table, tasks, alloc)
    }

    /// The empty slots. The last one is that of the next task that is accepted, and each slot that is emptied comes behind it.
    pub fn empty_slots(&self) -> &[u32]
        ensures { AreEmpty (held_numbers self.now.table.slots) result.now }
    {
        self.notes.empty_slots()
    }
}

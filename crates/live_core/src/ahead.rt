//! What can be told of a worker and of a task, ahead of a call or an event.
ghost use Rattle.std.specs.Prelude.{◌≡◌, IfSome, IfNone};

use crate::executor::ScheduledExecutor;
use crate::finding::slot_of_task;
use executor_model::EventError;
use std::alloc::Allocator;
use task_table::{Seat, TaskRef};

impl<A: Allocator> ScheduledExecutor<A> {
    ghost use Rattle.task_table.specs.Runs.{IsFree, IsStartError};
    ghost use Rattle.live_core.specs.Said.{is_there, TellsTask};

    /// Why a start by this worker would be refused: there is no such worker, or it has a run under way. `None` where it has none.
    pub fn start_error(&self, worker: u8) -> Option<EventError>
        ensures free { IfNone result (IsFree self.now.table worker) }
        ensures refused { IfSome result (λ error. IsStartError self.now.table worker error) }
    {
        self.table.start_error(worker)
    }

    /// Whether the slot of a task holds it: it waits or is kept, or its run is under way.
    pub fn holds(&self, task: TaskRef) -> bool
        ensures { result ≡ is_there self.now.table task }
    {
        match self.table.seat(task.slot) {
            Some(seat) => seat.number == task.number,
            None => false,
        }
    }

    /// How far a task is that waits or is kept in the queue, or whose run is under way, and `None` of each other one. The task is
    /// the one of the number, whatever the slot.
    pub fn seat_of(&self, task: TaskRef) -> Option<Seat>
        ensures history { TellsTask self.now task.number result }
        ensures named { IfSome result (λ seat. seat.number ≡ task.number) }
    {
        let Some(slot) = slot_of_task(&self.table, &self.notes, task) else {
            return None;
        };
        self.table.seat(slot)
    }
}

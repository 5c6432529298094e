//! The table of a plan's tasks.
ghost use Rattle.std.specs.Prelude.{◌≡◌, List, [], length, replicate, None, IfOk};
ghost use Rattle.queue_code.specs.Calls.{Planned, IsOrderly};
ghost use Rattle.executor_model.specs.Counts.{IsWorkerCount};
ghost use Rattle.task_table.specs.Tables.{workers_of, Stands};

use crate::plan_table::queue::PlanQueue;
use crate::plan_table::tasks::Tasks;
use std::alloc::{AllocError, Allocator};
use task_table::Table;

/// A table in which each task of a plan has the slot of its number.
pub type PlanTable<A> = Table<Tasks<A>, PlanQueue<A>, A>;

/// A table before anything happened, for a plan of this many tasks and for 1 to 64 workers. All memory that it ever needs is
/// taken here.
///
/// # Errors
///
/// `AllocError` where `alloc` refuses the memory.
pub fn plan_table<A: Allocator + Copy>(
    alloc: A,
    tasks: u32,
    workers: u8,
) -> Result<PlanTable<A>, AllocError>
    requires { IsWorkerCount workers }
    ensures slots { IfOk result (λ table. table.slots ≡ replicate tasks None) }
    ensures workers { IfOk result (λ table. workers_of table ≡ workers) }
    ensures stands { IfOk result (λ table. Stands table [] []) }
    ensures opening { IfOk result
        (λ table. (calls : List Planned) → IsOrderly calls → Stands table calls []) }
{
    let slots = Tasks::new(alloc, tasks)?;
    let queue = PlanQueue::new(alloc, tasks)?;
    let kept = PlanQueue::new(alloc, tasks)?;
    let work = Vec::from_elem(alloc, None, workers as usize)?;
    Ok(Table::with(slots, queue, kept, work))
}

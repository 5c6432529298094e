//! What is so of each executor, in functions that do nothing: each ensures a law.
ghost use Rattle.std.specs.Prelude.{◌≡◌, ℕ, ◌++◌, ◌∷◌, [], List};
ghost use Rattle.queue_code.specs.Calls.{Planned};
ghost use Rattle.executor_model.specs.Answers.{Reply};
ghost use Rattle.executor_model.specs.Histories.{HistoryEntry, entry_of};
ghost use Rattle.executor_model.specs.declared.types.Happening as happenings;
ghost use Rattle.executor_model.specs.declared.types.Happening.TheVariants as happening;
ghost use Rattle.task_table.specs.declared.image.Image as pictures;
ghost use Rattle.task_table.specs.Tables.{workers_of};
ghost use Rattle.live_core.specs.declared.frame.ExecutorFrame as frames;
ghost use Rattle.live_core.specs.Lives.{LiveView, Stands, Calls, Happens, moment_of_call};
ghost use Rattle.live_core.specs.Snapshots.{IsSound, IsWritten};

use crate::executor::ScheduledExecutor;
use std::alloc::Allocator;
use task_table::each_table_is_formed;

/// Each executor is sound, whatever led to it.
pub fn each_executor_is_sound<A: Allocator>(executor: &ScheduledExecutor<A>)
    ensures { IsSound executor.now }
{
    each_table_is_formed(&executor.table);
}

/// What is written of an executor is written of no other one, but for the tasks that the last happening ended. So where the one
/// stands the other one does.
pub fn what_is_written_is_of_one_executor()
    ensures one { (m n : LiveView) (frame : frames.ExecutorFrame) (tasks : List pictures.Image)
        (empty : List ℕ) → IsWritten m frame tasks empty → IsWritten n frame tasks empty
        → n ≡ record m { ended = n.ended } }
    ensures stands { (m n : LiveView) (frame : frames.ExecutorFrame) (tasks : List pictures.Image)
        (empty : List ℕ) → IsWritten m frame tasks empty → IsWritten n frame tasks empty
        → (calls : List Planned) (past : List HistoryEntry) → Stands m calls past
        → Stands n calls past }
{}

/// Two executors that stand where one history leads answer the call that comes next alike, and the event, and stand where one
/// history leads again, as long as neither has another number of workers.
pub fn one_history_answers_alike()
    ensures calls { (m n new other : LiveView) (p : Planned) (r s : Reply) (calls : List Planned)
        (past : List HistoryEntry) → Stands m calls past → Stands n calls past
        → workers_of new.table ≡ workers_of other.table → Calls m new p r → Calls n other p s
        → (r ≡ s) × Stands new (calls ++ p ∷ []) (entry_of happening.Call r ∷ past)
        × Stands other (calls ++ p ∷ []) (entry_of happening.Call r ∷ past) }
    ensures events { (m n new other : LiveView) (y : happenings.Happening) (r s : Reply)
        (calls : List Planned) (past : List HistoryEntry) → Stands m calls past
        → Stands n calls past → workers_of new.table ≡ workers_of other.table → Happens m new y r
        → Happens n other y s
        → (r ≡ s) × Stands new calls (entry_of y r ∷ past)
        × Stands other calls (entry_of y r ∷ past) }
{}

/// Two executors of as many workers that stand where one history leads have given out as many numbers, and make a call that comes
/// next at one moment.
pub fn one_history_tells_alike()
    ensures count { (m n : LiveView) (calls : List Planned) (past : List HistoryEntry)
        → Stands m calls past → Stands n calls past → m.count ≡ n.count }
    ensures moment { (m n : LiveView) (calls : List Planned) (past : List HistoryEntry) (at : ℕ)
        → Stands m calls past → Stands n calls past → workers_of m.table ≡ workers_of n.table
        → moment_of_call m at ≡ moment_of_call n at }
{}

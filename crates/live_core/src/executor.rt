//! The executor, and what it tells.
ghost use Rattle.std.specs.Prelude.{◌≡◌, ℕ, ◌≤◌, List, [], true, false, IfOk, IfErr, OnOk};
ghost use Rattle.sched_time.specs.Times.{longest};
ghost use Rattle.executor_model.specs.Counts.{IsLiveWorkerCount};

use crate::error::MakeError;
use crate::finding::slot_of_task;
use crate::notes::Notes;
use executor_model::Stage;
use std::alloc::Allocator;
use std::marker::Model;
use task_table::{TaskRef, TaskTable};

/// An executor whose calls are made while it runs.
///
/// A contract sees it as a [`LiveView`](../../specs/Lives.antt): its table of tasks, how many numbers were given out, of how many
/// the submission was accepted, the least moment of the call that comes next, and the tasks that the last happening ended.
#[derive(Drop)]
pub struct ScheduledExecutor<A: Allocator> {
    pub(crate) table: TaskTable<A>,
    pub(crate) notes: Notes<A>,
    pub(crate) ended: Vec<TaskRef, A>,
    pub(crate) count: u64,
    pub(crate) accepted: u64,
    pub(crate) earliest: u64,
}

impl<A: Allocator> Model for ScheduledExecutor<A> {
    ghost use Rattle.std.specs.Prelude.{vec_capacity};
    ghost use Rattle.live_core.specs.Lives.{LiveView};
    ghost use Rattle.live_core.specs.own.Formed.{IsLive};

    ghost Value = { LiveView };

    ghost view = { λ e. record { table = e.table; count = e.count; accepted = e.accepted; earliest = e.earliest; ended = e.ended.items } };

    ghost invariant = { λ e. IsLive (record { table = e.table; count = e.count; accepted = e.accepted; earliest = e.earliest; ended = e.ended.items }) e.notes.free e.notes.entries e.notes.slot_room (vec_capacity e.ended) };
}

impl<A: Allocator> ScheduledExecutor<A> {
    ghost use Rattle.task_table.specs.Tables.{workers_of};
    ghost use Rattle.live_core.specs.Lives.{Stands};
    ghost use Rattle.live_core.specs.Said.{AreTaken, IsMakeError, TellsWaiting, tasks_in, alive_in, is_waiting_there};
    ghost use Rattle.std.specs.Option.{option_map_or};
    ghost use Rattle.task_table.specs.Seats.{task_in, slot_of, waits};

    /// An executor before anything happened, for 1 to 255 workers, which `alloc` gives its memory.
    ///
    /// # Errors
    ///
    /// [`MakeError::Workers`] where there are none; [`MakeError::Memory`] where `alloc` refuses the memory for
    /// them.
    pub fn new(alloc: A, workers: u8) -> Result<ScheduledExecutor<A>, MakeError>
    where
        A: Copy,
        ensures stands { IfOk result (λ e. Stands e [] []) }
        ensures workers { IfOk result (λ e. workers_of e.table ≡ workers) }
        ensures first { IfOk result (λ e. e.count ≡ 0) }
        ensures slots { IfOk result (λ e. e.table.slots ≡ []) }
        ensures earliest { IfOk result (λ e. e.earliest ≡ 0) }
        ensures ended { IfOk result (λ e. e.ended ≡ []) }
        ensures range { OnOk result (IsLiveWorkerCount workers) }
        ensures failed { IfErr result (λ error. IsMakeError workers error) }
    {
        if workers == 0 {
            return Err(MakeError::Workers);
        }
        let Ok(table) = TaskTable::new(alloc, workers) else {
            return Err(MakeError::Memory);
        };
        Ok(ScheduledExecutor {
            table,
            notes: Notes::new(alloc),
            ended: Vec::new(alloc),
            count: 0,
            accepted: 0,
            earliest: 0,
        })
    }

    /// The moment, 0 to 2^62 nanoseconds: the greatest of the accepted clocks and the calls made.
    pub fn now(&self) -> u64
        ensures value { result ≡ self.now.table.moment }
        ensures limit { result ≤ longest }
    {
        self.table.now()
    }

    /// How many numbers were given out: one to each submission, whether it was accepted or not.
    pub fn numbers(&self) -> u64
        ensures { result ≡ self.now.count }
    {
        self.count
    }

    /// How many tasks have a slot: those that wait or are kept, and those whose run is under way, and no others.
    pub fn len(&self) -> usize
        ensures tasks { result ≡ tasks_in self.now.table.slots }
        ensures alive { result ≡ alive_in self.now.table.slots }
    {
        self.table.slots() - self.notes.free_slots()
    }

    /// Whether each slot holds a task: the next submission that is accepted makes more slots then.
    pub fn is_full(&self) -> bool
        ensures full { result ≡ true → AreTaken self.now.table.slots }
        ensures room { result ≡ false → AreTaken self.now.table.slots → ⊥ }
    {
        self.notes.free_slots() == 0
    }

    /// Whether a task waits for a run. The task is the one of the number, whatever the slot.
    pub fn is_waiting(&self, task: TaskRef) -> bool
        ensures history { TellsWaiting self.now task.number result }
        ensures there { is_waiting_there self.now.table task ≡ true → result ≡ true }
    {
        match slot_of_task(&self.table, &self.notes, task) {
            Some(slot) => self.waits_in(slot),
            None => false,
        }
    }

    /// Whether a slot holds a task that waits for a run.
    fn waits_in(&self, slot: u32) -> bool
        ensures { result
            ≡ option_map_or (λ x. waits (task_in x)) (slot_of self.now.table.slots slot) false }
    {
        match self.table.seat(slot) {
            Some(seat) => !seat.cancelled && matches!(seat.phase, Stage::Waiting),
            None => false,
        }
    }

    /// The tasks that the last call or event ended as it swept the queue, by their numbers, ascending: not the one whose run was
    /// finished.
    pub fn ended(&self) -> &[TaskRef]
        ensures { result.now ≡ self.now.ended }
    {
        &self.ended
    }
}

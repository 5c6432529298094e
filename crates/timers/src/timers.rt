//! The timers, and what they tell.
ghost use Rattle.std.specs.Prelude.{◌≡◌, ◌<◌, ◌≤◌, ◌==◌, ◌&&◌, [], true, false, IfOk, IfErr, IfSome, IfNone, OnOk, OnErr, IsOk, length, slice_index_or};
ghost use Rattle.sched_time.specs.Times.{longest};
ghost use Rattle.executor_model.specs.Counts.{IsLiveWorkerCount};

use live_core::{MakeError, ScheduledExecutor, TaskRef};
use sched_time::Policies;
use std::alloc::Allocator;
use std::marker::Model;
use task_table::Seat;

/// An executor, with a `u64` of the caller's for each task.
///
/// A contract sees it as a [`TimersView`](../../specs/Timers.antt): the executor, and the data in each slot.
#[derive(Drop)]
pub struct Timers<A: Allocator> {
    pub(crate) executor: ScheduledExecutor<A>,
    /// By slot.
    pub(crate) user_data: Vec<u64, A>,
}

impl<A: Allocator> Model for Timers<A> {
    ghost use Rattle.timers.specs.Timers.{TimersView};
    ghost use Rattle.timers.specs.own.Formed.{IsKept};

    ghost Value = { TimersView };

    ghost view = { λ t. record { live = t.executor; user_data = t.user_data.items } };

    ghost invariant = { λ t. IsKept (record { live = t.executor; user_data = t.user_data.items }) };
}

impl<A: Allocator> Timers<A> {
    ghost use Rattle.task_table.specs.Firsts.{IsEarliest, NoneWaits, IsHead, NoneQueued};
    ghost use Rattle.task_table.specs.Tables.{workers_of};
    ghost use Rattle.live_core.specs.Lives.{Stands};
    ghost use Rattle.live_core.specs.Said.{IsMakeError, TellsTask, TellsWaiting, tasks_in, alive_in, is_there, is_waiting_there};
    ghost use Rattle.timers.specs.Timers.{IsGivenAt, WasGivenWith, WereGiven, data_in};

    /// Timers before anything happened, for 1 to 255 workers, which `alloc` gives their memory.
    ///
    /// # Errors
    ///
    /// [`MakeError::Workers`] where there are none; [`MakeError::Memory`] where `alloc` refuses the memory for
    /// them.
    pub fn new(alloc: A, workers: u8) -> Result<Timers<A>, MakeError>
    where
        A: Copy,
        ensures stands { IfOk result (λ t. Stands t.live [] []) }
        ensures given { IfOk result (λ t. WereGiven t []) }
        ensures workers { IfOk result (λ t. workers_of t.live.table ≡ workers) }
        ensures slots { IfOk result (λ t. t.live.table.slots ≡ []) }
        ensures earliest { IfOk result (λ t. t.live.earliest ≡ 0) }
        ensures ended { IfOk result (λ t. t.live.ended ≡ []) }
        ensures range { OnOk result (IsLiveWorkerCount workers) }
        ensures failed { IfErr result (λ error. IsMakeError workers error) }
    {
        Ok(Timers {
            executor: ScheduledExecutor::new(alloc, workers)?,
            user_data: Vec::new(alloc),
        })
    }

    /// The moment, 0 to 2^62 nanoseconds: the greatest of those that were polled, finished or called at.
    pub fn now(&self) -> u64
        ensures value { result ≡ self.now.live.table.moment }
        ensures limit { result ≤ longest }
    {
        self.executor.now()
    }

    /// How many numbers were given out: one to each submission, whether it was accepted or not.
    pub fn numbers(&self) -> u64
        ensures { result ≡ self.now.live.count }
    {
        self.executor.numbers()
    }

    /// How many tasks are alive: those that wait or are kept in the queue, and those whose run is under way.
    pub fn len(&self) -> usize
        ensures tasks { result ≡ tasks_in self.now.live.table.slots }
        ensures alive { result ≡ alive_in self.now.live.table.slots }
    {
        self.executor.len()
    }

    /// Whether a task waits for a run. The task is the one of the number, whatever the slot.
    pub fn is_waiting(&self, task: TaskRef) -> bool
        ensures history { TellsWaiting self.now.live task.number result }
        ensures there { is_waiting_there self.now.live.table task ≡ true → result ≡ true }
    {
        self.executor.is_waiting(task)
    }

    /// How far a task is that a slot holds: it waits or is kept in the queue, or its run is under way. `None` of one that no slot
    /// holds, of which nothing comes any more. The task is the one of the number, whatever the slot.
    pub fn seat_of(&self, task: TaskRef) -> Option<Seat>
        ensures history { TellsTask self.now.live task.number result }
        ensures named { IfSome result (λ seat. seat.number ≡ task.number) }
    {
        self.executor.seat_of(task)
    }

    /// What was given with the submission of a task that is alive, and `None` where its slot does not hold it.
    pub fn user_data_of(&self, task: TaskRef) -> Option<u64>
        ensures given { IfSome result (λ value. WasGivenWith self.now task.number value) }
        ensures there { IfSome result (λ _. is_there self.now.live.table task ≡ true) }
        ensures none { IfNone result (is_there self.now.live.table task ≡ false) }
    {
        if !self.executor.holds(task) {
            return None;
        }
        Some(self.data_in(task.slot))
    }

    /// The tasks that the last call ended, by their numbers, ascending: not the one whose run was finished.
    pub fn ended(&self) -> &[TaskRef]
        ensures { result.now ≡ self.now.live.ended }
    {
        self.executor.ended()
    }

    /// What was given with the submission of the task at this place of [`ended`](Timers::ended), and `None` behind its end.
    pub fn ended_user_data(&self, place: usize) -> Option<u64>
        ensures given { IfSome result (λ value. IsGivenAt self.now place value) }
        ensures there { IfSome result (λ _. place < length self.now.live.ended) }
        ensures none { IfNone result (length self.now.live.ended ≤ place) }
    {
        let task = self.executor.ended().get(place)?;
        Some(self.data_in(task.slot))
    }

    /// The due moment of the first task that waits, in nanoseconds: before it no poll begins a run. `None` where none waits.
    pub fn next_due(&self) -> Option<u64>
        ensures first { IfSome result (λ due. IsEarliest self.now.live.table due) }
        ensures none { IfNone result (NoneWaits self.now.live.table) }
    {
        self.executor.next_due()
    }

    /// The due moment of the head of the queue, in nanoseconds, which waits for a run or is kept after a cancel: before it no poll takes
    /// a task out of the queue. `None` where none stands there.
    pub fn head_due(&self) -> Option<u64>
        ensures head { IfSome result (λ due. IsHead self.now.live.table due) }
        ensures none { IfNone result (NoneQueued self.now.live.table) }
    {
        self.executor.head_due()
    }

    /// The policies that are set.
    pub fn policies(&self) -> Policies
        ensures { result ≡ self.now.live.table.policies }
    {
        self.executor.policies()
    }

    /// Whether a call to shut down was made, in order or at once.
    pub fn is_shut(&self) -> bool
        ensures { result ≡ self.now.live.table.shut }
    {
        self.executor.is_shut()
    }

    /// Whether they are shut, and no task is alive: nothing will run any more.
    pub fn is_terminated(&self) -> bool
        ensures { result ≡ self.now.live.table.shut && (tasks_in self.now.live.table.slots == 0) }
    {
        self.executor.is_shut() && self.executor.len() == 0
    }

    /// The data in a slot.
    pub(crate) fn data_in(&self, slot: u32) -> u64
        ensures { result ≡ data_in self.now slot }
    {
        match self.user_data.get(slot as usize) {
            Some(value) => *value,
            None => 0,
        }
    }
}

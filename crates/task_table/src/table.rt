//! The table, and what comes into its slots and leaves them.
ghost use Rattle.std.specs.Prelude.{◌≡◌, ℕ, ◌<◌, ◌≤◌, ◌+◌, ◌^◌, true, false, List, [], length, replicate, Some, None, IsOk, IfOk, OnOk, OnErr};
ghost use Rattle.queue_code.specs.Calls.{Planned, IsOrderly, IsTimed};
ghost use Rattle.queue_code.specs.declared.call.CodeCall.TheVariants as call;
ghost use Rattle.sched_time.specs.Times.{longest};
ghost use Rattle.sched_time.specs.declared.timing.Timing as timings;
ghost use Rattle.executor_model.specs.Counts.{IsLiveWorkerCount};
ghost use Rattle.executor_model.specs.Answers.{bare, kind_of};
ghost use Rattle.executor_model.specs.Histories.{HistoryEntry};
ghost use Rattle.executor_model.specs.declared.types.Answer.TheVariants as answer;
ghost use Rattle.executor_model.specs.declared.types.Refusal.TheVariants as refusal;
ghost use Rattle.executor_model.specs.declared.types.Happening as happenings;

use crate::numbered::NumberedQueue;
use crate::queues::{Entry, TaskQueue};
use crate::seat::Seat;
use crate::seats::Seats;
use crate::slots::Slots;
use sched_time::{Policies, Timing};
use std::alloc::{AllocError, Allocator};
use std::marker::Model;

/// The tasks of an executor, in slots, and the work of its workers, whatever keeps the slots and the queues.
///
/// A contract sees it as a [`TableView`](../../specs/Tables.antt): the moment, what each slot holds, the slot of each
/// worker's task, the policies, and whether the executor is shut, and stopped.
#[derive(Drop)]
pub struct Table<S: Slots, Q: TaskQueue, A: Allocator> {
    pub(crate) moment: u64,
    pub(crate) slots: S,
    /// The slot of each worker's task.
    pub(crate) work: Vec<Option<u32>, A>,
    /// The tasks that wait, by slot.
    pub(crate) queue: Q,
    /// The tasks that were cancelled while they waited, and still stand in the queue.
    pub(crate) kept: Q,
    pub(crate) policies: Policies,
    /// A call to shut down was made, orderly or at once.
    pub(crate) shut: bool,
    /// A call to shut down at once was made.
    pub(crate) stopped: bool,
}

/// A table whose slots hold whole tasks, can be emptied, and grow in number.
pub type TaskTable<A> = Table<Seats<A>, NumberedQueue<A>, A>;

impl<S: Slots, Q: TaskQueue, A: Allocator> Model for Table<S, Q, A> {
    ghost use Rattle.task_table.specs.Tables.{TableView};
    ghost use Rattle.task_table.specs.own.Queues.{IsTable};

    ghost Value = { TableView };

    ghost view = { λ t. record { moment = t.moment; slots = S.seats t.slots; work = t.work.items; policies = t.policies; shut = t.shut; stopped = t.stopped } };

    ghost invariant = { λ t. IsTable Q.admits S.may_run (record { moment = t.moment; slots = S.seats t.slots; work = t.work.items; policies = t.policies; shut = t.shut; stopped = t.stopped }) (Q.keys t.queue) (Q.keys t.kept) (Q.room t.queue) (Q.room t.kept) };
}

impl<A: Allocator> TaskTable<A> {
    ghost use Rattle.task_table.specs.Tables.{workers_of, Stands, StandsBefore};
    ghost use Rattle.task_table.specs.Seats.{slot_of, task_in, is_alive};
    ghost use Rattle.task_table.specs.Changes.{emptied, grown};

    /// A table of no slots before anything happened, for 1 to 255 workers.
    ///
    /// # Errors
    ///
    /// `AllocError` where `alloc` refuses the memory for the workers.
    pub fn new(alloc: A, workers: u8) -> Result<TaskTable<A>, AllocError>
    where
        A: Copy,
        requires { IsLiveWorkerCount workers }
        ensures workers { IfOk result (λ table. workers_of table ≡ workers) }
        ensures empty { IfOk result (λ table. table.slots ≡ []) }
        ensures stands { IfOk result (λ table. Stands table [] []) }
        ensures opening { IfOk result
            (λ table. (calls : List Planned) → IsOrderly calls → Stands table calls []) }
    {
        let mut work = Vec::with_capacity(alloc, workers as usize)?;
        work.resize(workers as usize, None)?;
        let queue = NumberedQueue::new(alloc)?;
        let kept = NumberedQueue::new(alloc)?;
        let slots = Seats::new(alloc);
        Ok(Table::with(slots, queue, kept, work))
    }

    /// Makes room, so that there are at least `slots` slots. The new ones are empty.
    ///
    /// # Errors
    ///
    /// `AllocError` where the memory for them is refused: then the table is as it was, and a later call may try again. It
    /// succeeds where there are so many.
    pub fn reserve(&mut self, slots: u32) -> Result<(), AllocError>
        ensures grown { OnOk result (self.new ≡ grown self.old slots) }
        ensures refused { OnErr result (self.new ≡ self.old) }
        ensures roomy { slots ≤ length self.old.slots → IsOk result }
        ensures stands { (calls : List Planned) (past : List HistoryEntry)
            → Stands self.old calls past → Stands self.new calls past }
    {
        let count = slots as usize;
        if count <= self.slots.len() {
            return Ok(());
        }
        if self.queue.reserve(slots).is_err() {
            return Err(AllocError);
        }
        if self.kept.reserve(slots).is_err() {
            return Err(AllocError);
        }
        if self.slots.reserve(count).is_err() {
            return Err(AllocError);
        }
        Ok(())
    }

    /// Empties a slot, of whose task nothing may come any more.
    pub fn release(&mut self, slot: u32)
        requires { (x : Seat) × (slot_of self.old.slots slot ≡ Some x)
            × (is_alive (task_in x) ≡ false) }
        ensures slots { self.new ≡ emptied self.old slot }
        ensures stands { (calls : List Planned) (past : List HistoryEntry)
            → Stands self.old calls past → Stands self.new calls past }
        ensures stands_before { (calls : List Planned) (past : List HistoryEntry)
            (y : happenings.Happening) → StandsBefore self.old calls past y
            → StandsBefore self.new calls past y }
    {
        self.slots.release(slot);
    }

    /// What each slot holds.
    pub fn seats(&self) -> &[Option<Seat>]
        ensures { result.now ≡ self.now.slots }
    {
        self.slots.all()
    }
}

impl<S: Slots, Q: TaskQueue, A: Allocator> Table<S, Q, A> {
    ghost use Rattle.task_table.specs.Tables.{workers_of, Stands, CallSteps};
    ghost use Rattle.task_table.specs.Seats.{slot_of, IsNew};
    ghost use Rattle.task_table.specs.Changes.{admitted, at_moment};

    /// A table of these slots, fewer than 2^32 and all of them empty, before anything happened. It has as many workers as `work`
    /// has entries, 1 to 255, of which none has work.
    ///
    /// `queue` is for the tasks that wait, and `kept` for those that are kept: both are empty, and have room for each slot.
    pub fn with(slots: S, queue: Q, kept: Q, work: Vec<Option<u32>, A>) -> Table<S, Q, A>
        requires empty { (i : ℕ) → slot_of (S.seats slots) i ≡ None }
        requires count { length (S.seats slots) < 2 ^ 32 }
        requires queue { ((i : ℕ) → Q.keys queue i ≡ None)
            × (length (S.seats slots) ≤ Q.room queue) }
        requires kept { ((i : ℕ) → Q.keys kept i ≡ None)
            × (length (S.seats slots) ≤ Q.room kept) }
        requires workers { (workers : ℕ) × IsLiveWorkerCount workers
            × (work.items ≡ replicate workers None) }
        ensures slots { result.slots ≡ S.seats slots }
        ensures work { result.work ≡ work.items }
        ensures stands { Stands result [] [] }
        ensures opening { (calls : List Planned) → IsOrderly calls → Stands result calls [] }
    {
        Table {
            moment: 0,
            slots,
            work,
            queue,
            kept,
            policies: Policies::defaults(),
            shut: false,
            stopped: false,
        }
    }

    /// What keeps the tasks.
    pub fn stored(&self) -> &S
        ensures { S.seats result.now ≡ self.now.slots }
    {
        &self.slots
    }

    /// How many workers there are: those from 0 to one less.
    pub fn workers(&self) -> usize
        ensures { result ≡ workers_of self.now }
    {
        self.work.len()
    }

    /// How many slots there are: those from 0 to one less.
    pub fn slots(&self) -> usize
        ensures { result ≡ length self.now.slots }
    {
        self.slots.len()
    }

    /// What a slot holds, and `None` where it is empty or there is none of this number.
    pub fn seat(&self, slot: u32) -> Option<Seat>
        ensures { result ≡ slot_of self.now.slots slot }
    {
        self.slots.get(slot)
    }

    /// The moment, 0 to 2^62 nanoseconds: the greatest of the accepted clocks and the calls made.
    pub fn now(&self) -> u64
        ensures value { result ≡ self.now.moment }
        ensures limit { result ≤ longest }
    {
        self.moment
    }

    /// The policies that are set.
    pub fn policies(&self) -> Policies
        ensures { result ≡ self.now.policies }
    {
        self.policies
    }

    /// Whether a call to shut down was made, orderly or at once.
    pub fn is_shut(&self) -> bool
        ensures { result ≡ self.now.shut }
    {
        self.shut
    }

    /// Whether a call to shut down at once was made.
    pub fn is_stopped(&self) -> bool
        ensures { result ≡ self.now.stopped }
    {
        self.stopped
    }

    /// A call submits a task, which comes into an empty slot: it waits for its first run, `delay` nanoseconds after the moment
    /// `at` of the call. The answer is its due moment, at most 2^63 nanoseconds.
    ///
    /// `delay` is at most 2^62 nanoseconds, as the period or the fixed delay of `timing` is. Slots and queue admit the number there;
    /// those of a [`TaskTable`] admit each.
    #[inline(always)]
    pub fn admit(&mut self, slot: u32, number: u64, at: u64, timing: Timing, delay: u64) -> u64
        requires unshut { self.old.shut ≡ false }
        requires slot { slot < length self.old.slots }
        requires empty { slot_of self.old.slots slot ≡ None }
        requires number { IsNew self.old.slots number }
        requires admits { (S.admits slot number ≡ true) × (Q.admits slot number ≡ true) }
        requires moment { self.old.moment ≤ at }
        requires limit { at ≤ longest }
        requires spans { (delay ≤ longest) × IsTimed timing }
        ensures due { result ≡ at + delay }
        ensures slots { self.new ≡ admitted self.old slot number at timing delay }
        ensures steps { CallSteps self.old self.new (at, call.Submit number timing delay)
            (bare (answer.Submit number (kind_of timing) result)) }
    {
        let due = at + delay;
        self.moment = at;
        self.slots.admit(slot, number, timing, due);
        self.queue.insert(Entry { due, number, slot });
        due
    }

    /// A call submits a task, which is refused, since the executor is shut.
    pub fn refuse(&mut self, at: u64)
        requires shut { self.old.shut ≡ true }
        requires moment { self.old.moment ≤ at }
        requires limit { at ≤ longest }
        ensures slots { self.new ≡ at_moment self.old at }
        ensures steps { (number : ℕ) (timing : timings.Timing) (delay : ℕ)
            → CallSteps self.old self.new (at, call.Submit number timing delay)
            (bare (answer.Refuse number refusal.Rejected)) }
    {
        self.moment = at;
    }
}

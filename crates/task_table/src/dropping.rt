//! Kept tasks: those that were cancelled while they waited, and still stand in the queue.
ghost use Rattle.std.specs.Prelude.{◌≡◌, ℕ, ◌<◌, true, List, Some, IfSome, IfNone};
ghost use Rattle.queue_code.specs.Calls.{Planned};
ghost use Rattle.executor_model.specs.Histories.{HistoryEntry};
ghost use Rattle.executor_model.specs.Answers.{bare};
ghost use Rattle.executor_model.specs.declared.types.Answer.TheVariants as answer;
ghost use Rattle.executor_model.specs.declared.types.Happening.TheVariants as happening;
ghost use Rattle.task_table.specs.Changes as changes;
ghost use Rattle.task_table.specs.declared.seat.Seat as seats;
ghost use Rattle.delay_queue.specs.Queues as queues;

use crate::queues::{Entry, TaskQueue};
use crate::slots::Slots;
use crate::table::Table;
use std::alloc::Allocator;

impl<S: Slots, Q: TaskQueue, A: Allocator> Table<S, Q, A> {
    ghost use Rattle.task_table.specs.Tables.{StandsBefore, EventStepsBefore, IsNextCall};
    ghost use Rattle.task_table.specs.Seats.{slot_of};
    ghost use Rattle.task_table.specs.Firsts.{IsMetAt, NoneMet, NoneKept};
    ghost use Rattle.task_table.specs.Ends.{sweeps_at};
    ghost use Rattle.task_table.specs.Runs.{IsFree, Drops};
    ghost use Rattle.task_table.specs.Formed.{IsFormed};
    ghost use Rattle.task_table.specs.own.Heads.{HeadsKept, IsMetBy};

    /// Drops one of the kept tasks that the next start meets, if it is not refused, and answers its slot: of its task nothing
    /// comes any more. `None` says that it meets none; the table is then as it was.
    ///
    /// Each call that drops one makes the number of kept tasks smaller, so that a loop of such calls ends.
    #[inline(always)]
    pub fn drop_met(&mut self) -> Option<u32>
        ensures dropped { IfSome result (λ slot. Drops self.old self.new slot) }
        ensures met { IfSome result (λ slot. IsMetAt self.old slot) }
        ensures steps { IfSome result
            (λ _. (worker : ℕ) → IsFree self.old worker
            → (calls : List Planned) (past : List HistoryEntry)
            → StandsBefore self.old calls past (happening.Start worker)
            → StandsBefore self.new calls past (happening.Start worker)) }
        ensures none { IfNone result ((self.new ≡ self.old) × NoneMet self.old) }
    {
        let entry = self.first_kept()?;
        let met = self.meets(entry.due, entry.number);
        if met {
            self.drop_at(entry.slot);
            return Some(entry.slot);
        }
        None
    }

    /// Drops a kept task, before a call that sweeps, or of a purge, and answers its slot: of its task nothing comes any more. `None`
    /// says that none is kept; the table is then as it was, and a purge is made.
    ///
    /// Each call that drops one makes the number of kept tasks smaller, so that a loop of such calls ends.
    pub fn drop_kept(&mut self) -> Option<u32>
        ensures dropped { IfSome result (λ slot. Drops self.old self.new slot) }
        ensures steps { IfSome result
            (λ _. (calls : List Planned) (past : List HistoryEntry) (p : Planned)
            → IsNextCall calls past p → sweeps_at self.old.shut p.1 ≡ true
            → StandsBefore self.old calls past happening.Call
            → StandsBefore self.new calls past happening.Call) }
        ensures purges { IfSome result
            (λ _. (calls : List Planned) (past : List HistoryEntry)
            → StandsBefore self.old calls past happening.Purge
            → StandsBefore self.new calls past happening.Purge) }
        ensures none { IfNone result ((self.new ≡ self.old) × NoneKept self.old) }
        ensures purged { IfNone result
            (EventStepsBefore self.old self.new happening.Purge (bare answer.Purge)) }
    {
        let entry = self.first_kept()?;
        self.drop_at(entry.slot);
        Some(entry.slot)
    }

    /// The entry of the first kept task, and `None` where none is kept.
    pub(crate) fn first_kept(&self) -> Option<Entry>
        ensures first { IfSome result
            (λ entry. HeadsKept self.now entry.slot entry.due entry.number) }
        ensures none { IfNone result (NoneKept self.now) }
        ensures formed { IsFormed self.now }
    {
        self.kept.first()
    }

    /// Whether the next start meets a kept task of this due moment and number, if it is not refused.
    fn meets(&self, due: u64, number: u64) -> bool
        ensures { IsMetBy self.now due number result }
    {
        let now = self.now();
        match self.first_due() {
            Some(first) => due <= now && comes_before(due, number, first.due, first.number),
            None => due <= now,
        }
    }

    /// Drops the task in a slot from the queue.
    #[inline(never)]
    fn drop_at(&mut self, slot: u32)
        requires { (x : seats.Seat) × (slot_of self.old.slots slot ≡ Some x) × (x.kept ≡ true) }
        ensures dropped { (x : seats.Seat) → slot_of self.old.slots slot ≡ Some x
            → self.new ≡ changes.put self.old slot (changes.unkept x) }
    {
        let seat = self.held(slot);
        self.kept.remove(slot);
        self.slots.unkeep(slot, seat);
    }
}

/// Whether a task of this due moment and number comes before another one of those.
fn comes_before(due: u64, number: u64, later: u64, other: u64) -> bool
    ensures { result ≡ queues.comes_before due number later other }
{
    due < later || (due == later && number < other)
}

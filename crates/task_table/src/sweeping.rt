//! The tasks that a sweep ends.
ghost use Rattle.std.specs.Prelude.{◌≡◌, ◌<◌, ◌≤◌, true, false, [], Some, length, vec_capacity};
ghost use Rattle.std.specs.List.Sorted.{IsPermutation, IsNonDecreasingBy};
ghost use Rattle.std.specs.Option.{option_map_or};
ghost use Rattle.task_table.specs.Changes as changes;
ghost use Rattle.task_table.specs.Ends as sweeps;
ghost use Rattle.task_table.specs.declared.seat.TaskRef as refs;

use crate::cancelling::is_waiting;
use crate::queues::TaskQueue;
use crate::seat::{Seat, TaskRef};
use crate::slots::Slots;
use crate::table::Table;
use sched_time::{Policies, Timing};
use std::alloc::Allocator;

impl<S: Slots, Q: TaskQueue, A: Allocator> Table<S, Q, A> {
    ghost use Rattle.task_table.specs.Seats.{slot_of};
    ghost use Rattle.task_table.specs.Endings.{SweepEnds};

    /// Ends each task that a sweep ends, and tells them in ascending number.
    pub(crate) fn sweep<B: Allocator>(&mut self, ends: &mut Vec<TaskRef, B>)
        requires room { length self.old.slots ≤ vec_capacity ends.old }
        requires empty { ends.old.items ≡ [] }
        ensures ends { SweepEnds self.old self.new ends.new.items }
        ensures room { vec_capacity ends.new ≡ vec_capacity ends.old }
    {
        let count = self.slots.len() as u32;
        for slot in 0..count {
            let ended = self.sweep_slot(slot);
            if ended {
                let number = self.held(slot).number;
                ends.push_reserved(TaskRef { number, slot });
            }
        }
        sort_by_number(ends);
    }

    /// Ends the task in a slot of the table, if a sweep under the policies and at the moment that the table has ends it, and says
    /// whether it did.
    ///
    /// Once it was called for each slot, the table is swept, as a call that sweeps leaves it.
    pub fn sweep_slot(&mut self, slot: u32) -> bool
        requires within { slot < length self.old.slots }
        ensures swept { self.new
            ≡ changes.swept_in (slot_of self.old.slots slot) self.old slot }
        ensures ends { result ≡ sweeps.ends_at_slot self.old slot }
    {
        match self.seat(slot) {
            Some(seat) => {
                let ended = is_swept(&seat, self.is_stopped(), self.policies(), self.now());
                if ended {
                    self.end_seat(slot, seat);
                }
                ended
            }
            None => false,
        }
    }

    /// Whether a sweep under these policies, at the moment `now`, in nanoseconds, would end the task in a slot, where the executor is
    /// stopped or not. It would end none where the slot is empty or there is none of this number.
    pub fn ends_under(&self, slot: u32, stopped: bool, policies: Policies, now: u64) -> bool
        ensures { result
            ≡ option_map_or (sweeps.is_swept stopped policies now)
            (slot_of self.now.slots slot) false }
    {
        match self.seat(slot) {
            Some(seat) => is_swept(&seat, stopped, policies, now),
            None => false,
        }
    }

    /// Cancels the task in a slot, and takes it out of the queue.
    fn end_seat(&mut self, slot: u32, seat: Seat)
        requires there { slot_of self.old.slots slot ≡ Some seat }
        requires live { seat.cancelled ≡ false }
        ensures { self.new ≡ changes.put self.old slot (record seat { cancelled = true }) }
    {
        self.queue.remove(slot);
        self.slots.cancel(slot, seat, false);
    }
}

/// Whether a sweep under these policies, at this moment, ends a task, where the executor is stopped or not.
fn is_swept(seat: &Seat, stopped: bool, policies: Policies, now: u64) -> bool
    ensures { result ≡ sweeps.is_swept stopped policies now seat.now }
{
    if seat.cancelled || !is_waiting(seat.phase) {
        return false;
    }
    match seat.timing {
        Timing::Once => stopped || (!policies.executes && now < seat.due),
        Timing::Rate(_) | Timing::Fixed(_) => stopped || !policies.continues,
    }
}

/// Puts some tasks in ascending order of their numbers.
fn sort_by_number<B: Allocator>(ends: &mut Vec<TaskRef, B>)
    ensures moved { IsPermutation ends.old.items ends.new.items }
    ensures sorted { IsNonDecreasingBy (λ (r : refs.TaskRef). r.number) ends.new.items }
    ensures room { vec_capacity ends.new ≡ vec_capacity ends.old }
{
    ends.sort_unstable_by_key(|task: &TaskRef| task.number);
}

//! A table made of what is written of one.
ghost use Rattle.std.specs.Prelude.{◌≡◌, ◌↔◌, ℕ, [], ◌<◌, ◌≤◌, true, false, length, Some, None, IsTrue, IfOk, IsErrOf};
ghost use Rattle.sched_time.specs.Times.{longest};
ghost use Rattle.queue_code.specs.Calls.{IsTimed};
ghost use Rattle.executor_model.specs.Counts.{IsLiveWorkerCount};
ghost use Rattle.task_table.specs.Formed.{IsSeated};
ghost use Rattle.task_table.specs.Images as images;
ghost use Rattle.task_table.specs.Orders.{with_key, keys};
ghost use Rattle.task_table.specs.Seats as seats;
ghost use Rattle.task_table.specs.own.Queues.{key_where};
ghost use Rattle.task_table.specs.own.Restoring as steps;

use crate::cancelling::is_waiting;
use crate::image::{Frame, Image, RestoreError};
use crate::numbered::NumberedQueue;
use crate::queues::{Entry, TaskQueue};
use crate::seat::Seat;
use crate::slots::Slots;
use crate::table::TaskTable;
use executor_model::Stage;
use sched_time::{LONGEST, Timing};
use std::alloc::{AllocError, Allocator};

impl<A: Allocator> TaskTable<A> {
    ghost use Rattle.task_table.specs.Seats.{IsNew};
    ghost use Rattle.task_table.specs.Tables.{TableView};
    ghost use Rattle.task_table.specs.Formed.{IsFormed};

    /// The table of which this is written: it takes each call from there on as that one does.
    ///
    /// What no table wrote that calls and events led to may be written of one that they do not lead to. It is well formed then,
    /// and shows a state ([`each_table_shows_a_state`](crate::each_table_shows_a_state)); of its steps the clauses say no more
    /// than what becomes of its slots.
    ///
    /// # Errors
    ///
    /// [`RestoreError::Unsound`] where this is written of no table that is well formed, and [`RestoreError::Memory`] where
    /// `alloc` refuses the memory for workers and slots.
    pub fn restore(alloc: A, frame: Frame, written: &[Image]) -> Result<TaskTable<A>, RestoreError>
    where
        A: Copy,
        ensures is { IfOk result (λ t. images.IsWritten t frame written.now) }
        ensures unsound { IsErrOf result RestoreError.Unsound
            → ((m : TableView) → IsFormed m → images.IsWritten m frame written.now → ⊥) }
    {
        if frame.workers == 0 || frame.moment > LONGEST {
            return Err(RestoreError::Unsound);
        }
        if !are_ascending(written) {
            return Err(RestoreError::Unsound);
        }
        let Ok(mut table) = TaskTable::blank(alloc, frame) else {
            return Err(RestoreError::Memory);
        };
        if !table.put_all(written) {
            return Err(RestoreError::Unsound);
        }
        Ok(table)
    }

    /// A table of empty slots.
    fn blank(alloc: A, frame: Frame) -> Result<TaskTable<A>, AllocError>
    where
        A: Copy,
        requires workers { IsLiveWorkerCount frame.workers }
        requires moment { frame.moment ≤ longest }
        ensures frame { IfOk result (λ t. images.HasFrame t frame) }
        ensures empty { IfOk result (λ t. steps.IsPart t [] 0) }
    {
        let mut table = TaskTable::new(alloc, frame.workers)?;
        table.reserve(frame.slots)?;
        table.moment = frame.moment;
        table.policies = frame.policies;
        table.shut = frame.shut;
        table.stopped = frame.stopped;
        Ok(table)
    }

    /// Puts each task that is written into its slot, and says whether that can be.
    fn put_all(&mut self, written: &[Image]) -> bool
        requires ascending { images.Ascends written.now }
        requires empty { steps.IsPart self.old [] 0 }
        ensures frame { steps.KeepsFrame self.old self.new }
        ensures put { result ≡ true → images.AreImages self.new written.now }
        ensures refused { result ≡ false
            → ((m : TableView) → IsFormed m → steps.KeepsFrame self.old m
            → images.AreImages m written.now → ⊥) }
    {
        for image in written {
            if !self.put_back(image) {
                return false;
            }
        }
        true
    }

    /// Puts a task into its slot, and says whether that can be.
    fn put_back(&mut self, image: &Image) -> bool
        requires { IsNew self.old.slots image.now.seat.number }
        ensures put { result ≡ true
            → (steps.Fits self.old image.now × (self.new ≡ steps.placed self.old image.now)) }
        ensures left { result ≡ false
            → ((self.new ≡ self.old) × (steps.Fits self.old image.now → ⊥)) }
    {
        if !self.fits(image) {
            return false;
        }
        self.place(image.slot, image.worker, image.seat);
        true
    }

    /// Puts a task into its slot, where it can stand there.
    fn place(&mut self, slot: u32, worker: Option<u8>, seat: Seat)
        requires new { IsNew self.old.slots seat.number }
        requires fits { steps.Fits self.old (record { slot = slot; worker = worker; seat = seat }) }
        ensures { self.new
            ≡ steps.placed self.old (record { slot = slot; worker = worker; seat = seat }) }
    {
        let waiting = waits(&seat);
        enter(&mut self.queue, waiting, slot, &seat);
        enter(&mut self.kept, seat.kept, slot, &seat);
        staff(&mut self.work, worker, slot);
        self.slots.put(slot, seat);
    }

    /// Whether a task can stand in its slot.
    fn fits(&self, image: &Image) -> bool
        ensures { IsTrue result ↔ steps.Fits self.now image.now }
    {
        (image.slot as usize) < self.slots.len()
            && self.slots.get(image.slot).is_none()
            && is_seated(self.moment, image.seat)
            && self.is_free(image.worker, image.seat.phase)
    }

    /// Whether a worker may run a task in this phase.
    fn is_free(&self, worker: Option<u8>, phase: Stage) -> bool
        ensures { IsTrue result ↔ steps.MayWork self.now.work worker phase }
    {
        match worker {
            None => true,
            Some(worker) => {
                matches!(phase, Stage::Running)
                    && matches!(self.work.get(worker as usize), Some(None))
            }
        }
    }
}

/// Whether a task waits for a run.
fn waits(seat: &Seat) -> bool
    ensures { result ≡ seats.waits (seats.task_in seat.now) }
{
    is_waiting(seat.phase) && !seat.cancelled
}

/// Whether what a slot would hold at this moment is within the limits.
fn is_seated(moment: u64, seat: Seat) -> bool
    ensures { IsTrue result ↔ IsSeated moment seat }
{
    if seat.due > 1 << 63 || !is_timed(seat.timing) {
        return false;
    }
    match seat.phase {
        Stage::Vacant => false,
        Stage::Waiting => !seat.kept || seat.cancelled,
        Stage::Running => !seat.kept && seat.due <= moment && seat.run < u64::MAX,
        Stage::Done | Stage::Failed => !seat.kept,
        Stage::Dropped => !seat.kept && seat.cancelled,
    }
}

/// Whether a period or a fixed delay is within the limit.
fn is_timed(timing: Timing) -> bool
    ensures { IsTrue result ↔ IsTimed timing }
{
    match timing {
        Timing::Once => true,
        Timing::Rate(span) | Timing::Fixed(span) => span.nanos() <= LONGEST,
    }
}

/// Whether the numbers ascend.
fn are_ascending(written: &[Image]) -> bool
    ensures { IsTrue result ↔ images.Ascends written.now }
{
    let mut i = 1;
    while i < written.len() {
        if written[i - 1].seat.number >= written[i].seat.number {
            return false;
        }
        i += 1;
    }
    true
}

/// A worker has this slot, if one is named.
fn staff<A: Allocator>(work: &mut Vec<Option<u32>, A>, worker: Option<u8>, slot: u32)
    requires { steps.IsWithin worker (length work.old.items) }
    ensures { work.new.items ≡ steps.staffed work.old.items worker slot }
{
    if let Some(worker) = worker {
        work[worker as usize] = Some(slot);
    }
}

/// Puts in an entry for a task, where it stands in the queue.
fn enter<A: Allocator>(queue: &mut NumberedQueue<A>, stands: bool, slot: u32, seat: &Seat)
    requires known { slot < length queue.old.entries.entries }
    requires absent { keys queue.old.entries.entries slot ≡ None }
    ensures entered { (i : ℕ)
        → with_key (keys queue.old.entries.entries) slot (key_where stands seat.now) i
        ≡ keys queue.new.entries.entries i }
    ensures room { length queue.new.entries.entries ≡ length queue.old.entries.entries }
{
    if stands {
        let due = seat.due;
        let number = seat.number;
        queue.insert(Entry { due, number, slot });
    }
}

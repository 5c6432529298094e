//! An executor made of what is written of one.
ghost use Rattle.std.specs.Prelude.{◌≡◌, ◌↔◌, ◌+◌, ◌<◌, ◌≤◌, [], false, None, length, replicate, IsTrue, IfOk, OnOk, IsErrOf};
ghost use Rattle.task_table.specs.Images.{Ascends};
ghost use Rattle.task_table.specs.Seats.{slot_of};
ghost use Rattle.live_core.specs.Empties.{held_numbers};
ghost use Rattle.live_core.specs.own.Restoring as steps;

use crate::executor::ScheduledExecutor;
use crate::frame::ExecutorFrame;
use crate::notes::Notes;
use crate::spent::is_spent;
use std::alloc::{AllocError, Allocator};
use task_table::{Image, RestoreError, Seat, TaskTable, each_table_is_formed};

impl<A: Allocator> ScheduledExecutor<A> {
    ghost use Rattle.live_core.specs.Lives.{LiveView};
    ghost use Rattle.live_core.specs.Snapshots.{IsSound, IsWritten};

    /// The executor of which this is written: it stands where that one stood, and takes each call and event from there on as that
    /// one does. What was ended last is not written: no task was.
    ///
    /// What no executor wrote that calls and events led to may be written of one that they do not lead to. That one is sound too,
    /// and its table shows a state; where no calls and history lead, the clauses of later calls say no more than what is refused,
    /// and which slots are held.
    ///
    /// # Errors
    ///
    /// [`RestoreError::Unsound`] where this is written of no executor that is sound, as each is, and [`RestoreError::Memory`] where
    /// `alloc` refuses the memory for it.
    ///
    /// ```rust
    /// let mut executor = ScheduledExecutor::new(alloc, 1)?;
    /// executor.schedule(7, 5)?;
    /// let frame = executor.frame();
    /// let tasks = executor.images(alloc)?;
    /// let empty = executor.empty_slots();
    /// let other = ScheduledExecutor::restore(alloc, &frame, &tasks, empty)?;
    /// assert_eq!(rt;
    ///     (other.now(), other.len(), other.next_due()),
    ///     (7, 1, Some(12))
    /// );
    /// ```
    pub fn restore(
        alloc: A,
        frame: &ExecutorFrame,
        tasks: &[Image],
        empty: &[u32],
    ) -> Result<ScheduledExecutor<A>, RestoreError>
    where
        A: Copy,
        ensures is { IfOk result (λ e. IsWritten e frame.now tasks.now empty.now) }
        ensures ended { IfOk result (λ e. e.ended ≡ []) }
        ensures unsound { IsErrOf result RestoreError.Unsound
            → ((m : LiveView) → IsSound m → IsWritten m frame.now tasks.now empty.now → ⊥) }
    {
        if !is_sound(frame) {
            return Err(RestoreError::Unsound);
        }
        if !are_live(tasks, frame.count) {
            return Err(RestoreError::Unsound);
        }
        if !are_as_many(frame.table.slots, tasks, empty) {
            return Err(RestoreError::Unsound);
        }
        let table = TaskTable::restore(alloc, frame.table, tasks)?;
        each_table_is_formed(&table);
        check_empty(alloc, table.seats(), empty)?;
        let Ok(notes) = noted(alloc, frame.table.slots, tasks, empty) else {
            return Err(RestoreError::Memory);
        };
        let Ok(ended) = Vec::with_capacity(alloc, frame.table.slots as usize) else {
            return Err(RestoreError::Memory);
        };
        Ok(ScheduledExecutor {
            table,
            notes,
            ended,
            count: frame.count,
            accepted: frame.accepted,
            earliest: frame.earliest,
        })
    }
}

/// Whether an executor may have this beside its tasks and its empty slots.
fn is_sound(frame: &ExecutorFrame) -> bool
    ensures { IsTrue result ↔ steps.IsSoundFrame frame.now }
{
    if frame.earliest.saturating_sub(1) > frame.table.moment {
        return false;
    }
    if frame.table.shut {
        return true;
    }
    frame.accepted == frame.count
}

/// Whether something may come of each of these tasks, and its number is below this one.
fn are_live(tasks: &[Image], count: u64) -> bool
    ensures { result ≡ steps.are_live count tasks.now }
{
    tasks.iter().all(|image| is_live(image, count))
}

/// Whether something may come of a task, and its number is below this one.
fn is_live(image: &Image, count: u64) -> bool
    ensures { result ≡ steps.is_live count image.now }
{
    if is_spent(&image.seat) {
        return false;
    }
    image.seat.number < count
}

/// Whether these are together as many as there are slots.
fn are_as_many(slots: u32, tasks: &[Image], empty: &[u32]) -> bool
    ensures { IsTrue result ↔ (length tasks.now + length empty.now ≡ slots) }
{
    let slots = slots as usize;
    if empty.len() > slots {
        return false;
    }
    tasks.len() == slots - empty.len()
}

/// Checks that each of these slots is empty, and once among them.
///
/// # Errors
///
/// [`RestoreError::Unsound`] where it is not so, and [`RestoreError::Memory`] where the memory for a mark of each slot is refused.
fn check_empty<A: Allocator>(
    alloc: A,
    seats: &[Option<Seat>],
    empty: &[u32],
) -> Result<(), RestoreError>
    ensures is { OnOk result (steps.AreOnceEmpty (held_numbers seats.now) empty.now) }
    ensures unsound { IsErrOf result RestoreError.Unsound
        → steps.AreOnceEmpty (held_numbers seats.now) empty.now → ⊥ }
{
    let Ok(mut marks) = unmarked(alloc, seats.len()) else {
        return Err(RestoreError::Memory);
    };
    if !mark_empty(&mut marks, seats, empty) {
        return Err(RestoreError::Unsound);
    }
    Ok(())
}

/// So many marks, of which none is set.
///
/// # Errors
///
/// `AllocError` where the memory for them is refused.
fn unmarked<A: Allocator>(alloc: A, slots: usize) -> Result<Vec<bool, A>, AllocError>
    ensures { IfOk result (λ v. v.items ≡ replicate slots false) }
{
    let mut marks = Vec::new(alloc);
    marks.resize(slots, false)?;
    Ok(marks)
}

/// Whether each of these slots is empty, and once among them, where no slot is marked yet.
fn mark_empty(marks: &mut [bool], seats: &[Option<Seat>], empty: &[u32]) -> bool
    requires { marks.old ≡ replicate (length seats.now) false }
    ensures { IsTrue result ↔ steps.AreOnceEmpty (held_numbers seats.now) empty.now }
{
    for slot in empty {
        let place = *slot as usize;
        if !is_empty_at(seats, place) {
            return false;
        }
        let marked = marks[place];
        if marked {
            return false;
        }
        marks[place] = true;
    }
    true
}

/// Whether there is a slot of this number, and it is empty.
fn is_empty_at(seats: &[Option<Seat>], slot: usize) -> bool
    ensures { IsTrue result ↔ ((slot < length seats.now) × (slot_of seats.now slot ≡ None)) }
{
    matches!(seats.get(slot), Some(None))
}

/// The notes of so many slots, of which these are empty, and the others hold these tasks, ascending by number.
fn noted<A: Allocator>(
    alloc: A,
    slots: u32,
    tasks: &[Image],
    empty: &[u32],
) -> Result<Notes<A>, AllocError>
where
    A: Copy,
    requires ascending { Ascends tasks.now }
    requires size { length tasks.now + length empty.now ≡ slots }
    ensures free { IfOk result (λ n. n.free ≡ empty.now) }
    ensures entries { IfOk result (λ n. n.entries ≡ steps.refs_of tasks.now) }
    ensures room { IfOk result (λ n. slots ≤ n.slot_room) }
{
    let mut notes = Notes::new(alloc);
    notes.reserve(slots)?;
    notes.add_all_empty(empty);
    notes.add_all(tasks);
    Ok(notes)
}

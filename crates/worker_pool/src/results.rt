//! The verdicts on tasks that are done or have failed, and the notes of their cells.
ghost use Rattle.std.specs.Prelude.{◌≡◌, ◌≢◌, ◌⊎◌, ℕ, ◌+◌, ◌<◌, ◌≤◌, Some, None, IfOk, IfSome, IfNone, IsSome, OnOk, OnErr, length, replicate, slice_index, slice_index_or};
ghost use Rattle.once_cell.specs.declared.race.note.Note.{Note as CellNote};
ghost use Rattle.result_cell.specs.declared.verdict.Verdict.{Verdict as Put};
ghost use Rattle.result_cell.specs.Cells.{AreNotesOf, StaysKnown, known_at};
ghost use Rattle.executor_model.specs.declared.types.Answer.{Answer as OneAnswer};
ghost use Rattle.executor_model.specs.declared.types.Event.TheVariants as v;
ghost use Rattle.sched_time.specs.declared.timing.Ending.{Ending as Ended};
ghost use Rattle.worker_pool.specs.Books.{ending_in, ending_of_outcome};
ghost use Rattle.worker_pool.specs.own.Results.{HasNoteOf, TookVerdict, verdict_told};

use executor_model::{Answer, Event, Outcome};
use heap_allocator::HeapAllocator;
use result_cell::{Note, ResultCell, Verdict, same};
use sched_time::Ending;
use std::alloc::{AllocError, Allocator};

/// Rooms for the verdicts on so many tasks: boxes on the heap, made one after the other by the thread that makes the book, before
/// a worker takes memory.
pub fn verdict_rooms<A: HeapAllocator>(
    alloc: A,
    tasks: usize,
) -> Result<Vec<Box<Verdict>, A>, AllocError>
    ensures { IfOk result (λ rooms. length rooms.items ≡ tasks) }
{
    let mut rooms = Vec::with_capacity(alloc, tasks)?;
    for _task in 0..tasks {
        rooms.push(empty_room(alloc)?)?;
    }
    Ok(rooms)
}

/// A room that waits for its verdict.
fn empty_room<A: HeapAllocator>(alloc: A) -> Result<Box<Verdict>, AllocError> {
    let ending = Ending::Value(0);
    Ok(Box::new(alloc.heap(), Verdict { task: 0, ending })?)
}

/// Makes a room where none is left and an event may put a verdict, which finishes alone do.
pub fn keep_room<A: HeapAllocator>(
    alloc: A,
    rooms: &mut Vec<Box<Verdict>, A>,
    event: Event,
) -> Result<(), AllocError>
    ensures finish { (worker : ℕ) (ending : Ended) → event ≡ v.Finish worker ending
        → OnOk result (1 ≤ length rooms.new.items) }
    ensures kept { 1 ≤ length rooms.old.items → rooms.new.items ≡ rooms.old.items }
    ensures others { ((worker : ℕ) (ending : Ended) → event ≢ v.Finish worker ending)
        → rooms.new.items ≡ rooms.old.items }
    ensures refused { OnErr result (rooms.new.items ≡ rooms.old.items) }
{
    if rooms.is_empty() && matches!(event, Event::Finish(..)) {
        rooms.push(empty_room(alloc)?)?;
    }
    Ok(())
}

/// The verdict that an answer tells: of a task that is done, or has failed.
fn verdict_of(answer: Option<Answer>) -> Option<Verdict>
    ensures { result ≡ verdict_told answer }
{
    match answer? {
        Answer::Finish { task, outcome, .. } => {
            let ending = ending_of(outcome)?;
            Some(Verdict { task, ending })
        }
        _ => None,
    }
}

/// How the run ended, where the outcome is that the task is done or failed.
fn ending_of(outcome: Outcome) -> Option<Ending>
    ensures { result ≡ ending_of_outcome outcome }
{
    match outcome {
        Outcome::Done(value) => Some(Ending::Value(value)),
        Outcome::Failed(code) => Some(Ending::Fault(code)),
        Outcome::Again(_) | Outcome::Dropped | Outcome::Ended => None,
    }
}

/// No note for each of so many tasks.
pub fn empty_notes<A: Allocator>(
    alloc: A,
    tasks: usize,
) -> Result<Vec<Option<Note<Verdict>>, A>, AllocError>
    ensures none { IfOk result (λ notes. notes.items ≡ replicate tasks None) }
{
    let mut notes = Vec::with_capacity(alloc, tasks)?;
    for _task in 0..tasks {
        notes.push_reserved(None);
    }
    Ok(notes)
}

/// Puts the verdict that an answer tells, if any, into the cell of its task, in one of the rooms. Where the cell takes it, its note is
/// kept; where the cell was set before, the room comes back with the verdict told.
pub fn settle<A: Allocator>(
    cells: &[ResultCell],
    notes: &mut Vec<Option<Note<Verdict>>, A>,
    answer: Option<Answer>,
    rooms: &mut Vec<Box<Verdict>, A>,
) -> Option<Box<Verdict>>
    requires below { (task : ℕ) (ending : Ended) (said : OneAnswer) → answer ≡ Some said
        → ending_in task said ≡ Some ending → task < length cells.now }
    requires count { length notes.old.items ≡ length cells.now }
    requires room { IsSome (verdict_told answer) → 1 ≤ length rooms.old.items }
    ensures count { length notes.new.items ≡ length notes.old.items }
    ensures each { (k : ℕ)
        → (slice_index_or notes.new.items k None ≡ slice_index_or notes.old.items k None)
        ⊎ ((note : CellNote Put) × (slice_index_or notes.new.items k None ≡ Some note)
        × TookVerdict cells.now answer k note) }
    ensures untold { verdict_told answer ≡ None
        → (result ≡ None) × (notes.new.items ≡ notes.old.items)
        × (rooms.new.items ≡ rooms.old.items) }
    ensures told { IfSome (verdict_told answer)
        (λ v. IfNone result (HasNoteOf cells.now notes.new.items v)
        × IfSome result
        (λ back. (back.value ≡ v) × (notes.new.items ≡ notes.old.items))) }
    ensures taken { IsSome (verdict_told answer)
        → length rooms.new.items + 1 ≡ length rooms.old.items }
{
    let Some(verdict) = verdict_of(answer) else {
        return None;
    };
    set_cell(cells, notes, verdict, rooms.pop()?)
}

/// Puts a verdict into the cell of its task. Where the cell takes it, its note is kept; else the room comes back with it.
fn set_cell<A: Allocator>(
    cells: &[ResultCell],
    notes: &mut Vec<Option<Note<Verdict>>, A>,
    verdict: Verdict,
    mut room: Box<Verdict>,
) -> Option<Box<Verdict>>
    requires below { verdict.task < length cells.now }
    requires count { length notes.old.items ≡ length cells.now }
    ensures count { length notes.new.items ≡ length notes.old.items }
    ensures others { (k : ℕ) → k ≢ verdict.task
        → slice_index_or notes.new.items k None ≡ slice_index_or notes.old.items k None }
    ensures put { IfNone result (HasNoteOf cells.now notes.new.items verdict) }
    ensures refused { IfSome result
        (λ back. (back.value ≡ verdict) × (notes.new.items ≡ notes.old.items)) }
{
    let task = verdict.task as usize;
    let cell = &cells[task];
    let mut note = cell.note();
    *room = verdict;
    let refused = cell.put(&mut note, room).err();
    if refused.is_none() {
        notes[task] = Some(note);
    }
    refused
}

/// The verdict on a task, where a book's note and a handle's note of its cell both read one: it is the same one. The book's
/// note, where there is one, knows a verdict already, and is unchanged.
pub fn agreed<A: Allocator, B: Allocator>(
    cells: &[ResultCell],
    mine: &mut Vec<Option<Note<Verdict>>, A>,
    theirs: &mut Vec<Note<Verdict>, B>,
    task: u32,
) -> Option<Verdict>
    requires count { length mine.old.items ≡ length cells.now }
    requires mine { (k : ℕ) (note : CellNote Put) → slice_index_or mine.old.items k None ≡ Some note
        → (note.cell ≡ slice_index cells.now k) × IsSome note.known }
    requires theirs { AreNotesOf theirs.old.items cells.now }
    ensures mine { mine.new.items ≡ mine.old.items }
    ensures theirs { AreNotesOf theirs.new.items cells.now }
    ensures past { length cells.now ≤ task → result ≡ None }
    ensures keeps { StaysKnown (known_at theirs.old.items task) (known_at theirs.new.items task) }
    ensures others { (k : ℕ) → k ≢ task
        → known_at theirs.new.items k ≡ known_at theirs.old.items k }
    ensures both { IfSome result
        (λ v. (known_at theirs.new.items task ≡ Some v) × (note : CellNote Put)
        × (slice_index_or mine.new.items task None ≡ Some note) × (note.known ≡ Some v)) }
    ensures wherever { (note : CellNote Put) → slice_index_or mine.old.items task None ≡ Some note
        → IsSome (known_at theirs.old.items task) → IsSome result }
{
    let place = task as usize;
    if place >= cells.len() {
        return None;
    }
    let mut note = mine[place].take()?;
    let verdict = read_both(&cells[place], &mut note, &mut theirs[place]);
    mine[place] = Some(note);
    verdict
}

/// The verdict that two notes of one cell read, where both read one.
fn read_both(
    cell: &ResultCell,
    mine: &mut Note<Verdict>,
    theirs: &mut Note<Verdict>,
) -> Option<Verdict>
    requires mine { mine.old.cell ≡ cell.now }
    requires theirs { theirs.old.cell ≡ cell.now }
    ensures mine { (mine.new.cell ≡ mine.old.cell) × StaysKnown mine.old.known mine.new.known }
    ensures theirs { (theirs.new.cell ≡ theirs.old.cell)
        × StaysKnown theirs.old.known theirs.new.known }
    ensures both { IfSome result (λ v. (mine.new.known ≡ Some v) × (theirs.new.known ≡ Some v)) }
    ensures wherever { IsSome mine.old.known → IsSome theirs.old.known → IsSome result }
{
    let verdict = cell.read(mine)?;
    cell.read(theirs)?;
    same(mine, theirs);
    Some(verdict)
}

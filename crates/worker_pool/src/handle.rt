//! What another thread has of a pool: it cancels tasks and reads their states and results, without a lock.
ghost use Rattle.std.specs.Prelude.{◌≡◌, ◌≢◌, ℕ, ◌<◌, ◌≤◌, length, None, IfOk};
ghost use Rattle.result_cell.specs.Cells.{AreNotesOf, StaysKnown, known_at};
ghost use Rattle.task_word.specs.Views.{and_if, times};
ghost use Rattle.task_word.specs.Answers.{is_handle_win, HandleCancels, HandleLooks};
ghost use Rattle.task_word.specs.declared.answers.CancelAnswer.TheVariants as cancel;
ghost use Rattle.task_word.specs.declared.answers.TaskState.TheVariants as state;
ghost use Rattle.worker_pool.specs.Shares.{known_to};
ghost use Rattle.worker_pool.specs.own.Steps.{WinsBelow};

use crate::named::Named;
use crate::shared::Shared;
use result_cell::{Note, ResultCell, Verdict};
use std::alloc::{AllocError, Allocator};
use std::marker::{Model, PhantomData};
use task_word::{CancelAnswer, HandleSeat, TaskState};

/// A handle of a pool: a seat at the words, and a note of each cell.
///
/// One that is dropped without [`Book::retire`](crate::Book::retire) counts as out for good.
#[derive(Drop)]
pub struct Handle<'s, N: Named, A: Allocator> {
    pub(crate) shared: &'s Shared<A>,
    pub(crate) seat: HandleSeat,
    pub(crate) notes: Vec<Note<Verdict>, A>,
    pub(crate) of: PhantomData<N>,
}

impl<'s, N: Named, A: Allocator> Model for Handle<'s, N, A> {
    ghost use Rattle.std.specs.Prelude.{◌≡◌, length};
    ghost use Rattle.result_cell.specs.Cells.{AreNotesOf};
    ghost use Rattle.worker_pool.specs.Shares.{HandleView};
    ghost use Rattle.worker_pool.specs.own.Steps.{WinsBelow};

    ghost Value = { HandleView };

    ghost view = { λ h. record { seat = h.seat.view; notes = h.notes.items } };

    ghost invariant = { λ h. (h.shared.now.table ≡ N.table) × (h.shared.now.cells ≡ N.cells) × (h.shared.now.tasks ≡ length N.cells) × (h.seat.table ≡ N.table) × AreNotesOf h.notes.items N.cells × WinsBelow (length N.cells) h.seat.view };
}

impl<'s, N: Named, A: Allocator> Handle<'s, N, A> {
    /// Cancels a task, in one atomic step, and answers by the word that this step met: `Yes` where the task waits or is run
    /// and this call cancelled it, `Absent` where it is not submitted, `NoTask` past the last task, and else `No`.
    ///
    /// After a `Yes` each later [`state`](Handle::state) of the task is `Cancelled`. No lock is taken, and no memory.
    pub fn cancel(&mut self, task: u32) -> CancelAnswer
        ensures met { task < length N.cells
            → HandleCancels self.old.seat task result self.new.seat }
        ensures past { length N.cells ≤ task → (result ≡ cancel.NoTask) × (self.new ≡ self.old) }
        ensures won { self.new.seat.won ≡ and_if (is_handle_win result) task self.old.seat.won }
        ensures notes { self.new.notes ≡ self.old.notes }
    {
        let shared = self.shared;
        self.seat.cancel(&shared.words, task)
    }

    /// The state of a task, by one atomic load; `NoTask` past the last task.
    ///
    /// It is no earlier one than this handle met before, and `Cancelled` where the handle cancelled the task or met it so.
    pub fn state(&mut self, task: u32) -> TaskState
        ensures met { task < length N.cells → HandleLooks self.old.seat task result self.new.seat }
        ensures past { length N.cells ≤ task → (result ≡ state.NoTask) × (self.new ≡ self.old) }
        ensures won { task < length N.cells → 0 < times task self.old.seat.won
            → result ≡ state.Cancelled }
        ensures notes { self.new.notes ≡ self.old.notes }
    {
        let shared = self.shared;
        self.seat.state(&shared.words, task)
    }

    /// The verdict on a task that is done or has failed, once its cell is set, by one atomic load; `None` before, of any other
    /// task, and past the last one. A verdict that was read once is read again.
    pub fn result(&mut self, task: u32) -> Option<Verdict>
        ensures known { result ≡ known_to self.new task }
        ensures past { length N.cells ≤ task → result ≡ None }
        ensures notes { AreNotesOf self.new.notes N.cells }
        ensures keeps { StaysKnown (known_to self.old task) (known_to self.new task) }
        ensures others { (k : ℕ) → k ≢ task → known_to self.new k ≡ known_to self.old k }
        ensures seat { self.new.seat ≡ self.old.seat }
    {
        let shared = self.shared;
        if task as usize >= shared.cells.len() {
            return None;
        }
        read_of(&shared.cells, &mut self.notes, task)
    }
}

impl<'s, N: Named, A: Allocator> Handle<'s, N, A> {
    /// The seat alone.
    pub(crate) fn into_seat(self) -> HandleSeat
        ensures table { result.table ≡ N.table }
        ensures view { result.view ≡ self.entry.seat }
        ensures won { WinsBelow (length N.cells) result.view }
    {
        self.seat
    }
}

/// Reads the cell of a task by the note of that task.
fn read_of<A: Allocator>(
    cells: &[ResultCell],
    notes: &mut Vec<Note<Verdict>, A>,
    task: u32,
) -> Option<Verdict>
    requires below { task < length cells.now }
    requires notes { AreNotesOf notes.old.items cells.now }
    ensures notes { AreNotesOf notes.new.items cells.now }
    ensures known { result ≡ known_at notes.new.items task }
    ensures keeps { StaysKnown (known_at notes.old.items task) (known_at notes.new.items task) }
    ensures others { (k : ℕ) → k ≢ task → known_at notes.new.items k ≡ known_at notes.old.items k }
{
    let k = task as usize;
    cells[k].read(&mut notes[k])
}

/// A note of each cell, which knows nothing.
#[tactic(auto, using(crate::proofs::NoteLists::nothing_more))]
pub(crate) fn notes_of<A: Allocator>(
    alloc: A,
    cells: &[ResultCell],
) -> Result<Vec<Note<Verdict>, A>, AllocError>
    ensures of { IfOk result (λ notes. AreNotesOf notes.items cells.now) }
    ensures nothing { IfOk result (λ notes. (k : ℕ) → known_at notes.items k ≡ None) }
{
    let mut notes = Vec::new(alloc);
    notes.reserve(cells.len())?;
    for cell in cells {
        notes.push_reserved(cell.note());
    }
    Ok(notes)
}

//! The book of a pool: what happened, and what it was answered.
ghost use Rattle.std.specs.Prelude.{◌≡◌, ◌≢◌, ◌⊎◌, ◌+◌, ◌<◌, ◌≤◌, ◌↔◌, [], Some, false, IsTrue, IfOk, OnOk, OnErr, IfErr, IsErrOf, IsSome, IfSome, None, ℕ, List, length, slice_index_or};
ghost use Rattle.once_cell.specs.declared.race.note.Note.{Note as CellNote};
ghost use Rattle.result_cell.specs.Cells.{AreNotesOf, StaysKnown};
ghost use Rattle.result_cell.specs.declared.verdict.Verdict.{Verdict as Put};
ghost use Rattle.queue_code.specs.Calls.{task_count};
ghost use Rattle.queue_code.specs.Codes.{calls_of};
ghost use Rattle.task_word.specs.Views.{most_handles, new_core, new_handle, one_out};
ghost use Rattle.executor_model.specs.Counts.{IsWorkerCount};
ghost use Rattle.executor_core.specs.CoreView.{IsOpening, workers_of, state_of};
ghost use Rattle.executor_model.specs.Histories.{HistoryEntry};
ghost use Rattle.executor_model.specs.State.{view_of_state};
ghost use Rattle.executor_model.specs.Needs.{IsRipe};
ghost use Rattle.worker_pool.specs.Books.{IsBook, IsIdle};
ghost use Rattle.worker_pool.specs.Shares.{known_to};
ghost use Rattle.worker_pool.specs.Applies.{Applies, Tells, OnlyNotes, KnowsCancels, AllAreLookedAt, Retires, work_started};

use crate::applied::{Applied, Work};
use crate::desk::Desk;
use crate::error::PoolError;
use crate::handle::{Handle, notes_of};
use crate::named::Named;
use crate::results::{agreed, empty_notes, keep_room, settle, verdict_rooms};
use crate::shared::Shared;
use executor_core::{Core, CoreError};
use executor_model::{Answer, Event, KeptHappening, Line};
use heap_allocator::HeapAllocator;
use queue_code::Code;
use result_cell::{Note, Verdict};
use std::alloc::Allocator;
use std::marker::{Model, PhantomData};
use task_word::{CoreSeat, MOST_HANDLES};

/// A core with the seat that moves the words, what happened and its lines, and notes of the results.
#[derive(Drop)]
pub struct Book<N: Named, A: Allocator> {
    desk: Desk<A>,
    workers: u8,
    /// Of each task the note with which the book set its cell.
    notes: Vec<Option<Note<Verdict>>, A>,
    /// Rooms for verdicts that will be put, as many as tasks at first.
    rooms: Vec<Box<Verdict>, A>,
    /// Whether some cell held a verdict when the book was to put its own.
    forestalled: bool,
    of: PhantomData<N>,
}

impl<N: Named, A: Allocator> Model for Book<N, A> {
    ghost use Rattle.std.specs.Prelude.{◌≡◌, length};
    ghost use Rattle.queue_code.specs.Calls.{task_count};
    ghost use Rattle.executor_core.specs.CoreView.{workers_of};
    ghost use Rattle.worker_pool.specs.Books.{BookView, IsBook};

    ghost Value = { BookView };

    ghost view = { λ b. record { core = b.desk.core; seat = b.desk.seat.view; table = b.desk.seat.table; happened = b.desk.happenings.items; lines = b.desk.lines.items; notes = b.notes.items; forestalled = b.forestalled } };

    ghost invariant = { λ b. (b.desk.core.calls ≡ N.calls) × (workers_of b.desk.core ≡ N.workers) × (b.desk.seat.table ≡ N.table) × (length N.cells ≡ task_count N.calls) × (length b.notes.items ≡ length N.cells)
        × IsBook N.cells (record { core = b.desk.core; seat = b.desk.seat.view; table = b.desk.seat.table; happened = b.desk.happenings.items; lines = b.desk.lines.items; notes = b.notes.items; forestalled = b.forestalled }) × (b.workers ≡ N.workers) };
}

impl<N: Named, A: HeapAllocator> Book<N, A> {
    /// A book before anything happened, for the calls of a code.
    ///
    /// `shared` and the seat are those that one [`Shared::new`] gave, for as many tasks as the code has. `workers` is 1 to 64,
    /// and `limit`, the number of events that it takes, 1 to 4,294,967,295.
    ///
    /// # Errors
    ///
    /// [`PoolError::Workers`] and then [`PoolError::Limit`], exactly where that number is out of range; then
    /// [`PoolError::Memory`]. The seat and the code are dropped, so a new `Shared` has to be made.
    pub fn new(
        alloc: A,
        shared: &Shared<A>,
        seat: CoreSeat<A>,
        code: Code<A>,
        workers: u8,
        limit: u32,
    ) -> Result<Book<N, A>, PoolError>
        requires shared { (shared.now.table ≡ N.table) × (shared.now.cells ≡ N.cells) }
        requires seat { (seat.table ≡ shared.now.table) × (seat.view ≡ new_core shared.now.tasks) }
        requires tasks { shared.now.tasks ≡ task_count (calls_of code) }
        requires named { (calls_of code ≡ N.calls) × (workers ≡ N.workers) }
        ensures opening { IfOk result
            (λ b. (b.happened ≡ []) × (b.lines ≡ []) × IsOpening b.core N.calls N.workers limit
            × (b.seat ≡ new_core (length N.cells)) × (b.forestalled ≡ false)) }
        ensures workers { IsErrOf result PoolError.Workers ↔ ¬ IsWorkerCount workers }
        ensures limit { IsErrOf result PoolError.Limit ↔ (IsWorkerCount workers × (limit ≡ 0)) }
        ensures others { (IsErrOf result PoolError.Full → ⊥) × (IsErrOf result PoolError.Seats → ⊥)
            × (IsErrOf result PoolError.Running → ⊥) }
    {
        let _calls = code.calls();
        let count = shared.cells.len();
        let core = match Core::new(alloc, code, workers, limit) {
            Ok(core) => core,
            Err(CoreError::Workers) => return Err(PoolError::Workers),
            Err(CoreError::Limit) => return Err(PoolError::Limit),
            Err(CoreError::Full | CoreError::Memory) => return Err(PoolError::Memory),
        };
        let Ok(notes) = empty_notes(alloc, count) else {
            return Err(PoolError::Memory);
        };
        let Ok(rooms) = verdict_rooms(alloc, count) else {
            return Err(PoolError::Memory);
        };
        let desk = Desk {
            core,
            seat,
            happenings: Vec::new(alloc),
            lines: Vec::new(alloc),
        };
        Ok(Book {
            desk,
            workers,
            notes,
            rooms,
            forestalled: false,
            of: PhantomData,
        })
    }

    /// Takes an event: the calls of the plan that it reaches, and then the event itself, which move the words of the tasks.
    ///
    /// Where a word is met that a handle cancelled, that cancel is noted first, and the book goes on from there. When a task
    /// is done, or has failed, the verdict on it goes into its cell; [`is_forestalled`](Book::is_forestalled) tells whether
    /// one stood there before.
    ///
    /// # Errors
    ///
    /// [`PoolError::Full`], exactly where as many events were taken as the limit allows; then [`PoolError::Memory`]. At both
    /// the book is as it was, and the event may be given again.
    ///
    /// ```rust
    /// let clock = book.apply(shared, Event::Clock(0))?;
    /// assert_eq!(rt; clock.count, 2); // the lines of the submission of task 0, and of the clock
    /// let start = book.apply(shared, Event::Start(0))?;
    /// assert_eq!(rt; start.work.map(|work| work.task), Some(0));
    /// // Two events are as many as the book takes.
    /// let more = book.apply(shared, Event::Clock(5));
    /// assert_eq!(rt; more, Err(PoolError::Full));
    /// ```
    #[inline(always)]
    pub fn apply(&mut self, shared: &Shared<A>, event: Event) -> Result<Applied, PoolError>
        requires shared { (shared.now.table ≡ N.table) × (shared.now.cells ≡ N.cells) }
        ensures full { IsErrOf result PoolError.Full ↔ (self.old.core.taken ≡ self.old.core.limit) }
        ensures others { IfErr result (λ e. (e ≡ PoolError.Full) ⊎ (e ≡ PoolError.Memory)) }
        ensures refused { OnErr result (self.new ≡ self.old) }
        ensures applied { IfOk result
            (λ told. (did : Applies self.old self.new event)
            × Tells self.old self.new did.last told) }
        ensures limit { self.new.core.limit ≡ self.old.core.limit }
    {
        let alloc = *self.notes.allocator();
        let desk = &mut self.desk;
        if desk.core.full() {
            return Err(PoolError::Full);
        }
        let Ok(()) = keep_room(alloc, &mut self.rooms, event) else {
            return Err(PoolError::Memory);
        };
        if desk.make_room().is_err() {
            return Err(PoolError::Memory);
        }
        let first = desk.lines.len();
        desk.core.count();
        desk.take(&shared.words, event);
        let count = desk.lines.len() - first;
        let answer = desk.last_answer();
        let back = settle(&shared.cells, &mut self.notes, answer, &mut self.rooms);
        self.forestalled |= back.is_some();
        Ok(Applied {
            first,
            count,
            work: work_of(answer),
        })
    }

    /// Cuts off a handle, which has met and won nothing. No more than 63 are out at once.
    ///
    /// # Errors
    ///
    /// [`PoolError::Seats`], exactly where 63 are out; then [`PoolError::Memory`]. At both the book is as it was.
    pub fn admit<'s>(&mut self, shared: &'s Shared<A>) -> Result<Handle<'s, N, A>, PoolError>
        requires shared { (shared.now.table ≡ N.table) × (shared.now.cells ≡ N.cells) }
        ensures seats { IsErrOf result PoolError.Seats ↔ (self.old.seat.out ≡ most_handles) }
        ensures others { IfErr result (λ e. (e ≡ PoolError.Seats) ⊎ (e ≡ PoolError.Memory)) }
        ensures refused { OnErr result (self.new ≡ self.old) }
        ensures admitted { OnOk result
            (self.new ≡ record self.old { seat = one_out self.old.seat }) }
        ensures handle { IfOk result (λ h. h.seat ≡ new_handle (length N.cells)) }
        ensures notes { IfOk result
            (λ h. AreNotesOf h.notes N.cells × ((k : ℕ) → known_to h k ≡ None)) }
    {
        if self.desk.seat.handles() >= MOST_HANDLES {
            return Err(PoolError::Seats);
        }
        let Ok(notes) = notes_of(*self.notes.allocator(), &shared.cells) else {
            return Err(PoolError::Memory);
        };
        let Ok(seat) = self.desk.seat.split(&shared.words) else {
            return Err(PoolError::Seats);
        };
        Ok(Handle {
            shared,
            seat,
            notes,
            of: PhantomData,
        })
    }
}

impl<N: Named, A: Allocator> Book<N, A> {
    /// Looks at the word of each task, and notes each cancel of a handle that the book does not know. Answers how many it
    /// noted.
    ///
    /// # Errors
    ///
    /// [`PoolError::Memory`]; then the book is as it was.
    pub fn note_cancels(&mut self, shared: &Shared<A>) -> Result<usize, PoolError>
        requires shared { (shared.now.table ≡ N.table) × (shared.now.cells ≡ N.cells) }
        ensures memory { IfErr result (λ e. e ≡ PoolError.Memory) }
        ensures refused { OnErr result (self.new ≡ self.old) }
        ensures noted { IfOk result
            (λ count. (noted : List HistoryEntry) × OnlyNotes self.old self.new noted
            × (length noted ≡ count)) }
        ensures known { OnOk result (KnowsCancels self.new) }
        ensures looked { OnOk result (AllAreLookedAt self.new) }
    {
        let desk = &mut self.desk;
        if desk.make_room().is_err() {
            return Err(PoolError::Memory);
        }
        let before = desk.happenings.len();
        desk.look_all(&shared.words);
        Ok(desk.happenings.len() - before)
    }

    /// Takes a handle back, so that its seat may go to another, and notes each cancel that the book does not know: those of
    /// this handle, and those of handles that are out.
    ///
    /// # Errors
    ///
    /// [`PoolError::Memory`], with the handle; then the book is as it was.
    pub fn retire<'s>(
        &mut self,
        shared: &Shared<A>,
        handle: Handle<'s, N, A>,
    ) -> Result<(), (PoolError, Handle<'s, N, A>)>
        requires shared { (shared.now.table ≡ N.table) × (shared.now.cells ≡ N.cells) }
        ensures refused { OnErr result (self.new ≡ self.old) }
        ensures back { IfErr result (λ e. (e.0 ≡ PoolError.Memory) × (e.1 ≡ handle.entry)) }
        ensures retired { OnOk result (Retires self.old self.new handle.entry.seat) }
    {
        let desk = &mut self.desk;
        if desk.make_room().is_err() {
            return Err((PoolError::Memory, handle));
        }
        desk.seat.join(&shared.words, handle.into_seat());
        desk.look_all(&shared.words);
        Ok(())
    }

    /// The verdict on a task, where both the book and the handle read it: of both it is the same one.
    pub fn agrees(
        &mut self,
        shared: &Shared<A>,
        handle: &mut Handle<'_, N, A>,
        task: u32,
    ) -> Option<Verdict>
        requires shared { (shared.now.table ≡ N.table) × (shared.now.cells ≡ N.cells) }
        ensures same { self.new ≡ self.old }
        ensures both { IfSome result
            (λ v. (known_to handle.new task ≡ Some v) × (note : CellNote Put)
            × (slice_index_or self.new.notes task None ≡ Some note) × (note.known ≡ Some v)) }
        ensures past { length N.cells ≤ task → result ≡ None }
        ensures wherever { (note : CellNote Put)
            → slice_index_or self.old.notes task None ≡ Some note
            → IsSome (known_to handle.old task) → IsSome result }
        ensures keeps { StaysKnown (known_to handle.old task) (known_to handle.new task) }
        ensures others { (k : ℕ) → k ≢ task → known_to handle.new k ≡ known_to handle.old k }
        ensures notes { AreNotesOf handle.new.notes N.cells }
        ensures seat { handle.new.seat ≡ handle.old.seat }
    {
        agreed(&shared.cells, &mut self.notes, &mut handle.notes, task)
    }
}

impl<N: Named, A: Allocator> Book<N, A> {
    /// What happened, the oldest first: calls of the plan, events, and the cancels of handles that were noted.
    pub fn happenings(&self) -> &[KeptHappening]
        ensures items { result.now ≡ self.now.happened }
        ensures book { IsBook N.cells self.now }
        ensures named { (self.now.core.calls ≡ N.calls) × (workers_of self.now.core ≡ N.workers)
            × (self.now.table ≡ N.table) × (length N.cells ≡ task_count N.calls) }
    {
        &self.desk.happenings
    }

    /// The lines of the answers, the oldest first.
    pub fn lines(&self) -> &[Line]
        ensures items { result.now ≡ self.now.lines }
        ensures book { IsBook N.cells self.now }
        ensures named { (self.now.core.calls ≡ N.calls) × (workers_of self.now.core ≡ N.workers)
            × (self.now.table ≡ N.table) × (length N.cells ≡ task_count N.calls) }
    {
        &self.desk.lines
    }

    /// How many workers it is for, 1 to 64.
    pub fn workers(&self) -> u8
        ensures { result ≡ workers_of self.now.core }
    {
        self.workers
    }

    /// Whether no run is under way.
    pub fn is_idle(&self) -> bool
        ensures { IsTrue result ↔ IsIdle self.now }
    {
        for worker in 0..self.workers {
            if self.desk.works(worker) {
                return false;
            }
        }
        true
    }

    /// Whether the cell of some task that was done, or had failed, held a verdict before the book's, which is then in none.
    /// Only a book puts verdicts, and a cell has one book, so none is to be so; but no contract of a cell says that it is
    /// empty.
    pub fn is_forestalled(&self) -> bool
        ensures { result ≡ self.now.forestalled }
    {
        self.forestalled
    }

    /// Whether the due moment of some task that waits or is kept is reached.
    pub fn ripe(&self) -> bool
        ensures ripe { IsTrue result
            ↔ IsRipe self.now.core.calls
            (view_of_state self.now.core.calls (state_of self.now.core)) }
        ensures book { IsBook N.cells self.now }
        ensures named { (self.now.core.calls ≡ N.calls) × (workers_of self.now.core ≡ N.workers)
            × (self.now.table ≡ N.table) × (length N.cells ≡ task_count N.calls) }
    {
        self.desk.core.ripe()
    }
}

/// The run that an answer starts, if any.
fn work_of(answer: Option<Answer>) -> Option<Work>
    ensures { (a : Answer) → answer ≡ Some a → result ≡ work_started a }
{
    match answer {
        Some(Answer::Start { task, run, .. }) => Some(Work { task, run }),
        _ => None,
    }
}

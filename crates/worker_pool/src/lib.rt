//! The book of an executor whose tasks any thread may cancel: a core, the words of its tasks, and what happened.
//!
//! # Usage
//!
//! [`Shared`] holds the words of the tasks and a cell for the result of each. A [`Book`] takes events, as a core does, and
//! moves the words. A [`Handle`] goes to another thread: it cancels tasks and reads their states and results, without a lock.
//!
//! ```rust
//! /// A book for a code that submits one task, at moment 0 and due then.
//! fn run_code(rt: &(impl AllocGlobal + Abort), code: Code<Global>) -> Result<(), PoolError> {
//!     let (shared, seat) = Shared::new(rt.alloc(), code.tasks())?;
//!     run_book::<Brand>(rt, &shared, seat, code)
//! }
//!
//! /// The task is submitted, and cancelled before it starts.
//! fn run_book<N: Named>(
//!     rt: &(impl AllocGlobal + Abort),
//!     shared: &Shared<Global>,
//!     seat: CoreSeat<Global>,
//!     code: Code<Global>,
//! ) -> Result<(), PoolError>
//!     requires shared { (shared.now.table ≡ N.table) × (shared.now.cells ≡ N.cells) }
//!     requires seat { (seat.table ≡ shared.now.table) × (seat.view ≡ new_core shared.now.tasks) }
//!     requires tasks { shared.now.tasks ≡ task_count (calls_of code) }
//!     requires named { (calls_of code ≡ N.calls) × (1 ≡ N.workers) }
//! {
//!     let mut book = Book::<N, Global>::new(rt.alloc(), shared, seat, code, 1, 100)?;
//!     let mut handle = book.admit(shared)?;
//!     // `submit 0 schedule due 0` and `clock`.
//!     assert!(rt; book.apply(shared, Event::Clock(0))?.count == 2);
//!     assert!(rt; handle.cancel(0) == CancelAnswer::Yes);
//!     // `outside 0 yes` and `start 0 idle`.
//!     assert!(rt; book.apply(shared, Event::Start(0))?.count == 2);
//!     assert!(rt; handle.state(0) == TaskState::Cancelled);
//!     assert!(rt; book.lines().len() == 4);
//!     book.retire(shared, handle).map_err(|(error, _)| error)
//! }
//! ```
//!
//! `N` is a [`Named`], by which contracts tell of which words, cells, calls and workers a book is. It has no functions: a
//! caller picks [`Brand`], as `run_code` does, and says in the proof of that function which they are
//! (`book_tests/proofs/books/usage/run_code`).
//!
//! # Behaviour
//!
//! [`Book::apply`] is what `Core::event` is: the calls of the plan that the event reaches, and then the event. Before each of
//! them the words that it needs are moved. A word that is met cancelled tells that a handle won it: then the core cancels that
//! task from outside, which is the *noted* cancel, with a line of its own, and the book goes on from there: a start picks
//! anew, a run that ended is dropped, a sweep passes the task over. The word of a submission is never met so, since it is a
//! store, which clears the bit: no handle wins a task that is not submitted. Noted cancels are no events. Each task is noted
//! once at most.
//!
//! [`Book::note_cancels`] looks at each word and notes what it finds, and so does [`Book::retire`], once the handle's seat is
//! back. Until a cancel is noted a handle's state says `Cancelled` while the book's lines have the task as live.
//!
//! When a task is done, or has failed, the verdict goes into its cell, and the book notes it. A handle reads it with
//! [`Handle::result`]; [`Book::agrees`] gives it where both have read it. Should the cell hold a verdict already, which only
//! another book over it could have put, the book notes none, and [`Book::is_forestalled`] says so.
//!
//! # A pool
//!
//! A [`Pool`] is a book that threads share. [`Pool::run`] lets the clock show some moments, and at each of them runs what is
//! due, a [`Job`] for each start, in as many threads as the book has workers.
//!
//! Jobs are run without the lock. The page of `src/pool.rt` says who waits for whom. What is proved of a pool is that what lies
//! under its lock is a book, a new one at first, each time the lock is taken and when it ends, and what each hold of the lock does
//! to it and whom it is to wake; that its jobs are run, and that each call returns, is tested.
//!
//! # Order and ties
//!
//! [`Book::happenings`] and [`Book::lines`] are the oldest first. A noted cancel stands before what met it. A sweep,
//! [`Book::note_cancels`] and [`Book::retire`] meet tasks in ascending number; a start meets them by due moment, and then by
//! number; a clock meets them call by call. Of all who cancel a task one wins.
//!
//! # Errors
//!
//! [`PoolError`]. `Full`, `Seats`, and `Workers` before `Limit`, are tested before `Memory`. At `Full`, `Seats` and `Memory` the
//! book is as it was, and `retire` hands the handle back. The call may be made again, but after `Full` no event is taken any
//! more. [`Book::new`] drops the seat and the code. A run of a pool that was refused ends, and so does each later one; a run
//! beside another is refused as `Running`.
//!
//! # Memory and cost
//!
//! [`Book::new`] makes a box for the verdict on each task. The boxes are on the heap, since cells keep them: it is what the allocator
//! is a [`HeapAllocator`](heap_allocator::HeapAllocator) for. [`Book::apply`], [`Book::note_cancels`] and [`Book::retire`] first
//! make room for a line and a happening for the event, for each call that is left and for each task that is not cancelled; after
//! that nothing fails. The lists double, so most events take no memory. [`Book::admit`] asks for room for a note of each task,
//! which is a growth of no bytes, since notes take none.
//!
//! A handle's calls are one atomic step each. An event costs what it costs the core, and an atomic step for each word that it
//! moves; a sweep looks at each task; `note_cancels` and `retire` load each word. A clock that makes n submissions, with no
//! handle out, takes for each, beside what [`Core::event`](executor_core::Core::event) takes, an atomic step on its word and a
//! happening that is kept, at 2,000 calls as at 20,000.
//!
//! A pool takes no memory of its own but for its threads. A worker takes the lock once for a finish and the start after it.
//!
//! # Tests
//!
//! They stand in `book_tests` and `pool_tests`: rows of calls, with their answers and lines. Each growth of such a row is refused in
//! turn, and all others are granted (over the crate `refusing_allocator`): [`Shared::new`], [`Book::new`],
//! [`Book::apply`], [`Book::note_cancels`], [`Book::admit`] and [`Book::retire`] then tell [`PoolError::Memory`], and each
//! other call what it tells with ample memory; the refused call is made again, and the lines are those of the row; and no byte
//! stays in use. The boxes of verdicts are not asked of the allocator, but of the heap that it leads to: they
//! are neither refused nor counted there.
//!
//! Others are about several handles, errors and verdicts. One plays all short sequences
//! of steps over one plan, beside the plain program; the text of the lines of each goes through
//! [`check`](trace_check::check), which knows nothing of the book, and conforms. There are rows of calls of a pool, what is
//! answered to another thread while a job is run, and races of workers with handles and a clock, 200 rounds each, whose traces
//! go through `check` too; a thread beside each test fails it when it takes too long.
#![tactic(auto)]

mod applied;
mod book;
mod desk;
mod error;
mod handle;
mod moving;
mod named;
mod pool;
mod results;
mod shared;

pub use applied::{Applied, Work};
pub use book::Book;
pub use error::PoolError;
pub use handle::Handle;
pub use named::Named;
pub use pool::{Job, Pool};
pub use shared::Shared;

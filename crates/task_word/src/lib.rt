//! The words of tasks: what each says, and a table of them that any thread may read and cancel in.
//!
//! # Usage
//!
//! [`TaskWords::new`] makes a table of the words of the tasks 0, 1, .., all vacant, and the one [`CoreSeat`], which moves
//! tasks. [`CoreSeat::split`] cuts off a [`HandleSeat`] for another thread, which cancels tasks and reads their states
//! without a lock. All share the table by `&`. [`CoreSeat::join`] takes a handle back, [`CoreSeat::handles`] says how many
//! are out, and [`TaskWords::close`] gives the words as numbers once all threads have returned.
//!
//! ```rust
//! let (words, mut core) = TaskWords::new(alloc, 1)?; // of task 0
//! core.submit(&words, 0); // task 0 waits for run 0
//! assert!(rt; core.start(&words, 0) == Moved::Yes); // it is run
//!
//! let mut handle = core.split(&words)?; // for another thread
//! assert!(rt; handle.state(&words, 0) == TaskState::Running);
//! assert!(rt; handle.cancel(&words, 0) == CancelAnswer::Yes);
//! assert!(rt; core.done(&words, 0) == Moved::Cancelled); // its end is not written
//!
//! core.join(&words, handle);
//! let last = words.close(alloc, core)?;
//! assert_eq!(rt; last.as_slice(), [(1 << 63) + 2].as_slice());
//! ```
//!
//! # Behaviour
//!
//! A [`Word`] is a phase, the number of a run and the bit of a cancel. It is cancelled if and only if the bit is set and
//! its task waits or is run; on another phase the bit means nothing, and a submission clears it. These are the writes:
//!
//! | Call | Access | Word, from and to |
//! |---|---|---|
//! | [`CoreSeat::submit`] | store | vacant, with the bit or without, to new in run 0 |
//! | [`CoreSeat::start`] | compare-exchange | new in run n to running in run n |
//! | [`CoreSeat::done`], [`CoreSeat::fail`] | compare-exchange | running in run n to done, to failed in run n |
//! | [`CoreSeat::rearm`] | compare-exchange | running in run n to new in run n + 1 |
//! | [`CoreSeat::cancel`], [`HandleSeat::cancel`] | fetch-or | any, to the same with the bit |
//!
//! [`CoreSeat::look`] and [`HandleSeat::state`] are loads, and write nothing. The words that an exchange expects and
//! writes have no bit: where it meets the bit it answers [`Moved::Cancelled`] and writes nothing.
//!
//! # Order and ties
//!
//! Each call on a table makes one atomic access to the word of one task, sequentially consistent, and has no loop. No
//! write lowers a word's [`rank`](Word::rank), none changes a cancelled word, and none leads out of an end. Of the cancels
//! of one task by whatever seats exactly one answers that it cancelled the task, if the task is cancelled, and else none
//! ([`laws`]). A seat never meets a lower rank of a task than it met before.
//!
//! # Errors
//!
//! [`WordError::Memory`] where the allocator refuses, and [`WordError::Seats`] exactly when [`MOST_HANDLES`] handles are
//! out. A handle answers [`CancelAnswer::NoTask`] or [`TaskState::NoTask`] for a number past the table. What the core's
//! seat is asked for is its caller's to know: that the number is one of the table's, and that the task is in the phase
//! that the move leaves, which [`CoreSeat::look`] shows.
//!
//! # Memory and cost
//!
//! [`TaskWords::new`] takes 8 bytes for each task and 8 more, and a [`Word`] for each, which the core's seat keeps;
//! [`TaskWords::close`] takes 8 bytes for each task, and gives the table's back. No other call takes memory. Each takes
//! constant time, but `new` and `close`, which go over the tasks. A handle that is dropped and not joined counts as out for
//! good.
//!
//! The tests stand in `word_tests`.
#![tactic(auto)]

mod answers;
mod core_side;
mod fault;
mod handle_side;
pub mod laws;
mod limits;
mod phases;
mod plays;
mod rule;
mod table;
mod values;
mod views;

pub use answers::{CancelAnswer, CoreCancel, Moved, TaskState};
pub use core_side::CoreSeat;
pub use fault::WordError;
pub use handle_side::HandleSeat;
pub use limits::MOST_HANDLES;
pub use phases::Phase;
pub use table::TaskWords;
pub use values::Word;

//! Cells that are set at most once, each to the verdict on a task, and read by any thread without a lock.
//!
//! # Usage
//!
//! A [`ResultCell`] begins empty. [`put`](ResultCell::put) sets it to a [`Verdict`], if it is empty, and
//! [`read`](ResultCell::read) answers the verdict that it holds. Threads share a cell by `&`, and each goes by a
//! [`Note`] of its own, which [`note`](ResultCell::note) makes.
//!
//! ```rust
//! let cell = ResultCell::new(alloc);
//! let mut note = cell.note();
//! assert_eq!(rt; cell.read(&mut note), None); // nobody has put a verdict
//!
//! let ending = Ending::Value(7);
//! let done = Verdict { task: 0, ending };
//! assert!(rt; cell.put(&mut note, Box::new(alloc, done)?).is_ok());
//!
//! let ending = Ending::Fault(3);
//! let failed = Verdict { task: 0, ending };
//! assert!(rt; cell.put(&mut note, Box::new(alloc, failed)?).is_err()); // the first one stands
//! assert_eq!(rt; cell.read(&mut cell.note()), Some(done));
//! ```
//!
//! # Behaviour
//!
//! A note is what a proof knows of one cell: which cell it is of, and the verdict, once that was put or read with this
//! note. From then on each `read` with the note answers that verdict, and a `put` with it is refused. Two notes of one
//! cell that know a verdict know the same one, whichever threads had them ([`same`]). A note that knows nothing says
//! nothing of the cell, which may be set already.
//!
//! A caller with a cell and a note for each task keeps the notes in a `Vec`.
//!
//! A note goes to another thread, and is not shared by two.
//!
//! # Order and ties
//!
//! The first verdict that reaches a cell stays. Of several `put`s at once one is accepted, and nothing here says which; a
//! `read` beside them answers that verdict, or `None` where it comes before.
//!
//! # Errors
//!
//! No call fails but a `put` on a cell that was set before, which hands its box back with what it held. The cell is as
//! it was, and the note then knows the verdict that stands in it.
//!
//! # Memory and cost
//!
//! No call takes memory: the caller makes the box, which the cell keeps until it is dropped. A cell is one pointer, and
//! a note takes no bytes. `put` is one atomic exchange and `read` one atomic load, and neither waits. `same` does
//! nothing when it runs.
//!
//! # Tests
//!
//! They stand in `word_tests`.
#![tactic(auto)]

mod cell;
pub mod laws;
mod verdict;

pub use cell::{ResultCell, same};
pub use once_cell::race::Note;
pub use verdict::Verdict;

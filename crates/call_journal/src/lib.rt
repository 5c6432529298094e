//! The calls that a live executor was asked for, and the plan that makes them again.
//!
//! # Usage
//!
//! ```rust
//! let mut journal = Journal::new(alloc, true);
//! let call = CallLine::Schedule(5);
//! journal.make_room()?; // before the call is made
//! journal.note(MadeCall { moment: 7, call }); // once it is made
//! assert_eq!(rt; (journal.calls().len(), journal.is_over()), (1, false));
//!
//! let text = plan_text(alloc, journal.calls())?;
//! assert!(rt; text.starts_with("version = 2\n\n[[block]]\n"));
//! let plan = read_plan(alloc, text.as_bytes())?; // of `plan_read`
//! assert_eq!(rt; plan.blocks().len(), 1);
//! ```
//!
//! # Behaviour
//!
//! A [`Journal`] keeps the calls that were made, each with its moment, where it is told that they are wanted. It keeps at most
//! 65,536 of them, as many as a plan makes; what is made behind them is not kept, and [`Journal::is_over`] tells that there was some.
//!
//! [`plan_text`] prints a plan of version 2 in which each call is made at its moment. All blocks are made once. Each has 256 calls,
//! and the last one those that are left. The first block begins at 0, so the `at` of its calls is their moment; each other block
//! begins at the moment of its first call. Without a call there is no block, and the text is `version = 2`. Times are written with
//! the unit "ns" beside them, and an `at` that is 0 is left out.
//!
//! Tasks are named `t0`, `t1` and so on, in the order of all submissions, and a cancel of task K has the name `tK`. A period or a
//! fixed delay of 0 is written as such, and a plan that is read has none there.
//!
//! # What is proved
//!
//! The text that [`plan_text`] prints writes a plan, and the calls of that plan (`calls_of_plan` of `plan_compile`) are exactly those
//! that were handed in (`executor_calls` in `specs/MadeCalls.antt`), each at its moment and with its task's number: clause `plan`, and
//! the law [`trees_make_the_calls`]. This asks that a plan may make them: at most 65,536 calls, whose moments do not fall and are at
//! most 2^62, whose spans are in the ranges of [`CallLine`], and whose cancels name tasks submitted before them. What a live run notes
//! in an empty journal is such, by a law of `live_engine`.
//!
//! # Order and ties
//!
//! Calls stand in the text in the order in which they were made. `plan_read` refuses a text whose moments fall, whose moments or
//! spans are above 2^62, or in which a cancel names a task that is not submitted before it: no such calls are made.
//!
//! # Errors
//!
//! [`Journal::make_room`] fails where the memory is refused, and the journal stays as it is. [`plan_text`] answers a
//! [`PlanFault`](plan_read::PlanFault) of block 0 and call 0: `TooMany` where there are more than 65,536 calls, `TooLong` where the
//! text would have more than 1,048,576 bytes, as it has with some 20,000 calls and more, and `Memory`.
//!
//! # Memory and cost
//!
//! A journal takes memory of its allocator in [`Journal::make_room`] alone, and at least twice as much each time; where no calls are
//! wanted it takes none. [`plan_text`] takes memory of the heap for a tree of the whole plan and for its text, in the time of n log n
//! for n calls.
//!
//! # Tests
//!
//! They stand in `compile_tests`.
#![tactic(auto)]

mod blocks;
mod calls;
mod entries;
mod journal;
mod laws;
mod limits;
mod plans;

pub use call_text::CallLine;
pub use journal::{Journal, MadeCall};
pub use laws::trees_make_the_calls;
pub use plans::plan_text;

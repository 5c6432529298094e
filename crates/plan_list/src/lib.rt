//! What a plan is, in lines: its tasks, a line for each of its submissions, with the number and the name of its task; and the listing
//! of its queue code.
//!
//! # Usage
//!
//! ```rust
//! let text = b"version = 2\n[[block]]\ncall = [ { op = \"execute\", name = \"backup\" } ]\n";
//! let mut writer = Writing::new(Vec::new(alloc));
//! write_tasks(alloc, text, &mut writer)?;
//! let lines = writer.into_inner();
//! assert_eq!(rt;
//!     lines.as_slice(),
//!     b"0 backup schedule submitted 0 due 0\n".as_slice()
//! );
//!
//! let plan = read_plan(alloc, text)?;
//! let names = names_of_tasks(alloc, &plan)?;
//! assert_eq!(rt; names.first().map(|name| name.as_str()), Some("backup")); // of task 0
//! ```
//!
//! # Behaviour
//!
//! The lines are those of the plan's [`Submissions`](plan_compile::Submissions), in ascending number: a repeated block makes each
//! of its submissions once in each iteration. [`names_of_tasks`](plan_compile::names_of_tasks) gives their names alone.
//! [`write_listing`] writes the text of the code to which the plan is compiled, a line for each instruction.
//!
//! | A submission | Its line |
//! |---|---|
//! | that is accepted unless the executor is shut by then | `K NAME KIND submitted M due D` |
//! | whose period, or fixed delay, is zero or negative | `K NAME KIND submitted M refused illegal` |
//!
//! `K` is the number of the task, `NAME` its name. `KIND` is the word of its line in a trace: `schedule`, of an `execute` too,
//! `rate` or `fixed`. `M` is the moment of its call, and `D` the due moment of its first run, in nanoseconds: `M` and a `delay` of
//! `schedule` or a `first` are at most 2^62, so `D` is at most 2^63.
//!
//! # Errors
//!
//! Both answer [`ListingError::Code`] with the fault of the text, or want of memory, with nothing written, and
//! [`ListingError::Write`] after a front of the lines.
//!
//! # Memory and cost
//!
//! [`write_tasks`] takes the plan, and 64 KiB for the text that is not written yet, however often a block is made. [`write_listing`]
//! takes the code and its whole text.
//!
//! The tests stand in `compile_tests`, and those of listings in `run_tests`.
#![tactic(auto)]

mod error;
mod listing;
mod page;
mod writing;

pub use error::ListingError;
pub use listing::write_listing;
pub use writing::write_tasks;

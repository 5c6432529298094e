//! The executor as a plain program, which stands beside the definitions.
//!
//! # Usage
//!
//! ```rust
//! let lines = trace(alloc, &[], 1, &[Event::Clock(3), Event::Start(0)])?;
//! assert_eq!(rt; lines.len(), 2); // the clock is at 3, and the worker gets no work
//! ```
//!
//! [`trace`] gives the lines of some events, as a core of the same calls does, and [`trace_of_happenings`] those of
//! happenings, among which the calls stand too. [`answer_after`] gives the answer to one happening after a history, and
//! [`ends_after`] the tasks that this answer ends. [`planned_calls`] writes the calls of a code out.
//!
//! # Behaviour
//!
//! It keeps no state. Each answer counts again in the whole history before it, and each function is one
//! definition. So it is easy to read, and what the core answers can be compared with it. It answers as the core
//! does, but takes any number of events: a core stops at its limit.
//!
//! # Order and ties
//!
//! Those of the core: by due moment, and at the same one by submission. A history is a slice of [`Past`], the newest
//! first; events and lines stand the oldest first.
//!
//! # Errors
//!
//! `trace`, `trace_of_happenings`, `ends_after` and `planned_calls` fail only where there is no memory, and `answer_after` does not fail.
//!
//! # Memory and cost
//!
//! `trace` and `trace_of_happenings` take memory for the history and for the lines, `ends_after` for the tasks, `planned_calls` for the
//! calls, and `answer_after` takes none.
//! An answer to a start, and the tasks of a sweep, go over the whole history once and more for each task; an answer to
//! a question goes over what stands before each entry once and more for each task, and each other one over the whole
//! history a few times: it is slow, and for tests.
//!
//! # Tests
//!
//! `check_tests` compares this program with cores, over the crate `scripted_runs`. The tests of
//! `executor_model`, and of `executor_core` by itself, stand in `core_tests`.
#![tactic(auto)]

mod calls;
mod ends;
mod history;
mod kept;
mod policies;
mod queue;
mod table;
mod tasks;
mod telling;
mod tracing;

pub use calls::planned_calls;
pub use ends::ends_after;
pub use history::Past;
pub use table::answer_after;
pub use tracing::{trace, trace_of_happenings};

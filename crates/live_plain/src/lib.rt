//! The plain program beside the executor whose calls are made while it runs.
//!
//! # Usage
//!
//! ```rust
//! let none = LiveLine::Event(Event::Cancel(0));
//! let clock = LiveLine::Event(Event::Clock(3));
//! let submit = LiveLine::Call(CallLine::Schedule(5));
//! let cancel = LiveLine::Call(CallLine::Cancel(0));
//!
//! // No task has the number 0 yet, the clock is at 3, task 0 is submitted at 4, and is cancelled.
//! let told = trace_of_lines(alloc, 1, &[none, clock, submit, cancel])?;
//! assert_eq!(rt; told.as_ref().map(|lines| lines.len()), Some(4));
//!
//! // The number 0 was not given out: a call that cancels it is as the event, also behind the last moment of calls.
//! let last = LiveLine::Event(Event::Clock(LONGEST));
//! let none_told = trace_of_lines(alloc, 1, &[last, cancel])?;
//! assert_eq!(rt; none_told.map(|lines| lines.len()), Some(2));
//!
//! // Behind that no call is made.
//! assert!(rt; trace_of_lines(alloc, 1, &[last, submit])?.is_none());
//! ```
//!
//! [`trace_of_lines`] gives the lines of the trace of some lines of a live input, as `run` of `live_engine` writes them.
//!
//! # Behaviour
//!
//! It keeps no state of a task, and answers no line as it comes. It goes over the lines once, and writes down a script: each call with
//! its moment, and what happens. Then it has `trace_of_happenings` of `executor_plain` tell of all of it, with the calls as if they
//! were known from the start. That this is what an executor tells that knows no call before it is made is proved: calls may be
//! added behind others, once things have happened that look at none of them.
//!
//! A call is made at the moment that comes next, which is now, or 1 ns after the last accepted clock, whichever is later. A cancel
//! from outside of a number that was not given out yet names no task in the script, also none that is given that number later. A
//! cancel by a call of such a number is as one from outside.
//!
//! That a live executor and the core of a plan with its calls give the same lines is a law here,
//! [`a_live_executor_gives_the_lines_of_a_plan`].
//!
//! # Order and ties
//!
//! The lines of the input and those of the trace stand the oldest first. Ties are those of the executor: by due moment, and at the
//! same one by submission.
//!
//! # Errors
//!
//! `trace_of_lines` fails only where there is no memory. It answers `None` exactly where a line is not plain: a call with a number
//! that is out of its range, a call once 65,536 were made, and a call whose moment would be above 2^62 ns.
//!
//! # Memory and cost
//!
//! It takes memory for the calls, for what happens and for the lines, and what `trace_of_happenings` takes. Each answer is counted
//! again in the whole history before it: it is slow, and for tests.
//!
//! # Tests
//!
//! `live_run_tests` compares it with the executor of `live_core`: on all sequences of so many lines over several alphabets, and on
//! sequences that are drawn.
#![tactic(auto)]

mod call_codes;
mod laws;
mod script;
mod tracing;

pub use laws::a_live_executor_gives_the_lines_of_a_plan;
pub use tracing::trace_of_lines;

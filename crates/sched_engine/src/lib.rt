//! Runs a plan over event lines and writes its trace: from bytes in to bytes out.
//!
//! # Usage
//!
//! ```rust
//! let plan = "version = 2\n[[block]]\ncall = [ { op = \"execute\", name = \"a\" } ]\n";
//! let events = b"clock 5\nstart 0\nfinish 0 ok 7\n";
//! let (answer, trace) = run_in_memory(alloc, plan.as_bytes(), 1, 1_000, events);
//! assert_eq!(rt; answer.map(|report| report.events), Ok(3));
//! let text = "0 submit 0 schedule due 0\n5 clock\n5 start 0 task 0 run 0 due 0\n\
//!     5 finish 0 task 0 run 0 done 7\n";
//! assert_eq!(rt; trace.as_slice(), text.as_bytes());
//! ```
//!
//! [`run`] takes any [`Source`](byte_ends::Source) and any [`Sink`](byte_ends::Sink), of the crate `byte_ends`; [`run_in_memory`]
//! does with no ends at all.
//!
//! # Behaviour
//!
//! The plan is read and compiled to a queue code, from which the core of the run is made. A run goes in turns. A turn reads once, at
//! most 64 KiB; then it answers each event line that has come whole, and writes the answers. So between two reads every event that
//! was read has its answer written, and at most a part of one line is held. An event line has at most 63 bytes with its newline.
//!
//! # Order and ties
//!
//! The lines of the trace stand in the order of the events; the calls that a clock reaches stand
//! before it, by their moments. Which task starts is as `executor_core` has it.
//!
//! # Errors
//!
//! | Error | When | What was written |
//! |---|---|---|
//! | [`RunError::Plan`], then [`RunError::Workers`], then [`RunError::Limit`] | before anything is read | nothing |
//! | [`RunError::EventLine`] | that line is no event's, counted from 1 | the answers to all events before |
//! | [`RunError::Full`] | a further event follows as many as the limit allows | the answers to these |
//! | [`RunError::Read`] | the reader was at fault, or interrupted 1,000 times in a row | the answers to all whole lines read |
//! | [`RunError::Write`] | the writer was at fault, took nothing, or was interrupted 1,000 times in a row | a front of some events' answers |
//! | [`RunError::Memory`] | memory was refused before anything is read | nothing |
//! | | memory was refused for the lines of a further event, within the limit | the answers to all events before |
//!
//! These are put together of the errors of each stage, as a caller is told: [`CodeError`], [`OpenError`], [`StopError`].
//!
//! When an end is at fault is as `byte_ends` has it. An end at fault is not called again. At most one piece, 64 KiB, is read behind
//! the last event that was taken.
//!
//! # Memory and cost
//!
//! A run takes two buffers of 64 KiB, what the plan's core takes, and room for the lines of one
//! event, which is one, one for each call left and one for each task not cancelled; what the reading of the plan
//! took is given back before the first event is read. Once these have grown, an event takes no
//! memory, and a run's memory does not grow with its input. The calls that a clock reaches are made
//! one at a time, each with its lines given out, so of the room for lines no more is written than
//! the lines of one call take. A text that is longer than its buffer is written as it comes. A byte of input is looked at once or twice, and again at each read while its
//! line is not whole.
//!
//! The tests stand in `run_tests`.
#![tactic(auto)]

mod answering;
mod draft;
mod engine;
mod in_memory;
mod laws;
mod one_event;
mod report;

pub use draft::Draft;
pub use engine::{code_of, core_of, run};
pub use in_memory::run_in_memory;
pub use laws::{events_are_one, front_is_one, report_equality_tells, run_error_equality_tells};
pub use plan_read::HeapAllocator;
pub use report::{CodeError, OpenError, Report, RunError, StopError};

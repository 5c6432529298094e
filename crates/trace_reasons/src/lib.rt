//! Why a trace breaks: the line, what stands there and what could have stood there.
//!
//! # Usage
//!
//! ```rust
//! let plan = read_plan(alloc, b"version = 2\n")?; // of no calls
//! assert!(rt; reason_of_trace(alloc, &plan, 1, b"5 clock\n")?.is_none());
//! let reason = reason_of_trace(alloc, &plan, 1, b"5 clock\n4 clock\n")?;
//! let reason = reason.ok_or("no reason")?;
//! let told = reason.in_file("trace.txt").to_string(alloc)?;
//! let wanted = "trace.txt:2: \"4 clock\": breaks; \
//!     \"5 error backward\" or \"5 clock\" could stand here";
//! assert_eq!(rt; told.as_str(), wanted);
//! ```
//!
//! # Behaviour
//!
//! [`reason_of_trace`] answers `None` exactly where the text conforms, as [`check`](trace_check::check) finds it, and else a
//! [`TraceReason`] with the line at which it breaks. Beside its number a reason has
//!
//! | Field | What |
//! |---|---|
//! | `found` | the line that stands there; none where the text ends before it |
//! | `fault` | why that line cannot be read, as [`line_reasons`] tells it; none where it can |
//! | `lines` | lines that could stand there, at most three |
//! | `workers` | the numbers of workers with which the whole text conforms |
//!
//! A reason prints as one line, `PLACE, WHAT STANDS: WHAT IS WRONG; WHAT IS WANTED`:
//!
//! - `line 3, "5 start 0 idle": breaks; "5 start 0 task 0 run 0 due 5" could stand here`
//! - `line 9, the text ends: breaks; "5 end 3" is wanted`
//! - `line 2, "05 clock": leading zero in "05"; a number has none; "5 clock" could stand here`
//! - `line 5, "25 start 1 idle": breaks; "25 error no worker" could stand here; conforms with --workers 2 to 64`
//!
//! A line that stands there is cut at 40 characters, and has escapes for characters that cannot be seen and for bytes that are no
//! UTF-8. Lines that could stand there are whole.
//!
//! # Which lines are told
//!
//! Where the answer before has a line that is still to come, that line alone. Else what the executor answers behind the lines
//! before, what is wanted most first:
//!
//! | What stands there is about | What is answered to |
//! |---|---|
//! | a call of the plan | the next call, where one is left |
//! | `clock` | the clock of the moment in front; where it would go back, also the clock M |
//! | `start W` | the start; where W runs a task, first its end with the value 0 |
//! | `finish W` | the end with that value or that code, or with the value 0; where W runs no task, first its start |
//! | `outside K` | the cancel of K |
//! | `purge` | the purge |
//! | `error ..` | an event that may get the error |
//! | anything else | the next call, the clock M, and the start of worker 0 |
//!
//! M is the greater one of the moment in front of the line and the moment of the trace so far. Where the one in front is later,
//! the clock M is told too: before what the line is about, or behind a call. Where a call of the plan comes before a clock, that
//! call stands in its place. Where nothing is told by then, the last row is.
//!
//! What a line is about is told by its words, so that also a line which cannot be read is about something: `05  start 0` is about
//! the start of worker 0. No line is told where the lines before the break leave no room for one in the greatest length of a
//! text.
//!
//! # Errors
//!
//! [`CheckError::Workers`](trace_check::CheckError::Workers) where the number of workers is not 1 to 64, and else
//! [`CheckError::Memory`](trace_check::CheckError::Memory) where a growth was refused.
//!
//! # What is proved
//!
//! That there is no reason exactly where the text conforms, and that else it breaks at the line that is told; that what is told
//! to stand there does stand there; that a fault is told exactly of a line that is none; that each line which is told could stand
//! there: the lines before it with this one behind them break neither at it nor before it (`CouldStand`); that there are three at
//! most, no two of them equal; and that the numbers of workers are those with which the text conforms, in ascending order. Which
//! lines are told, that any is, which fault it is, and the text of a reason are only tested, in `reason_tests`.
//!
//! # Memory and cost
//!
//! A text is checked once, and its lines are kept meanwhile, at least 32 bytes each. One that breaks is checked once more for each other
//! number of workers, up to its break there. An executor takes its lines before the break at most six times to find lines that may
//! be wanted, at most four, and they are checked once more with each of these, until three are told, to see whether it could stand;
//! for that their text is copied. A reason borrows the line that stands there from the text, and owns the rest.
//!
//! The tests stand in `reason_tests`.
#![tactic(auto)]

mod asked;
mod candidates;
mod finding;
mod numbers;
mod places;
mod reason;
mod replay;
mod scene;
mod standing;
mod told;

pub use finding::reason_of_trace;
pub use reason::{InFile, TraceReason};

//! A checker of traces: whether a text is a trace that a plan allows, and else at which line it breaks.
//!
//! # Usage
//!
//! ```rust
//! // One task, which is due at once.
//! let text = "version = 2\n[[block]]\ncall = [ { op = \"execute\", name = \"a\" } ]\n";
//! let plan = read_plan(alloc, text.as_bytes())?;
//! let finding = check(alloc, &plan, 1, b"0 submit 0 schedule due 0\n0 clock\n")?;
//! assert_eq!(rt; finding, Finding::Conforms);
//! let finding = check(alloc, &plan, 1, b"0 submit 0 schedule due 6\n0 clock\n")?;
//! assert_eq!(rt; finding, Finding::Breaks(1));
//! ```
//!
//! The trace may come from any program. It is held against the plan alone: no events are given. [`check_and_read`] also hands on
//! the lines that it read, for a caller that goes on with them.
//!
//! # Behaviour
//!
//! A text conforms exactly where it is the text of a history of the plan: some list of happenings, each answered as the
//! executor answers it, with a line for each answer and one for each task that it ends. In such a list the plan's calls stand in
//! their order, each before any accepted clock that has reached its moment. Calls may stand with no clock after them, and other
//! happenings between them. [`traces_conform`] is this law. It asks that each line can be spelled, which is so of each history whose
//! runs ended with values of 64 bits and codes of 32 ([`histories_fit`]). So the text of such a history conforms
//! ([`histories_conform`]), wherever a cancel from outside or a purge stands in it.
//!
//! A line tells the happening that it answers, or all that matters of it. Where it leaves something open, any event
//! that gets the line will do, and one of them, the *representative*, is tried:
//!
//! | Line, behind its moment M | Representative |
//! |---|---|
//! | of a submission, a refusal, `cancel`, `policy`, `shutdown`, `shutdown again`, `shutdown now`, `ask` | the next call of the plan |
//! | `clock` | the clock shows M |
//! | `start W ..` | worker W asks for work |
//! | `finish W ..` | worker W has run its task: with the value of `done`, the code of `failed`, and else the value 0 |
//! | `outside K ..` | task K is cancelled |
//! | `purge` | the kept tasks leave the queue |
//! | `error backward`, `error too far` | the clock shows 0, or 2^62 + 1 |
//! | `error no worker`, `error no task` | worker 255 asks for work, or task 4,294,967,295 is cancelled |
//! | `error busy` | the busy worker of least number asks for work |
//! | `error not running` | the worker of least number that is not busy has run its task, with the value 0 |
//!
//! Where there is no such worker the line has none. A line `end K` has none either: it belongs to the answer before it.
//! Lines *go* where their representatives have a history, and they are a front of its lines.
//!
//! # Order and ties
//!
//! [`Finding::Breaks`] has the least number n such that the text does not begin with n lines that go: line n is not a line, or has
//! no newline, or lines 1 to n do not go. Where all lines go and one that ends a task is still to come, n is the number of
//! lines plus 1. Lines are counted from 1. Of a text one thing at most is found ([`findings_are_one`]), and one is ([`breaks_or_conforms`]).
//!
//! # Errors
//!
//! [`CheckError::Workers`] where the number of workers is not 1 to 64, and else [`CheckError::Memory`] where a growth was refused.
//!
//! # Memory and cost
//!
//! All memory of a [`check`] is taken before the first line: the code of the plan, a core for it, and room for as many lines as a core may ask
//! for, which are at most 131,073. Each line is read once and answered once, for what the core's answer costs
//! (see [`Core`](executor_core::Core)); one of the two errors on a worker's state looks at the workers, at most 64, as well.
//! [`check_and_read`] takes memory for lines as they come, at least 32 bytes each.
//!
//! The tests stand in `check_tests`.
#![tactic(auto)]

mod busy;
mod checking;
mod error;
mod finding;
mod laws;

pub use checking::{MOST_BYTES, check, check_and_read};
pub use error::CheckError;
pub use finding::Finding;
pub use laws::{
    breaks_or_conforms, check_error_equality_tells, finding_equality_tells, findings_are_one,
    fronts_go, goes_line_by_line, goes_only_one_way, histories_conform, histories_fit,
    most_bytes_is_the_limit, traces_conform, traces_go,
};

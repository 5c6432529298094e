//! Runs an executor whose calls come on its input beside the events, and writes its trace.
//!
//! # Usage
//!
//! ```rust
//! let mut journal = Journal::new(alloc, false);
//! let mut reader = Pieces::new(b"call schedule 5\nclock 5\nstart 0\n", 64);
//! let mut writer = Writing::new(Vec::new(alloc));
//! let report = run(alloc, 2, &mut journal, &mut reader, &mut writer)?;
//! assert_eq!(rt; (report.lines_read, report.lines_written), (3, 3));
//! let trace = writer.into_inner();
//! assert!(rt; trace.starts_with(b"0 submit 0 schedule due 5\n5 clock\n5 start 0 task 0"));
//! ```
//!
//! # Behaviour
//!
//! A line of the input is that of an event, as in a run of a plan, or that of a call, as `call_text` has them. Each is answered by
//! lines of the trace as soon as it has come whole, so whoever feeds lines sees each answer before the run waits for more: a turn
//! reads once, at most 64 KiB, answers each line that has come whole, and writes the answers. Between two reads at most a part of one
//! line is held.
//!
//! A call is made at once: its moment is now, or 1 ns after the last accepted clock, whichever is later. Submissions are numbered 0,
//! 1, .. in the order of their lines, whether they are accepted or not. An event `cancel K` whose number was not given out yet
//! is answered `error no task`, and cancels no task, also none that is given that number later. A `call cancel K` of such a number
//! is taken as that event: it makes no call, is not noted, and the run goes on.
//!
//! Each call that is made is noted in the journal that is handed in, which keeps the first 65,536 of them where they are wanted. A
//! plan may make those that are noted in an empty one, also where the run ends at an error, and the text that
//! `call_journal::plan_text` prints of them makes exactly these: [`noted_calls_may_be_planned`].
//!
//! # Errors
//!
//! | Error | When | What was written |
//! |---|---|---|
//! | [`RunError::Workers`] | the workers are not 1 to 64 | nothing, and nothing was read |
//! | [`RunError::EventLine`] | that line, counted from 1, is no line | the answers to all lines before |
//! | [`RunError::Full`] | a further line follows for which there is no room: see below | the answers to all lines before |
//! | [`RunError::Read`] | the reader was at fault, or interrupted 1,000 times in a row | the answers to all whole lines read |
//! | [`RunError::Write`] | the writer was at fault, took nothing, or was interrupted 1,000 times in a row | a front of some lines' answers |
//! | [`RunError::Memory`] | memory was refused at the start | nothing, and nothing was read |
//! | | memory was refused for a further line that makes a call, and for which there is room | the answers to all lines before |
//!
//! There is no room for a call whose moment would be above 2^62 ns, for a submission where 2^32 numbers were given out, for a start
//! that would begin a run whose number is 2^64 - 1, and for a line with whose answer the trace would have more than 2^64 - 2 lines.
//!
//! # Memory and cost
//!
//! A run takes two buffers of 64 KiB, what its executor takes, room for the lines of one answer, and the journal's calls. It takes
//! memory only for submissions that need a slot, for longer answers than any before, and for calls that are noted: for no event.
//!
//! The tests stand in `live_run_tests`.
#![tactic(auto)]

mod answer_texts;
mod answering;
mod counts;
mod engine;
mod laws;
mod live_line;
mod one_line;
mod opening;
mod replies;
mod report;
mod splitting;
mod step_calls;
mod step_events;
mod stepping;
mod stops;

pub use engine::run;
pub use laws::noted_calls_may_be_planned;
pub use live_line::LiveLine;
pub use opening::OpenError;
pub use report::LiveReport;

//! What each command of `sched` does with its files, and which fault it tells.
//!
//! # Usage
//!
//! ```rust
//! let asked = RunArguments {
//!     path: "plan.toml",
//!     workers: 1,
//!     limit: 100,
//! };
//! let plan = Ok(Pieces::new(b"version = 2\n", 512)); // of no calls
//! let mut events = Pieces::new(b"clock 5\n", 512);
//! let mut trace = Writing::new(Vec::new(alloc));
//! let status = run_file(alloc, &asked, plan, &mut events, &mut trace);
//! assert!(rt; status == Ok(0));
//! assert!(rt; trace.into_inner().as_slice() == b"5 clock\n".as_slice());
//! ```
//!
//! # Behaviour
//!
//! Each command has a function, over files as the system opened them, a reader of events and a writer. At most [`MOST_OF_PLAN`] bytes of a
//! plan's file are read ([`plan_text`]), and [`MOST_OF_TRACE`] of a trace's ([`trace_text`]).
//!
//! | Command | Its function |
//! |---|---|
//! | `run` | [`run_file`] |
//! | `pool` | [`pool_file`], which may wait for its threads |
//! | `code` | [`list_file`] |
//! | `tasks` | [`tasks_file`] |
//! | `check` | [`check_files`] |
//! | `migrate` | [`migrate_file`] |
//! | `draw` | [`draw_files`] |
//! | `live` | [`live_lines`], and [`write_plan`] for the plan of its calls |
//! | `lint` | [`find_wrong`], which answers the line that says what is wrong, or those that tell what is odd, each a [`Refusal`] |
//!
//! # Errors
//!
//! A [`ProgramError`] is the first fault: of the plan's file, the plan, the trace's file, the numbers, then the run. Nothing is written
//! before the run, the picture or the listing begins.
//!
//! The tests stand in `command_tests`, those of files in `program_tests`.
#![tactic(auto)]

mod drawing;
mod error;
mod files;
mod finding;
mod laws;
mod lint;
mod lint_files;
mod lint_lines;
mod lint_warnings;
mod live;
mod refusal;
mod work;

pub use drawing::draw_files;
pub use error::ProgramError;
pub use files::{MOST_OF_PLAN, MOST_OF_TRACE, plan_front, plan_text, trace_text, whole_trace};
pub use laws::program_error_equality_tells;
pub use lint::{Beside, Found, Looked, find_wrong};
pub use live::{live_lines, write_plan, write_plan_text};
pub use refusal::Refusal;
pub use work::{check_files, list_file, migrate_file, pool_file, run_file, tasks_file};

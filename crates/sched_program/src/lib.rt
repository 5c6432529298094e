//! The program `sched`, over any files, events, outputs and threads: what it does for the arguments of its command line, and how it tells
//! that.
//!
//! # Usage
//!
//! ```rust
//! let mut faults = Writing::new(Vec::new(alloc));
//! let status = tell(&mut faults, Err(ProgramError::PlanFile), None);
//! assert!(rt; status == 1);
//! assert!(rt; faults.into_inner().as_slice() == b"sched: plan file not read\n".as_slice());
//! ```
//!
//! # Behaviour
//!
//! [`program`] reads the arguments of the command line, does what they ask for by [`serve`], and tells how that ended by [`tell`], or
//! shows help. [`serve`] opens the files that are named and does a command's work: that of a pool, of a lint ([`lint_files`]), or what one
//! thread does ([`answer_alone`]). All but a pool's work waits for no other thread, and returns.
//!
//! Behind the line of a file that was not read or not written stands a second one that names it and the system's reason, and behind `full`
//! one that names the limit and the option ([`Hints`]).
//!
//! The tests stand in `program_tests`, those of the lines of errors in `command_tests`.
#![tactic(auto)]

mod answer;
mod answering;
mod error_line;
mod hints;
mod linting;
mod noted;
mod opening;
mod serving;

pub use answer::Answer;
pub use answering::program;
pub use error_line::tell;
pub use hints::Hints;
pub use linting::lint_files;
pub use serving::{answer_alone, serve};

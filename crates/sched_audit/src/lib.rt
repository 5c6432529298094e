//! A run whose trace is checked: the trace of each run conforms.
//!
//! # Usage
//!
//! ```rust
//! let plan = "version = 2\n[[block]]\ncall = [ { op = \"execute\", name = \"a\" } ]\n";
//! let audit = run_and_check(alloc, plan.as_bytes(), 1, 1_000, b"clock 5\nstart 0\n")?;
//! assert_eq!(rt; audit.answer.map(|report| report.events), Ok(2));
//! assert!(rt;
//!     audit
//!         .trace
//!         .starts_with(b"0 submit 0 schedule due 0\n5 clock\n5 start 0 task 0")
//! );
//! assert_eq!(rt; audit.finding, Finding::Conforms);
//! ```
//!
//! # Behaviour
//!
//! The run is that of [`run_in_memory`](sched_engine::run_in_memory), and the check that of
//! [`check`](trace_check::check), with the same plan text and as many workers. Both are held to the definition of what
//! a trace is, one from events to lines, the other from lines to a finding. That what is found is always
//! [`Conforms`](trace_check::Finding::Conforms) is proved of [`run_and_check`].
//!
//! A run that ends at a line that is no event's, or at its limit, wrote the trace of the events before. Its
//! trace is checked as well, and conforms.
//!
//! The law [`histories_conform`](trace_check::histories_conform) stands behind this: the text of each history of the plan
//! conforms, and the trace of a run is one.
//!
//! # Order and ties
//!
//! The lines of the trace stand in the order that [`run`](sched_engine::run) gives them.
//!
//! # Errors
//!
//! | Error | When |
//! |---|---|
//! | [`AuditError::Run`] | the run wrote no whole trace: its plan, its workers or its limit was refused, or memory ran out |
//! | [`AuditError::TooLong`] | the trace has more bytes than a check takes, 67,108,864 |
//! | [`AuditError::Memory`] | memory ran out while the trace was checked |
//!
//! The errors are looked for in this order, but for want of memory, which may come in place of each. Nothing is kept after an error.
//!
//! # Memory and cost
//!
//! The trace is held whole. The plan is read twice, once for the run and once for the check, and what the run took is
//! given back before the check begins, but for the trace. A line costs its answer twice: once when it is written, and once when
//! it is checked.
//!
//! # Tests
//!
//! They stand in `run_tests`: over the crate `scripted_runs`, runs that end early, the texts of errors, and runs, checks and listings of
//! 80 KB and more.
//!
//! Some are about crates below as well: of a plan that is read, compiled, listed, run and checked, and of an event, each
//! growth is refused in turn, over the crate `refusing_allocator`, which refuses one growth and grants all others. Want of
//! memory is then told, or nothing else than with ample memory; all memory is given back; what was written is the text of whole
//! events; and an event that was refused is given again. What the crate `toml` takes is of the heap of the system, and is granted
//! here: `tools/refuse_growths` refuses the program that.
#![tactic(auto)]

mod audit;
mod error;
mod laws;

pub use audit::{Audit, run_and_check};
pub use error::AuditError;
pub use laws::audit_error_equality_tells;

//! Runs a plan by a pool of workers over clock lines, and writes its trace: from bytes in to bytes out.
//!
//! # Usage
//!
//! ```rust
//! let plan = "version = 2\n[[block]]\ncall = [ { op = \"execute\", name = \"a\" } ]\n";
//! let mut reader = Pieces::new(b"clock 0\nclock 5\n", 64);
//! let mut writer = Writing::new(Vec::new(alloc));
//! let report = run_pool(
//!     &rt,
//!     alloc,
//!     plan.as_bytes(),
//!     1,
//!     100,
//!     &mut reader,
//!     &mut writer,
//! )?;
//! assert_eq!(rt; (report.events, report.lines), (4, 5)); // two clocks, a start and a finish
//! let trace = writer.into_inner();
//! assert!(rt; trace.starts_with(b"0 submit 0 schedule due 0\n0 clock\n0 start 0 task 0"));
//! ```
//!
//! The plan, the readers and writers, the report and the errors are those of `sched_engine`. A job of one's own is given to a
//! [`Pool`](worker_pool::Pool), which [`run_pool`] is made of.
//!
//! # Behaviour
//!
//! The plan is read and compiled, and the two numbers are tested. Then all of the input is read, which is lines of clocks alone; a
//! line is as [`run`](sched_engine::run) reads it. Then a pool runs the plan through their moments: at each of them its workers
//! start what is due, until nothing is. The value of a run is its number. At last the text of all lines is written, in one pass.
//!
//! Before anything is written the ended book is looked at: its clocks are those of the input, in order, its starts and finishes are
//! by the pool's workers, nothing is a cancel from outside or a purge, nothing is due in it, no run is under way, and it has no more events than
//! the limit. At the limit it has exactly as many, and its clocks are the first of the input. A book that is not so is told as
//! [`RunError::Lost`](sched_engine::RunError::Lost). So what is promised of a run that ends well rests on the book alone, and on
//! nothing that is said of threads.
//!
//! # Order and ties
//!
//! Lines stand in the order in which the lock of the pool was taken. Which worker starts a task is left open; in which order tasks
//! start is as `executor_core` has it.
//!
//! # Errors
//!
//! | Error | When | What was written |
//! |---|---|---|
//! | `Plan`, then `Workers`, then `Limit` | before anything is read | nothing |
//! | `EventLine` | that line, counted from 1, is the first that is no clock's | nothing |
//! | `Full` | a further clock line follows as many as the limit allows | nothing |
//! | | the pool took as many events as the limit allows | the text of these |
//! | `Read` | the reader was at fault, or interrupted 1,000 times in a row | nothing |
//! | `Write` | the writer was at fault, took nothing, or was interrupted 1,000 times in a row | a front of the text |
//! | `Lost` | the ended book is not as it has to be | nothing |
//! | `Memory` | memory was refused, or a thread could not be made | nothing |
//!
//! The reading ends at the first line that is no clock's, or that is one past the limit, whichever comes first. Events are clocks,
//! starts and finishes: cancels of handles are none, and no handle is out.
//!
//! # Memory and cost
//!
//! A run takes a buffer of 64 KiB to read, 8 bytes for each clock, a buffer of 64 KiB to write, and what the pool takes: the words
//! and cells of the tasks, the core, and the lists of what happened and of the lines, which grow with the run. All that the writing
//! wants is there before the pool starts. What the reading of the plan took is given back before the input is read.
//!
//! # Tests
//!
//! They stand in `pool_run_tests`: answers and texts of runs by one worker, runs by many, whose texts go through
//! [`check`](trace_check::check), and ends that follow a script, of `scripted_runs::ends`.
#![tactic(auto)]

mod clocks;
mod ended;
mod laws;
mod pooled;
mod stops;

pub use clocks::ReadingError;
pub use laws::pool_runs_conform;
pub use pooled::run_pool;
pub use stops::PoolStop;

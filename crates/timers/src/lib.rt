//! The executor that a server links: scheduled tasks, each with a `u64` of the caller's that comes back with each run.
//!
//! # Usage
//!
//! [`Timers`] are made once, for 1 to 255 workers. They run nothing themselves. The one who holds them hands in the moment of each
//! call, submits tasks with data of its own, such as the address of a connection, waits until the next one is due, and polls for
//! a worker that has nothing to do.
//!
//! ```rust
//! let mut timers = Timers::new(alloc, 2)?;
//!
//! timers.schedule(0, 5, 70)?; // task 0, with 70, is accepted, and due at 5
//! timers.at_rate(0, 3, 10, 71)?; // task 1, with 71, is due at 3, 13, 23 and so on
//! assert_eq!(rt; timers.next_due(), Some(3)); // the moment to wait for
//!
//! assert_eq!(rt; timers.poll(3, 0)?.map(|run| run.user_data), Some(71)); // task 1
//! assert!(rt; timers.poll(4, 1)?.is_none()); // nothing is due
//! let finished = timers.finish(4, 0, Ending::Value(1))?;
//! assert_eq!(rt; finished.outcome, Outcome::Again(13));
//! assert_eq!(rt; timers.poll(5, 1)?.map(|run| run.user_data), Some(70)); // task 0
//! let finished = timers.finish(6, 1, Ending::Value(2))?;
//! assert_eq!(rt;
//!     (finished.user_data, finished.outcome),
//!     (70, Outcome::Done(2))
//! );
//!
//! timers.shut_down_now(7)?; // ends task 1, which waits
//! assert_eq!(rt; timers.ended().len(), 1);
//! assert_eq!(rt; timers.ended_user_data(0), Some(71));
//! assert_eq!(rt; timers.execute(8, 72)?, Submitted::Rejected { number: 2 });
//! ```
//!
//! # Behaviour
//!
//! The executor is that of `live_core`, and so are its calls; [`poll`](Timers::poll) and [`finish`](Timers::finish) tell it the
//! clock first. A task that is cancelled while it waits stays in the queue, unless the policy says that it leaves, until a poll meets
//! it, a shutdown or a policy sweeps it, or a [`purge`](Timers::purge) takes it out. A contract sees the timers as a
//! [`TimersView`](../../specs/Timers.antt): the executor, and the data in each slot. What a call does to the executor is said as
//! there, whatever calls and history led here (`specs/Calls.antt`).
//!
//! Of the data the contracts say (`specs/Timers.antt`): whatever was given so far, one number with each submission, each call leaves
//! each task that is alive, and each that it ended, with its own (`GivesNone`); a submission gives one more (`Gives`), whether it is
//! accepted or rejected; and what comes back with a run is what was given with its task (`WasGivenWith`).
//!
//! # Moments
//!
//! A moment is a number of nanoseconds, at most 2^62, as is each delay and period. No call reads a clock: hand in one that does not
//! go back, such as `CLOCK_MONOTONIC`. A poll or a finish at a moment that goes back is made [`now`](Timers::now); another call is
//! made at the moment handed in, but not before now, and at least 1 ns after the last poll or finish. No poll begins a run before
//! [`next_due`](Timers::next_due), and none takes a task out of the queue before [`head_due`](Timers::head_due).
//!
//! # Errors
//!
//! A call that is refused changes nothing: [`CallError`] and [`FinishError`] say why, and [`PollError`] too, but that
//! [`PollError::Full`], after 2^64 - 1 runs of one task, leaves the clock at the moment of the poll. A cancel of a number that was
//! not given out is refused with [`CallError::NoTask`].
//!
//! # Memory and cost
//!
//! That memory was refused is told by `new`, by the four submissions, where each slot holds a task, and by [`reserve`](Timers::reserve),
//! and by no other call; that no other one asks for memory is tested. Where it is refused, nothing has changed. Beside what the executor
//! keeps of a task, a slot has 8 bytes of data.
//! Where each slot is taken, a submission makes half as many more, and four. The data cost constant time in each call, but where slots
//! are made; all else costs what the executor's calls do.
//!
//! # Tests
//!
//! They stand in `timer_tests`: the lines above, a thousand tasks whose slots are used again, each growth refused in
//! turn, and calls that are refused.
#![tactic(auto)]

mod answers;
mod clock;
mod error;
mod events;
mod laws;
mod room;
mod runs;
mod shutting;
mod submissions;
mod submitting;
mod timers;

pub use answers::{Finished, Run};
pub use error::{FinishError, PollError};
pub use laws::all_timers_are_sound;
pub use live_core::{CallError, MakeError, Submitted, TaskRef};
pub use timers::Timers;

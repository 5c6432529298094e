//! An executor of scheduled tasks whose calls are made while it runs, after Java's `ScheduledThreadPoolExecutor`.
//!
//! # Usage
//!
//! A [`ScheduledExecutor`] is made once, for 1 to 255 workers. It runs nothing itself. The one who holds it makes its calls, each
//! with the moment at which it is made, and tells it the events: what the clock shows, that a worker asks for work, that it has
//! run its task, and that a task is cancelled from outside.
//!
//! ```rust
//! let mut executor = ScheduledExecutor::new(alloc, 2)?;
//!
//! executor.schedule(0, 5)?; // task 0 is accepted, and due at 5
//! executor.at_rate(0, 3, 10)?; // task 1 is due at 3, 13, 23 and so on
//! assert_eq!(rt; executor.next_due(), Some(3));
//!
//! executor.clock(3)?;
//! let begun = executor.start(0)?;
//! assert_eq!(rt; begun.map(|run| (run.task.number, run.due)), Some((1, 3)));
//! let ended = executor.finish(0, Ending::Value(7))?;
//! assert_eq!(rt; ended.outcome, Outcome::Again(13));
//!
//! assert_eq!(rt; executor.cancel_number(0)?, CancelEffect::Yes); // task 0 is kept in the queue
//! executor.clock(13)?;
//! let begun = executor.start(1)?; // task 0 is met, and leaves
//! assert_eq!(rt; begun.map(|run| (run.task.number, run.run)), Some((1, 1)));
//! assert_eq!(rt; executor.len(), 1);
//!
//! assert!(rt; executor.shut_down(13)?); // the first call to shut down, at 14
//! assert_eq!(rt; executor.execute(14)?, Submitted::Rejected { number: 2 });
//! let ended = executor.finish(1, Ending::Value(8))?; // no run comes after it
//! assert_eq!(rt; (ended.outcome, executor.len()), (Outcome::Ended, 0));
//! ```
//!
//! # Behaviour
//!
//! The calls are those of the Java class: [`schedule`](ScheduledExecutor::schedule), [`execute`](ScheduledExecutor::execute),
//! `scheduleAtFixedRate` as [`at_rate`](ScheduledExecutor::at_rate), `scheduleWithFixedDelay` as
//! [`with_delay`](ScheduledExecutor::with_delay), the three policies as [`set_policy`](ScheduledExecutor::set_policy), `shutdown`
//! as [`shut_down`](ScheduledExecutor::shut_down), `shutdownNow` as [`shut_down_now`](ScheduledExecutor::shut_down_now), and a
//! future's `cancel` as [`cancel_by_call`](ScheduledExecutor::cancel_by_call). [`ask`](ScheduledExecutor::ask) is a call too, and
//! tells the queue's size, `getActiveCount`, `isShutdown` and `isTerminated`. The events are [`clock`](ScheduledExecutor::clock),
//! [`start`](ScheduledExecutor::start), [`finish`](ScheduledExecutor::finish) and [`cancel`](ScheduledExecutor::cancel). Neither is
//! [`purge`](ScheduledExecutor::purge), which has a line in a trace, and stands in no plan.
//!
//! A contract sees the executor as a [`LiveView`](../../specs/Lives.antt). The calls need not be known before: for each call and
//! event its contract says, whatever calls and history led here, that the executor stands where the longer ones lead, and what is
//! answered is the answer of the executor's equations (`Calls` and `Happens`, in `specs/Lives.antt`; the answers are in
//! `specs/Said.antt`, `Events.antt`, `Cancels.antt` and `Shutting.antt`). A new executor stands where nothing happened, and so each
//! one stands somewhere that was made new, or restored from what such a one wrote. So its lines, as
//! [`add_lines`](ScheduledExecutor::add_lines) adds them, are those of a trace of all calls made.
//!
//! A submission has a number, 0, 1, and so on, whether it is accepted or rejected, and an accepted one has a task. A [`TaskRef`]
//! names the task by its number and the slot that it has while it is alive, and no longer: a slot holds no task of which nothing
//! may come any more. A task keeps its slot, and no other one has it meanwhile, so what belongs to a task may be kept by its slot
//! (`Stays`, in `specs/Lives.antt`). A cancel, and whether a task waits,
//! go by the number alone, so a slot that another task uses by now, or a forged one, does no harm. Once a task is over, as it was run,
//! ended, or cancelled and left the queue, its slot may hold another one. [`ended`](ScheduledExecutor::ended) has the tasks that the
//! last call or event ended: the list of `shutdownNow`, and what a shutdown or a policy cancels.
//!
//! # Written and restored
//!
//! [`frame`](ScheduledExecutor::frame), [`images`](ScheduledExecutor::images) and [`empty_slots`](ScheduledExecutor::empty_slots)
//! give what is to be written of an executor, and [`restore`](ScheduledExecutor::restore) makes one of that. It stands where the
//! written one stood ([`what_is_written_is_of_one_executor`]), so that each call and event is answered as that one would answer it
//! ([`one_history_answers_alike`], [`one_history_tells_alike`]): a [`TaskRef`] that was given out names the same task, and a
//! task that comes next has the same slot. What the last happening ended is not written.
//!
//! What is written of no executor that is sound is refused. Each one is sound ([`each_executor_is_sound`]); but not each sound one
//! stands somewhere, as no calls lead to a run that began before one that was due earlier. Made of a forged text, such a one is
//! safe, stays sound, and its table shows a state ([`each_table_shows_a_state`](task_table::each_table_shows_a_state)); of
//! its answers the clauses say nothing.
//!
//! # Moments
//!
//! A moment is a number of nanoseconds, at most 2^62, and so is each delay and period. No call reads a clock. A call is made at the
//! moment that is handed in, but not before [`now`](ScheduledExecutor::now), and at least 1 ns after the last accepted clock: so a
//! clock comes after all calls of its moment, as in a trace. [`next_due`](ScheduledExecutor::next_due) is the moment to wait for, or
//! [`head_due`](ScheduledExecutor::head_due) where cancelled tasks are to leave the queue at their own moments: starts then, until one
//! is idle, take out all that is due.
//!
//! # Order and ties
//!
//! A start gets, of the tasks that are due, the one that was due first, and at one moment the one that was submitted first,
//! whatever their slots. A task at a fixed rate keeps its due moments, also when it is late, and one with a fixed delay counts from
//! the end of its run. Runs of one task do not overlap. `ended` is ascending by number.
//!
//! # Errors
//!
//! A call that is refused ([`CallError`]) is not made: nothing has changed. [`CallError::Memory`] comes also where 2^30 slots are
//! all taken. An event that is wrong is answered by an [`EventError`](executor_model::EventError): it has happened, has a line of
//! its own, and changes no task. But where [`start`](ScheduledExecutor::start) answers [`StartError::Full`], after 2^64 - 1 runs
//! of one task, nothing has happened. A line can not spell a number of 2^32 or more ([`LinesError`]); nothing else minds it.
//!
//! # Memory and cost
//!
//! That memory was refused is told by `new` and `restore`, by the four submissions, where each slot holds a task, by
//! [`reserve`](ScheduledExecutor::reserve), for lines by `add_lines`, for what is written by `images`, and by no other call; that no other
//! one asks for memory is tested. Where it is refused, nothing has changed. There are as many slots as `reserve` was asked for, or at most
//! twice as many as there were tasks alive at once, and two; none is given back. A submission that makes more makes at least as many as
//! there are. Each has room for a task, an entry in each of two queues, three entries in an index by number, and notes that it is empty and
//! that its task was ended.
//!
//! With n tasks alive, a submission, a start, a finish or a cancel takes a time in the order of log n, for changes of two heaps and
//! a search. A submission where the index is full goes over it, from the newest entry on until each task that is alive is found, and
//! one where all slots are taken over these too, which is constant on average. A start, a sweep and a purge take as long as that for each kept
//! task that they meet. A shutdown or a policy that sweeps goes over all slots, and sorts what it ends. `ask` goes over the workers.
//! `images` goes over the index, and `restore` over all slots, each with a change of a heap for each task. All other calls take
//! constant time, but `reserve`, and `add_lines`, which goes over what was ended.
//!
//! # Tests
//!
//! They stand in `live_tests`, as rows of what is done and what is told. Each row is played with ample memory, with an executor
//! that is restored before it, and again with each growth that it asks for refused in turn.
#![tactic(auto)]

mod ahead;
mod answers;
mod cancels;
mod error;
mod events;
mod executor;
mod finding;
mod frame;
mod index;
mod laws;
mod lines;
mod notes;
mod place;
mod purging;
mod releasing;
mod reserving;
mod restoring;
mod room;
mod running;
mod shutting;
mod spent;
mod submissions;
mod submitting;
mod sweeps;
mod writing;

pub use answers::Submitted;
pub use error::{CallError, LinesError, MakeError};
pub use executor::ScheduledExecutor;
pub use frame::ExecutorFrame;
pub use laws::{
    each_executor_is_sound, one_history_answers_alike, one_history_tells_alike,
    what_is_written_is_of_one_executor,
};
pub use task_table::{Asked, Begun, Ended, Frame, Image, RestoreError, StartError, TaskRef};

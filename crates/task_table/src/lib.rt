//! A table of the tasks of an executor, by slots: whoever stands above it picks the slot of each task, and releases it.
//!
//! # Usage
//!
//! A [`TaskTable`] keeps the tasks of which something may come, and the work of 1 to 255 workers. Each task has a number, which
//! grows from submission to submission, and a slot, which may hold another task once it is released. The one above tells the
//! table each call and each event, at its moment, and the table tells what becomes of the tasks.
//!
//! ```rust
//! let mut table = TaskTable::new(alloc, 2)?;
//! table.reserve(3)?; // slots for three tasks
//! assert_eq!(rt; (table.workers(), table.slots()), (2, 3));
//! table.clock(5)?;
//! assert_eq!(rt; table.clock(4), Err(EventError::Backward));
//! assert_eq!(rt; (table.now(), table.next_due()), (5, None)); // no task waits
//! assert_eq!(rt; table.head_due(), None); // and none is kept
//! ```
//!
//! A task comes into an empty slot by [`admit`](Table::admit), is run from a [`start`](Table::start) to a
//! [`finish`](Table::finish), and leaves its slot by [`release`](TaskTable::release). These calls ask for what the one above
//! keeps, as that the slot is empty and the number is new.
//!
//! # Other slots
//!
//! The steps are those of a [`Table`], whatever keeps its tasks and its queues: [`Slots`] and [`TaskQueue`] are what it asks of
//! these. A `TaskTable` is one with [`Seats`], which hold whole tasks and can be emptied, and with two [`NumberedQueue`]s. Its
//! `new`, `reserve`, `release`, `seats`, `frame`, `image` and `restore` are its own. [`Table::with`] makes one of other slots and queues, as the module
//! `plan_table` of `executor_core` does for the tasks of a plan, and [`stored`](Table::stored) gives them.
//!
//! # Behaviour
//!
//! A contract sees the moment, what each slot holds, the slot of each worker's task, the policies, and whether the executor is
//! shut, and stopped (`specs/Tables.antt`). Each call has two kinds of clauses. The first say exactly what becomes of that
//! (`specs/Changes.antt`). The others say that the step is the one of the executor's equations: whatever the calls and the
//! history are where the table stood before it, the answer is theirs, and the table shows where they lead (`Takes`,
//! `EventSteps` and `CallSteps` in `specs/Tables.antt`).
//!
//! Of the tasks that wait, a start gets the one that was due first, and of those due at one moment the one that was submitted
//! first. A task that is cancelled while it waits is kept in the queue, unless the policy says that cancelled tasks leave it:
//! no start gets it, but it counts for [`ask`](Table::ask) until a start meets it, a call sweeps, or a purge comes. Before a start
//! the one above drops those that it meets, by [`drop_met`](Table::drop_met), and before a call that sweeps, or as a purge, all, by
//! [`drop_kept`](Table::drop_kept), each until the answer is `None`; so it learns the slot of each, and can release it. The
//! calls that sweep put the tasks that they end into a list, ascending by number.
//!
//! Calls that sweep, starts and finishes can be made in steps. One above that writes down who ends as it goes sets the policy, or
//! what says that the executor is shut, alone, by [`set`](Table::set), [`shut_at`](Table::shut_at) or [`stop_at`](Table::stop_at),
//! and then sweeps slot by slot, by [`sweep_slot`](Table::sweep_slot): these four have the first kind of clauses alone. One that
//! knows that a start is not refused, as it asked for its [`start_error`](Table::start_error), makes it by
//! [`start_free`](Table::start_free). One that has to know first what a finish comes to asks [`end_of`](Table::end_of), and makes
//! it so by [`end_as`](Table::end_as).
//!
//! # Written and restored
//!
//! [`TaskTable::frame`], and [`TaskTable::image`] of each task, say what is to be written of a table, and [`TaskTable::restore`]
//! makes the table of which this is written (`specs/Images.antt`). There is no other one ([`what_is_written_is_of_one_table`]),
//! so what a clause says of the one is said of the other. What is written of no table that is well formed is refused
//! (`specs/Formed.antt`); each table is ([`each_table_is_formed`]), and shows a state ([`each_table_shows_a_state`]), but not to each
//! one that is do calls and events lead.
//!
//! # Moments
//!
//! A moment is a number of nanoseconds, at most 2^62, and a due moment at most 2^63. The table reads no clock: it is told each
//! moment, and none goes back.
//!
//! The clauses of steps speak of histories that go on so: the tasks have the numbers 0, 1, .. in the order of their submission, and
//! each clock that was accepted before a call is below the call's moment. Of a call that comes otherwise the first clauses alone
//! say what it does.
//!
//! # Errors
//!
//! [`TaskTable::new`] and [`reserve`](TaskTable::reserve) fail with `AllocError` where the allocator has no room, and a table
//! whose `reserve` failed is as it was; [`restore`](TaskTable::restore) fails with a [`RestoreError`]. A clock that goes back or too
//! far, a start by a worker that works, a finish by one that does not, and either by a worker that there is not, are answered by an
//! [`EventError`](executor_model::EventError). A start has [`StartError::Full`] where the task has had 2^64 - 1 runs. After an
//! error the table is as it was. No other call can fail.
//!
//! # Memory and cost
//!
//! A `TaskTable` takes memory for each slot (what it holds, and an entry in each of two queues) and for each worker, and only in `new`,
//! `reserve` and `restore`. A call that admits, starts, finishes, cancels, drops or ends a task takes the time of a change of a heap. A
//! sweep goes over all slots, and sorts the tasks that it ends; `ask` goes over the workers, and so does `image` of a task that is
//! run; `reserve` may move all slots; `restore` makes them, and takes a change of a heap for each task. All other calls take constant
//! time.
//!
//! The tests stand in `live_tests` and `core_tests`.
#![tactic(auto)]

mod answers;
mod asking;
mod cancelling;
mod dropping;
mod finishing;
mod image;
mod laws;
mod numbered;
mod queues;
mod restoring;
mod seat;
mod seats;
mod shutting;
mod slots;
mod starting;
mod sweeping;
mod table;
mod writing;

pub use answers::{Asked, Begun, Ended, RunEnd, StartError};
pub use image::{Frame, Image, RestoreError};
pub use laws::{each_table_is_formed, each_table_shows_a_state, what_is_written_is_of_one_table};
pub use numbered::NumberedQueue;
pub use queues::{Entry, TaskQueue};
pub use seat::{Seat, TaskRef};
pub use seats::Seats;
pub use slots::Slots;
pub use table::{Table, TaskTable};

//! The tasks of a plan as a table of tasks keeps them: each in the slot of its number, from the start on.
//!
//! # Usage
//!
//! [`plan_table`] makes a [`PlanTable`], a [`Table`](task_table::Table) for a plan of so many tasks and for 1 to 64 workers.
//! A call that submits task k admits it into slot k; a slot is never released, so a task can be asked for after its end.
//! [`Tasks`], which [`stored`](task_table::Table::stored) gives, tells what a table itself does not: the word of each task, and two counts.
//!
//! ```rust
//! let mut table = plan_table(alloc, 2, 1)?; // two tasks, one worker
//! let due = table.admit(0, 0, 3, Timing::Once, 4);
//! assert_eq!(rt; due, 7);
//! assert!(rt; table.seat(0).is_some());
//! assert!(rt; table.seat(1).is_none()); // not submitted yet
//! assert_eq!(rt; table.stored().uncancelled(), 2);
//! ```
//!
//! # Memory and cost
//!
//! All memory is taken by `plan_table`: some 80 bytes for each task, and 8 for each worker. No call of the table takes more.
//!
//! # Errors
//!
//! `plan_table` fails with `AllocError` where the allocator has no room. The calls of the table fail as those of each
//! [`Table`](task_table::Table) do; a start wants that the first task that is due has had fewer than 2^32 - 1 runs, and of such a
//! task [`StartError::Full`](task_table::StartError::Full) never comes.
//!
//! # Tests
//!
//! That of the example stands in `core_tests`. The rest is tested through the core of a plan.

mod queue;
mod slots;
mod table;
mod tallies;
mod tasks;

pub use queue::PlanQueue;
pub use table::{PlanTable, plan_table};
pub use tasks::Tasks;

//! Plan texts, and the plans that they write.
//!
//! # Usage
//!
//! A plan text is a TOML document. It says which calls are made on an executor, and when.
//!
//! ```toml
//! version = 2
//!
//! [[block]]           # every night for a week
//! times = 7
//! every = 1
//! every_unit = "d"
//!
//! [[block.call]]
//! op = "schedule"
//! name = "backup"
//! delay = 90
//! delay_unit = "min"
//! ```
//!
//! ```rust
//! let text = "version = 2\n[[block]]\ntimes = 7\nevery = 1\nevery_unit = \"d\"\n";
//! let plan = read_plan(alloc, text.as_bytes())?;
//! let block = plan.blocks().first().ok_or("no block")?;
//! assert_eq!(rt; (block.times(), block.every()), (7, 86_400_000_000_000));
//!
//! let newer = migrate(alloc, b"version = 1\n[[block]]\nat = 5\n")?;
//! assert_eq!(rt; read_plan(alloc, newer.as_bytes())?.blocks().len(), 1);
//! ```
//!
//! # Behaviour
//!
//! At the top stand `version`, which is 2, or 1 in the older form of plans, and `block`, an array of tables, at most
//! 256. A block has
//!
//! | Key | Value | Default |
//! |---|---|---|
//! | `at` | its moment | 0 |
//! | `times` | how often its calls are made, 1 to 65,536 | 1 |
//! | `every` | from one iteration to the next; it has to be there where `times` exceeds 1 | 0 |
//! | `call` | an array of tables, at most 256 | no calls |
//!
//! A call has an `op`, its offset `at` in the block (0 if it is left out), and the keys of its `op`:
//!
//! | `op` | Keys | Asks for |
//! |---|---|---|
//! | `schedule` | `name`, `delay` | a task that runs once, `delay` after the call |
//! | `execute` | `name` | a task that runs once, as soon as may be: it is due at the call, as with a `schedule` whose `delay` is 0 |
//! | `rate` | `name`, `first`, `period` | a task that runs `first` after the call, and then every `period` |
//! | `fixed` | `name`, `first`, `delay` | a task that runs `first` after the call, and then `delay` after the end of each run |
//! | `cancel` | `name` | the cancel of a task |
//! | `policy` | `which`, `value` | that a policy is set: `which` is "continue", "execute" or "remove", `value` a truth value |
//! | `shutdown` | none | a shutdown |
//! | `shutdown_now` | none | a shutdown at once: what waits is ended |
//! | `ask` | none | how the executor stands |
//!
//! Times are `at` and `every` of a block, and `at`, `delay`, `first` and `period` of a call. In version 2 the unit of a time
//! stands beside it, at the key with `_unit` behind the time's, as `delay_unit`: "ns", "us", "ms", "s", "min", "h" or "d",
//! and "ns" where it is left out. It may stand wherever its time may, also where that is left to its default. In version 1 no
//! time has a unit of its own: a block has a key `unit`, which is that of all its times, one of "ns", "us", "ms" and "s", and
//! "ns" where it is left out. [`migrate`] gives the text of version 2 for one of version 1.
//!
//! The call with offset `o` is made at `at + r * every + o` in iteration `r`, counted from 0. Moments,
//! offsets and spans are at most 2^62 nanoseconds, and so is the moment of each call in the last iteration.
//! A plan makes at most 65,536 calls, repetitions counted. A `delay` of a `schedule`, or a `first`, below 0
//! counts as 0. A `period`, or a `delay` of a `fixed`, that is zero or negative is illegal: the plan keeps
//! that there is none.
//!
//! A name has 1 to 32 ASCII letters, digits, `-` and `_`. No two submissions have one name. A `cancel`
//! names a submission that stands before it: one of its own block, and then it means the task of the same
//! iteration, or one of an earlier block that is made once.
//!
//! # Order and ties
//!
//! Moments do not fall: a block, also one without calls, begins no earlier than the last call before it,
//! offsets do not fall, and no offset of a repeated block is above `every`. Calls of one moment are made in
//! the order of the text, and those of an iteration before those of the next.
//!
//! # Errors
//!
//! A text that writes no plan has one [`PlanFault`]: what is wrong, and the block and the call, numbered
//! from 1; 0 stands for none. The places are searched in order: the text, the top, then block by block, in
//! each its header and then its calls. At each place the first of these checks that fails is the answer:
//!
//! | Place | Checks |
//! |---|---|
//! | text | `TooLong`: over 1,048,576 bytes. `Toml`: no UTF-8, or no TOML document |
//! | top | `Version`, `UnknownKey`, `WrongType`, `TooMany` blocks |
//! | header | `UnknownKey`, `WrongType`, `BadUnit`, `BadTimes`, `Missing` (`every`), `Negative`, `TooLarge`, `OutOfOrder`, `TooMany` calls |
//! | call | `Missing` (`op`), `WrongType` (`op`), `UnknownKey`, `Missing`, `WrongType` (a `which` that is no policy among them), `BadUnit` in version 2, `BadName`, `DuplicateName` or `UnknownName`, `Ambiguous`, `Negative`, `TooLarge`, `OutOfOrder` |
//!
//! `Memory`, with block 0 and call 0, may come in place of any other answer, and says nothing of the text.
//!
//! [`migrate`] answers the fault of its text; where it has none, `Version` with block 0 and call 0 for a text of version 2,
//! and `TooLong` with block 0 and call 0 where the text that it prints is over 1,048,576 bytes.
//!
//! # Memory and cost
//!
//! A plan owns its blocks and calls, in the allocator that it was read with; a name stands in its call. While a
//! text is read, a map from names to submissions and the lists of keys of its tables take memory of that allocator
//! too, and its TOML tree memory of the heap: the allocator is a [`HeapAllocator`], which gives the heap.
//!
//! A text of n bytes is read in the time of n log n, where its headers are short: each name is looked up in the map
//! once, and each table is read once. What a call needs of those before it is handed on. A header of h bytes with k
//! keys below it takes `toml` the time of h times k, since each key goes along its header's path: at the longest
//! text that is 2.5 processor seconds, for a header of 500,000 bytes.
//!
//! A migration takes the tree apart, changes it in place and prints it; it takes memory of the heap for the keys and the
//! values that it adds, and for the text.
//!
//! The tests stand in `plan_tests`.
#![tactic(auto)]

mod calls;
mod faults;
mod headers;
mod key_lists;
mod key_names;
mod keys;
mod laws;
mod limits;
mod migrating;
mod plans;
mod reading;
mod rows;
mod sites;
mod subjects;
pub mod task_names;
mod units;
mod verbs;
mod versions;

pub use crate::task_names::Name;
pub use faults::{PlanFault, PlanFaultKind};
pub use heap_allocator::HeapAllocator;
pub use laws::{
    migrated_trees_write, names_differ, plan_fault_equality_tells, plan_fault_kind_equality_tells,
    plans_are_ordered, target_equality_tells, targets_stand_before, trees_write_or_fail,
};
pub use limits::LONGEST_TEXT;
pub use migrating::migrate;
pub use plans::{Block, Call, Op, Plan, Target};
pub use reading::read_plan;

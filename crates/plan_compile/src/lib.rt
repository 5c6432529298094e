//! The code of a plan: instructions that make the plan's calls, each at its moment. And the plan's submissions, numbered and named.
//!
//! # Usage
//!
//! ```rust
//! let text = "version = 2\n[[block]]\nat = 100\ntimes = 3\nevery = 10\n\
//!     call = [ { op = \"schedule\", name = \"a\", delay = 50 }, { op = \"ask\", at = 4 } ]\n";
//! let plan = read_plan(alloc, text.as_bytes())?;
//! let code = compile(alloc, &plan)?;
//! let listed = "0 loop 3 every 10\n1 submit 100 schedule 50\n2 ask 104\n3 endloop\n4 halt\n";
//! assert_eq!(rt; listing(alloc, &code)?.as_str(), listed);
//! ```
//!
//! # Behaviour
//!
//! The calls of the code are those of the plan, with the same moments and numbers. The call with offset `o` in
//! iteration `r` of a block, counted from 0, is made at `at + r * every + o`. Submissions are numbered 0, 1, .. as
//! their calls come, those with an illegal period or fixed delay among them. A cancel has the number of its target: of
//! the submission of the same iteration in its own block, or of that in an earlier block, which is made once.
//!
//! The code has an instruction for each call that the text writes, at `at + o`:
//!
//! | In the plan | In the code |
//! |---|---|
//! | a block without calls | nothing |
//! | a block that is made once | its calls; its `every` is not used |
//! | a block that is repeated | `Loop(times, every)`, its calls, `EndLoop` |
//! | `schedule`, `rate`, `fixed` | `Submit`, with a delay below 0 as 0; `Illegal` where the period or the fixed delay is illegal |
//! | `execute` | `Submit`, as that of a `schedule` with the delay 0 |
//! | `cancel` in a repeated block, of a submission of that block | `CancelHere`, with how many submissions of the iteration stand before that one |
//! | every other `cancel` | `CancelFixed`, with the submission's number in the whole plan |
//! | every other call | the instruction that makes it |
//! | the end | `Halt` |
//!
//! No period and no fixed delay of a code is 0.
//!
//! Contracts have this list as `instrs_of` (`specs/PlanCode.antt`), and the calls of a plan, each iteration written
//! out, as `calls_of_plan` (`specs/PlanCalls.antt`). [`compile`] ensures both: the code is that list, and its calls are
//! the plan's.
//!
//! [`Submissions`] are exactly those among the plan's calls ([`submissions_are_those_of_the_calls`]), refused ones too. A repeated
//! block makes each of its submissions once in each iteration, so a name of the text may be that of many tasks.
//!
//! # Order and ties
//!
//! Calls are made block by block, iteration by iteration, in the order of the text, and so are those of one moment.
//! They are in order, as the executor takes them: at most 65,536 calls, whose moments do not fall and are at most 2^62
//! nanoseconds, and whose cancels name earlier submissions. [`calls_are_in_order`] is that law.
//!
//! # Errors
//!
//! [`CompileFault::Memory`] is the only error of [`compile`]: the code of a plan passes all checks of
//! [`Code::check`](queue_code::Code::check). What was begun is dropped then. [`names_of_tasks`] fails for want of memory alone.
//!
//! # Memory and cost
//!
//! [`compile`] takes memory for the instructions and for one number a block, and what `Code::check` takes. Memory and
//! time follow the length of the plan's text, and not how often its blocks are repeated: each call of the text is met
//! a few times, and a cancel looks its target's block up in the table of numbers.
//!
//! [`Submissions`] takes no memory: it walks over blocks, iterations and calls. Each step costs the same; a block without
//! submissions is walked over iteration by iteration.
//!
//! The tests stand in `compile_tests`, with those of plan texts, a file for each topic.
#![tactic(auto)]

mod compiling;
mod emitting;
mod fault;
mod instrs;
mod laws;
mod names;
mod numbers;
mod place;
mod submission;
mod submissions;

pub use compiling::compile;
pub use fault::CompileFault;
pub use laws::{
    calls_are_in_order, compile_fault_equality_tells, limits_agree, migrated_texts_call_the_same,
    migrated_trees_call_the_same, submissions_are_named_as_written,
    submissions_are_numbered_in_order, submissions_are_those_of_the_calls, units_make_no_calls,
};
pub use names::names_of_tasks;
pub use submission::Submission;
pub use submissions::Submissions;

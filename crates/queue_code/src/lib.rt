//! The calls that a plan makes, each with the moment at which it is made, and codes: lists of instructions with loops
//! that make such calls. The executor takes a code.
//!
//! # Usage
//!
//! A [`Code`] is a list of instructions in which a block that is repeated stands once, as a loop. A [`Cursor`] fetches
//! its calls one after the other, an [`Agenda`] keeps a code with such a place in it, and [`listing`] is its text.
//!
//! ```rust
//! let instrs = vec![in alloc;
//!     Instr::Loop(3, 10),
//!     Instr::Submit(100, Timing::Once, 50),
//!     Instr::CancelHere(104, 0),
//!     Instr::EndLoop,
//!     Instr::Halt,
//! ]?;
//! let code = Code::check(alloc, instrs)?;
//! assert_eq!(rt; (code.calls(), code.tasks()), (6, 3));
//! let text = listing(alloc, &code)?;
//! assert_eq!(rt; text.lines().nth(1), Some("1 submit 100 schedule 50"));
//! ```
//!
//! # Behaviour
//!
//! An [`Instr`] makes a call at its offset from the base. `Loop(times, every)` and the next `EndLoop` stand around
//! instructions that are made `times` times, at a base of 0, `every`, 2 * `every` and so on nanoseconds; outside a
//! loop the base is 0. No loop stands in a loop. Tasks are numbered as the calls come. `CancelFixed` names a task by
//! its number, and `CancelHere` by how many tasks of the same iteration come before it. Every other call names
//! none. A `Halt` ends the code.
//!
//! Contracts see a code as the list of its instructions, and by `calls_of` (`specs/Codes.antt`) as the list of its
//! calls with their moments, in which each loop is written out.
//!
//! [`Cursor::fetch`] answers each call once, in order, with its moment in nanoseconds, and then `None`.
//! [`Cursor::next_moment`] looks at the next one. Each takes the code that the cursor was made for.
//! An [`Agenda`] shows the next call as often as it is asked, goes past it, and knows how many are left.
//! [`Cursor::steps`] counts the instructions that fetches executed: 3 at most in a fetch, one at least up to the first
//! `None`, and none after it.
//!
//! # Order and ties
//!
//! Submissions are numbered 0, 1, .. in the order of their calls, those of an illegal period or fixed delay
//! among them. Calls are *in order* where their moments do not fall, where moments, delays and periods are at most
//! 2^62 nanoseconds, and where a cancel names an earlier submission. Calls of one moment are made in the order of the
//! list. The calls of a code are in order, and there are at most 65,536 of them.
//!
//! # Errors
//!
//! [`CodeFault`] is the only error. [`Code::check`] refuses a list with the fault of the least index, and at one index
//! with the first of these (the table `checks` of `specs/Checks.antt`):
//!
//! | Fault | What is wrong |
//! |---|---|
//! | `NoHalt` | a `Halt` that is not the last instruction; at the end of the list, that there was none |
//! | `Nested` | a `Loop` in a loop |
//! | `Unclosed` | an `EndLoop` outside a loop; a `Halt` in one |
//! | `Empty` | an `EndLoop` whose loop makes no call |
//! | `BadTask` | a `CancelFixed` of a task that is not made before it in the first iteration; a `CancelHere` outside a loop, or of a task that is not made before it in the iteration |
//! | `TooLarge` | a loop's step, or a delay, above 2^62 nanoseconds; a call that is later than that in the last iteration |
//! | `Order` | a call whose moment in the first iteration is before that of the call in front of it; an `EndLoop` of more than one iteration, the last of whose offsets is more than the first and the step |
//! | `TooMany` | a loop that is not made 1 to 65,536 times; at a call outside a loop, or at an `EndLoop`, more than 65,536 calls so far |
//!
//! A period, or a fixed delay, of 0 is no fault: the next run of such a task is due at the very moment at which the one
//! before was due, or ended, so that it may start at once. A code that was compiled from a plan has
//! none.
//!
//! `Memory` says nothing of the instructions but that they have no other fault. A list that is refused is dropped, and
//! so is a text that could not be made whole.
//!
//! # Memory and cost
//!
//! [`Code::check`] goes over the list twice. It keeps the list, and takes a table with a number for each instruction,
//! by which an `EndLoop` finds its loop. [`listing`] takes its text. No other call takes memory, and each costs the
//! same whatever the code: a cursor is six numbers, and no list of calls is ever made, however often a loop is
//! repeated.
//!
//! The tests stand in `meaning_tests`.
#![tactic(auto)]

mod agenda;
mod call;
mod check;
mod code;
pub mod code_laws;
mod cursor;
mod fault;
mod instr;
mod limits;
mod progress;
mod text;

pub use agenda::Agenda;
pub use call::CodeCall;
pub use code::Code;
pub use cursor::Cursor;
pub use fault::CodeFault;
pub use instr::Instr;
pub use limits::MOST_CALLS;
pub use text::listing;

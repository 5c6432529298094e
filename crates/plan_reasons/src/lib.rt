//! Why a text is no plan, in words: the line, the key, what stands there and what is wanted.
//!
//! # Usage
//!
//! ```rust
//! let text = b"version = 2\n\n[[block]]\n\n[[block.call]]\nop = \"sched\"\n";
//! let reason = reason_of(alloc, text).ok_or("no reason")?;
//! let told = reason.in_file("plan.toml").to_string(alloc)?;
//! let wanted = "plan.toml:6: block 1, call 1, op = \"sched\": no such op; \
//!     one of schedule, execute, rate, fixed, cancel, policy, shutdown, shutdown_now, ask";
//! assert_eq!(rt; told.as_str(), wanted);
//! ```
//!
//! # Behaviour
//!
//! [`reason_of`] answers `None` exactly where [`read_plan`](plan_read::read_plan) reads a plan, and else a [`Reason`] with its
//! fault: the same kind, block and call. Beside the fault a reason has
//!
//! | Field | What |
//! |---|---|
//! | `line` | the line of the key, or of its table where it is missing, as [`plan_lines`] finds it, if it can be told |
//! | `column` | where the text is no TOML document: the column that TOML tells, with its line |
//! | `key` | the key that the fault is at: one that stands there, or one that is missing |
//! | `found` | what stands at the key in the fault's table |
//! | `wanted` | what is wanted: a type, a range in the unit at hand, words, a name |
//!
//! A reason prints as one line, `PLACE, KEY = FOUND: WHAT IS WRONG; WHAT IS WANTED`, of which parts may be missing. Texts of the
//! plan stand in it as TOML spells them, with escapes for characters that cannot be seen, and are cut at 40 characters. So does
//! the name of the file, which is not cut.
//!
//! | Kind | Key | What is wrong; what is wanted |
//! |---|---|---|
//! | `TooLong` | | `too long; at most 1048576 bytes` |
//! | `Toml` | | `no TOML document;` and the reason of the crate `toml` |
//! | `Version` | `version` | `missing`, `of the wrong type` or `no such version; one of 1, 2` |
//! | `UnknownKey` | the first that does not belong there, by its letters | `no such key; delay may be meant; one of op, at, ..` |
//! | `Missing` | the first that is missing | `missing; an integer`; of `every`: `missing; an integer, since times is 2` |
//! | `WrongType` | the first of another type | `of the wrong type; an integer`, `no such op; ..`, `no such policy; ..` |
//! | `BadUnit` | the first unit that is none | `no such unit; min may be meant; one of ns, us, ..` |
//! | `BadTimes` | `times` | `out of range; 1 to 65536` |
//! | `Negative` | `at`, `every` | `negative; 0 to 4611686018 s` |
//! | `BadName` | `name` | `not a name; 1 to 32 ASCII letters, digits, - and _` |
//! | `DuplicateName` | `name` | `given before; another one than that of block 1, call 1 in line 7` |
//! | `UnknownName` | `name` | `no such name; backup may be meant; that of a submission before it`, one behind has the name |
//! | `Ambiguous` | `name` | `ambiguous; that of a block which is made once, and block 1, call 1 in line 7 is made 3 times` |
//! | `OutOfOrder` | `at` | `out of order; at least 2 s, when the call before it is made`, `..; at most 1 s, when ..` |
//! | `TooLarge` | the first time too long; `at` | `too large; at most 4611686018 s`, `.., and in the last iteration it is ..` |
//! | `TooMany` | `block`, `call` | `too many; at most 256`; `too many; at most 65536 calls in all, and these make 131072` |
//! | `Memory` | | `out of memory` |
//!
//! Words may be meant that are the same but for the case of ASCII letters. Where there are none, those may be to which two edits
//! at most lead, and no more than half the characters of the longer of the two words: those with the fewest edits. At most three
//! are told.
//!
//! # Errors
//!
//! A reason of the kind `Memory` may come in place of any other answer, and says nothing of the text.
//!
//! # What is proved
//!
//! - The fault is that of `read_plan`.
//! - What is told to stand at the key does stand there, in the table of the fault's place, or the key is missing there
//!   (`IsAtKey`).
//! - A key that is told is one at which a fault of its kind may be (`IsAtKeyOfKind`): at `UnknownKey` it does not belong in the
//!   table of the fault's place, and stands there; at `Missing` it belongs there, and is missing; at `WrongType` and `BadTimes`
//!   it belongs there and stands; at `Version`, `OutOfOrder` and `TooMany` it belongs there; at `TooLarge` it belongs there or
//!   stands; at the others it stands there. At `TooLong`, `Toml` and `Memory` no key is told. Where none is told, nothing is told
//!   to stand there.
//! - The lists of keys in which this crate looks are those of `plan_read`.
//! - A line which is told is one of the text. A column is told of a text that is no document alone, and with its line: both are
//!   those of one place of the text (`IsPlacedIn`).
//! - Words that may be meant are among the words that they are looked for in. They are the same but for the case of ASCII
//!   letters, or else at most two edits away.
//! - The most blocks and the most calls, of a block and in all, are those of `plan_read` ([`limits_agree`]).
//!
//! That a key is told, and which of those at which a fault of its kind may be, that the line is that key's and not a namesake's, what is
//! told to be wanted, the keys and the words of a choice among it, and the text of a reason are only tested, in `reason_tests`.
//!
//! # Memory and cost
//!
//! The text is read once as a plan. Where it is none, its tree is made once more, and the text is scanned for the line. The fault
//! of a name looks at each submission of the text. A reason owns its texts, in the heap.
#![tactic(auto)]

mod blocks;
mod calls;
mod finding;
mod found;
mod keys;
mod laws;
mod limits;
mod meant;
mod names;
mod reason;
mod scene;
mod spelled;
mod tables;
mod tops;
mod versions;
mod wanted;

pub use finding::reason_of;
pub use found::Found;
pub use keys::Shape;
pub use laws::limits_agree;
pub use reason::{InFile, Reason};
pub use wanted::{Choice, Namesake, Wanted};

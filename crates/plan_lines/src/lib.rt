//! On which line of a plan text a table of the plan begins, or a key of it stands.
//!
//! # Usage
//!
//! ```rust
//! let text = b"version = 2\n\n[[block]]\n\n[[block.call]]\nop = \"ask\"\n";
//! let line = |block, call, key| line_of(text, Place { block, call, key });
//! assert_eq!(rt; line(0, 0, Some("version")), Some(1));
//! assert_eq!(rt; line(1, 0, None), Some(3)); // where the first block begins
//! assert_eq!(rt; line(1, 1, Some("op")), Some(6));
//! assert_eq!(rt; line(1, 1, Some("at")), None);
//! assert_eq!(rt; (line_after(b"a\nb"), column_after(b"a\nb")), (2, 2)); // of what follows the `b`
//! ```
//!
//! # Behaviour
//!
//! The text is a TOML document: [`line_of`] scans its headers, its keys and its brackets, and skips values and comments. It builds
//! no tree. It knows the tables of a plan in each form that TOML has for them: below the headers `[[block]]` and `[[block.call]]`,
//! and inline, as `block = [{ call = [{ op = "ask" }] }]`, also where the one stands below the other.
//!
//! - A table begins on the line of its header, or of its `{`.
//! - A key stands on the line of the first part that gives it: `x = 1`, `x.y = 1`, and the headers `[x]`, `[x.y]` and `[[x]]` give
//!   the key `x` of the top. So the key `call` of a block is on the line of its first `[[block.call]]`.
//! - A key may be bare, or in quotes of either kind.
//!
//! `None` is the answer where the place is not found, and also where it cannot be told: a key that is written with an escape, as
//! `"n\u0061me"`, is taken for none, and nothing is told of what stands behind a header that has such a key. Of a text that is no
//! TOML document the answer says nothing.
//!
//! [`line_after`] and [`column_after`] count from 1; a column counts characters, as TOML's own faults do.
//!
//! # What is proved
//!
//! That lines and columns are counted as `specs/Lines.antt` says, and that a line which is told is one of the text. That the place
//! stands on that line is only tested, in `reason_tests`.
//!
//! # Memory and cost
//!
//! No memory is taken. A text is scanned once, in the time of its length.
//!
//! The tests stand in `reason_tests`.
#![tactic(auto)]

mod lines;
mod places;
mod strings;
mod tables;
mod tokens;
mod walk;

pub use lines::{column_after, line_after};
pub use places::{Place, line_of};

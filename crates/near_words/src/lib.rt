//! Which words may be meant by another, and texts of others in one line of ours.
//!
//! # Usage
//!
//! ```rust
//! let words = ["clock", "start", "cancel"];
//! let clock = ["clock"].as_slice();
//! assert_eq!(rt; near(alloc, "clok", &words)?.as_slice(), clock);
//! assert_eq!(rt; near(alloc, "CLOCK", &words)?.as_slice(), clock);
//! assert!(rt; near(alloc, "stop", &words)?.is_empty());
//! let name = format!(in alloc; "{}", FileName("a\nb.toml"))?;
//! assert_eq!(rt; name.as_str(), "a\\nb.toml"); // in one line
//! ```
//!
//! # Behaviour
//!
//! [`near`] looks for the words that may be meant by one that is none of them. Those are meant that are the same but for the case
//! of ASCII letters. Where there are none, those are to which two edits at most lead, and no more than half the characters of the
//! longer of the two words, and of these those with the fewest edits. An edit adds a character, leaves one out or changes one.
//!
//! [`FileName`], [`write_text`] and [`write_escaped`] print a text as it stands, but with an escape for each character that
//! cannot be seen ([`is_unseen`]): `\n`, `\r`, `\t`, and for all others `\u` with the character's number in four hexadecimal
//! digits. These are control characters, white space but the space itself, the soft hyphen, and the characters that join, break
//! or turn a text round without being seen.
//!
//! # Order and ties
//!
//! Words that may be meant stand in the order of the words that they are looked for in. At most three are told, the first ones.
//!
//! # Errors
//!
//! [`near`] answers `Err` where there is no memory. Texts have no errors but those of the writer.
//!
//! # What is proved
//!
//! - Words that may be meant are among the words that they are looked for in. They are the same but for the case of ASCII
//!   letters, or else at most two edits away (`IsNear`).
//! - Where a word is the same but for the case of ASCII letters, no others are told (`IsSameBut`).
//! - At most three are told.
//!
//! That words are told, and which of those that are near, and the escapes are only tested, in `reason_tests`.
//!
//! # Memory and cost
//!
//! The words that are told are those of the caller. Memory is taken for their list, and to count edits, and that is given back: a
//! few words for each word that may be meant. Edits between two words take time in the product of their lengths.
#![tactic(auto)]

mod escapes;
mod nearness;

pub use escapes::{FileName, is_unseen, write_escaped, write_text};
pub use nearness::near;

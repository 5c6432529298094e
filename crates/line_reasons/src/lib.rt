//! Why a line cannot be read, in words: a line of events, a line of a live run, and any line.
//!
//! # Usage
//!
//! ```rust
//! assert!(rt; reason_of_events(alloc, b"start 0\n").is_none());
//! let reason = reason_of_events(alloc, b"start 0\nclock 05\n").ok_or("no reason")?;
//! let told = reason.in_file("events.txt").to_string(alloc)?;
//! let wanted = "events.txt:2: \"clock 05\": leading zero; a moment has none, as in \"clock 5\"";
//! assert_eq!(rt; told.as_str(), wanted);
//!
//! assert!(rt; reason_of_live_lines(alloc, b"start 0\ncall ask\n").is_none());
//! let reason = reason_of_live_lines(alloc, b"call rate 5\n").ok_or("no reason")?;
//! let told = reason.to_string(alloc)?;
//! let wanted = "line 1, \"call rate 5\": too short; call rate F P";
//! assert_eq!(rt; told.as_str(), wanted);
//!
//! assert_eq!(rt; line_fault(b"5  clock\n"), LineFault::TwoSpaces);
//! assert_eq!(rt; number_fault(b"5ms", 255), Some(NumberFault::Unit));
//! ```
//!
//! # Behaviour
//!
//! [`reason_of_events`] answers `None` exactly where a text is the text of events, each a line, and else an [`EventsReason`]:
//! the first line that is no event's, its number, counted from 1, and its fault. The empty text is that of no events.
//! [`reason_of_live_lines`] answers so of the lines of a live run, in which those of calls, as [`call_text`] spells them, stand
//! beside those of events.
//!
//! A reason prints as one line, `line N, LINE: WHAT IS WRONG; WHAT IS WANTED`, or with a file's name as `FILE:N: LINE: ..`. The
//! line stands there in quotes without its newline, cut at 40 characters, with escapes for control characters, for others that
//! cannot be seen, and for bytes that are no UTF-8.
//!
//! Of the faults of a line the first in this table is told. Words are looked at from the left.
//!
//! | Fault | What is wrong; what is wanted |
//! |---|---|
//! | `Line(Empty)` | `empty; one of clock, start, finish, cancel` |
//! | `TooLong` | `too long; at most 63 bytes with its newline` |
//! | `Line(CarriageReturn)` | `carriage return; a line ends with a newline alone` |
//! | `Line(NoNewline)` | `no newline; each line ends with one` |
//! | `Line(Tab)` | `tab; one space stands between two words` |
//! | `Line(SpaceInFront)` | `space in front; a line begins with a word` |
//! | `Line(SpaceAtEnd)` | `space at the end; a line ends with a word` |
//! | `Line(TwoSpaces)` | `two spaces; one space stands between two words` |
//! | `NoWord` | `"clok" is no event; clock may be meant; one of ..`; `"done" is no ending; one of ok, fail` |
//! | `Number`, `Sign` | `sign; a moment has none, as in "clock 5"` |
//! | `Number`, `LeadingZero` | `leading zero; a moment has none, as in "clock 5"` |
//! | `Number`, `Unit` | `unit; a worker has none, as in "start 0"`; of `5ms`, and of `5 ms` |
//! | `Number`, `TooLarge` | `too large; a worker is at most 63` |
//! | `Number`, `NoNumber` | `no number; a moment is wanted, as in "clock 5"` |
//! | `TooSmall` | `too small; a period is at least 1, as in "call rate 5 10"` |
//! | `Missing` | `too short; finish W ok V or finish W fail C` |
//! | `Surplus` | `more behind its end; clock T` |
//!
//! A worker is told as too large where it is above 255: one of 64 to 255 is of no use, and yet its line is an event's.
//!
//! Among the lines of a live run calls are told of as events are, as `too short; call fixed F D`. Others are told so:
//!
//! | Line | What is wrong; what is wanted |
//! |---|---|
//! | none of it but its newline: `NoWord` | `empty; one of clock, start, finish, cancel, call` |
//! | `clok 5` | `"clok" is no event or call; clock may be meant; one of ..` |
//! | `call` | `too short; call and one of schedule, execute, ..` |
//! | `call shedule 5` | `"shedule" is no call; schedule may be meant; one of schedule, execute, ..` |
//! | `call schedule 5ms` | `unit; a delay has none and is in nanoseconds, as in "call schedule 5"` |
//! | `call policy remov true` | `"remov" is no policy; remove may be meant; one of continue, execute, remove` |
//! | `call policy remove yes` | `"yes" is no value; one of true, false` |
//!
//! A word may be meant as [`near_words`] has it: where it is the one that stands there but for the case of its ASCII letters, as
//! `clock` by `CLOCK`, and else where two edits at most lead to it. Of those that it finds the first is told.
//!
//! [`line_fault`] tells what is wrong with any line, as far as it shows without its forms: the faults of `Line` in the order of
//! the table, and else the first word that would be a number but for a sign, a leading zero, a unit or its size, as
//! `leading zero in "05"; a number has none`. Where none of these is so, it answers [`LineFault::NoSuchLine`].
//!
//! # Errors
//!
//! There are none. Where there is no memory, no word is told as one that may be meant.
//!
//! # What is proved
//!
//! That there is no reason exactly where the text is that of events (`AreEvents`), and that the line of a reason is the first
//! line of its text that is no event's, with its number: the lines before it are those of events, and no event's line stands in
//! front of what follows them (`IsFirstOther`). Of the lines of a live run the same (`AreLiveLines`, `IsFirstNotLive`).
//!
//! [`number_fault`] answers `None` exactly where its word is the decimal text of a number of at most `most` (`IsNumber`), and
//! else the one fault that is so of the word (`IsNumberFault`). From [`EventNumber::least`] to [`EventNumber::most`] are the
//! numbers that fit in their place in a line (`FitsNumber`), and up to [`EventNumber::most_of_use`] those of them that are of use
//! (`IsOfUse`).
//!
//! [`line_fault`] answers the first fault of the line's form, in the order of the table, and where none is so the first word
//! that would be a number, with its fault, and else `NoSuchLine` (`IsLineFault`).
//!
//! A word that may be meant is one of those that can stand there, and the same but for the case of ASCII letters, or at most two
//! edits away (`IsNear`).
//!
//! Which fault an [`EventFault`] tells, which of the words that are near is told, and the text of a reason are only tested, in
//! `reason_tests`.
//!
//! # Memory and cost
//!
//! A text is read once, up to its first other line, and that line some times more. Memory is taken only to look for words that
//! may be meant, a few words for each, and given back. A reason borrows from the text.
//!
//! The tests stand in `reason_tests`.
#![tactic(auto)]

mod call_form;
mod call_words;
mod choice;
mod event_fault;
mod event_words;
mod events;
mod form;
mod line;
mod lines;
mod number;
mod shown;
mod word_fault;
mod words;

pub use call_form::{CallForm, CallNumber};
pub use choice::Choice;
pub use event_fault::EventFault;
pub use events::{EventsReason, EventsReasonInFile, reason_of_events, reason_of_live_lines};
pub use form::{EventNumber, Form};
pub use line::{LineFault, line_fault};
pub use near_words::FileName;
pub use number::{NumberFault, number_fault};
pub use shown::Quoted;

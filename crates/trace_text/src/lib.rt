//! The text of events and of traces: events are read, lines are written and read back.
//!
//! # Usage
//!
//! - [`read_event`] reads one line of input, with its newline. [`front_event`] reads at the front of bytes that come piece by
//!   piece, in one pass, and tells a part of a line from one that is refused. [`split_event`] also gives what follows; where it
//!   finds no line [`is_part`] tells a part of one.
//! - [`read_line`] reads one line of a trace, with its newline. [`split_line`] reads at the front of a trace, and also gives what
//!   follows, so that a trace is read line by line with no search for newlines.
//! - [`write_line`] appends to a `Vec<u8>`: it makes room and calls [`put_line`], which writes at a place of any slice. In a
//!   buffer that keeps its bytes [`put_line`] alone is the faster of the two, as none is cleared before it is written, and in a
//!   loop over many lines [`put_line_here`], which is more code. Their [`Stamp`] keeps the digits of the last line's moment, so
//!   that lines of one moment, one behind the other, copy them.
//!   [`LineText`] is the same text for `{}`, and [`kind_word`] a word of it.
//! - [`strip_word`], [`number_before`], [`code_before`], [`split_which`] and [`split_truth`] read one word or number at the front
//!   of some bytes, and what follows it: lines of other forms are read with them.
//!
//! ```rust
//! let finish = Event::Finish(0, Ending::Value(7));
//! assert_eq!(rt; read_event(b"finish 0 ok 7\n"), Some(finish));
//! let clock = Front::Event(Event::Clock(5), 8); // the first 8 bytes
//! assert_eq!(rt; front_event(b"clock 5\nstart"), clock);
//! assert_eq!(rt; front_event(b"start"), Front::Part);
//! assert_eq!(rt; front_event(b"clock 05\n"), Front::Refused);
//!
//! let line = Line::new(5, Message::Answer(Answer::Clock));
//! assert_eq!(rt; read_line(b"5 clock\n"), Some(line));
//! assert_eq!(rt; read_line(b"05 clock\n"), None);
//! let mut text = Vec::new(alloc);
//! write_line(&mut text, &line)?;
//! assert_eq!(rt; text.as_slice(), b"5 clock\n".as_slice());
//! ```
//!
//! # Behaviour
//!
//! All text is ASCII. A line ends with one newline (byte 10), one space stands between two words, and none elsewhere. Numbers
//! are decimals with no leading zero and no sign. Moments T and M, due moments D, values V and run numbers N are below 2^64;
//! tasks K, codes C and numbers of tasks Q and R below 2^32; workers W below 256.
//!
//! | Event | Its line |
//! |---|---|
//! | `Clock(T)` | `clock T` |
//! | `Start(W)` | `start W` |
//! | `Finish(W, Value(V))` | `finish W ok V` |
//! | `Finish(W, Fault(C))` | `finish W fail C` |
//! | `Cancel(K)` | `cancel K` |
//!
//! | Answer, given at the moment M, or end of a task then | Its line |
//! |---|---|
//! | `Submit` | `M submit K schedule due D`, `M submit K rate due D`, `M submit K fixed due D` |
//! | `Refuse` | `M refuse K illegal`, `M refuse K rejected` |
//! | `Cancel` | `M cancel K yes`, `M cancel K no`, `M cancel K none` |
//! | `Outside` | `M outside K yes`, `M outside K no`, `M outside K none` |
//! | `Purge` | `M purge` |
//! | `Policy` | `M policy`, and one of `continue`, `execute`, `remove`, and one of `true`, `false` |
//! | `Shutdown`, `ShutdownAgain`, `ShutdownNow` | `M shutdown`, `M shutdown again`, `M shutdown now` |
//! | `Ask` | `M ask queue Q running R shutdown yes terminated no`, each of the two words `yes` or `no` |
//! | `Clock` | `M clock` |
//! | `Start` | `M start W task K run N due D` |
//! | `Idle` | `M start W idle` |
//! | `Finish` | `M finish W task K run N`, and one of `done V`, `failed C`, `again due D`, `dropped`, `ended` |
//! | `Error` | `M error`, and one of `backward`, `too far`, `no worker`, `busy`, `not running`, `no task` |
//! | `End(K)` | `M end K` |
//!
//! A reader answers an event, or a line of a trace, exactly when the bytes spell it and its numbers are in these ranges. So
//! [`read_line`] gives back each line that [`write_line`] writes, and takes no other text; it asks for nothing else, as that
//! moments do not fall.
//!
//! # Order and ties
//!
//! Lines are written in the order in which they are given. One line spells one event, and no event's line is the front of
//! another's ([`event_lines_are_one`]); so it is with the lines of a trace ([`lines_are_one`]), of which each has one newline, its
//! last byte ([`lines_end_once`]): so bytes are read in one way. Of some bytes one [`Front`] alone is so ([`fronts_are_one`]), and
//! but for a part it is so whatever follows ([`fronts_stay`]).
//!
//! # Errors
//!
//! [`TextError::Memory`]: the memory for a text was refused. Where there is room for [`LINE_ROOM`] bytes a line it does not come.
//! A line that was not written leaves the text as it was, and the room for more. A reader has no errors: it answers `None`, or
//! [`Front::Refused`].
//!
//! # Memory and cost
//!
//! Readers take no memory, and look at each byte of a line once, or a few times in a word. The first word of a trace's
//! line is looked for among thirteen, those that are most frequent first. Writers write each byte where it stays, and take memory
//! only where there is less room than [`LINE_ROOM`] bytes; a capacity never falls. The longest event's line has 35 bytes, the
//! longest line of a trace 104.
//!
//! The tests stand in `text_tests`.
#![tactic(auto)]

mod answer;
mod answer_text;
mod display;
mod event;
mod front;
mod laws;
mod line;
mod line_text;
mod message;
mod message_text;
mod put;
mod scan;
mod stamp;
mod text_error;
mod words;

pub use display::{LineText, kind_word};
pub use event::{read_event, split_event};
pub use front::{Front, MOST_EVENT_BYTES, front_event, is_part};
pub use laws::{
    event_lines_are_one, front_equality_tells, fronts_are_one, fronts_stay, line_room_is_the_limit,
    lines_are_one, lines_end_once, most_event_bytes_is_the_limit, text_error_equality_tells,
};
pub use line::{read_line, split_line};
pub use line_text::{LINE_ROOM, put_line, put_line_here, write_line};
pub use scan::{code_before, number_before, strip_word};
pub use stamp::Stamp;
pub use text_error::TextError;
pub use words::{split_truth, split_which};

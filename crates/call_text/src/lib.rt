//! The text of the calls on an executor that is live, between lines of events: read, whole or piece by piece.
//!
//! # Usage
//!
//! - [`read_call`] reads one line of a call, with its newline. [`split_call`] also gives what follows.
//! - [`front_line`] reads at the front of bytes that come piece by piece, in which lines of events stand beside lines of calls, and
//!   tells a part of a line from one that is refused. Lines of events are those of
//!   [`front_event`](trace_text::front_event).
//!
//! ```rust
//! let schedule = CallLine::Schedule(5);
//! assert_eq!(rt; read_call(b"call schedule 5\n"), Some(schedule));
//! assert_eq!(rt; read_call(b"call rate 5 0\n"), None); // no period
//! let ask = Some((CallLine::Ask, b"clock 5\n".as_slice()));
//! assert_eq!(rt; split_call(b"call ask\nclock 5\n"), ask);
//!
//! let clock = LiveFront::Event(Event::Clock(5), 8); // the first 8 bytes
//! assert_eq!(rt; front_line(b"clock 5\ncall"), clock);
//! let cancel = LiveFront::Call(CallLine::Cancel(3), 14);
//! assert_eq!(rt; front_line(b"call cancel 3\nstart"), cancel);
//! assert_eq!(rt; front_line(b"call"), LiveFront::Part);
//! assert_eq!(rt; front_line(b"call cancel 03\n"), LiveFront::Refused);
//! ```
//!
//! # Behaviour
//!
//! All text is ASCII. A line ends with one newline (byte 10), one space stands between two words, and none elsewhere. Numbers are
//! decimals with no leading zero and no sign. D, F and P are nanoseconds: a span D or F is 0 to 2^62, a period P and the delay D
//! of `fixed` 1 to 2^62. A task K is below 2^32.
//!
//! | Call | Its line |
//! |---|---|
//! | `Schedule(D)` | `call schedule D` |
//! | `Execute` | `call execute` |
//! | `Rate(F, P)` | `call rate F P` |
//! | `Fixed(F, D)` | `call fixed F D` |
//! | `Cancel(K)` | `call cancel K` |
//! | `Policy(WHICH, VALUE)` | `call policy`, and one of `continue`, `execute`, `remove`, and one of `true`, `false` |
//! | `Shutdown` | `call shutdown` |
//! | `ShutdownNow` | `call shutdown_now` |
//! | `Ask` | `call ask` |
//!
//! A reader answers a call exactly when the bytes spell it and its numbers are in these ranges.
//!
//! # Order and ties
//!
//! One line spells one call, and no call's line is the front of another's ([`call_lines_are_one`]). No line of a call and line of
//! an event stand at the front of the same bytes: of some bytes one [`LiveFront`] alone is so ([`live_fronts_are_one`]), and but
//! for a part it is so whatever follows ([`live_fronts_stay`]).
//!
//! # Errors
//!
//! A reader has no errors: it answers `None`, or [`LiveFront::Refused`].
//!
//! # Memory and cost
//!
//! Readers take no memory, and look at each byte of a line a few times at most: [`front_line`] looks for an event first, then for
//! the newline, and for a call last. The longest line of a call has 51 bytes, so each is below
//! [`MOST_EVENT_BYTES`](trace_text::MOST_EVENT_BYTES), as the longest of an event, 35, is.
//!
//! The tests stand in `text_tests`.
#![tactic(auto)]

mod call;
mod laws;
mod live;
mod spans;

pub use call::{CallLine, read_call, split_call};
pub use laws::{
    call_equality_tells, call_lines_are_one, live_front_equality_tells, live_fronts_are_one,
    live_fronts_stay,
};
pub use live::{LiveFront, front_line};

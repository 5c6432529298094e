//! The lines of the last call on timers, made one at a time from a note of what it was answered: they stand nowhere.
//!
//! # Usage
//!
//! - A caller keeps a [`Last`]: the moment that the clock showed, what the call was answered, as a [`Said`], or both.
//! - [`line_count`] tells how many lines it has, and [`line_at`] makes the one at a place.
//! - [`all_spelled`] tells whether the lines have room for each number: [`line_at`] asks for its yes.
//!
//! ```rust
//! let last = Last::Event {
//!     moment: 5,
//!     said: Said::Idle { worker: 1 },
//! };
//! assert!(rt; all_spelled(last, 5, &[]));
//! assert_eq!(rt; line_count(last, 5, &[]), 2);
//! let clock = Line::new(5, Message::Answer(Answer::Clock));
//! let idle = Line::new(5, Message::Answer(Answer::Idle { worker: 1 }));
//! assert_eq!(rt; line_at(last, 5, &[], 0), Some(clock));
//! assert_eq!(rt; line_at(last, 5, &[], 1), Some(idle));
//! assert_eq!(rt; line_at(last, 5, &[], 2), None);
//! ```
//!
//! # Behaviour
//!
//! First stands the line of a clock that showed a moment, then that of the answer, and then those of the tasks that the call ended, in
//! the order in which they are told (`specs/Lasts.antt`). Each is at the moment that it is now, but the clock's, which is at its own.
//!
//! A call names tasks by 64 bits, and a line names them by 32. A line has room for a number that is below 2^32 (`specs/Narrow.antt`).
//!
//! # Errors
//!
//! There are none: behind the last line is [`None`].
//!
//! # Memory and cost
//!
//! No memory is taken. [`all_spelled`] looks at each task that was ended; all else takes a few steps.
//!
//! The tests stand in `text_tests`.
#![tactic(auto)]

mod last;
mod lines;
mod said;

pub use last::Last;
pub use lines::{all_spelled, line_at, line_count};
pub use said::Said;

//! Moments and spans of time in whole nanoseconds, how a task is timed, how a run of it ended, and the policies of an
//! executor.
//!
//! # Usage
//!
//! A plan states its times as a whole number and a [`Unit`]. [`span`] and [`period`] make a [`Span`] of the two, and
//! [`moment`] adds an offset to a moment. A [`Timing`] says how often a task runs, and [`next_due`] when it runs again.
//!
//! ```rust
//! let delay = span(5, Unit::Ms)?;
//! assert_eq!(rt; moment(7, delay.nanos())?, 5_000_007);
//! assert_eq!(rt; span(-5, Unit::Ms)?.nanos(), 0); // at once
//! assert_eq!(rt; period(0, Unit::Ms)?, None); // no period
//!
//! // A run that was due at 7 has ended at 9.
//! assert_eq!(rt; next_due(Timing::Once, 7, 9), None);
//! assert_eq!(rt; next_due(Timing::Rate(delay), 7, 9), Some(5_000_007));
//! assert_eq!(rt; next_due(Timing::Fixed(delay), 7, 9), Some(5_000_009));
//!
//! // The policies once a cancelled task leaves the queue at once.
//! assert!(rt; Policies::defaults().with(Which::Remove, true).removes);
//! ```
//!
//! # Behaviour
//!
//! A moment is a number of nanoseconds since a beginning that the caller chooses. Nothing here reads a clock: each moment
//! is handed in. A moment and a span are 0 to [`LONGEST`] nanoseconds, 2^62, some 146 years; so the sum of two is exact,
//! and a run is due at most at 2^63. No value is rounded or cut.
//!
//! [`Which`] names the three policies of an executor, and [`Policies`] are their values: [`Policies::defaults`] before any
//! is set, and [`Policies::with`] after one is.
//!
//! # Order and ties
//!
//! No type here has an order: moments are numbers, and two of them are compared as such. `==` is true of two values of a
//! type if and only if they are one value ([`laws`]).
//!
//! # Errors
//!
//! The one error is [`TimeError::TooLarge`]. [`span`], [`period`] and [`moment`] answer it exactly when the exact result
//! is more than [`LONGEST`]; whether a span is negative or a period is none is looked at first. All else cannot fail.
//!
//! # Memory and cost
//!
//! No call takes memory, each takes constant time, and all values are `Copy`.
//!
//! # Tests
//!
//! They stand in `meaning_tests`.
#![tactic(auto)]

mod conversions;
mod error;
pub mod laws;
mod limits;
mod policies;
mod spans;
mod timing;
mod unit;

pub use conversions::{moment, period, span};
pub use error::TimeError;
pub use limits::LONGEST;
pub use policies::{Policies, Which};
pub use spans::Span;
pub use timing::{Ending, Timing, next_due};
pub use unit::Unit;

//! Readers and writers for tests that follow a script: they give and take a few bytes at a time, are interrupted, are in trouble
//! at one call, and give without end.
//!
//! # Usage
//!
//! ```rust
//! let script = Script {
//!     interrupts: 1,
//!     ..Script::smooth(3)
//! };
//! let mut reader = Giving::new(b"clock", b"", script);
//! let mut buffer = [0u8; 5];
//! assert!(rt; reader.read(&mut buffer).is_err()); // the first call is interrupted
//! assert_eq!(rt; reader.read(&mut buffer)?, 3);
//! assert_eq!(rt; reader.calls(), 2);
//! ```
//!
//! # Behaviour
//!
//! A [`Script`] says how many bytes a call moves at most, how many calls in a row are interrupted before each other one, and which
//! of these others is in trouble: it fails, or moves nothing. [`Giving`] gives some bytes, and then others again and again; where
//! the others are none, it is at its end. [`Taking`] keeps what it takes. Both count their calls, and [`Script::calls`] says how
//! many there are up to a fault, so that a test sees that an end at fault is called no more.
//!
//! # Errors
//!
//! A call fails where the script says so, and [`Taking`] where memory for what it takes is refused.
//!
//! # Memory and cost
//!
//! [`Taking`] keeps all that it takes. [`Giving`] takes no memory.
//!
//! # Tests
//!
//! That of the lines above stands in `end_tests`, all others in the crates that use it.

mod giving;
mod script;
mod taking;

pub use giving::Giving;
pub use script::{Script, Trouble};
pub use taking::Taking;

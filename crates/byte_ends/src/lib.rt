//! Where bytes come from and where they go: sources and sinks whose faults are counted, and the bytes that are held between.
//!
//! # Usage
//!
//! ```rust
//! let mut source = Pieces::new(b"5 clock\n", 7); // in place of `Reading::new(rt.stdin())`
//! let mut held = HeldBytes::new(alloc)?;
//! assert_eq!(rt; held.fill(&mut source), Filled::More);
//! assert_eq!(rt; held.bytes(), b"5 clock".as_slice()); // the 7 bytes of one read
//!
//! let mut sink = Writing::new(Vec::new(alloc)); // in place of `Writing::new(rt.stdout())`
//! assert!(rt; write_text(&mut sink, held.bytes())); // false: the sink is at fault
//! assert_eq!(rt; sink.into_inner().as_slice(), b"5 clock".as_slice());
//! ```
//!
//! [`Reading`] and [`Writing`] make a [`Source`] and a [`Sink`] of std's readers and writers, [`Pieces`] a source of bytes in
//! memory. [`HeldBytes`] keeps what was read and not taken yet, at most 64 KiB.
//!
//! # Errors
//!
//! A read or write that fails by `Interrupted` did nothing, and is tried again. The 1,000th of them in a row is a fault of that end;
//! one that does something sets the count back. Any other fault is told at once, and so is a write that takes nothing. An end at
//! fault is not called again by the same call. [`read_some`] and [`write_some`] are such tries, [`write_text`] writes a whole text by
//! them, and [`HeldBytes::fill`] is one read.
//!
//! | Call | At a fault | What was done |
//! |---|---|---|
//! | [`read_some`] | `None` | nothing was consumed |
//! | [`write_some`] | `None` | nothing was appended |
//! | [`write_text`] | `false` | a front of the text was appended |
//! | [`HeldBytes::fill`] | [`Filled::Fault`] | nothing changed |
//! | [`HeldBytes::new`] | `AllocError` | nothing |
//!
//! # What contracts see
//!
//! Of a source its bytes that are left, and of a sink those that it took, where they are known; and of both how many calls failed, and
//! how many were fruitless, since they were interrupted. `specs/Ends` says what a call, a try and tries one behind the other count.
//!
//! # Memory and cost
//!
//! [`HeldBytes`] takes a buffer of 64 KiB, once. A refill moves what is held to its front, and reads once behind it. Nothing else takes
//! memory.
//!
//! # Tests
//!
//! They stand in `end_tests`.
#![tactic(auto)]

mod ends;
mod fault_counts;
mod held;
mod laws;
mod memory;
mod readers;
mod writers;

pub use ends::{Sink, Source, read_some, write_some, write_text};
pub use held::{Filled, HeldBytes, PIECE};
pub use laws::filled_equality_tells;
pub use memory::Pieces;
pub use readers::Reading;
pub use writers::Writing;

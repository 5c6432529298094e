//! An object on the heap, behind a pointer that a program in C holds.
//!
//! # Usage
//!
//! A static library that keeps an object for C has a `#[repr(C)]` struct of its own, its slot, with the pointer and the
//! allocator of a [`Kept`]. C sees a struct with one pointer, since a `Global` takes no bytes. [`Kept::of`] takes an object
//! out of its box, and [`Kept::into_box`] puts it into one again:
//!
//! ```rust
//! let kept = Kept::of(Box::new(alloc, 7u32)?);
//! let seven = kept.into_box();
//! assert_eq!(rt; *seven, 7);
//! ```
//!
//! A slot is full or empty, and owns what `slot_owns` of `specs/Slots.antt` says. C takes no type parameters, so each
//! library writes the struct, and three small functions that move its fields: from a `Kept`, to a `Kept`, and the empty
//! slot. `delay_queue_c` shows them.
//!
//! # Memory
//!
//! No call of this crate takes memory or frees it.
//!
//! The tests stand in `word_tests`, and by the tests of `sched_c` and `delay_queue_c`.
#![tactic(auto)]

mod kept;

pub use kept::Kept;

//! The delay queue for programs in C, and in what calls C.
//!
//! # Usage
//!
//! `include/delay_queue.h` declares these functions for C and C++, with what a caller owes. `rt lib` makes
//! `out/libdelay_queue_c.a`, which is linked with the toolchain's `c/liblibc_c.a`, and `examples/embed` has programs in C, Rust
//! and Python.
//!
//! # Behaviour
//!
//! C holds a [`Slot`](slot::Slot): the pointer to a queue on the heap, and whether there is one. Each export takes the queue out
//! of its slot, calls the method of `delay_queue` with its name, and puts the queue back. Its contract states the clauses of
//! that method again. Each export but `dq_insert_unchecked` requires nothing, and says by a number how it ended
//! ([`Status`](status::Status), `specs/Statuses.antt`): which number comes when, and that the queue is as it was where it is not
//! 0. A contract sees what becomes of the queue as the value that the slot holds, and never where it lies.
//!
//! [`dq_ref_insert_many`](many::dq_ref_insert_many) and [`dq_ref_poll_many`](many::dq_ref_poll_many) are proved to do what the
//! same calls one by one do, in that order, as far as they say that they came.
//!
//! # Memory
//!
//! `dq_ref_new` takes the two tables of a queue and the room that the queue itself lies in, and where one of these is refused
//! it gives the others back. No other call takes memory. That `dq_ref_free` gives all of it back is no clause: `tools/bindings`
//! counts.
//!
//! # Null
//!
//! An export takes no pointer that may be null. The functions of the header test for that before they call, and these are
//! named `dq_ref_..` for it.
//!
//! # Threads
//!
//! A slot may cross to another thread, which is proved (`Send`), and is used by one at a time.
#![tactic(auto)]

mod entry;
mod held;
mod insert;
mod life;
mod look;
mod many;
mod poll;
mod slot;
mod status;
#[cfg(test)]
mod tests;

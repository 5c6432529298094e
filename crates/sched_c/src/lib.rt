//! The executor for programs in C: a static library, with `include/sched.h`.
//!
//! # Usage
//!
//! ```c
//! sched_slot slot = SCHED_EMPTY;
//! sched_new(&slot, plan, length, 1, 1000, &fault);
//! sched_clock(&slot, 10);
//! sched_text(&slot, 0, text, sizeof text, &copied);
//! fwrite(text, 1, copied.bytes, stdout); // "0 submit 0 rate due 10\n10 clock\n"
//! sched_free(&slot);
//! ```
//!
//! A program holds a [`Slot`](slot::Slot), which is empty or has an executor: the core of a plan's text, and the lines that its last event was
//! answered. The calls of `exports` are those of the header with `ref` in their names; `include/sched.h` puts a test for null
//! pointers before each. `examples/embed` has programs in C, Rust and Python.
//!
//! # Threads
//!
//! A slot may cross to another thread, which is proved (`Send`), and is used by one at a time.
//!
//! # Behaviour
//!
//! Each event of `executor_model` is one call. Its lines stand in the executor until the next event that is taken, and their
//! text is copied into the caller's buffer, whole lines at a time. So the library holds no text, takes no memory for it, and
//! hands out no pointer that could be used too late. Which run a start got is told as numbers too.
//!
//! # Errors
//!
//! Each call answers the number of a [`Status`](status::Status). A call that does not answer 0 leaves the executor and its lines as
//! they were. `specs/Calls.antt` says of each call which status comes exactly when, and what it does.
//!
//! # Memory and cost
//!
//! Making an executor takes all memory that it ever needs: what the core takes, and room for the lines of any one event. No
//! event takes memory, so none is answered by want of it. An event costs what the core takes for it, and a few steps more.
#![tactic(auto)]

mod calls;
mod exports;
mod fault;
mod held;
mod session;
mod slot;
mod started;
mod state;
mod status;
#[cfg(test)]
mod tests;

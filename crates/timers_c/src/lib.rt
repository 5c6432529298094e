//! Timers for programs in C: a static library, with `include/timers.h`.
//!
//! # Usage
//!
//! ```c
//! timers_slot timers = TIMERS_EMPTY;
//! timers_new(&timers, 1);
//! timers_schedule(&timers, 0, 5000000, 70, &task); // once, after 5 ms, with 70
//! timers_next_due(&timers, &due);                  // 5000000: the moment to wait for
//! timers_poll(&timers, due, 0, &run);              // run 0 of the task, with 70
//! timers_finish(&timers, due, 0, 1, &end);         // end.outcome is TIMERS_OUTCOME_DONE
//! timers_free(&timers);
//! ```
//!
//! A program holds a [`Slot`](slot::Slot), which is empty or has a [`Session`](session::Session): the timers, and what they note of
//! the last call that was taken. The calls of `exports` are those of the header with `ref` in their names; `include/timers.h` puts a
//! test for null pointers before each. `examples/embed` has programs in C, Rust and Python.
//!
//! # Threads
//!
//! A slot may cross to another thread, which is proved (`Send`), and is used by one at a time.
//!
//! # Behaviour
//!
//! Each call is one of `timers`, and its contract says of it the same, whatever calls and history led here (`specs/Calls.antt`).
//! A contract sees a session as [`Seen`](../../specs/Seen.antt): the timers, and the lines that a trace has of the last call that was
//! taken. These lines take no memory (`call_lines`): a session notes the moment that the clock showed and the answer, and the timers have the tasks
//! that the call ended. `timers_ref_text` makes them one at a time, and copies their text into the caller's buffer
//! (`specs/Texts.antt`). `timers_ref_poll_many` and `timers_ref_finish_many` do what the same calls one by one do, as far as they say
//! that they came (`specs/Many.antt`).
//!
//! # Errors
//!
//! Each call answers the number of a [`Status`](status::Status). Where it is none of `Done`, `Shut`, `Idle`, and `Full` of a poll, the
//! timers and the lines of the last call are as they were, but that what a call on many has counted has happened. `specs/Calls.antt`
//! says of each call which status comes exactly when, but for want of memory, and what it writes: zeros where it has nothing to tell.
//!
//! # Memory and cost
//!
//! `timers_ref_new` takes the memory of the timers, and the room that the session itself lies in. The submissions and
//! `timers_ref_reserve` take what those of `timers` do, and no other call answers want of memory; that none asks for any is tested. A
//! call costs what that of `timers` does, and a few steps more.
//!
//! # Tests
//!
//! They are in C, in `bindings/c/tests`: each answer of each call, and each growth refused in turn; `tools/bindings` runs them.
#![tactic(auto)]

mod exports;
mod held;
mod life;
mod many;
mod reading;
mod refs;
mod running;
mod runs;
mod session;
mod shutting;
mod slot;
mod state;
mod status;
mod submission;
mod submitting;
mod text;

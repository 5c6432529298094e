//! Contracts of public calls, word by word, over functions that do nothing but call them.
//!
//! A clause that got weaker in its library is found here, where the old one is no longer proved; and a wrong body is tried against a
//! contract for the price of this small crate, and not of the library (`must-fail`). Each library has wrong bodies of its own in
//! `planted`. `tools/inventory` compares the clauses with those of the libraries.
#![tactic(auto)]

mod calls;
mod cores;
mod live;
mod pictures;
mod plans;
mod pools;
mod reasons;
mod runs;
mod texts;

pub use calls::make_call;
pub use cores::{event, full, happen};
pub use live::{restore, run as run_live, schedule};
pub use pictures::{draw, picture, place};
pub use plans::{migrate, read_plan};
pub use pools::run_pool;
pub use reasons::{
    reason_of, reason_of_events, reason_of_live_lines, reason_of_trace, warnings_of,
};
pub use runs::{run, run_and_check, run_in_memory, write_listing, write_tasks};
pub use texts::{put_line, read_event, read_line, split_event, split_line, write_line};

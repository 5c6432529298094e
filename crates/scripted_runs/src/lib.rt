//! Rows for tests: what comes of a plan and of events, as texts. And readers and writers that follow a script: [`ends`].
//!
//! # Usage
//!
//! ```rust
//! let row = ONE_DELAY; // of scripted_runs::runs
//! let plan = read_plan(alloc, row.plan.as_bytes())?;
//! assert!(rt; row.trace.len() <= MOST_BYTES);
//! let finding = check(alloc, &plan, row.workers, row.trace.as_bytes())?;
//! assert_eq!(rt; finding, Finding::Conforms, "{}", row.name);
//! ```
//!
//! # Behaviour
//!
//! A module is a topic, and its `all` lists its rows. [`topic`] gives those of each. A [`Row`] that a test or a page asks for by
//! itself is a constant; each other one stands in the list. What is true of one row has to be true of each: one test goes over all
//! of them.
//!
//! In the sources a line of a text is a moment, as far as it fits.
//!
//! # Errors
//!
//! Each plan is one, each event is taken, and the trace is the whole of what is answered.
//!
//! # Tests
//!
//! In `check_tests` the core and the plain program answer the events, and each front of the trace is checked;
//! `run_tests` runs from bytes to bytes, and checks what it ran, also with the plan migrated. `book_tests` goes over
//! them with a book, `pool_run_tests` with a pool.
#![tactic(auto)]

ghost use Rattle.std.specs.Prelude.{◌≡◌, ◌<◌, ◌≤◌, [], length};

pub mod asking;
pub mod blocks;
pub mod cancels;
pub mod ends;
pub mod examples;
pub mod kept;
pub mod policies;
pub mod runs;
pub mod shutdown;
pub mod stopping;
pub mod sweeps;
pub mod times;

/// What comes of a plan and of events.
#[derive(Clone, Copy)]
pub struct Row {
    /// What the row shows, in words that no other row has.
    pub name: &'static str,
    /// The text of a plan.
    pub plan: &'static str,
    /// How many workers there are.
    pub workers: u8,
    /// The lines of the events.
    pub events: &'static str,
    /// The lines of the trace that the plan has of these events.
    pub trace: &'static str,
}

/// How many topics there are.
pub const TOPICS: u32 = 11;

/// The rows of a topic, which are numbered from 0: at least one of each, and none past the last. No contract tells which rows they
/// are, so a test that goes over them is proved as for any rows.
pub fn topic(number: u32) -> &'static [Row]
    ensures some { number < TOPICS → 0 < length result.now }
    ensures past { TOPICS ≤ number → result.now ≡ [] }
{
    match number {
        0 => runs::all(),
        1 => cancels::all(),
        2 => kept::all(),
        3 => asking::all(),
        4 => policies::all(),
        5 => shutdown::all(),
        6 => stopping::all(),
        7 => sweeps::all(),
        8 => blocks::all(),
        9 => times::all(),
        10 => examples::all(),
        _ => &[],
    }
}

//! What happens to an executor and what it is answered, and the equations that fix each answer.
//!
//! # Usage
//!
//! An [`Event`] is what the outside reports; a [`Happening`] is one, the next call of the plan, or a purge. Each gets an
//! [`Answer`]. A [`Line`] of a trace is the moment with a [`Message`], which is an answer, or that a task was ended.
//!
//! ```rust
//! // At moment 5 worker 0 has a run of task 0 behind it, which gave the value 7.
//! let outcome = Outcome::Done(7);
//! let answer = Answer::Finish {
//!     worker: 0,
//!     task: 0,
//!     run: 0,
//!     outcome,
//! };
//! let line = Line::new(5, Message::Answer(answer));
//!
//! assert_eq!(rt; line.moment(), 5);
//! assert_eq!(rt; line.message(), Message::Answer(answer));
//! // The line keeps it without nesting, and so it can be looked at.
//! assert_eq!(rt; *line.said(), Said::finish(0, 0, 0, outcome));
//! // What is kept of a happening is that happening.
//! let happening = Event::Finish(0, Ending::Value(7)).happening();
//! assert_eq!(rt; KeptHappening::new(happening).happening(), happening);
//! ```
//!
//! # Behaviour
//!
//! A [`Task`] is what an executor keeps of a task, with the [`Stage`] it is in. No code here answers anything. What a happening
//! is answered is said by definitions, which contracts of the crates above cite: `View` is what an answer looks at, and `Answers`
//! the table of answers; `Histories` says which lists of happenings with their answers are histories of a plan's calls; `Flows`
//! which happenings come of events, and the lines of a history; `State` is what takes the place of a history where none is kept.
//! `Needs` names the words that a happening moves, and `Tasks` the word of a task. `Counts` has the greatest number of workers,
//! and `Within` histories that are answered by the table.
//!
//! # Errors, memory and cost
//!
//! No function fails, or takes memory, and each takes constant time. A [`Line`] takes 32 bytes and a [`KeptHappening`] 16: the shapes of [`Message`] (40 bytes) and
//! [`Happening`] (24) nest, so a list holds neither.
//!
//! # Tests
//!
//! They stand in `core_tests`, with those of `executor_core` and of the plain program.
#![tactic(auto)]

mod kept;
mod laws;
mod limits;
mod said;
mod task;
mod types;

pub use kept::KeptHappening;
pub use laws::{line_equality_tells, most_workers_is_the_limit};
pub use limits::MOST_WORKERS;
pub use said::{Said, said_equality_tells};
pub use task::{Stage, Task};
pub use types::{
    Answer, CancelEffect, Event, EventError, Happening, Kind, Line, Message, Need, Outcome, Refusal,
};

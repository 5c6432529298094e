//! What is odd about a plan that is one: calls that are refused whatever comes, cancels of them, and what may be a slip.
//!
//! # Usage
//!
//! ```rust
//! let text =
//!     "version = 2\n\n[[block]]\n\n[[block.call]]\nop = \"shutdown\"\n\n[[block.call]]\nop = \"execute\"\nname = \"late\"\n";
//! let plan = plan_of(alloc, text)?; // by `read_plan`
//! let warnings = warnings_of(alloc, &plan, text.as_bytes())?;
//! let first = warnings.first().ok_or("no warning")?;
//! let told = first.in_file("plan.toml").to_string(alloc)?;
//! let wanted = "plan.toml:10: warning: block 1, call 2, name = \"late\": refused each time; \
//!     block 1, call 1 shuts the executor down";
//! assert_eq!(rt; told.as_str(), wanted);
//! ```
//!
//! # Behaviour
//!
//! [`warnings_of`] takes a plan and the text that [`read_plan`](plan_read::read_plan) read it from. A plan with warnings is a plan:
//! nothing of it is refused, and it is run as it stands.
//!
//! | Kind | Told of | Key | What is told |
//! |---|---|---|---|
//! | `Illegal` | a `rate` whose period, or a `fixed` whose delay, is zero or negative | `period`, `delay` | `not above 0; refused as illegal each time` |
//! | `Rejected` | a submission that is not illegal, and before which a shutdown stands in the plan | `name` | `refused each time; block 1, call 2 shuts the executor down` |
//! | `RejectedAgain` | one that is not illegal, and before which none stands, in a block that is made more than once and has one | `name` | `refused from the second iteration on; block 1, call 2 shuts the executor down` |
//! | `NothingToCancel` | a cancel of a submission that is illegal, or before which a shutdown stands | `name` | `cancels nothing; its submission is refused each time` |
//! | `ShortPeriod` | a period, or a delay of `fixed`, of 1 to 999 nanoseconds whose unit does not stand in the text | `period`, `delay` | `nanoseconds; no unit is given` |
//! | `UnusedName` | a submission that no cancel names, where the plan has a cancel | `name` | `no cancel has this name` |
//!
//! A shutdown is `shutdown` or `shutdown_now`. The one that is told is the first of the plan. The unit of a period stands at
//! `period_unit` or `delay_unit` beside it, and in version 1 at `unit` of its block.
//!
//! A name is how calls and readers speak of a task: a plan needs one for each submission, also where nothing cancels it. So names
//! are told as unused only where some cancel stands: there one that no cancel has may be a slip.
//!
//! A warning prints as one line, `PLACE, KEY = VALUE: WHAT IS TOLD`, and with the name of a file and its line before it as
//! `plan.toml:12: warning: block 2, ..`. The line is that of the key, as [`plan_lines`] finds it, if it can be told. A key that is
//! written with an escape has no line, and its value is told all the same.
//!
//! # Order and ties
//!
//! Warnings stand in the order of the text, block by block and call by call, and those of one call in the order of the table.
//!
//! # Errors
//!
//! [`warnings_of`] fails where there is no memory. It does so as well for a text that is no TOML document, which is that of no
//! plan.
//!
//! # What is proved
//!
//! - Which calls are told, with which kinds and in which order, is exactly the table of `specs/Warnings.antt`, over the places of
//!   the plan's calls (`specs/Places.antt`); of `ShortPeriod` exactly where no unit stands in the tree of the text
//!   (`specs/Units.antt`).
//! - A line which is told is one of the text.
//! - Whatever comes, in each history of the calls of the plan: each call of a place that is told as `Illegal` is answered
//!   `refuse K illegal` ([`illegal_places_are_refused`]), each of one that is told as `Rejected` `refuse K rejected`
//!   ([`rejected_places_are_refused`]), as are those of one told as `RejectedAgain` from the second iteration on
//!   ([`places_rejected_again_are_refused`]). Each cancel that is told as `NothingToCancel` is answered `cancel K none`
//!   ([`places_with_nothing_to_cancel_have_no_effect`]).
//! - The same of any calls, whether those of a plan or not: a submission that is illegal, or stands behind a shutdown, is refused, and
//!   a cancel of its task has no effect ([`illegal_calls_are_refused`], [`calls_behind_shutdowns_are_rejected`],
//!   [`cancels_of_refused_tasks_have_no_effect`]).
//!
//! That a line is told, and the key, the value, the shutdown and the text of a warning are only tested, in `reason_tests`. So is
//! that the answer is no want of memory where there is none.
//!
//! # Memory and cost
//!
//! The list of warnings takes memory of the allocator that is handed in, and while they are found a list of the plan's calls and
//! two sets of submissions do. The tree of the text is made once more, in the heap. A warning owns what it tells, and takes no
//! memory of its own.
//!
//! A plan whose text has n calls takes the time of n and of its text. A line is looked for from the front of the text, as
//! [`plan_lines`] does, so lines are told as long as that goes over no more than 16,777,216 bytes in all: of each warning where the
//! text has at most 4,096 bytes for each of 4,096 warnings, and of the first 16 in the longest text.
#![tactic(auto)]

mod finding;
mod kinds;
mod laws;
mod marks;
mod odd;
mod places;
mod scribe;
mod targets;
mod units;
mod warning;

pub use finding::warnings_of;
pub use kinds::{OddCall, WarningKind};
pub use laws::{
    calls_behind_shutdowns_are_rejected, cancels_of_refused_tasks_have_no_effect,
    illegal_calls_are_refused, illegal_places_are_refused, places_rejected_again_are_refused,
    places_with_nothing_to_cancel_have_no_effect, rejected_places_are_refused,
};
pub use warning::{CallNumber, InFile, Stood, Warning};

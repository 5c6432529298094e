//! The text of a snapshot: what is written of an executor, so that another one can be made of it, beside how far the run is that it
//! stands in.
//!
//! # Usage
//!
//! [`write_snapshot`] writes the text into a [`Sink`](byte_ends::Sink), piece by piece; [`read_snapshot`] reads one that stands in
//! memory. What is written is that of [`Frame`](task_table::Frame) and [`Image`](task_table::Image), and what is read is handed on to
//! the `restore` of an executor, which says whether one may stand so.
//!
//! ```rust
//! let table = Frame {
//!     moment: 7,
//!     workers: 1,
//!     slots: 1,
//!     policies: Policies::defaults(),
//!     shut: false,
//!     stopped: false,
//! };
//! let head = Head {
//!     lines: 2,
//!     written: 2,
//!     table,
//!     earliest: 8,
//!     count: 1,
//!     accepted: 1,
//! };
//! let mut writer = Writing::new(Vec::new(alloc));
//! write_snapshot(alloc, &head, &[], &[], &[0], &mut writer)?;
//! let text = writer.into_inner();
//! assert!(rt; text.starts_with(b"sched snapshot 1\nlines 2 written 2\n"));
//!
//! let snapshot = read_snapshot(alloc, &text)?;
//! assert!(rt; *snapshot.head() == head && snapshot.empty() == [0].as_slice());
//! ```
//!
//! # The text
//!
//! ```text
//! sched snapshot 1
//! lines 40123 written 40310
//! workers 3 slots 6
//! moment 5000 earliest 5001
//! numbers 812 accepted 812
//! continue false
//! execute true
//! remove false
//! shut false
//! stopped false
//! task 3 slot 5 due 900 run 0 once waits
//! task 7 slot 1 due 4000 run 31 rate 100 runs 2
//! task 9 slot 0 due 4100 run 0 once kept
//! task 11 slot 2 due 80 run 4 fixed 5 runs 1 cancelled
//! free 4
//! free 3
//! end 4 9202126142331287350
//! ```
//!
//! All of it is ASCII. A line ends with one newline, one space stands between two words, and numbers are decimals with no leading zero.
//! Moments, periods and delays are nanoseconds.
//!
//! - `lines` and `written` are how many lines the run has taken, and written; `moment` is now, `earliest` the least moment of the call
//!   that comes next; of the `numbers` that were given out so many submissions were `accepted`.
//! - A task waits for a run, with its due moment and number; or it is kept in the queue, cancelled; or a worker makes that run, whether
//!   it was cancelled meanwhile or not.
//! - Where a caller gave numbers of its own with its tasks, these follow the tasks, one each: `data 17`.
//! - Empty slots stand in the order in which they are taken.
//! - The last line has the number of tasks, and the sum of all bytes before the line. It finds decay; no contract rests on it.
//!
//! # Errors
//!
//! [`SnapshotFault`] says why a text is none, and where: [`SnapshotFault::Line`] has the first line that can not stand there.
//!
//! # Order and ties
//!
//! One text is that of one snapshot alone ([`snapshots_are_one`]).
//!
//! # Memory and cost
//!
//! Writing takes 64 KiB, whatever is written; reading as much as what is read. Each byte is looked at a few times.
//!
//! The tests stand in `snapshot_tests`.
#![tactic(auto)]

mod fault;
mod front;
mod head;
mod laws;
mod lines;
mod page;
mod reading;
mod snapshot;
mod spelled;
mod standing;
mod sum;
mod task;
mod task_line;
mod words;
mod writing;

pub use fault::{SnapshotError, SnapshotFault};
pub use head::Head;
pub use laws::snapshots_are_one;
pub use reading::read_snapshot;
pub use snapshot::Snapshot;
pub use standing::Standing;
pub use writing::write_snapshot;

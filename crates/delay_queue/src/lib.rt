//! A queue of tasks, each of which comes out once the moment at which it is due has come.
//!
//! # Usage
//!
//! A [`DelayQueue`] is made once, for a count of tasks, and takes all of its memory then. Each task below that count has
//! at most one [`Entry`] in it. [`insert`](DelayQueue::insert) adds an entry, [`poll`](DelayQueue::poll) takes out the
//! least one if it is due at the moment that the caller names, and [`peek`](DelayQueue::peek) shows the least one, due or
//! not. The least entry is the one with the earliest moment, and among those of one moment the one with the smallest task
//! number.
//!
//! ```rust
//! // Room for the tasks 0, 1 and 2.
//! let mut queue = DelayQueue::new(alloc, 3)?;
//! queue.insert(Entry { due: 5, task: 0 });
//! queue.insert(Entry { due: 3, task: 2 });
//!
//! assert_eq!(rt; queue.peek(), Some(Entry { due: 3, task: 2 }));
//! assert_eq!(rt; queue.poll(3), Some(Entry { due: 3, task: 2 }));
//! assert_eq!(rt; queue.due_of(0), Some(5));
//! assert!(rt; queue.remove(0));
//! assert!(rt; queue.is_empty());
//! ```
//!
//! # Behaviour
//!
//! A contract sees a queue as a table by task number, with the due moment of each task that has an entry. `insert`, `poll`
//! and `remove` change one task's place in that table. `poll` on a queue where nothing is due, and `remove` of a task
//! without an entry, change nothing. [`due_of`](DelayQueue::due_of) and [`contains`](DelayQueue::contains) look a task up,
//! and a task past the count has no entry.
//!
//! # Moments
//!
//! A moment is a number of nanoseconds since a beginning that the caller chooses. The queue reads no clock: `poll` is told
//! the moment, and an entry is due once its moment is not after it.
//!
//! # Order and ties
//!
//! Entries leave by moment, and at one moment by task number, whatever the order in which they came. The comparisons of
//! [`Entry`] are this order ([`laws`]).
//!
//! # Errors
//!
//! [`DelayQueue::new`] fails with [`QueueError::Memory`] where the allocator has no room. No other call takes memory or
//! can fail.
//!
//! # Memory and cost
//!
//! A queue takes 20 bytes for each task: 16 for an entry, and 4 for the place of the task's entry in a heap, each of whose
//! entries has four below it. With n entries, `insert`, `poll` and `remove` compare two entries or move one at most
//! `4 d + 2` times, where d is the number of binary digits of n: the contracts of these calls state the bound, and
//! [`touched`](DelayQueue::touched) counts. All other calls take constant time, but for `new`, which goes over the places.
//!
//! # Tests
//!
//! They stand in `queue_tests`.
#![tactic(auto)]

mod entry;
mod error;
pub mod laws;
mod queue;
pub mod slots;

pub use entry::Entry;
pub use error::QueueError;
pub use queue::DelayQueue;

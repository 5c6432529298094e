//! A queue of slots, each of which comes out once the moment at which it is due has come.
//!
//! # Usage
//!
//! A [`SlotQueue`] has room for so many slots, and each of them has at most one [`Entry`] in it.
//! [`insert`](SlotQueue::insert) adds an entry, [`poll`](SlotQueue::poll) takes out the least one if it is due at the moment
//! that the caller names, and [`peek`](SlotQueue::peek) shows the least one, due or not. The least entry is the one with the
//! earliest moment, among those of one moment the one with the lowest rank, and among those of one rank the one with the
//! smallest slot number. [`reserve`](SlotQueue::reserve) makes room for more slots.
//!
//! ```rust
//! let mut queue = SlotQueue::new(alloc, 2)?;
//! queue.insert(Entry {
//!     due: 5,
//!     rank: 8u64,
//!     slot: 0,
//! });
//! queue.insert(Entry {
//!     due: 5,
//!     rank: 7u64,
//!     slot: 1,
//! });
//! queue.reserve(3)?; // room for the slots 0, 1 and 2
//! queue.insert(Entry {
//!     due: 3,
//!     rank: 9u64,
//!     slot: 2,
//! });
//!
//! assert_eq!(rt; queue.poll(2), None); // nothing is due yet
//! assert_eq!(rt; queue.poll(3).map(|entry| entry.slot), Some(2));
//! assert_eq!(rt; queue.poll(5).map(|entry| entry.slot), Some(1)); // its rank is the lower one
//! assert_eq!(rt; queue.due_of(0), Some(5));
//! assert!(rt; queue.remove(0));
//! assert!(rt; queue.is_empty());
//! ```
//!
//! # Behaviour
//!
//! A contract sees a queue as a table by slot, with the key of each slot that has an entry: its due moment, and its rank as
//! a number. `insert`, `poll` and `remove` change one slot's place in that table. `poll` on a queue where nothing is due, and
//! `remove` of a slot without an entry, change nothing. [`due_of`](SlotQueue::due_of) and [`contains`](SlotQueue::contains)
//! look a slot up, and a slot that there is no room for has no entry. `reserve` makes the table longer, and the new slots
//! have no entry.
//!
//! # Moments
//!
//! A moment is a number of nanoseconds since a beginning that the caller chooses. The queue reads no clock: `poll` is told
//! the moment, and an entry is due once its moment is not after it.
//!
//! # Ranks, order and ties
//!
//! Entries leave by moment, at one moment by rank, and at one rank by slot number, whatever the order in which they came.
//! The kind of rank is a parameter of the queue ([`Rank`]): a `u64`, such as the number of a submission, of which the lower
//! one leaves first, or [`NoRank`], which takes no room and no comparison. The comparisons of [`Entry`] are this order
//! ([`laws`]).
//!
//! # Errors
//!
//! [`SlotQueue::new`] and `reserve` fail with [`QueueError::Memory`] where the allocator has no room, and a queue whose
//! `reserve` failed is as it was. No other call takes memory or can fail.
//!
//! # Memory and cost
//!
//! A queue made for n slots takes for each of them 20 bytes, and 28 with a `u64` as rank: an entry, and 4 bytes for its
//! place in a heap, each of whose entries has four below it. How much more a queue has that grew, its lists decide. With n
//! entries, `insert`, `poll` and `remove` compare two entries or move one at most `4 d + 2` times, where d is the number of
//! binary digits of n: [`touched`](SlotQueue::touched) counts these, and contracts state the bound of what each call adds. All other
//! calls take constant time, but for `new` and `reserve`, which go over the places.
//!
//! # Tests
//!
//! They stand in `queue_tests`.

mod entry;
mod error;
mod heap;
pub mod laws;
mod queue;
mod rank;

pub use entry::Entry;
pub use error::QueueError;
pub use queue::SlotQueue;
pub use rank::{NoRank, Rank};

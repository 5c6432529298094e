//! What is so of the comparisons, in functions that do nothing: each ensures one law.
ghost use Rattle.std.specs.Prelude.{◌≡◌, ◌↔◌, ℕ, true};
ghost use Rattle.std.specs.Ordering.{partial_lt};
ghost use Rattle.delay_queue.specs.declared.slots.entry.Entry.{Entry as entry};
ghost use Rattle.delay_queue.specs.declared.slots.rank.NoRank.{NoRank as no_rank};
ghost use Rattle.delay_queue.specs.declared.slots.error.QueueError.{QueueError as error};
ghost use Rattle.delay_queue.specs.slots.Entries.{seen, is_before};

use crate::slots::entry::Entry;
use crate::slots::error::QueueError;
use crate::slots::rank::{NoRank, Rank};

/// Two entries compare as equal exactly when they are the same.
pub fn entry_equality_tells()
    ensures { (a b : entry ℕ) → (⟦<Entry<u64> as PartialEq>⟧.eq a b ≡ true) ↔ (a ≡ b) }
{}

/// An entry compares as less than another exactly when it comes before it: the earlier moment first, at one moment the
/// lower rank, and at one rank the smaller slot number.
pub fn entry_order_tells()
    ensures { (a b : entry ℕ)
        → partial_lt ⟦<Entry<u64> as PartialOrd>⟧.partial_cmp a b
        ≡ is_before (seen ⟦<u64 as Rank>⟧.rank a) (seen ⟦<u64 as Rank>⟧.rank b) }
{}

/// The same of entries without a rank: at one moment the smaller slot number first.
pub fn unranked_order_tells()
    ensures { (a b : entry no_rank)
        → partial_lt ⟦<Entry<NoRank> as PartialOrd>⟧.partial_cmp a b
        ≡ is_before (seen ⟦<NoRank as Rank>⟧.rank a) (seen ⟦<NoRank as Rank>⟧.rank b) }
{}

/// Two errors compare as equal exactly when they are the same.
pub fn queue_error_equality_tells()
    ensures { (a b : error) → (⟦<QueueError as PartialEq>⟧.eq a b ≡ true) ↔ (a ≡ b) }
{}

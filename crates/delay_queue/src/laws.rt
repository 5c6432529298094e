//! What is so of the comparisons, in functions that do nothing: each ensures one law.
ghost use Rattle.std.specs.Prelude.{◌≡◌, ◌↔◌, true};
ghost use Rattle.std.specs.Ordering.{partial_lt};
ghost use Rattle.delay_queue.specs.declared.entry.Entry.{Entry as entry};
ghost use Rattle.delay_queue.specs.declared.error.QueueError.{QueueError as error};
ghost use Rattle.delay_queue.specs.Queues.{comes_before};

use crate::entry::Entry;
use crate::error::QueueError;

/// Two entries compare as equal exactly when they are the same.
pub fn entry_equality_tells()
    ensures { (a b : entry) → (⟦<Entry as PartialEq>⟧.eq a b ≡ true) ↔ (a ≡ b) }
{}

/// An entry compares as less than another exactly when it comes before it: the earlier moment first, and at one moment the
/// smaller task number.
pub fn entry_order_tells()
    ensures { (a b : entry)
        → partial_lt ⟦<Entry as PartialOrd>⟧.partial_cmp a b
        ≡ comes_before a.due a.task b.due b.task }
{}

/// Two errors compare as equal exactly when they are the same.
pub fn queue_error_equality_tells()
    ensures { (a b : error) → (⟦<QueueError as PartialEq>⟧.eq a b ≡ true) ↔ (a ≡ b) }
{}

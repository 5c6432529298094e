//! What a queue holds.

/// One entry: a slot, the moment at which it is due, and its rank among the entries of that moment.
///
/// Entries are ordered by [`due`](Entry::due), at the same moment by [`rank`](Entry::rank), and at the same rank by
/// [`slot`](Entry::slot): `a < b` says that `a` leaves a queue before `b`.
#[derive(Clone, Copy, Debug, PartialEq, Eq, PartialOrd, Ord)]
pub struct Entry<R> {
    /// The moment at which the slot is due, in nanoseconds since a beginning that the caller chooses, from 0 to
    /// [`u64::MAX`].
    pub due: u64,
    /// The rank among the entries that are due at that moment: the lower one leaves first.
    pub rank: R,
    /// The slot's number, from 0.
    pub slot: u32,
}

//! Calls by hand that a queue of slots without ranks and a queue of tasks answer alike.
use crate::calls::Call::{Contains, DueOf, Insert, IsEmpty, Peek, Poll, Remove, Touched};
use crate::calls::Row;
use crate::calls::Told::{Count, Entry, No, Yes};

/// Of a queue with room for nothing.
pub(crate) const NO_ROOM: &[Row] = &[
    (Poll(u64::MAX), No),
    (IsEmpty, Yes),
    (Peek, No),
    (Remove(0), No),
    (Contains(0), No),
    (DueOf(u32::MAX), No),
    (Touched, Count(0)),
];

/// Of an empty queue with room for four: all are due at the last moment, and leave by number.
pub(crate) const TIES: &[Row] = &[
    (Insert(u64::MAX, 0, 2), Yes),
    (Insert(u64::MAX, 0, 0), Yes),
    (Insert(u64::MAX, 0, 3), Yes),
    (Insert(u64::MAX, 0, 1), Yes),
    (Poll(u64::MAX - 1), No),
    (Contains(0), Yes),
    (Poll(u64::MAX), Entry(u64::MAX, 0, 0)),
    (Contains(0), No),
    (Contains(1), Yes),
    (Poll(u64::MAX), Entry(u64::MAX, 0, 1)),
    (Contains(1), No),
    (Contains(2), Yes),
    (Poll(u64::MAX), Entry(u64::MAX, 0, 2)),
    (Contains(2), No),
    (Contains(3), Yes),
    (Poll(u64::MAX), Entry(u64::MAX, 0, 3)),
    (Contains(3), No),
    (IsEmpty, Yes),
];

/// Of an empty queue with room for three: how often each call touches it.
pub(crate) const TOUCHES: &[Row] = &[
    (Insert(5, 0, 0), Yes),
    (Touched, Count(0)),
    // It is compared with the other one, which moves down.
    (Insert(3, 0, 1), Yes),
    (Touched, Count(2)),
    // It is compared with the first one, and stays.
    (Insert(4, 0, 2), Yes),
    (Touched, Count(3)),
    (Poll(2), No),
    (Touched, Count(3)),
    // Of the two that are left the one due at 5 moves up, and down again after a comparison; the other one moves.
    (Poll(9), Entry(3, 0, 1)),
    (Touched, Count(7)),
    // The last one leaves, and then there is none.
    (Remove(0), Yes),
    (Remove(0), No),
    (Touched, Count(7)),
];

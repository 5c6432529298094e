//! Queues with an entry for each of many slots.
use crate::calls::{Answers, Call, Told};
use std::process::Abort;

/// How many slots there are.
pub(crate) const MANY: u32 = 65_536;

/// In which order the due moments of the slots 0, 1, .. stand.
#[derive(Clone, Copy)]
pub(crate) enum Order {
    Rising,
    Falling,
    /// Four slots at each moment, far from each other.
    Mixed,
}

/// The due moment of a slot.
fn due_of(order: Order, slot: u32) -> u64 {
    let slot = u64::from(slot);
    match order {
        Order::Rising => slot,
        Order::Falling => u64::from(u32::MAX) - slot,
        Order::Mixed => slot * 40_503 % 16_384,
    }
}

/// Fills an empty queue with an entry for each slot.
pub(crate) fn fill(rt: &impl Abort, queue: &mut impl Answers, order: Order) {
    for slot in 0..MANY {
        let rank = u64::from(slot) * 25_173 % 65_536;
        let call = Call::Insert(due_of(order, slot), rank, slot);
        assert!(rt; queue.answer(&call) == Told::Yes, "slot {slot}");
    }
}

/// Removes the entries of a queue that was filled, each far from the one before, and checks that each is there once.
pub(crate) fn remove_all(rt: &impl Abort, queue: &mut impl Answers, order: Order) {
    for number in 0..MANY {
        let slot = number * 25_173 % 65_536;
        let due = Told::Moment(due_of(order, slot));
        assert!(rt; queue.answer(&Call::DueOf(slot)) == due, "slot {slot}");
        assert!(rt;
            queue.answer(&Call::Remove(slot)) == Told::Yes,
            "slot {slot}"
        );
        assert!(rt;
            queue.answer(&Call::Remove(slot)) == Told::No,
            "slot {slot}"
        );
    }
    assert!(rt; queue.answer(&Call::IsEmpty) == Told::Yes);
}

//! Tests of the queue of slots.
ghost use Rattle.std.specs.Prelude.{◌≡◌};

use crate::by_hand::{NO_ROOM, TIES, TOUCHES};
use crate::calls::Call::{
    Contains, DueOf, Insert, IsEmpty, Len, Peek, Poll, Remove, Reserve, Slots, Touched,
};
use crate::calls::Told::{Count, Moment, No, Yes};
use crate::calls::{Answers, Call, Row, Told, follow};
use crate::drawn::{Draws, compare};
use crate::full::{MANY, Order, fill, remove_all};
use crate::plain::PlainQueue;
use delay_queue::slots::{Entry, NoRank, QueueError, Rank, SlotQueue};
use linked_list_allocator::LocalHeap;
use std::alloc::{AllocError, Allocator, Global};
use std::process::Abort;
use std::test::Fail;

/// A rank as a number.
trait Ranked: Rank {
    fn of(number: u64) -> Self;

    fn number(self) -> u64;
}

impl Ranked for u64 {
    fn of(number: u64) -> u64 {
        number
    }

    fn number(self) -> u64 {
        self
    }
}

/// The number of no rank is 0.
impl Ranked for NoRank {
    fn of(_number: u64) -> NoRank {
        NoRank {}
    }

    fn number(self) -> u64 {
        0
    }
}

/// What is told of an entry.
fn told<R: Ranked>(entry: Option<Entry<R>>) -> Told {
    match entry {
        Some(entry) => Told::Entry(entry.due, entry.rank.number(), entry.slot),
        None => No,
    }
}

impl<R: Ranked, A: Allocator> Answers for SlotQueue<R, A> {
    fn answer(&mut self, call: &Call) -> Told {
        match *call {
            Insert(due, rank, slot) => {
                if slot as usize >= self.slots() || self.contains(slot) {
                    return No;
                }
                let rank = R::of(rank);
                self.insert(Entry { due, rank, slot });
                Yes
            }
            Poll(now) => told(self.poll(now)),
            Remove(slot) => Told::truth(self.remove(slot)),
            Reserve(slots) => Told::truth(self.reserve(slots).is_ok()),
            Peek => told(self.peek()),
            DueOf(slot) => Told::moment(self.due_of(slot)),
            Contains(slot) => Told::truth(self.contains(slot)),
            IsEmpty => Told::truth(self.is_empty()),
            Len => Told::count(self.len()),
            Slots => Told::count(self.slots()),
            Touched => Count(self.touched()),
        }
    }
}

const LEAST: &[Row] = &[
    (Insert(5, 8, 0), Yes),
    (Insert(5, 7, 1), Yes),
    (Reserve(3), Yes),
    (Insert(3, 9, 2), Yes),
    (Slots, Count(3)),
    (Len, Count(3)),
    (Peek, Told::Entry(3, 9, 2)),
    (Poll(2), No),
    (Poll(3), Told::Entry(3, 9, 2)),
    (Poll(5), Told::Entry(5, 7, 1)),
    (DueOf(0), Moment(5)),
    (Remove(0), Yes),
    (Remove(0), No),
    (IsEmpty, Yes),
];

#[test]
fn the_least_comes_out_once_it_is_due(rt: HostRuntime) -> Result<(), Fail> {
    let mut queue: SlotQueue<u64, Global> = SlotQueue::new(rt.alloc(), 2)?;
    follow(&rt, &mut queue, LEAST);
    Ok(())
}

#[test]
fn the_page_is_run(rt: HostRuntime) -> Result<(), Fail> {
    let alloc = rt.alloc();
    // example: delay_queue::slots
    let mut queue = SlotQueue::new(alloc, 2)?;
    queue.insert(Entry {
        due: 5,
        rank: 8u64,
        slot: 0,
    });
    queue.insert(Entry {
        due: 5,
        rank: 7u64,
        slot: 1,
    });
    queue.reserve(3)?; // room for the slots 0, 1 and 2
    queue.insert(Entry {
        due: 3,
        rank: 9u64,
        slot: 2,
    });

    assert_eq!(rt; queue.poll(2), None); // nothing is due yet
    assert_eq!(rt; queue.poll(3).map(|entry| entry.slot), Some(2));
    assert_eq!(rt; queue.poll(5).map(|entry| entry.slot), Some(1)); // its rank is the lower one
    assert_eq!(rt; queue.due_of(0), Some(5));
    assert!(rt; queue.remove(0));
    assert!(rt; queue.is_empty());
    // end of example
    Ok(())
}

#[test]
fn a_queue_without_room_is_empty(rt: HostRuntime) -> Result<(), Fail> {
    let mut queue: SlotQueue<NoRank, Global> = SlotQueue::new(rt.alloc(), 0)?;
    assert!(rt; queue.slots() == 0);
    follow(&rt, &mut queue, NO_ROOM);
    Ok(())
}

const AGAIN: &[Row] = &[
    (Insert(7, 1, 0), Yes),
    (Poll(6), No),
    (Poll(7), Told::Entry(7, 1, 0)),
    (Insert(7, 2, 0), Yes),
    (Contains(0), Yes),
    (Contains(1), No),
    (Remove(1), No),
    (Remove(0), Yes),
    (IsEmpty, Yes),
    (Touched, Count(0)),
];

#[test]
fn a_slot_that_left_comes_again(rt: HostRuntime) -> Result<(), Fail> {
    let mut queue: SlotQueue<u64, Global> = SlotQueue::new(rt.alloc(), 1)?;
    follow(&rt, &mut queue, AGAIN);
    Ok(())
}

const RANKS: &[Row] = &[
    (Insert(u64::MAX, u64::MAX, 1), Yes),
    (Insert(u64::MAX, u64::MAX, 0), Yes),
    (Insert(u64::MAX, 0, 3), Yes),
    (Insert(u64::MAX, u64::MAX - 1, 2), Yes),
    (Poll(u64::MAX - 1), No),
    (Poll(u64::MAX), Told::Entry(u64::MAX, 0, 3)),
    (Poll(u64::MAX), Told::Entry(u64::MAX, u64::MAX - 1, 2)),
    (Poll(u64::MAX), Told::Entry(u64::MAX, u64::MAX, 0)),
    (Poll(u64::MAX), Told::Entry(u64::MAX, u64::MAX, 1)),
    (Poll(u64::MAX), No),
];

#[test]
fn ties_go_by_rank_and_then_by_slot(rt: HostRuntime) -> Result<(), Fail> {
    let mut queue: SlotQueue<u64, Global> = SlotQueue::new(rt.alloc(), 4)?;
    follow(&rt, &mut queue, RANKS);
    Ok(())
}

#[test]
fn ties_without_a_rank_go_by_slot(rt: HostRuntime) -> Result<(), Fail> {
    let mut queue: SlotQueue<NoRank, Global> = SlotQueue::new(rt.alloc(), 4)?;
    follow(&rt, &mut queue, TIES);
    Ok(())
}

/// What is drawn: how many slots, moments and ranks.
const DRAWN: &[(u32, u64, u64)] = &[
    (1, 2, 1),
    (5, 3, 2),
    (100, 10, 3),
    (200, 1, u64::MAX),
    (500, 1_000_000, 1),
];

#[test]
fn a_plain_queue_answers_the_same(rt: HostRuntime) -> Result<(), Fail> {
    for (slots, moments, ranks) in DRAWN {
        let draws = Draws {
            calls: 10_000,
            slots: *slots,
            moments: *moments,
            ranks: *ranks,
        };
        let mut queue: SlotQueue<u64, Global> = SlotQueue::new(rt.alloc(), 0)?;
        compare(&rt, &mut queue, &mut PlainQueue::new(rt.alloc(), 0), &draws);
    }
    Ok(())
}

/// A queue with an entry for each of its slots.
fn filled(rt: &impl Abort, alloc: Global) -> Result<SlotQueue<u64, Global>, QueueError> {
    let mut queue = SlotQueue::new(alloc, MANY)?;
    fill(rt, &mut queue, Order::Mixed);
    Ok(queue)
}

#[test]
fn as_many_entries_as_slots_come_out_in_order(rt: HostRuntime) -> Result<(), Fail> {
    let mut queue = filled(&rt, rt.alloc())?;
    let mut last = None;
    for _ in 0..MANY {
        let least = queue.peek();
        assert!(rt; last < least);
        assert!(rt; queue.poll(u64::MAX) == least);
        last = least;
    }
    assert!(rt; queue.is_empty());
    Ok(())
}

#[test]
fn as_many_entries_as_slots_are_removed(rt: HostRuntime) -> Result<(), Fail> {
    let mut queue = filled(&rt, rt.alloc())?;
    remove_all(&rt, &mut queue, Order::Mixed);
    Ok(())
}

#[test]
fn single_calls_touch_by_hand(rt: HostRuntime) -> Result<(), Fail> {
    let mut queue: SlotQueue<NoRank, Global> = SlotQueue::new(rt.alloc(), 3)?;
    follow(&rt, &mut queue, TOUCHES);
    Ok(())
}

/// Whether a queue with room for so many slots is refused in a heap of so many bytes, to which all comes back.
fn is_refused(rt: &impl Abort, alloc: Global, slots: u32, size: usize) -> Result<bool, AllocError> {
    let heap = LocalHeap::new(alloc, size)?;
    let refused = {
        let made: Result<SlotQueue<u64, _>, _> = SlotQueue::new(&heap, slots);
        made.is_err()
    };
    assert!(rt; heap.used() == 0, "{slots} slots, {size} bytes");
    Ok(refused)
}

#[test]
fn a_refused_queue_gives_its_memory_back(rt: HostRuntime) -> Result<(), Fail> {
    for slots in [1, 2, 10] {
        let mut refused = true;
        for size in 0..1_024 {
            refused = refused && is_refused(&rt, rt.alloc(), slots, size)?;
        }
        assert!(rt; !refused, "{slots} slots");
    }
    Ok(())
}

/// What came of a growth.
#[derive(Clone, Copy, PartialEq, Eq)]
enum Growth {
    /// There was no memory for the queue itself.
    NoQueue,
    Refused,
    Done,
}

/// The entries before a growth.
const BEFORE: &[Row] = &[(Insert(5, 1, 0), Yes), (Insert(4, 2, 1), Yes)];

/// What a growth does not change: the second of the two came before the first, which moved.
const KEPT: &[Row] = &[
    (Len, Count(2)),
    (Touched, Count(2)),
    (Peek, Told::Entry(4, 2, 1)),
    (DueOf(0), Moment(5)),
    (DueOf(1), Moment(4)),
    (DueOf(39), No),
];

/// All that comes after it.
const AFTER: &[Row] = &[
    (Reserve(2), Yes),
    (Poll(9), Told::Entry(4, 2, 1)),
    (Poll(9), Told::Entry(5, 1, 0)),
    (Poll(9), No),
];

/// Lets a queue with the slots 0 and 1 grow in a heap of so many bytes, and looks whether it is as it was but for the room.
fn grow(rt: &impl Abort, alloc: Global, size: usize) -> Result<Growth, AllocError> {
    let heap = LocalHeap::new(alloc, size)?;
    let made: Result<SlotQueue<u64, _>, _> = SlotQueue::new(&heap, 2);
    let Ok(mut queue) = made else {
        return Ok(Growth::NoQueue);
    };
    follow(rt, &mut queue, BEFORE);
    follow(rt, &mut queue, KEPT);
    let refused = queue.reserve(40).is_err();
    assert!(rt; queue.slots() == if refused { 2 } else { 40 });
    follow(rt, &mut queue, KEPT);
    follow(rt, &mut queue, AFTER);
    Ok(if refused {
        Growth::Refused
    } else {
        Growth::Done
    })
}

#[test]
fn a_refused_growth_changes_nothing(rt: HostRuntime) -> Result<(), Fail> {
    let mut last = Growth::NoQueue;
    let mut refused = 0u32;
    for size in 0..4_096 {
        last = grow(&rt, rt.alloc(), size)?;
        if last == Growth::Refused {
            refused = refused.saturating_add(1);
        }
    }
    assert!(rt; last == Growth::Done);
    // Neither of the two lists of 40 has room in less.
    assert!(rt; refused > 40 * 4, "{refused}");
    Ok(())
}

#[test]
fn the_error_as_text(rt: HostRuntime) -> Result<(), Fail> {
    let text = format!(in rt.alloc(); "{}", QueueError::Memory)?;
    assert!(rt; text.as_str() == "out of memory");
    Ok(())
}

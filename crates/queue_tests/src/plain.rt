//! What the tests compare a queue with: a sorted list, and a heap that counts.
ghost use Rattle.std.specs.Prelude.{◌<◌, length, IfSome};

mod heap;
mod list;

use crate::calls::{Answers, Call, Told};
use heap::CountingHeap;
use list::SortedList;
use std::alloc::{AllocError, Global};

/// What stands for an entry: its moment, its rank and its slot, which are compared in this order.
type Key = (u64, u64, u32);

/// A plain queue: the list answers, and the heap counts.
#[derive(Drop)]
pub(crate) struct PlainQueue {
    list: SortedList,
    heap: CountingHeap,
    /// How many slots there is room for.
    room: u32,
}

impl PlainQueue {
    pub(crate) fn new(alloc: Global, room: u32) -> PlainQueue {
        PlainQueue {
            list: SortedList::new(alloc),
            heap: CountingHeap::new(alloc),
            room,
        }
    }

    /// Inserts an entry, if its slot has room and no entry.
    fn insert(&mut self, entry: Key) -> Result<Told, AllocError> {
        if entry.2 >= self.room || self.list.due_of(entry.2).is_some() {
            return Ok(Told::No);
        }
        self.list.insert(entry)?;
        self.heap.insert(entry)?;
        Ok(Told::Yes)
    }
}

impl Answers for PlainQueue {
    fn answer(&mut self, call: &Call) -> Told {
        match *call {
            Call::Insert(due, rank, slot) => self.insert((due, rank, slot)).unwrap_or(Told::No),
            Call::Poll(now) => {
                self.heap.poll(now);
                told(self.list.poll(now))
            }
            Call::Remove(slot) => {
                self.heap.remove(slot);
                Told::truth(self.list.remove(slot))
            }
            Call::Reserve(slots) => {
                self.room = self.room.max(slots);
                Told::Yes
            }
            Call::Peek => told(self.list.peek()),
            Call::DueOf(slot) => Told::moment(self.list.due_of(slot)),
            Call::Contains(slot) => Told::truth(self.list.due_of(slot).is_some()),
            Call::IsEmpty => Told::truth(self.list.len() == 0),
            Call::Len => Told::count(self.list.len()),
            Call::Slots => Told::Count(u64::from(self.room)),
            Call::Touched => Told::Count(self.heap.touched()),
        }
    }
}

/// What is told of an entry.
fn told(entry: Option<Key>) -> Told {
    match entry {
        Some((due, rank, slot)) => Told::Entry(due, rank, slot),
        None => Told::No,
    }
}

/// Where the entry of a slot stands.
fn place_of(entries: &[Key], slot: u32) -> Option<usize>
    ensures { IfSome result (λ place. place < length entries.now) }
{
    entries.iter().position(|entry| entry.2 == slot)
}

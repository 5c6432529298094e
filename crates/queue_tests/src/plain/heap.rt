//! A heap that counts.
use super::{Key, place_of};
use std::alloc::{AllocError, Global};

/// A heap of four children whose entries change places by swaps. It counts each comparison of two entries, and each change of the index of
/// an entry that was there before the call and is there after it.
#[derive(Drop)]
pub(super) struct CountingHeap {
    entries: Vec<Key>,
    touched: u64,
}

impl CountingHeap {
    pub(super) fn new(alloc: Global) -> CountingHeap {
        CountingHeap {
            entries: Vec::new(alloc),
            touched: 0,
        }
    }

    pub(super) fn touched(&self) -> u64 {
        self.touched
    }

    pub(super) fn insert(&mut self, entry: Key) -> Result<(), AllocError> {
        let place = self.entries.len();
        self.entries.push(entry)?;
        self.lift(place);
        Ok(())
    }

    pub(super) fn poll(&mut self, now: u64) {
        if self.entries.first().is_some_and(|least| least.0 <= now) {
            self.take(0);
        }
    }

    pub(super) fn remove(&mut self, slot: u32) {
        if let Some(place) = place_of(&self.entries, slot) {
            self.take(place);
        }
    }

    /// The entry at a place leaves, and the last one comes there, which is then in the wrong place.
    fn take(&mut self, place: usize) {
        let last = self.entries.len().saturating_sub(1);
        self.swap(place, last);
        let _left = self.entries.pop();
        if place != last {
            let lowest = self.lower(place);
            self.lift(lowest);
            self.count();
        }
    }

    /// The entry at a place goes down as far as it can. Where it is then.
    fn lower(&mut self, mut place: usize) -> usize {
        for _ in 0..usize::BITS {
            let Some(next) = self.least_below(place) else {
                break;
            };
            self.swap(place, next);
            self.count();
            place = next;
        }
        place
    }

    /// Where the least of the entries right below a place stands.
    fn least_below(&mut self, place: usize) -> Option<usize> {
        let first = place.saturating_mul(4).saturating_add(1);
        let end = self.entries.len().min(first.saturating_add(4));
        let mut least = None;
        for next in first..end {
            let is_less = match least {
                Some(least) => self.comes_first(next, least),
                None => true,
            };
            if is_less {
                least = Some(next);
            }
        }
        least
    }

    /// The entry at a place goes up until the one above it comes first.
    fn lift(&mut self, mut place: usize) {
        for _ in 0..usize::BITS {
            let above = place.saturating_sub(1) / 4;
            if place == 0 || self.comes_first(above, place) {
                break;
            }
            self.swap(above, place);
            self.count();
            place = above;
        }
    }

    /// Whether the entry at one place is less than that at the other. It counts.
    fn comes_first(&mut self, one: usize, other: usize) -> bool {
        self.count();
        self.entries.get(one) < self.entries.get(other)
    }

    fn swap(&mut self, one: usize, other: usize) {
        if one < self.entries.len() && other < self.entries.len() {
            self.entries.swap(one, other);
        }
    }

    fn count(&mut self) {
        self.touched = self.touched.wrapping_add(1);
    }
}

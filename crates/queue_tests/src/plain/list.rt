//! A sorted list.
use super::{Key, place_of};
use std::alloc::{AllocError, Global};

/// A sorted list, the least entry last.
#[derive(Drop)]
pub(super) struct SortedList {
    entries: Vec<Key>,
}

impl SortedList {
    pub(super) fn new(alloc: Global) -> SortedList {
        SortedList {
            entries: Vec::new(alloc),
        }
    }

    pub(super) fn insert(&mut self, entry: Key) -> Result<(), AllocError> {
        let place = self.entries.iter().position(|other| *other < entry);
        self.entries
            .insert(place.unwrap_or(self.entries.len()), entry)?;
        Ok(())
    }

    pub(super) fn peek(&self) -> Option<Key> {
        self.entries.last().copied()
    }

    pub(super) fn poll(&mut self, now: u64) -> Option<Key> {
        if now < self.entries.last()?.0 {
            return None;
        }
        self.entries.pop()
    }

    pub(super) fn remove(&mut self, slot: u32) -> bool {
        match place_of(&self.entries, slot) {
            Some(place) => {
                self.entries.remove(place);
                true
            }
            None => false,
        }
    }

    pub(super) fn due_of(&self, slot: u32) -> Option<u64> {
        let place = place_of(&self.entries, slot)?;
        Some(self.entries[place].0)
    }

    pub(super) fn len(&self) -> usize {
        self.entries.len()
    }
}

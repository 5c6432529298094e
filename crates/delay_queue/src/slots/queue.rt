//! The queue: a heap of entries, with the place of each slot's entry beside it.
ghost use Rattle.std.specs.Prelude.{◌≡◌, ℕ, ◌+◌, ◌-◌, ◌<◌, ◌≤◌, ◌==◌, true, false, min, Some, None, length, replicate, slice_set, is_some, IfOk, IsOk, OnOk, OnErr, IfSome, IfNone};
ghost use Rattle.delay_queue.specs.slots.Entries.{Key, seen, key_of};
ghost use Rattle.delay_queue.specs.slots.Queues.{key_in, due_by, with_slots, entry_count, IsLeast, IsEmpty, NoneIsDue};
ghost use Rattle.delay_queue.specs.Touches.{most_touches, greatest_count, Touches};

use crate::slots::entry::Entry;
use crate::slots::error::QueueError;
use crate::slots::heap::{place_of, rise, take_out};
use crate::slots::rank::Rank;
use std::alloc::{AllocError, Allocator};
use std::marker::Model;

/// The entries of slots, at most one for each slot that there is room for.
///
/// A contract sees it as a table by slot, with the key of each slot that has an entry, and the count of
/// [`touched`](SlotQueue::touched).
#[derive(Drop)]
pub struct SlotQueue<R: Rank, A: Allocator> {
    heap: Vec<Entry<R>, A>,
    /// Where the entry of each slot stands in the heap. A slot without an entry has any place.
    places: Vec<u32, A>,
    touched: u64,
}

impl<R: Rank, A: Allocator> Model for SlotQueue<R, A> {
    ghost use Rattle.std.specs.Prelude.{vec_capacity};
    ghost use Rattle.delay_queue.specs.slots.Entries.{seen_all};
    ghost use Rattle.delay_queue.specs.slots.Queues.{Queue};
    ghost use Rattle.delay_queue.specs.slots.own.Heaps.{table, IsWellFormedQueue};

    ghost Value = { Queue };

    ghost view = { λ q. record { entries = table (seen_all R.rank q.heap.items) q.places.items; touched = q.touched } };

    ghost invariant = { λ q. IsWellFormedQueue (seen_all R.rank q.heap.items) q.places.items (vec_capacity q.heap) };
}

impl<R: Rank, A: Allocator> SlotQueue<R, A> {
    /// Makes an empty queue with room for the slots from 0 to `slots - 1`, and takes the memory for an entry of each from
    /// `alloc`.
    ///
    /// # Errors
    ///
    /// [`QueueError::Memory`] where `alloc` refuses that memory. For no slot at all it takes none, and succeeds.
    pub fn new(alloc: A, slots: u32) -> Result<SlotQueue<R, A>, QueueError>
    where
        A: Copy,
        ensures empty { IfOk result (λ q. q.entries ≡ replicate slots None) }
        ensures untouched { IfOk result (λ q. q.touched ≡ 0) }
        ensures no_room { slots ≡ 0 → IsOk result }
    {
        SlotQueue::with_tables(alloc, slots).map_err(|_| QueueError::Memory)
    }

    /// The empty queue, where there is memory for its tables.
    fn with_tables(alloc: A, slots: u32) -> Result<SlotQueue<R, A>, AllocError>
    where
        A: Copy,
        ensures empty { IfOk result (λ q. q.entries ≡ replicate slots None) }
        ensures untouched { IfOk result (λ q. q.touched ≡ 0) }
        ensures no_room { slots ≡ 0 → IsOk result }
    {
        let heap = Vec::with_capacity(alloc, slots as usize)?;
        let mut places = Vec::with_capacity(alloc, slots as usize)?;
        places.resize(slots as usize, 0)?;
        Ok(SlotQueue {
            heap,
            places,
            touched: 0,
        })
    }

    /// Makes room for the slots from 0 to `slots - 1`. The entries stay. Where there is room for so many, nothing changes.
    ///
    /// Where it takes memory, its lists take some for twice as many slots as before, if that is more, so that a queue that grows
    /// slot by slot takes memory seldom. No contract tells so.
    ///
    /// # Errors
    ///
    /// [`QueueError::Memory`] where the allocator refuses that memory: then nothing has changed, and a later call may try
    /// again. It succeeds where there is room for so many.
    pub fn reserve(&mut self, slots: u32) -> Result<(), QueueError>
        ensures grown { OnOk result (self.new.entries ≡ with_slots self.old.entries slots) }
        ensures refused { OnErr result (self.new.entries ≡ self.old.entries) }
        ensures untouched { self.new.touched ≡ self.old.touched }
        ensures roomy { slots ≤ length self.old.entries → IsOk result }
    {
        let count = slots as usize;
        if count <= self.places.len() {
            return Ok(());
        }
        if self.heap.reserve(count - self.heap.len()).is_err() {
            return Err(QueueError::Memory);
        }
        if self.places.resize(count, 0).is_err() {
            return Err(QueueError::Memory);
        }
        Ok(())
    }

    /// How many slots there is room for: those from 0 to one less.
    pub fn slots(&self) -> usize
        ensures { result ≡ length self.now.entries }
    {
        self.places.len()
    }

    /// Adds an entry, whose slot there is room for and has no entry yet.
    pub fn insert(&mut self, entry: Entry<R>)
        requires known { entry.slot < length self.old.entries }
        requires absent { key_in self.old.entries entry.slot ≡ None }
        ensures inserted { self.new.entries
            ≡ slice_set self.old.entries entry.slot (Some (key_of (seen R.rank entry))) }
        ensures touched { Touches self.old.touched self.new.touched
            (min 1 (entry_count self.old.entries)) (most_touches (entry_count self.old.entries)) }
    {
        let place = self.heap.len();
        self.heap.push_reserved(entry);
        let touches = rise(&mut self.heap, &mut self.places, place, entry);
        count(&mut self.touched, touches);
    }

    /// The least entry, due or not, or `None` where the queue is empty. The entry stays.
    pub fn peek(&self) -> Option<Entry<R>>
        ensures least { IfSome result
            (λ e. IsLeast self.now.entries (key_of (seen R.rank e)) e.slot) }
        ensures empty { IfNone result (IsEmpty self.now.entries) }
    {
        self.heap.first().copied()
    }

    /// Takes out the least entry, if it is due at the moment `now`, in nanoseconds.
    ///
    /// `None` says that no entry is due at `now`; the queue is then unchanged.
    pub fn poll(&mut self, now: u64) -> Option<Entry<R>>
        ensures least { IfSome result
            (λ e. IsLeast self.old.entries (key_of (seen R.rank e)) e.slot) }
        ensures due { IfSome result (λ e. e.due ≤ now) }
        ensures removed { IfSome result
            (λ e. self.new.entries ≡ slice_set self.old.entries e.slot None) }
        ensures none_due { IfNone result (NoneIsDue self.old.entries now) }
        ensures unchanged { IfNone result (self.new.entries ≡ self.old.entries) }
        ensures touched { IfSome result
            (λ _. Touches self.old.touched self.new.touched
            (min 1 (entry_count self.old.entries - 1))
            (most_touches (entry_count self.old.entries))) }
        ensures untouched { IfNone result (self.new.touched ≡ self.old.touched) }
    {
        let least = *self.heap.first()?;
        if now < least.due {
            return None;
        }
        let touches = take_out(&mut self.heap, &mut self.places, 0);
        count(&mut self.touched, touches);
        Some(least)
    }

    /// Takes out the entry of a slot, and says whether there was one. Where there was none the queue is unchanged.
    #[inline(always)]
    pub fn remove(&mut self, slot: u32) -> bool
        ensures there { result ≡ is_some (key_in self.old.entries slot) }
        ensures removed { self.new.entries ≡ slice_set self.old.entries slot None }
        ensures unchanged { result ≡ false → self.new.entries ≡ self.old.entries }
        ensures touched { Touches self.old.touched self.new.touched 0
            (most_touches (entry_count self.old.entries)) }
        ensures least { (key : Key) → IsLeast self.old.entries key slot
            → Touches self.old.touched self.new.touched (min 1 (entry_count self.old.entries - 1))
            (most_touches (entry_count self.old.entries)) }
        ensures untouched { result ≡ false → self.new.touched ≡ self.old.touched }
    {
        let Some(place) = place_of(&self.heap, &self.places, slot) else {
            return false;
        };
        let touches = take_out(&mut self.heap, &mut self.places, place);
        count(&mut self.touched, touches);
        true
    }

    /// The moment at which a slot is due, in nanoseconds, or `None` where it has no entry, as a slot that there is no room
    /// for.
    pub fn due_of(&self, slot: u32) -> Option<u64>
        ensures { result ≡ due_by (key_in self.now.entries slot) }
    {
        let place = place_of(&self.heap, &self.places, slot)?;
        Some(self.heap[place].due)
    }

    /// Whether a slot has an entry. A slot that there is no room for has none.
    pub fn contains(&self, slot: u32) -> bool
        ensures { result ≡ is_some (key_in self.now.entries slot) }
    {
        self.due_of(slot).is_some()
    }

    /// How many entries there are.
    pub fn len(&self) -> usize
        ensures { result ≡ entry_count self.now.entries }
    {
        self.heap.len()
    }

    /// Whether there is no entry.
    pub fn is_empty(&self) -> bool
        ensures { result ≡ (entry_count self.now.entries == 0) }
    {
        self.len() == 0
    }

    /// How many touches the calls so far counted: each comparison of two entries, and each change of the place of an entry that
    /// stays. It stays at [`u64::MAX`]. Contracts bound what each call adds, and tests see that it counts what is done.
    pub fn touched(&self) -> u64
        ensures { result ≡ self.now.touched }
    {
        self.touched
    }
}

/// Adds to a count of touches, which stays at its greatest value.
fn count(touched: &mut u64, touches: u64)
    ensures { touched.new ≡ min (touched.old + touches) greatest_count }
{
    *touched = touched.saturating_add(touches);
}

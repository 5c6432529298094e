//! A heap of four children in a list, the least entry first, and beside it the place of each slot's entry.
//!
//! An entry at the place `k` is not before the one above it, at `(k - 1) / 4`. Entries move into a hole, whose own entry
//! does not count, so that each of them is written once.
ghost use Rattle.std.specs.Prelude.{◌≡◌, ◌≢◌, IsTrue, false, ℕ, ◌+◌, ◌-◌, ◌*◌, ◌^◌, ◌<◌, ◌≤◌, length, slice_set, vec_capacity, None, IfSome, IfNone};
ghost use Rattle.delay_queue.specs.slots.Entries.{Seen, seen, seen_all};
ghost use Rattle.delay_queue.specs.Touches.{most_touches};
ghost use Rattle.delay_queue.specs.slots.own.Heaps.{entry_at, parent, level, IsInHeapOrder, IsHeap, IsPlaced, key_in_heap, IsHeapAround, IsAboveChildren, IsPlacedWith, IsLeastBelow, MovesHole, key_with};

use crate::slots::entry::Entry;
use crate::slots::rank::Rank;
use std::alloc::Allocator;

/// From so many entries on, branches were measured to be faster.
const MANY: usize = 1 << 17;

/// Where the entry of a slot stands, or `None` where it has none.
pub(crate) fn place_of<R: Rank>(heap: &[Entry<R>], places: &[u32], slot: u32) -> Option<usize>
    ensures found { IfSome result
        (λ place. (place < length (seen_all R.rank heap.now))
        × ((entry_at (seen_all R.rank heap.now) place).slot ≡ slot)) }
    ensures missing { IfNone result
        (slot < length places.now → key_in_heap (seen_all R.rank heap.now) places.now slot ≡ None) }
{
    let place = *places.get(slot as usize)? as usize;
    match heap.get(place) {
        Some(entry) if entry.slot == slot => Some(place),
        _ => None,
    }
}

/// The entry at a place.
fn at<R: Rank>(heap: &[Entry<R>], place: usize) -> Entry<R>
    requires inside { place < length heap.now }
    ensures { seen R.rank result ≡ entry_at (seen_all R.rank heap.now) place }
{
    heap[place]
}

/// Writes an entry at a place, and notes the place for its slot.
fn put<R: Rank>(heap: &mut [Entry<R>], places: &mut [u32], place: usize, entry: Entry<R>)
    requires inside { place < length heap.old }
    requires known { entry.slot < length places.old }
    requires few { length heap.old < 2 ^ 32 }
    ensures heap { seen_all R.rank heap.new
        ≡ slice_set (seen_all R.rank heap.old) place (seen R.rank entry) }
    ensures heap_length { length heap.new ≡ length heap.old }
    ensures places { places.new ≡ slice_set places.old entry.slot place }
{
    heap[place] = entry;
    places[entry.slot as usize] = place as u32;
}

/// Lets an entry rise from the hole: those above that it comes before move down. Says how often it touched the heap: the
/// comparisons, and the entries that moved.
#[inline(always)]
pub(crate) fn rise<R: Rank>(
    heap: &mut [Entry<R>],
    places: &mut [u32],
    mut hole: usize,
    entry: Entry<R>,
) -> u64
    requires inside { hole < length heap.old }
    requires few { length heap.old < 2 ^ 32 }
    requires around { IsHeapAround (seen_all R.rank heap.old) hole }
    requires above { IsAboveChildren (seen_all R.rank heap.old) hole (seen R.rank entry) }
    requires placed { IsPlacedWith (seen_all R.rank heap.old) places.old hole (seen R.rank entry) }
    ensures heap { IsHeap (seen_all R.rank heap.new) }
    ensures placed { IsPlaced (seen_all R.rank heap.new) places.new }
    ensures keys { (slot : ℕ)
        → key_in_heap (seen_all R.rank heap.new) places.new slot
        ≡ key_with (seen_all R.rank heap.old) places.old hole (seen R.rank entry) slot }
    ensures heap_length { length heap.new ≡ length heap.old }
    ensures places_length { length places.new ≡ length places.old }
    ensures many { 0 < hole → 0 < result }
    ensures few { result ≤ level hole }
{
    let mut touches = 0;
    while hole > 0 {
        let parent = (hole - 1) / 4;
        touches += 1;
        let above = at(heap, parent);
        if R::is_before(&above, &entry) {
            break;
        }
        put(heap, places, hole, above);
        touches += 1;
        hole = parent;
    }
    put(heap, places, hole, entry);
    touches
}

/// Whether the entry at one place is the lesser of it and the one at another place.
#[inline(always)]
fn is_lesser<R: Rank>(heap: &[Entry<R>], one: usize, other: usize) -> bool
    requires one { one < length heap.now }
    requires other { other < length heap.now }
    ensures yes { IsTrue result
        → IsInHeapOrder (entry_at (seen_all R.rank heap.now) one)
        (entry_at (seen_all R.rank heap.now) other) }
    ensures no { result ≡ false
        → IsInHeapOrder (entry_at (seen_all R.rank heap.now) other)
        (entry_at (seen_all R.rank heap.now) one) }
{
    R::is_before(&heap[one], &heap[other])
}

/// The same for two entries that stand so far behind a first place: they lie together, so one address serves for both.
#[inline(always)]
fn is_lesser_from<R: Rank>(heap: &[Entry<R>], first: usize, one: usize, other: usize) -> bool
    requires one { first + one < length heap.now }
    requires other { first + other < length heap.now }
    ensures yes { IsTrue result
        → IsInHeapOrder (entry_at (seen_all R.rank heap.now) (first + one))
        (entry_at (seen_all R.rank heap.now) (first + other)) }
    ensures no { result ≡ false
        → IsInHeapOrder (entry_at (seen_all R.rank heap.now) (first + other))
        (entry_at (seen_all R.rank heap.now) (first + one)) }
{
    let entries = &heap[first..];
    R::is_before(&entries[one], &entries[other])
}

/// The place of the least of the four entries right below the hole. In a heap that the processor's cache holds it is added up from
/// the comparisons, so that there is no branch to guess. In a larger one a branch is better, since the processor goes on by its guess
/// and reads further entries before these have come.
#[inline(always)]
fn least_of_four<R: Rank>(heap: &[Entry<R>], hole: usize) -> usize
    requires four { 4 * hole + 4 < length heap.now }
    requires few { length heap.now < 2 ^ 32 }
    ensures { IsLeastBelow (seen_all R.rank heap.now) hole result }
{
    if heap.len() < MANY {
        least_of_pairs(heap, hole)
    } else {
        least_before(heap, hole, 4 * hole + 5)
    }
}

/// The place of the least of the four entries right below the hole, as the lesser one of the lesser ones of two pairs.
#[inline(always)]
fn least_of_pairs<R: Rank>(heap: &[Entry<R>], hole: usize) -> usize
    requires four { 4 * hole + 4 < length heap.now }
    requires few { length heap.now < 2 ^ 32 }
    ensures { IsLeastBelow (seen_all R.rank heap.now) hole result }
{
    let first = 4 * hole + 1;
    let is_second = is_lesser_from(heap, first, 1, 0);
    let is_fourth = is_lesser_from(heap, first, 3, 2);
    let low = first + usize::from(is_second);
    let high = first + 2 + usize::from(is_fourth);
    let is_high = is_lesser(heap, high, low);
    first + 2 * usize::from(is_high) + usize::from(is_high & is_fourth | !is_high & is_second)
}

/// The place of the least of the entries right below the hole, all of which stand before the place `end`.
#[inline(always)]
fn least_before<R: Rank>(heap: &[Entry<R>], hole: usize, end: usize) -> usize
    requires some { 4 * hole + 1 < end }
    requires few_below { end ≤ 4 * hole + 5 }
    requires inside { end ≤ length heap.now }
    requires few { length heap.now < 2 ^ 32 }
    requires all { (k : ℕ) → 0 < k → k < length heap.now → parent k ≡ hole → k < end }
    ensures { IsLeastBelow (seen_all R.rank heap.now) hole result }
{
    let first = 4 * hole + 1;
    let mut least = first;
    for place in first + 1..end {
        if is_lesser(heap, place, least) {
            least = place;
        }
    }
    least
}

/// Lets the hole sink to a place with none below: the least of the entries right below it moves up. Says where the hole
/// is then, and how often it touched the heap: the comparisons, and the entries that moved.
#[inline(always)]
fn sink<R: Rank>(heap: &mut [Entry<R>], places: &mut [u32], mut hole: usize) -> (usize, u64)
    requires inside { hole < length heap.old }
    requires few { length heap.old < 2 ^ 32 }
    requires around { IsHeapAround (seen_all R.rank heap.old) hole }
    requires placed { (e : Seen) × IsPlacedWith (seen_all R.rank heap.old) places.old hole e }
    ensures moves { MovesHole (seen_all R.rank heap.old) places.old hole (seen_all R.rank heap.new)
        places.new result.0 }
    ensures around { IsHeapAround (seen_all R.rank heap.new) result.0 }
    ensures heap_length { length heap.new ≡ length heap.old }
    ensures lowest { length heap.new ≤ 4 * result.0 + 1 }
    ensures few { result.1 + 2 * level hole ≤ 2 * level result.0 }
{
    let mut touches = 0;
    while 4 * hole + 4 < heap.len() {
        let least = least_of_four(heap, hole);
        let entry = at(heap, least);
        put(heap, places, hole, entry);
        touches += 4;
        hole = least;
    }
    let first = 4 * hole + 1;
    if first < heap.len() {
        let least = least_before(heap, hole, heap.len());
        let entry = at(heap, least);
        put(heap, places, hole, entry);
        touches += (heap.len() - first) as u64;
        hole = least;
    }
    (hole, touches)
}

/// Puts an entry of the queue in the place of one that leaves. Says how often it touched the heap: the comparisons, the
/// entries that moved, and the entry itself.
#[inline(always)]
fn replace<R: Rank>(heap: &mut [Entry<R>], places: &mut [u32], place: usize, entry: Entry<R>) -> u64
    requires inside { place < length heap.old }
    requires few { length heap.old < 2 ^ 32 }
    requires around { IsHeapAround (seen_all R.rank heap.old) place }
    requires placed { IsPlacedWith (seen_all R.rank heap.old) places.old place (seen R.rank entry) }
    ensures heap { IsHeap (seen_all R.rank heap.new) }
    ensures placed { IsPlaced (seen_all R.rank heap.new) places.new }
    ensures keys { (slot : ℕ)
        → key_in_heap (seen_all R.rank heap.new) places.new slot
        ≡ key_with (seen_all R.rank heap.old) places.old place (seen R.rank entry) slot }
    ensures heap_length { length heap.new ≡ length heap.old }
    ensures places_length { length places.new ≡ length places.old }
    ensures few { result ≤ most_touches (length heap.old + 1) }
    ensures many { 0 < result }
{
    let (hole, sunk) = sink(heap, places, place);
    let risen = rise(heap, places, hole, entry);
    sunk + risen + 1
}

/// Takes out the entry at a place, and puts the last one there. Says how often it touched the heap.
pub(crate) fn take_out<R: Rank, A: Allocator>(
    heap: &mut Vec<Entry<R>, A>,
    places: &mut [u32],
    place: usize,
) -> u64
    requires inside { place < length heap.old.items }
    requires few { length heap.old.items < 2 ^ 32 }
    requires heap { IsHeap (seen_all R.rank heap.old.items) }
    requires placed { IsPlaced (seen_all R.rank heap.old.items) places.old }
    ensures heap { IsHeap (seen_all R.rank heap.new.items) }
    ensures placed { IsPlaced (seen_all R.rank heap.new.items) places.new }
    ensures taken { key_in_heap (seen_all R.rank heap.new.items) places.new
        (entry_at (seen_all R.rank heap.old.items) place).slot ≡ None }
    ensures others { (slot : ℕ) → slot ≢ (entry_at (seen_all R.rank heap.old.items) place).slot
        → key_in_heap (seen_all R.rank heap.new.items) places.new slot
        ≡ key_in_heap (seen_all R.rank heap.old.items) places.old slot }
    ensures room { vec_capacity heap.new ≡ vec_capacity heap.old }
    ensures places_length { length places.new ≡ length places.old }
    ensures few { result ≤ most_touches (length heap.old.items) }
    ensures many { place + 1 < length heap.old.items → 0 < result }
{
    let last = heap.take_last();
    if place == heap.len() {
        return 0;
    }
    replace(heap, places, place, last)
}

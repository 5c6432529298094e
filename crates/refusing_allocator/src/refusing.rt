//! The allocator, and what it counts.

use heap_allocator::HeapAllocator;
use std::alloc::{AllocError, Allocator, Global};
use std::sync::atomic::{AtomicU64, Ordering};

/// What was asked of an allocator so far, and what it will refuse.
#[derive(Drop)]
struct Growths {
    /// How many growths were asked for.
    asked: AtomicU64,
    /// Which of them is refused, counted from 1: none where it is 0.
    refused: AtomicU64,
    /// How many bytes are in use.
    used: AtomicU64,
}

/// An allocator that refuses at most one growth. It is lent: a `&` to it is the allocator of what a test makes, on any thread.
pub struct Refusing<B: Allocator> {
    inner: B,
    growths: Growths,
}

impl<B: Allocator> Refusing<B> {
    /// Grants all growths, as far as the inner allocator does.
    pub fn new(inner: B) -> Refusing<B> {
        Refusing {
            inner,
            growths: Growths {
                asked: AtomicU64::new(0),
                refused: AtomicU64::new(0),
                used: AtomicU64::new(0),
            },
        }
    }

    /// From now on refuses the growth of this number, counted from 1, and grants all before and behind it.
    ///
    /// Where other threads ask for growths meanwhile, from when on is left open.
    pub fn refuse(&self, number: u64) {
        let asked = self.growths.asked.load(Ordering::SeqCst);
        self.growths
            .refused
            .store(asked.wrapping_add(number), Ordering::SeqCst);
    }

    /// Whether the growth to be refused was asked for.
    pub fn has_refused(&self) -> bool {
        let refused = self.growths.refused.load(Ordering::SeqCst);
        self.growths.asked.load(Ordering::SeqCst) >= refused
    }

    /// How many bytes are in use.
    pub fn used(&self) -> usize {
        self.growths.used.load(Ordering::SeqCst) as usize
    }
}

impl<B: Allocator> Drop for Refusing<B> {
    fn drop(self) {
        let Self {
            inner: _,
            growths: _,
        } = self;
    }
}

impl<'a> HeapAllocator for &'a Refusing<Global> {
    fn heap(&self) -> Global {
        self.inner
    }
}

/// Counts a growth of this many bytes, and tells whether it is refused.
fn refuses(growths: &Growths, size: usize) -> bool {
    let asked = growths.asked.fetch_add(1, Ordering::SeqCst).wrapping_add(1);
    if asked == growths.refused.load(Ordering::SeqCst) {
        return true;
    }
    growths.used.fetch_add(size as u64, Ordering::SeqCst);
    false
}

/// Counts that this many bytes came back.
fn gives_back(growths: &Growths, size: usize) {
    growths.used.fetch_sub(size as u64, Ordering::SeqCst);
}

unsafe impl<B: Allocator> Allocator for Refusing<B> {
    ghost dealloc_token = { λ heap ty ptr. B.dealloc_token heap.inner ty ptr };

    fn allocate(&self, size: usize, align: usize) -> Result<*mut u8, AllocError> {
        if refuses(&self.growths, size) {
            return Err(AllocError);
        }
        self.inner.allocate(size, align)
    }

    unsafe fn deallocate(&self, ptr: *mut u8, size: usize, align: usize) {
        gives_back(&self.growths, size);
        self.inner.deallocate(ptr, size, align);
    }
}

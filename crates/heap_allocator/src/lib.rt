//! An allocator that also leads to the heap.
//!
//! # Usage
//!
//! Some crates of the kit take the global allocator alone, as TOML trees and cells that are set once do. A function that is
//! generic in its allocator and calls such a crate asks for a [`HeapAllocator`], and passes [`heap`](HeapAllocator::heap) on.
//!
//! ```rust
//! /// A copy of a text on the heap, whatever the allocator is.
//! fn on_heap<A: HeapAllocator>(alloc: A, text: &str) -> Result<String, AllocError> {
//!     String::from_str(alloc.heap(), text)
//! }
//! ```
//!
//! # Errors, memory and cost
//!
//! No call fails, takes memory or costs anything.
//!
//! # Tests
//!
//! That of the lines above stands in `compile_tests`, all others in the crates that use it.
#![tactic(auto)]

use std::alloc::{Allocator, Global};

/// An allocator that also gives the heap.
pub trait HeapAllocator: Allocator + Copy {
    /// The heap.
    fn heap(&self) -> Global;
}

impl HeapAllocator for Global {
    fn heap(&self) -> Global {
        *self
    }
}

//! An allocator for tests: it refuses one growth, grants all others, and counts the bytes in use.
//!
//! # Usage
//!
//! A [`Refusing`] stands in front of another allocator and is lent: a `&` to it is the allocator of what a test makes, so all
//! that is made over it counts in one place.
//!
//! ```rust
//! let heap = Refusing::new(alloc);
//! let mut numbers = Vec::new(&heap);
//! heap.refuse(2);
//! numbers.push(1)?; // the first growth is granted
//! assert!(rt; numbers.reserve(99).is_err()); // the second is refused
//! assert!(rt; heap.has_refused());
//! numbers.reserve(99)?;
//! drop(numbers);
//! assert_eq!(rt; heap.used(), 0);
//! ```
//!
//! # Behaviour
//!
//! A growth is a call of `allocate`. [`refuse`](Refusing::refuse) says which one is refused, counted from then on; a call that
//! asks for fewer meets no refusal, and [`has_refused`](Refusing::has_refused) says whether the one was met. So a test refuses a
//! call its first growth, then its second and so on, until it meets none. Where threads share it, growths are numbered as they
//! come.
//!
//! Where the inner allocator is the heap, a `&` is a [`HeapAllocator`](heap_allocator::HeapAllocator) that leads to it: what is asked of the
//! heap itself is neither refused nor counted.
//!
//! # Errors
//!
//! A growth fails where it is refused, and where the inner allocator refuses it.
//!
//! # Memory and cost
//!
//! Three numbers beside the inner allocator, each an atomic, so that it is lent to several threads. No contract says what an
//! atomic holds, so none says which growth is refused, or what is counted.
//!
//! # Tests
//!
//! That of the lines above stands in `end_tests`, all others in the crates that use it, each of which refuses growths that are
//! told, and gives back all that it took.
#![tactic(auto)]

mod refusing;

pub use refusing::Refusing;

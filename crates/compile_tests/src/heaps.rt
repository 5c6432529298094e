//! The example of the page, as it stands there: `tools/docs` compares them.
use heap_allocator::HeapAllocator;
use std::alloc::AllocError;
use std::test::Fail;

// example: heap_allocator
/// A copy of a text on the heap, whatever the allocator is.
fn on_heap<A: HeapAllocator>(alloc: A, text: &str) -> Result<String, AllocError> {
    String::from_str(alloc.heap(), text)
}
// end of example

#[test]
fn the_heap_is_its_own(rt: HostRuntime) -> Result<(), Fail> {
    assert_eq!(rt; on_heap(rt.alloc(), "plan")?.as_str(), "plan");
    Ok(())
}

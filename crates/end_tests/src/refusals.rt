//! The example of the page, as it stands there: `tools/docs` compares them.
use refusing_allocator::Refusing;
use std::test::Fail;

#[test]
fn the_page_is_run(rt: HostRuntime) -> Result<(), Fail> {
    let alloc = rt.alloc();
    // example: refusing_allocator
    let heap = Refusing::new(alloc);
    let mut numbers = Vec::new(&heap);
    heap.refuse(2);
    numbers.push(1)?; // the first growth is granted
    assert!(rt; numbers.reserve(99).is_err()); // the second is refused
    assert!(rt; heap.has_refused());
    numbers.reserve(99)?;
    drop(numbers);
    assert_eq!(rt; heap.used(), 0);
    // end of example
    Ok(())
}

//! How much memory a line takes, over heaps of fixed size.
use crate::lines::longest;
use linked_list_allocator::LocalHeap;
use std::alloc::{AllocError, Allocator};
use std::test::Fail;
use trace_text::{LINE_ROOM, TextError, write_line};

/// So many bytes, in memory of that capacity.
fn bytes_with_room<A: Allocator>(
    alloc: A,
    size: usize,
    capacity: usize,
) -> Result<Vec<u8, A>, AllocError> {
    let mut text = Vec::with_capacity(alloc, capacity)?;
    text.resize(size, b'x')?;
    Ok(text)
}

#[test]
fn takes_the_room_of_a_line(rt: HostRuntime) -> Result<(), Fail> {
    let heap = LocalHeap::new(rt.alloc(), LINE_ROOM)?;
    let mut text = Vec::new(&heap);
    write_line(&mut text, &longest())?;
    assert_eq!(rt; text.len(), 104);
    assert_eq!(rt; heap.used(), LINE_ROOM);
    Ok(())
}

#[test]
fn takes_no_memory_where_there_is_room(rt: HostRuntime) -> Result<(), Fail> {
    for size in [0, 16, 1_008, 65_536] {
        let heap = LocalHeap::new(rt.alloc(), size + LINE_ROOM)?;
        let mut text = bytes_with_room(&heap, size, size + LINE_ROOM)?;
        write_line(&mut text, &longest())?;
        assert_eq!(rt; text.len(), size + 104);
        assert_eq!(rt; heap.used(), size + LINE_ROOM);
    }
    Ok(())
}

#[test]
fn a_refused_line_leaves_the_text(rt: HostRuntime) -> Result<(), Fail> {
    let heap = LocalHeap::new(rt.alloc(), LINE_ROOM)?;
    let mut text = Vec::with_capacity(&heap, LINE_ROOM)?;
    text.extend_from_slice(b"5 clock\n")?;
    let refused = write_line(&mut text, &longest());
    assert!(rt; refused == Err(TextError::Memory), "{refused:?}");
    assert!(rt; text.as_slice() == b"5 clock\n".as_slice());
    assert_eq!(rt; text.capacity(), LINE_ROOM);
    Ok(())
}

//! Pictures with little memory, over heaps of fixed size.
use super::*;
use linked_list_allocator::LocalHeap;
use trace_draw::whole_window;

/// What came of a picture of lines over a heap, with at most so many marks and bars: the number of its bars. All memory is given
/// back.
fn bars_over(
    rt: &impl Abort,
    heap: &LocalHeap,
    lines: &[Line],
    most: u64,
) -> Result<usize, PictureError> {
    let shown = whole_window(lines);
    let bars = match picture(heap, lines, 2, shown, most) {
        Ok(drawn) => Ok(drawn.bars().len()),
        Err(error) => Err(error),
    };
    assert!(rt; heap.used() == 0);
    bars
}

#[test]
fn a_picture_without_memory_is_none(rt: HostRuntime) -> Result<(), Fail> {
    let lines = lines_of(rt.alloc(), TRACE)?;
    let mut refused = 0u32;
    let mut drawn = 0u32;
    for step in 0..120usize {
        let heap = LocalHeap::new(rt.alloc(), 64 + 32 * step)?;
        let bars = bars_over(&rt, &heap, &lines, 7);
        if bars == Err(PictureError::Memory) {
            assert!(rt; drawn == 0, "{step}");
            refused = refused.saturating_add(1);
        } else {
            assert!(rt; bars == Ok(3), "{step}");
            drawn = drawn.saturating_add(1);
        }
    }
    assert!(rt; refused > 0 && drawn > 0, "{refused} {drawn}");
    Ok(())
}

#[test]
fn crowds_are_told_without_memory(rt: HostRuntime) -> Result<(), Fail> {
    let lines = lines_of(rt.alloc(), TRACE)?;
    let heap = LocalHeap::new(rt.alloc(), 64)?;
    let bars = bars_over(&rt, &heap, &lines, 6);
    assert!(rt; bars == Err(PictureError::Crowded { marks: 7 }));
    Ok(())
}

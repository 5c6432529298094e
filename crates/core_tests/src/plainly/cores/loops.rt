//! What cores of codes with loops take.
use super::calls::core_over;
use super::give;
use executor_core::Core;
use executor_model::Event;
use linked_list_allocator::LocalHeap;
use queue_code::Instr;
use std::alloc::{AllocGlobal, Allocator};
use std::process::Abort;
use std::test::Fail;

/// How many lines a core answers to a clock behind its calls.
fn lines_to_clock<A: Allocator>(rt: &impl AllocGlobal, core: &mut Core<A>) -> Result<usize, Fail> {
    let mut out = Vec::new(rt.alloc());
    give(core, &[Event::Clock(65_536)], &mut out)?;
    Ok(out.len())
}

/// A core over a heap that asks this many times.
fn asking_core(heap: &LocalHeap, times: u32) -> Result<Core<&LocalHeap>, Fail> {
    core_over(
        heap,
        &[Instr::Loop(times, 1), Instr::Ask(0), Instr::EndLoop],
        1,
        9,
    )
}

/// How many lines a core answers that asks, and how much of its heap is used before and behind that.
fn asks(
    rt: &impl AllocGlobal,
    heap: &LocalHeap,
    core: &mut Core<&LocalHeap>,
) -> Result<(usize, usize, usize), Fail> {
    let before = heap.used();
    let lines = lines_to_clock(rt, core)?;
    Ok((lines, before, heap.used()))
}

/// The same of a core over a heap of its own that asks this many times.
fn asks_over_heap(rt: &impl AllocGlobal, times: u32) -> Result<(usize, usize, usize), Fail> {
    let heap = LocalHeap::new(rt.alloc(), 1 << 10)?;
    let mut core = asking_core(&heap, times)?;
    asks(rt, &heap, &mut core)
}

/// How much of a heap of its own a core takes that asks this many times, as much after it has asked as before.
fn used_by_loop(rt: &(impl AllocGlobal + Abort), times: u32) -> Result<usize, Fail> {
    let (lines, before, behind) = asks_over_heap(rt, times)?;
    assert!(rt; lines == times as usize + 1);
    assert!(rt; behind == before);
    Ok(before)
}

#[test]
fn memory_does_not_grow_with_the_iterations(rt: HostRuntime) -> Result<(), Fail> {
    let many = used_by_loop(&rt, 65_536)?;
    assert!(rt; many == used_by_loop(&rt, 1)?);
    Ok(())
}

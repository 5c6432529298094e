//! Which calls take memory, and what a refusal gives back, over a heap of fixed size.
use super::calls::{code_of, core_over, instrs_of, submissions};
use super::events::events_of;
use super::{give, refusal_of};
use executor_core::{Core, CoreError, make_room};
use executor_model::{Event, Line};
use linked_list_allocator::LocalHeap;
use queue_code::Instr;
use std::alloc::{AllocError, AllocGlobal, Allocator, Global};
use std::process::Abort;
use std::test::Fail;

/// Gives a core this event, and tells whether it is taken, without memory.
fn is_taken_without_memory(
    heap: &LocalHeap,
    core: &mut Core<&LocalHeap>,
    event: Event,
    out: &mut Vec<Line, &LocalHeap>,
) -> bool {
    let used = heap.used();
    refusal_of(core, event, out).is_none() && heap.used() == used
}

/// Gives a core these events, and checks that none takes memory.
fn events_take_no_memory(
    rt: &impl Abort,
    heap: &LocalHeap,
    core: &mut Core<&LocalHeap>,
    out: &mut Vec<Line, &LocalHeap>,
    events: &[Event],
) {
    for event in events {
        assert!(rt;
            is_taken_without_memory(heap, core, *event, out),
            "{event:?}"
        );
    }
}

/// How many lines there are, the moment, and how many events and tasks.
fn numbers_of<A: Allocator>(alloc: Global, core: &Core<A>, lines: usize) -> Result<String, Fail> {
    let (now, taken, tasks) = (core.now(), core.taken(), core.tasks());
    Ok(format!(in alloc; "lines {lines}, moment {now}, events {taken}, tasks {tasks}")?)
}

/// Gives a core of two workers these events, over a heap of its own, where its list has room for this many lines and keeps it, and
/// tells to what numbers they come.
fn numbers_after(
    rt: &(impl AllocGlobal + Abort),
    instrs: &[Instr],
    room: usize,
    events: &[Event],
) -> Result<String, Fail> {
    let heap = LocalHeap::new(rt.alloc(), 1 << 16)?;
    let mut out = Vec::with_capacity(&heap, room)?;
    let mut core = core_over(&heap, instrs, 2, 100)?;
    assert!(rt; out.capacity() == room);
    events_take_no_memory(rt, &heap, &mut core, &mut out, events);
    assert!(rt; out.capacity() == room);
    assert!(rt; core.words().len() == core.tasks());
    numbers_of(rt.alloc(), &core, out.len())
}

/// Gives a core of these calls these events, where its list has room for so many lines: none takes memory, and they come to these
/// numbers.
fn take_no_memory(
    rt: &(impl AllocGlobal + Abort),
    calls: &str,
    room: usize,
    events: &str,
    wanted: &str,
) -> Result<(), Fail> {
    let instrs = instrs_of(rt.alloc(), calls)?;
    let events = events_of(rt.alloc(), events)?;
    let numbers = numbers_after(rt, &instrs, room, &events)?;
    assert!(rt; numbers.as_str() == wanted, "{numbers}");
    Ok(())
}

const CALLS: &str = "\
rate 0 5 0
submit 0 3
cancel 2 1
illegal 4
";

const EVENTS: &str = "\
clock 0
start 0
clock 9
finish 0 1
start 1
start 1
cancel 0
fail 1 1
clock 1
";

/// Three tasks, and then what ends them all: five calls.
const SWEPT: &str = "rate 0 5 1\nfixed 0 5 1\nsubmit 0 1\nset_execute 0 false\nshut_down 0";

/// The same with a shutdown at once.
const SWEPT_AT_ONCE: &str =
    "rate 0 5 1\nfixed 0 5 1\nsubmit 0 1\nset_execute 0 false\nshut_down_now 0";

/// Calls, for how many lines there is room, events, and to what numbers they come. A clock that reaches a sweep needs room for its own
/// line, one for each of the five calls, and one for each of the three tasks that end.
const TAKEN: &[(&str, usize, &str, &str)] = &[
    (CALLS, 20, EVENTS, "lines 13, moment 9, events 9, tasks 3"),
    (SWEPT, 9, "clock 0", "lines 9, moment 0, events 1, tasks 3"),
    (
        SWEPT_AT_ONCE,
        9,
        "clock 0",
        "lines 9, moment 0, events 1, tasks 3",
    ),
];

#[test]
fn events_with_room_take_no_memory(rt: HostRuntime) -> Result<(), Fail> {
    for (calls, room, events, wanted) in TAKEN {
        take_no_memory(&rt, calls, *room, events, wanted)?;
    }
    Ok(())
}

/// A list of two numbers with room for four.
fn two_of_four(heap: &LocalHeap) -> Result<Vec<u64, &LocalHeap>, AllocError> {
    let mut list = Vec::with_capacity(heap, 4)?;
    list.push(7u64)?;
    list.push(8)?;
    Ok(list)
}

/// Makes room for three more, and then for too many: the first grows the list, and the second leaves it as it was.
fn room_grows(
    rt: &impl Abort,
    heap: &LocalHeap,
    list: &mut Vec<u64, &LocalHeap>,
) -> Result<(), Fail> {
    make_room(list, 3)?;
    let (capacity, used) = (list.capacity(), heap.used());
    assert!(rt; capacity >= 5);
    assert!(rt; make_room(list, 1 << 10).is_err());
    assert!(rt; list.capacity() == capacity);
    assert!(rt; heap.used() == used);
    Ok(())
}

#[test]
fn room_is_made_where_there_is_less(rt: HostRuntime) -> Result<(), Fail> {
    let heap = LocalHeap::new(rt.alloc(), 1 << 10)?;
    let mut list = two_of_four(&heap)?;
    let used = heap.used();
    make_room(&mut list, 2)?;
    assert!(rt; list.capacity() == 4);
    assert!(rt; heap.used() == used);
    room_grows(&rt, &heap, &mut list)?;
    assert!(rt; list.as_slice() == [7, 8].as_slice());
    Ok(())
}

/// Why no core is made of these instructions in a heap, and none where one is made; either way all memory is given
/// back.
fn refusal(
    rt: &impl Abort,
    heap: &LocalHeap,
    instrs: &[Instr],
    workers: u8,
    limit: u32,
) -> Result<Option<CoreError>, Fail> {
    let none = heap.used();
    let code = code_of(heap, instrs)?;
    assert!(rt; none < heap.used());
    let refused = Core::new(heap, code, workers, limit).err();
    assert!(rt; heap.used() == none);
    Ok(refused)
}

/// Numbers of workers and events, and why no core is made for so many.
const REFUSED: &[(u8, u32, CoreError)] = &[
    (0, 0, CoreError::Workers),
    (65, 9, CoreError::Workers),
    (1, 0, CoreError::Limit),
    (1, 9, CoreError::Memory),
];

#[test]
fn a_refused_core_gives_its_code_back(rt: HostRuntime) -> Result<(), Fail> {
    let heap = LocalHeap::new(rt.alloc(), 1 << 11)?;
    let instrs = submissions(rt.alloc(), 30)?;
    for (workers, limit, error) in REFUSED {
        let refused = refusal(&rt, &heap, &instrs, *workers, *limit)?;
        assert!(rt; refused == Some(*error), "{workers} {limit}");
    }
    Ok(())
}

/// Whether a core of these instructions is made in a heap of so many bytes.
fn is_made(rt: &(impl AllocGlobal + Abort), instrs: &[Instr], bytes: usize) -> Result<bool, Fail> {
    let heap = LocalHeap::new(rt.alloc(), bytes)?;
    match refusal(rt, &heap, instrs, 64, 9)? {
        None => Ok(true),
        Some(error) => {
            assert!(rt; error == CoreError::Memory, "{bytes}");
            Ok(false)
        }
    }
}

/// Heaps from one that has room for the code and hardly more, up to one that has room for the core. Each table of the
/// core takes more than 32 bytes, so that each is the first that is refused in one of them.
#[test]
fn a_core_that_lacks_one_table_gives_its_code_back(rt: HostRuntime) -> Result<(), Fail> {
    let instrs = submissions(rt.alloc(), 30)?;
    let mut refused = 0u32;
    let mut made = false;
    for step in 0..200 {
        if is_made(&rt, &instrs, 1_500 + 32 * step)? {
            made = true;
        } else {
            assert!(rt; !made, "{step}");
            refused = refused.saturating_add(1);
        }
    }
    assert!(rt; refused > 0);
    assert!(rt; made);
    Ok(())
}

/// Gives a core a clock while hardly any of its heap is free, which changes nothing.
fn lacks_memory(
    rt: &impl Abort,
    heap: &LocalHeap,
    core: &mut Core<Global>,
    out: &mut Vec<Line, &LocalHeap>,
) -> Result<(), Fail> {
    let _full = Vec::<u8, _>::with_capacity(heap, 440)?;
    let used = heap.used();
    let refused = refusal_of(core, Event::Clock(0), out);
    assert!(rt; refused == Some(CoreError::Memory));
    assert!(rt; core.taken() == 0);
    assert!(rt; out.len() == 0);
    assert!(rt; heap.used() == used);
    Ok(())
}

/// Gives a core a clock twice: first while hardly any of its heap is free, and then with memory.
fn takes_it_with_memory(
    rt: &impl Abort,
    heap: &LocalHeap,
    core: &mut Core<Global>,
) -> Result<(), Fail> {
    let mut out = Vec::new(heap);
    lacks_memory(rt, heap, core, &mut out)?;
    give(core, &[Event::Clock(0)], &mut out)?;
    assert!(rt; core.taken() == 1);
    assert!(rt; out.len() == 2);
    Ok(())
}

#[test]
fn an_event_without_memory_may_be_given_again(rt: HostRuntime) -> Result<(), Fail> {
    let heap = LocalHeap::new(rt.alloc(), 1 << 9)?;
    let instrs = submissions(rt.alloc(), 1)?;
    let mut core = core_over(rt.alloc(), &instrs, 1, 9)?;
    takes_it_with_memory(&rt, &heap, &mut core)
}

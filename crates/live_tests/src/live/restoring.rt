//! Executors made of what is written of others.

use super::steps::do_step;
use super::{play_cases, play_text};
use crate::told::{byte_of, short_of};
use crate::words::{Row, Words, compare, read_words};
use executor_model::Stage;
use live_core::{ExecutorFrame, Image, RestoreError, ScheduledExecutor};
use refusing_allocator::Refusing;
use std::alloc::{AllocError, AllocGlobal, Allocator, Global};
use std::process::Abort;
use std::test::Fail;
use task_table::Seat;

/// What is written of an executor.
#[derive(Drop)]
struct Snapshot {
    frame: ExecutorFrame,
    tasks: Vec<Image>,
    empty: Vec<u32>,
}

/// What is written of this one.
fn snapshot_of<A: Allocator>(
    alloc: Global,
    executor: &ScheduledExecutor<A>,
) -> Result<Snapshot, Fail> {
    let empty = copied(alloc, executor.empty_slots())?;
    let tasks = images_of(alloc, executor)?;
    Ok(Snapshot {
        frame: frame_of(executor),
        tasks,
        empty,
    })
}

/// These slots, in memory of their own.
fn copied(alloc: Global, slots: &[u32]) -> Result<Vec<u32>, AllocError> {
    let mut all = Vec::new(alloc);
    all.extend_from_slice(slots)?;
    Ok(all)
}

/// What is written of the tasks of this one.
fn images_of<A: Allocator>(
    alloc: Global,
    executor: &ScheduledExecutor<A>,
) -> Result<Vec<Image>, AllocError> {
    executor.images(alloc)
}

/// What is written beside them.
fn frame_of<A: Allocator>(executor: &ScheduledExecutor<A>) -> ExecutorFrame {
    executor.frame()
}

/// The executor that is made of it.
fn restored<A: Allocator + Copy>(
    alloc: A,
    snapshot: &Snapshot,
) -> Result<ScheduledExecutor<A>, RestoreError> {
    ScheduledExecutor::restore(alloc, &snapshot.frame, &snapshot.tasks, &snapshot.empty)
}

/// What is told where an executor is made of what is written.
fn word_of(error: Option<RestoreError>) -> &'static str {
    match error {
        None => "made",
        Some(RestoreError::Unsound) => "unsound",
        Some(RestoreError::Memory) => "memory",
    }
}

/// What is told where one is made of this.
fn told_of<A: Allocator + Copy>(alloc: A, snapshot: &Snapshot) -> &'static str {
    word_of(restored(alloc, snapshot).err())
}

/// Plays rows, each with the executor that is made of what is written of the one before. All is told as by one executor; but what the
/// last happening ended is not written, so where that is some task the one before goes on.
pub fn play_restored(rt: &(impl AllocGlobal + Abort), rows: &[Row<'_>]) -> Result<(), Fail> {
    let mut executor = ScheduledExecutor::new(rt.alloc(), 2)?;
    for row in rows {
        if executor.ended().is_empty() {
            executor = written_again(rt, &executor)?;
        }
        let told = do_step(&mut executor, row.step);
        compare(rt, row, told);
    }
    Ok(())
}

/// The executor that is made of what is written of this one.
fn written_again(
    rt: &(impl AllocGlobal + Abort),
    executor: &ScheduledExecutor<Global>,
) -> Result<ScheduledExecutor<Global>, Fail> {
    let snapshot = snapshot_of(rt.alloc(), executor)?;
    refuse_each(rt, &snapshot)?;
    Ok(restored(rt.alloc(), &snapshot)?)
}

/// Makes an executor with the first growth refused, then with the second and so on, until no growth of that number is asked for: each
/// time want of memory is told, and all memory is given back.
fn refuse_each(rt: &(impl AllocGlobal + Abort), snapshot: &Snapshot) -> Result<(), Fail> {
    for number in 1..100u64 {
        let heap = Refusing::new(rt.alloc());
        heap.refuse(number);
        let told = told_of(&heap, snapshot);
        assert!(rt; heap.used() == 0, "{number}");
        if !heap.has_refused() {
            assert!(rt; told == "made", "{number}");
            return Ok(());
        }
        assert!(rt; told == "memory", "{number}");
    }
    Err("a growth was refused each time".into())
}

/// What is written of an executor of two workers, once these rows are played.
fn written_after(rt: &(impl AllocGlobal + Abort), rows: &str) -> Result<Snapshot, Fail> {
    let mut executor = ScheduledExecutor::new(rt.alloc(), 2)?;
    play_text(rt, &mut executor, rows)?;
    snapshot_of(rt.alloc(), &executor)
}

/// One of two workers runs task 1. Task 0 waits, and task 2 is kept in the queue.
const THREE_TASKS: &str = "\
three tasks
schedule 0 9 | accepted 0 3 9
at_rate 0 2 5 | accepted 1 2 2
schedule 0 7 | accepted 2 1 7
clock 4 | made
start 1 | begun 1 2 0 2
cancel_number 2 | yes
";

#[test]
fn what_is_written_says_all(rt: HostRuntime) -> Result<(), Fail> {
    let snapshot = written_after(&rt, THREE_TASKS)?;
    frame_says(&rt, &snapshot.frame);
    assert!(rt; snapshot.empty.len() == 1);
    assert!(rt; snapshot.tasks.len() == 3);
    tasks_say(&rt, &snapshot.tasks);
    Ok(())
}

/// Checks what is written beside the three tasks.
fn frame_says(rt: &impl Abort, frame: &ExecutorFrame) {
    assert!(rt; frame.earliest == 5);
    assert!(rt; frame.count == 3);
    assert!(rt; frame.accepted == 3);
    assert!(rt; frame.table.moment == 4);
    assert!(rt; frame.table.workers == 2);
    assert!(rt; frame.table.slots == 4);
}

/// Checks the number of each task, and its worker.
fn tasks_say(rt: &impl Abort, tasks: &[Image]) {
    for (place, task) in tasks.iter().enumerate() {
        let worker = if place == 1 { Some(1) } else { None };
        assert!(rt; task.seat.number == place as u64, "{place}");
        assert!(rt; task.worker == worker, "{place}");
    }
}

/// What is changed in what is written of the three tasks, and what is told then. First the frame and the empty slot, and then a task,
/// by its number, and what is written of it.
///
/// A run without a worker is one that no step ends, but of it as much may be written.
const CHANGES: &str = "\
workers 0 | unsound
workers 65 | made
workers 255 | made
workers 1 | unsound
moment late | unsound
moment 3 | unsound
slots 5 | unsound
slots 3 | unsound
earliest 6 | unsound
earliest max | unsound
count 2 | unsound
accepted 2 | unsound
empty 4 | unsound
empty 3 | unsound
slot 1 3 | unsound
slot 1 4294967295 | unsound
idle 1 | made
worker 1 2 | unsound
worker 0 0 | unsound
number 1 0 | unsound
number 2 3 | unsound
running 0 | unsound
vacant 0 | unsound
done 0 | unsound
due 0 9223372036854775809 | unsound
cancelled 0 true | unsound
kept 0 true | unsound
due 1 5 | unsound
run 1 max | unsound
cancelled 2 false | unsound
kept 2 false | unsound
nothing 2 | no change
";

#[test]
fn what_no_executor_wrote_is_refused(rt: HostRuntime) -> Result<(), Fail> {
    for row in CHANGES.lines() {
        let (change, wanted) = row.split_once(" | ").ok_or("nothing told")?;
        let told = told_of_change(&rt, read_words(change)?)?;
        assert!(rt; told == wanted, "{row}");
    }
    Ok(())
}

/// What is told where an executor is made of what is written of the three tasks, with this change.
fn told_of_change(
    rt: &(impl AllocGlobal + Abort),
    change: Words<'_>,
) -> Result<&'static str, Fail> {
    let mut snapshot = written_after(rt, THREE_TASKS)?;
    if spoil(&mut snapshot, change) {
        Ok(told_of(rt.alloc(), &snapshot))
    } else {
        Ok("no change")
    }
}

/// Changes what is written, and tells whether there is such a change.
fn spoil(snapshot: &mut Snapshot, change: Words<'_>) -> bool {
    let task = snapshot.tasks.get_mut(change.first as usize);
    spoil_frame(&mut snapshot.frame, change)
        || spoil_empty(snapshot.empty.first_mut(), change)
        || spoil_task(task, change)
}

/// Changes the frame.
fn spoil_frame(frame: &mut ExecutorFrame, change: Words<'_>) -> bool {
    let value = change.first;
    match change.word {
        "workers" => frame.table.workers = byte_of(value),
        "moment" => frame.table.moment = value,
        "slots" => frame.table.slots = short_of(value),
        "earliest" => frame.earliest = value,
        "count" => frame.count = value,
        "accepted" => frame.accepted = value,
        _ => return false,
    }
    true
}

/// Changes an empty slot, if there is one.
fn spoil_empty(slot: Option<&mut u32>, change: Words<'_>) -> bool {
    match slot {
        Some(slot) if change.word == "empty" => {
            *slot = short_of(change.first);
            true
        }
        _ => false,
    }
}

/// Changes a task, if there is one.
fn spoil_task(task: Option<&mut Image>, change: Words<'_>) -> bool {
    let Some(task) = task else {
        return false;
    };
    match change.word {
        "slot" => task.slot = short_of(change.second),
        "worker" => task.worker = Some(byte_of(change.second)),
        "idle" => task.worker = None,
        _ => return spoil_seat(&mut task.seat, change.word, change.second),
    }
    true
}

/// Changes what the slot of a task holds.
fn spoil_seat(seat: &mut Seat, word: &str, value: u64) -> bool {
    match word {
        "number" => seat.number = value,
        "running" => seat.phase = Stage::Running,
        "vacant" => seat.phase = Stage::Vacant,
        "done" => seat.phase = Stage::Done,
        "due" => seat.due = value,
        "run" => seat.run = value,
        "cancelled" => seat.cancelled = value == 1,
        "kept" => seat.kept = value == 1,
        _ => return false,
    }
    true
}

/// Room for three tasks is made.
const THREE_SLOTS: &str = "three slots\nreserve 3 | made";

#[test]
fn an_empty_slot_is_written_once(rt: HostRuntime) -> Result<(), Fail> {
    let mut snapshot = written_after(&rt, THREE_SLOTS)?;
    assert!(rt; told_of(rt.alloc(), &snapshot) == "made");
    assert!(rt; writes_one_twice(&mut snapshot.empty));
    assert!(rt; told_of(rt.alloc(), &snapshot) == "unsound");
    Ok(())
}

/// Writes the first of three slots in place of the third, and tells whether there are three.
fn writes_one_twice(slots: &mut [u32]) -> bool {
    if slots.len() != 3 {
        return false;
    }
    slots[2] = slots[0];
    true
}

/// The slot is that of the second task, as it was told before. By `play_cases` each row is played with an executor that was restored.
const NAMES: &str = "\
a name means the same task after
schedule 0 9 | accepted 0 3 9
at_rate 0 2 5 | accepted 1 2 2
schedule 0 7 | accepted 2 1 7
clock 4 | made
start 1 | begun 1 2 0 2
cancel_number 2 | yes
holds 1 2 | holds true
holds 2 2 | holds false
finish 1 7 | again 1 2 0 7
holds 1 2 | holds true
next_due | due 7
";

#[test]
fn a_name_means_the_same_task_after(rt: HostRuntime) -> Result<(), Fail> {
    play_cases(&rt, NAMES)
}

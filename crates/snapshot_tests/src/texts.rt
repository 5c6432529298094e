//! What is read of a text, and written of that.
use byte_ends::{Sink, Writing};
use executor_model::Stage;
use sched_time::{Policies, Timing};
use snapshot_text::{Head, Snapshot, SnapshotError, SnapshotFault, read_snapshot, write_snapshot};
use std::alloc::{Allocator, Global};
use std::process::Abort;
use std::test::Fail;
use task_table::{Frame, Image, Seat};

/// A snapshot with a task of each kind.
pub const TEXT: &str = "\
sched snapshot 1
lines 40123 written 40310
workers 3 slots 6
moment 5000 earliest 5001
numbers 812 accepted 812
continue false
execute true
remove false
shut false
stopped false
task 3 slot 5 due 900 run 0 once waits
task 7 slot 1 due 4000 run 31 rate 100 runs 2
task 9 slot 0 due 4100 run 0 once kept
task 11 slot 2 due 80 run 4 fixed 5 runs 1 cancelled
free 4
free 3
end 4 9202126142331287350
";

/// The same, with a number that goes with each task.
const WITH_NUMBERS: &str = "\
sched snapshot 1
lines 40123 written 40310
workers 3 slots 6
moment 5000 earliest 5001
numbers 812 accepted 812
continue false
execute true
remove false
shut false
stopped false
task 3 slot 5 due 900 run 0 once waits
task 7 slot 1 due 4000 run 31 rate 100 runs 2
task 9 slot 0 due 4100 run 0 once kept
task 11 slot 2 due 80 run 4 fixed 5 runs 1 cancelled
data 17
data 0
data 18446744073709551615
data 1
free 4
free 3
end 4 14448181115857875042
";

/// One of an executor to which nothing happened.
const OF_A_NEW_ONE: &str = "\
sched snapshot 1
lines 0 written 0
workers 1 slots 0
moment 0 earliest 0
numbers 0 accepted 0
continue false
execute true
remove false
shut false
stopped false
end 0 2692142278650076971
";

/// Reads a text. All tests do it through this: what it ensures is then looked at once.
pub fn read<A: Allocator + Copy>(alloc: A, text: &[u8]) -> Result<Snapshot<A>, SnapshotFault> {
    read_snapshot(alloc, text)
}

/// Writes a snapshot.
pub fn write<A: Allocator, B: Allocator, W: Sink>(
    alloc: A,
    snapshot: &Snapshot<B>,
    writer: &mut W,
) -> Result<(), SnapshotError> {
    write_snapshot(
        alloc,
        snapshot.head(),
        snapshot.tasks(),
        snapshot.given(),
        snapshot.empty(),
        writer,
    )
}

/// What is written of what is read of a text.
fn written_again(alloc: Global, text: &str) -> Result<Vec<u8>, Fail> {
    let snapshot = read(alloc, text.as_bytes())?;
    let mut writer = Writing::new(Vec::new(alloc));
    write(alloc, &snapshot, &mut writer)?;
    Ok(writer.into_inner())
}

#[test]
fn what_is_read_is_written_again(rt: HostRuntime) -> Result<(), Fail> {
    for text in [TEXT, WITH_NUMBERS, OF_A_NEW_ONE] {
        assert!(rt; written_again(rt.alloc(), text)?.as_slice() == text.as_bytes());
    }
    Ok(())
}

#[test]
fn the_head_is_read(rt: HostRuntime) -> Result<(), Fail> {
    let snapshot = read(rt.alloc(), TEXT.as_bytes())?;
    let head: &Head = snapshot.head();
    assert!(rt; head.lines == 40_123 && head.written == 40_310);
    assert!(rt; head.earliest == 5_001 && head.count == 812 && head.accepted == 812);
    let table: &Frame = &head.table;
    assert!(rt; table.moment == 5_000 && table.workers == 3 && table.slots == 6);
    assert!(rt; !table.policies.continues && table.policies.executes && !table.policies.removes);
    assert!(rt; !table.shut && !table.stopped);
    Ok(())
}

/// Whether a task has this number, slot, due moment and run, and how its run stands.
fn is_task(image: &Image, numbers: (u64, u32, u64, u64), worker: Option<u8>) -> bool {
    let seat: &Seat = &image.seat;
    (seat.number, image.slot, seat.due, seat.run) == numbers && image.worker == worker
}

/// Whether it runs, was cancelled, and is kept.
fn is_so(seat: &Seat, runs: bool, cancelled: bool, kept: bool) -> bool {
    let is_running = matches!(seat.phase, Stage::Running);
    is_running == runs && seat.cancelled == cancelled && seat.kept == kept
}

#[test]
fn tasks_and_empty_slots_are_read(rt: HostRuntime) -> Result<(), Fail> {
    let snapshot = read(rt.alloc(), TEXT.as_bytes())?;
    let [first, second, third, fourth] = snapshot.tasks() else {
        return Err("not four".into());
    };
    assert!(rt; is_task(first, (3, 5, 900, 0), None) && is_so(&first.seat, false, false, false));
    assert!(rt;
        is_task(second, (7, 1, 4_000, 31), Some(2)) && is_so(&second.seat, true, false, false)
    );
    assert!(rt; is_task(third, (9, 0, 4_100, 0), None) && is_so(&third.seat, false, true, true));
    assert!(rt; is_task(fourth, (11, 2, 80, 4), Some(1)) && is_so(&fourth.seat, true, true, false));
    assert!(rt;
        matches!(first.seat.timing, Timing::Once) && matches!(third.seat.timing, Timing::Once)
    );
    assert!(rt; matches!(second.seat.timing, Timing::Rate(period) if period.nanos() == 100));
    assert!(rt; matches!(fourth.seat.timing, Timing::Fixed(delay) if delay.nanos() == 5));
    assert!(rt; snapshot.given().is_empty() && snapshot.empty() == [4, 3].as_slice());
    Ok(())
}

#[test]
fn numbers_of_a_caller_are_read(rt: HostRuntime) -> Result<(), Fail> {
    let snapshot = read(rt.alloc(), WITH_NUMBERS.as_bytes())?;
    assert!(rt; snapshot.given() == [17, 0, u64::MAX, 1].as_slice());
    Ok(())
}

#[test]
fn the_page_is_run(rt: HostRuntime) -> Result<(), Fail> {
    let alloc = rt.alloc();
    // example: snapshot_text
    let table = Frame {
        moment: 7,
        workers: 1,
        slots: 1,
        policies: Policies::defaults(),
        shut: false,
        stopped: false,
    };
    let head = Head {
        lines: 2,
        written: 2,
        table,
        earliest: 8,
        count: 1,
        accepted: 1,
    };
    let mut writer = Writing::new(Vec::new(alloc));
    write_snapshot(alloc, &head, &[], &[], &[0], &mut writer)?;
    let text = writer.into_inner();
    assert!(rt; text.starts_with(b"sched snapshot 1\nlines 2 written 2\n"));

    let snapshot = read_snapshot(alloc, &text)?;
    assert!(rt; *snapshot.head() == head && snapshot.empty() == [0].as_slice());
    // end of example
    Ok(())
}

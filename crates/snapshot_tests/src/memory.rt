//! Memory that is refused, and writers that fail.
use crate::texts::{TEXT, read, write};
use byte_ends::Writing;
use refusing_allocator::Refusing;
use scripted_runs::ends::{Script, Taking, Trouble};
use snapshot_text::{SnapshotError, SnapshotFault};
use std::io::ErrorKind;
use std::process::Abort;
use std::test::Fail;

/// Whether the growth of this number is refused as a text is read; all memory is given back.
fn is_refused(rt: &(impl AllocGlobal + Abort), number: u64) -> bool {
    let heap = Refusing::new(rt.alloc());
    heap.refuse(number);
    let fault = read(&heap, TEXT.as_bytes()).err();
    assert!(rt; heap.used() == 0, "{number}");
    let wanted = if heap.has_refused() {
        Some(SnapshotFault::Memory)
    } else {
        None
    };
    assert!(rt; fault == wanted, "{number}");
    fault.is_some()
}

#[test]
fn each_growth_of_a_reading_is_refused_in_turn(rt: HostRuntime) {
    let mut refused = 0u32;
    for number in 1..100u64 {
        if !is_refused(&rt, number) {
            break;
        }
        refused = refused.saturating_add(1);
    }
    assert!(rt; 0 < refused && refused < 99, "{refused}");
}

#[test]
fn the_page_of_a_writing_is_refused(rt: HostRuntime) -> Result<(), Fail> {
    let snapshot = read(rt.alloc(), TEXT.as_bytes())?;
    let heap = Refusing::new(rt.alloc());
    heap.refuse(1);
    let mut writer = Writing::new(Vec::new(rt.alloc()));
    assert!(rt; write(&heap, &snapshot, &mut writer) == Err(SnapshotError::Memory));
    assert!(rt; writer.into_inner().is_empty() && heap.has_refused());
    Ok(())
}

#[test]
fn a_front_is_written_where_the_writer_fails(rt: HostRuntime) -> Result<(), Fail> {
    let snapshot = read(rt.alloc(), TEXT.as_bytes())?;
    let script = Script {
        trouble_at: 3,
        trouble: Trouble::Fails(ErrorKind::Other),
        ..Script::smooth(7)
    };
    let mut writer = Writing::new(Taking::new(rt.alloc(), script));
    assert!(rt; write(rt.alloc(), &snapshot, &mut writer) == Err(SnapshotError::Write));
    let taken = writer.into_inner();
    assert!(rt; taken.taken() == &TEXT.as_bytes()[..14]);
    Ok(())
}

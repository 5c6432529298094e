//! The snapshot of a text.
ghost use Rattle.std.specs.Prelude.{◌≡◌, ◌≢◌, ◌^◌, ◌≤◌, IfErr, IfOk, length};
ghost use Rattle.snapshot_text.specs.Snapshots.{SnapshotView};
ghost use Rattle.snapshot_text.specs.Spelling.{FitsSnapshot, snapshot_text};

use crate::fault::SnapshotFault;
use crate::front::{VERSION, split_head};
use crate::snapshot::Snapshot;
use crate::spelled::read_all;
use crate::sum::{FIRST, add_to_sum};
use crate::words::split_two;
use std::alloc::Allocator;
use task_table::Image;

/// The snapshot that a text tells.
///
/// # Errors
///
/// [`SnapshotFault::Memory`] where `alloc` refuses the memory for what is read; each other one is of a text that is no snapshot's.
pub fn read_snapshot<A: Allocator + Copy>(
    alloc: A,
    text: &[u8],
) -> Result<Snapshot<A>, SnapshotFault>
    ensures reads { IfOk result (λ s. (text.now ≡ snapshot_text s) × FitsSnapshot s) }
    ensures none { IfErr result (λ fault. fault ≢ SnapshotFault.Memory
        → (s : SnapshotView) → FitsSnapshot s → text.now ≢ snapshot_text s) }
{
    let Some((head, rest)) = split_head(text) else {
        return Err(fault_at_front(text));
    };
    let (tasks, rest) = read_all::<A, Image>(alloc, rest)?;
    let (given, rest) = read_all::<A, u64>(alloc, rest)?;
    let (empty, last) = read_all::<A, u32>(alloc, rest)?;
    let body = &text[..text.len() - last.len()];
    let Some(((count, sum), behind)) = split_two(last, b"end ", b" ", b"\n") else {
        return Err(SnapshotFault::Line(lines_of(body) + 1));
    };
    if !behind.is_empty() {
        return Err(SnapshotFault::Line(lines_of(body) + 2));
    }
    if count != tasks.len() as u64 {
        return Err(SnapshotFault::Tasks);
    }
    if sum != add_to_sum(FIRST, body) {
        return Err(SnapshotFault::Sum);
    }
    Ok(Snapshot::new(head, tasks, given, empty))
}

/// Why a text does not begin as a snapshot does.
fn fault_at_front(text: &[u8]) -> SnapshotFault
    ensures { result ≢ SnapshotFault.Memory }
{
    SnapshotFault::Version
}

/// How many lines some bytes have.
fn lines_of(bytes: &[u8]) -> u64
    ensures { result ≤ length bytes.now }
{
    let mut count = 0u64;
    for i in 0..bytes.len() {
        if bytes[i] == b'\n' {
            count += 1;
        }
    }
    count
}

//! The text of a snapshot, written piece by piece.
ghost use Rattle.std.specs.Prelude.{◌≡◌, [], ◌++◌, length};
ghost use Rattle.byte_ends.specs.Ends.{CountsTries, WritesText};
ghost use Rattle.snapshot_text.specs.Snapshots.{SnapshotView};
ghost use Rattle.snapshot_text.specs.Spelling.{head_text, snapshot_text};
ghost use Rattle.snapshot_text.specs.Writing.{CountsSnapshot, IsWritten};

use crate::fault::SnapshotError;
use crate::front::VERSION;
use crate::head::Head;
use crate::page::Page;
use crate::spelled::{make_room, write_all};
use byte_ends::{Sink, write_text};
use std::alloc::Allocator;
use task_table::Image;

/// Writes the text of the snapshot that has this at its front, these images of tasks, these numbers of a caller's own that go with
/// the tasks, or none, and these empty slots.
///
/// It is read as the same where each task waits, is kept, or is run by a worker, as those of an executor are to which calls and events
/// led: no line tells of a run without a worker.
///
/// # Errors
///
/// [`SnapshotError::Memory`] where `alloc` refuses the 64 KiB for the text that is not written yet: then nothing was written.
/// [`SnapshotError::Write`] where the writer is at fault: then a front of the text was.
pub fn write_snapshot<A: Allocator, W: Sink>(
    alloc: A,
    head: &Head,
    tasks: &[Image],
    given: &[u64],
    empty: &[u32],
    writer: &mut W,
) -> Result<(), SnapshotError>
    ensures written { IsWritten result
        (snapshot_text (record { head = head.now; tasks = tasks.now; given = given.now; empty = empty.now }))
        (W.contents writer.old) (W.contents writer.new) }
    ensures counts { CountsSnapshot result (W.failed writer.old) (W.fruitless writer.old)
        (W.failed writer.new) (W.fruitless writer.new) }
{
    let page = Page::new(alloc)?;
    if write_page(page, head, tasks, given, empty, writer) {
        Ok(())
    } else {
        Err(SnapshotError::Write)
    }
}

/// Writes the text by a page without text. `false` is a fault of the writer, after a front of the text was written.
fn write_page<A: Allocator, W: Sink>(
    mut page: Page<A>,
    head: &Head,
    tasks: &[Image],
    given: &[u64],
    empty: &[u32],
    writer: &mut W,
) -> bool
    requires { page ≡ record { text = []; sum = 1 } }
    ensures written { WritesText result (W.contents writer.old) (W.contents writer.new)
        (snapshot_text (record { head = head.now; tasks = tasks.now; given = given.now; empty = empty.now })) }
    ensures counts { CountsTries result (W.failed writer.old) (W.fruitless writer.old)
        (W.failed writer.new) (W.fruitless writer.new) }
{
    put_head(&mut page, head);
    if !write_all(&mut page, tasks, writer) {
        return false;
    }
    if !write_all(&mut page, given, writer) {
        return false;
    }
    if !write_all(&mut page, empty, writer) {
        return false;
    }
    if !make_room(&mut page, writer) {
        return false;
    }
    let sum = page.sum();
    page.put_two(b"end ", tasks.len() as u64, b" ", sum, b"\n");
    write_text(writer, page.bytes())
}

/// Appends the lines at the front to a page without text.
fn put_head<A: Allocator>(page: &mut Page<A>, head: &Head)
    requires { page.old.text ≡ [] }
    ensures { page.new ≡ record { text = head_text head.now; sum = page.old.sum } }
{
    let table = &head.table;
    page.put(VERSION);
    page.put_two(b"lines ", head.lines, b" written ", head.written, b"\n");
    page.put_two(
        b"workers ",
        u64::from(table.workers),
        b" slots ",
        u64::from(table.slots),
        b"\n",
    );
    page.put_two(
        b"moment ",
        table.moment,
        b" earliest ",
        head.earliest,
        b"\n",
    );
    page.put_two(b"numbers ", head.count, b" accepted ", head.accepted, b"\n");
    page.put_flag(b"continue ", table.policies.continues);
    page.put_flag(b"execute ", table.policies.executes);
    page.put_flag(b"remove ", table.policies.removes);
    page.put_flag(b"shut ", table.shut);
    page.put_flag(b"stopped ", table.stopped);
}

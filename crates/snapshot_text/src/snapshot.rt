//! A snapshot, as it was read.

use crate::head::Head;
use std::alloc::Allocator;
use std::marker::Model;
use task_table::Image;

/// A snapshot: what stands at its front, the images of its tasks, the numbers of a caller's own that go with them, where there are
/// such, and the empty slots in their order. Contracts see a `SnapshotView`.
#[derive(Drop)]
pub struct Snapshot<A: Allocator> {
    head: Head,
    tasks: Vec<Image, A>,
    given: Vec<u64, A>,
    empty: Vec<u32, A>,
}

impl<A: Allocator> Model for Snapshot<A> {
    ghost use Rattle.snapshot_text.specs.Snapshots.{SnapshotView};

    ghost Value = { SnapshotView };

    ghost view = { λ s. record { head = s.head; tasks = s.tasks.items; given = s.given.items; empty = s.empty.items } };
}

impl<A: Allocator> Snapshot<A> {
    ghost use Rattle.std.specs.Prelude.{◌≡◌};

    /// A snapshot of these.
    pub(crate) fn new(
        head: Head,
        tasks: Vec<Image, A>,
        given: Vec<u64, A>,
        empty: Vec<u32, A>,
    ) -> Snapshot<A>
        ensures { result
            ≡ record { head = head; tasks = tasks.items; given = given.items; empty = empty.items } }
    {
        Snapshot {
            head,
            tasks,
            given,
            empty,
        }
    }

    /// What stands at its front.
    pub fn head(&self) -> &Head
        ensures { result.now ≡ self.now.head }
    {
        &self.head
    }

    /// The images of its tasks, in the order in which they stand.
    pub fn tasks(&self) -> &[Image]
        ensures { result.now ≡ self.now.tasks }
    {
        &self.tasks
    }

    /// The numbers of a caller's own that go with the tasks, in their order, or none.
    pub fn given(&self) -> &[u64]
        ensures { result.now ≡ self.now.given }
    {
        &self.given
    }

    /// The empty slots, in the order in which they are taken.
    pub fn empty(&self) -> &[u32]
        ensures { result.now ≡ self.now.empty }
    {
        &self.empty
    }
}

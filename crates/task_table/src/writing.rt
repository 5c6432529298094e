//! What is written of a table.
ghost use Rattle.std.specs.Prelude.{◌≡◌, ℕ, ◌≤◌, length, Some, None, slice_index_or, IfSome, IfNone};
ghost use Rattle.task_table.specs.Images as images;
ghost use Rattle.task_table.specs.Seats as seats;

use crate::image::{Frame, Image};
use crate::laws::each_table_is_formed;
use crate::seat::Seat;
use crate::slots::Slots;
use crate::table::TaskTable;
use executor_model::Stage;
use std::alloc::Allocator;

impl<A: Allocator> TaskTable<A> {
    /// What is written of the table beside its tasks.
    pub fn frame(&self) -> Frame
        ensures { images.HasFrame self.now result }
    {
        each_table_is_formed(self);
        Frame {
            moment: self.moment,
            workers: self.work.len() as u8,
            slots: self.slots.len() as u32,
            policies: self.policies,
            shut: self.shut,
            stopped: self.stopped,
        }
    }

    /// What is written of the task in a slot, and `None` where it is empty or there is none of this number.
    pub fn image(&self, slot: u32) -> Option<Image>
        ensures slot { IfSome result (λ r. r.slot ≡ slot) }
        ensures is { IfSome result (λ r. images.IsImageIn self.now r) }
        ensures none { IfNone result (seats.slot_of self.now.slots slot ≡ None) }
    {
        let seat = self.slots.get(slot)?;
        let worker = self.runner(slot, &seat);
        Some(Image { slot, worker, seat })
    }

    /// The worker that runs the task in a slot, which holds this, if one does.
    fn runner(&self, slot: u32, seat: &Seat) -> Option<u8>
        requires { seats.slot_of self.now.slots slot ≡ Some seat.now }
        ensures works { (w : ℕ) → result ≡ Some w
            → slice_index_or self.now.work w None ≡ Some slot }
        ensures alone { (w : ℕ) → slice_index_or self.now.work w None ≡ Some slot
            → result ≡ Some w }
    {
        each_table_is_formed(self);
        if !is_running(seat.phase) {
            return None;
        }
        worker_of(&self.work, slot)
    }
}

/// Whether a run of a task in this phase is under way.
fn is_running(phase: Stage) -> bool
    ensures { result ≡ seats.is_running_in phase }
{
    match phase {
        Stage::Running => true,
        Stage::Vacant | Stage::Waiting | Stage::Done | Stage::Failed | Stage::Dropped => false,
    }
}

/// The first worker that has a slot, if one has.
fn worker_of(work: &[Option<u32>], slot: u32) -> Option<u8>
    requires { length work.now ≤ 255 }
    ensures has { IfSome result (λ w. slice_index_or work.now w None ≡ Some slot) }
    ensures none { IfNone result ((w : ℕ) → slice_index_or work.now w None ≡ Some slot → ⊥) }
{
    for worker in 0..work.len() {
        if let Some(there) = work[worker] {
            if there == slot {
                return Some(worker as u8);
            }
        }
    }
    None
}

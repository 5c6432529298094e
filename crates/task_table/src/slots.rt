//! Where a table keeps its tasks.
ghost use Rattle.std.specs.Prelude.{◌≡◌, ◌≢◌, ℕ, ◌+◌, ◌<◌, ◌^◌, Bool, true, false, List, Option, Some, None, length, slice_set};
ghost use Rattle.executor_model.specs.declared.task.Stage.TheVariants as ph;
ghost use Rattle.executor_model.specs.declared.types.Outcome.TheVariants as o;
ghost use Rattle.sched_time.specs.declared.timing.Timing.TheVariants as t;
ghost use Rattle.task_table.specs.declared.seat.Seat.{Seat};
ghost use Rattle.task_table.specs.Seats.{slot_of};
ghost use Rattle.task_table.specs.Changes.{submitted, begun, ended, cancelled_keeping, unkept};

use crate::seat::Seat;
use executor_model::Outcome;
use sched_time::Timing;

/// Slots, each of which holds a task or is empty.
///
/// The steps of a table write a slot by these calls alone; those on a task that is there are told what its slot holds.
pub trait Slots {
    /// What each slot holds.
    ghost seats: { Self → List (Option Seat) };

    /// Whether a task of a number may come into a slot: the slot, and the number.
    ghost admits: { ℕ → ℕ → Bool };

    /// Whether a run of this number may be under way.
    ghost may_run: { ℕ → Bool };

    /// How many slots there are.
    fn len(&self) -> usize
        ensures { result ≡ length (seats self.now) };

    /// What a slot holds, and `None` where it is empty or there is none of this number.
    fn get(&self, slot: u32) -> Option<Seat>
        ensures { result ≡ slot_of (seats self.now) slot };

    /// What a slot holds that is not empty.
    fn held(&self, slot: u32) -> Seat
        requires { (x : Seat) × (slot_of (seats self.now) slot ≡ Some x) }
        ensures { slot_of (seats self.now) slot ≡ Some result };

    /// Whether the task in a slot is cancelled.
    fn is_cancelled(&self, slot: u32) -> bool
        requires { (x : Seat) × (slot_of (seats self.now) slot ≡ Some x) }
        ensures { (x : Seat) → slot_of (seats self.now) slot ≡ Some x → result ≡ x.cancelled };

    /// A task comes into an empty slot: it waits for its first run, which is due at this moment, in nanoseconds, at most 2^63.
    fn admit(&mut self, slot: u32, number: u64, timing: Timing, due: u64)
        requires within { slot < length (seats self.old) }
        requires empty { slot_of (seats self.old) slot ≡ None }
        requires admits { admits slot number ≡ true }
        ensures { seats self.new
            ≡ slice_set (seats self.old) slot (Some (submitted number timing due)) };

    /// A run of the task in a slot begins.
    fn begin(&mut self, slot: u32, seat: Seat)
        requires there { slot_of (seats self.old) slot ≡ Some seat }
        requires waits { (seat.phase ≡ ph.Waiting) × (seat.cancelled ≡ false) }
        requires runs { may_run seat.run ≡ true }
        ensures { seats self.new ≡ slice_set (seats self.old) slot (Some (begun seat)) };

    /// The run of the task in a slot has ended so, and the task holds this due moment from then on, in nanoseconds, at most 2^63.
    fn end(&mut self, slot: u32, seat: Seat, outcome: Outcome, due: u64)
        requires there { slot_of (seats self.old) slot ≡ Some seat }
        requires runs { (seat.phase ≡ ph.Running) × (may_run seat.run ≡ true) }
        requires live { outcome ≢ o.Dropped → seat.cancelled ≡ false }
        requires again { (next : ℕ) → outcome ≡ o.Again next → seat.timing ≢ t.Once }
        ensures { seats self.new ≡ slice_set (seats self.old) slot (Some (ended outcome due seat)) };

    /// The task in a slot is cancelled, and kept from then on where `keeps` says so, or where it was kept before.
    fn cancel(&mut self, slot: u32, seat: Seat, keeps: bool)
        requires there { slot_of (seats self.old) slot ≡ Some seat }
        requires live { seat.cancelled ≡ false }
        ensures { seats self.new
            ≡ slice_set (seats self.old) slot (Some (cancelled_keeping keeps seat)) };

    /// The task in a slot is kept no more.
    fn unkeep(&mut self, slot: u32, seat: Seat)
        requires there { slot_of (seats self.old) slot ≡ Some seat }
        ensures { seats self.new ≡ slice_set (seats self.old) slot (Some (unkept seat)) };

    /// A run that may be under way has a number that another one can follow.
    ghost follows: { (run : ℕ) → may_run run ≡ true → run + 1 < 2 ^ 64 };
}

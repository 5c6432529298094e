//! Slots that hold whole tasks, and can be emptied.
ghost use Rattle.std.specs.Prelude.{◌≡◌, ◌<◌, ◌≤◌, ◌-◌, ◌+◌, ◌++◌, ◌^◌, nat_lt, true, [], length, replicate, Some, None, slice_set, OnOk, OnErr};
ghost use Rattle.task_table.specs.Changes as changes;

use crate::seat::Seat;
use crate::slots::Slots;
use executor_model::{Outcome, Stage};
use sched_time::Timing;
use std::alloc::{AllocError, Allocator};
use std::marker::Model;

/// The tasks of a [`TaskTable`](crate::TaskTable), by slot. A contract sees what each slot holds.
#[derive(Drop)]
pub struct Seats<A: Allocator> {
    slots: Vec<Option<Seat>, A>,
}

impl<A: Allocator> Model for Seats<A> {
    ghost use Rattle.std.specs.Prelude.{List, Option};
    ghost use Rattle.task_table.specs.declared.seat.Seat.{Seat};

    ghost Value = { List (Option Seat) };

    ghost view = { λ s. s.slots.items };
}

impl<A: Allocator> Seats<A> {
    /// No slot.
    pub(crate) fn new(alloc: A) -> Seats<A>
        ensures { result ≡ [] }
    {
        Seats {
            slots: Vec::new(alloc),
        }
    }

    /// Makes room, so that there are `count` slots, of which the new ones are empty.
    pub(crate) fn reserve(&mut self, count: usize) -> Result<(), AllocError>
        requires { length self.old ≤ count }
        ensures grown { OnOk result (self.new ≡ self.old ++ replicate (count - length self.old) None) }
        ensures refused { OnErr result (self.new ≡ self.old) }
    {
        self.slots.resize(count, None)
    }

    /// Empties a slot.
    pub(crate) fn release(&mut self, slot: u32)
        requires { slot < length self.old }
        ensures { self.new ≡ slice_set self.old slot None }
    {
        self.slots[slot as usize] = None;
    }

    /// A slot holds this from then on.
    pub(crate) fn put(&mut self, slot: u32, seat: Seat)
        requires { slot < length self.old }
        ensures { self.new ≡ slice_set self.old slot (Some seat) }
    {
        self.slots[slot as usize] = Some(seat);
    }

    /// What each slot holds.
    pub(crate) fn all(&self) -> &[Option<Seat>]
        ensures { result.now ≡ self.now }
    {
        &self.slots
    }
}

impl<A: Allocator> Slots for Seats<A> {
    ghost use Rattle.std.proofs.lemmas.Bool.{ltb-true};

    ghost seats = { λ s. s };

    ghost admits = { λ slot number. true };

    ghost may_run = { λ run. nat_lt (run + 1) (2 ^ 64) };

    ghost follows = { λ run may. ltb-true (run + 1) (2 ^ 64) may };

    fn len(&self) -> usize {
        self.slots.len()
    }

    #[inline(always)]
    fn get(&self, slot: u32) -> Option<Seat> {
        match self.slots.get(slot as usize) {
            Some(seat) => *seat,
            None => None,
        }
    }

    #[inline(always)]
    fn held(&self, slot: u32) -> Seat {
        match self.get(slot) {
            Some(seat) => seat,
            None => unreachable!(),
        }
    }

    #[inline(always)]
    fn is_cancelled(&self, slot: u32) -> bool {
        match self.slots.get(slot as usize) {
            Some(Some(seat)) => seat.cancelled,
            _ => false,
        }
    }

    #[inline(always)]
    fn admit(&mut self, slot: u32, number: u64, timing: Timing, due: u64) {
        self.slots[slot as usize] = Some(Seat {
            number,
            phase: Stage::Waiting,
            run: 0,
            due,
            timing,
            cancelled: false,
            kept: false,
        });
    }

    #[inline(always)]
    fn begin(&mut self, slot: u32, seat: Seat) {
        let phase = Stage::Running;
        self.slots[slot as usize] = Some(Seat { phase, ..seat });
    }

    #[inline(always)]
    fn end(&mut self, slot: u32, seat: Seat, outcome: Outcome, due: u64) {
        self.slots[slot as usize] = Some(seat_after(seat, outcome, due));
    }

    #[inline(always)]
    fn cancel(&mut self, slot: u32, seat: Seat, keeps: bool) {
        self.slots[slot as usize] = Some(Seat {
            cancelled: true,
            kept: seat.kept || keeps,
            ..seat
        });
    }

    fn unkeep(&mut self, slot: u32, seat: Seat) {
        let kept = false;
        self.slots[slot as usize] = Some(Seat { kept, ..seat });
    }
}

/// A task once its run ended with this outcome, and which holds this due moment from then on.
fn seat_after(seat: Seat, outcome: Outcome, due: u64) -> Seat
    requires { seat.run + 1 < 2 ^ 64 }
    ensures { result ≡ changes.ended outcome due seat }
{
    let seat = Seat { due, ..seat };
    match outcome {
        Outcome::Done(_) => Seat {
            phase: Stage::Done,
            ..seat
        },
        Outcome::Failed(_) => Seat {
            phase: Stage::Failed,
            ..seat
        },
        Outcome::Dropped => Seat {
            phase: Stage::Dropped,
            ..seat
        },
        Outcome::Ended => Seat {
            phase: Stage::Dropped,
            cancelled: true,
            ..seat
        },
        Outcome::Again(_) => Seat {
            phase: Stage::Waiting,
            run: seat.run + 1,
            ..seat
        },
    }
}

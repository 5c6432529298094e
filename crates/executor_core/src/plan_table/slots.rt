//! The tasks of a plan as slots: each is in the slot of its number.
ghost use Rattle.std.specs.Prelude.{◌≡◌, ◌==◌, ◌+◌, ◌^◌, nat_lt};
ghost use Rattle.executor_core.specs.plan_table.Numbered.{slots_by, seat_of};

use crate::plan_table::tasks::Tasks;
use executor_model::{Outcome, Stage, Task};
use sched_time::Timing;
use std::alloc::Allocator;
use task_table::{Seat, Slots};

impl<A: Allocator> Slots for Tasks<A> {
    ghost use Rattle.std.proofs.Common.{arith};
    ghost use Rattle.std.proofs.lemmas.Bool.{ltb-true};

    ghost seats = { λ tasks. slots_by 0 tasks };

    ghost admits = { λ slot number. slot == number };

    ghost may_run = { λ run. nat_lt (run + 1) (2 ^ 32) };

    ghost follows = { λ run may. omega (arith, ltb-true (run + 1) (2 ^ 32) may) };

    #[inline(always)]
    fn len(&self) -> usize {
        self.count()
    }

    #[inline(always)]
    fn get(&self, slot: u32) -> Option<Seat> {
        let place = slot as usize;
        if place >= self.count() {
            return None;
        }
        let task = self.task(place);
        match task.phase {
            Stage::Vacant => None,
            _ => Some(seat_of(u64::from(slot), task)),
        }
    }

    #[inline(always)]
    fn held(&self, slot: u32) -> Seat {
        seat_of(u64::from(slot), self.task(slot as usize))
    }

    #[inline(always)]
    fn is_cancelled(&self, slot: u32) -> bool {
        self.task(slot as usize).cancelled
    }

    #[inline(always)]
    fn admit(&mut self, slot: u32, _number: u64, timing: Timing, due: u64) {
        self.submit(slot as usize, timing, due);
    }

    #[inline(always)]
    fn begin(&mut self, slot: u32, _seat: Seat) {
        self.start(slot as usize);
    }

    #[inline(always)]
    fn end(&mut self, slot: u32, _seat: Seat, outcome: Outcome, due: u64) {
        let place = slot as usize;
        self.finish(place, outcome, due);
        if outcome == Outcome::Ended {
            self.mark(place);
        }
    }

    #[inline(always)]
    fn cancel(&mut self, slot: u32, _seat: Seat, keeps: bool) {
        let place = slot as usize;
        self.mark(place);
        if keeps {
            self.keep(place, true);
        }
    }

    #[inline(always)]
    fn unkeep(&mut self, slot: u32, _seat: Seat) {
        self.keep(slot as usize, false);
    }
}

/// What a slot holds of a task of this number.
#[inline(always)]
fn seat_of(number: u64, task: Task) -> Seat
    ensures { result ≡ seat_of number task }
{
    Seat {
        number,
        run: u64::from(task.run),
        due: task.due,
        timing: task.timing,
        phase: task.phase,
        cancelled: task.cancelled,
        kept: task.kept,
    }
}

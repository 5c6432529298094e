//! Which submissions of a plan are refused each time, and which are cancelled.

ghost use Rattle.std.specs.Prelude.{◌≡◌, ◌&&◌, ◌||◌, not, false, map, IfOk, OnOk};
ghost use Rattle.std.specs.Option.{option_map_or};
ghost use Rattle.plan_read.specs.Plans.{is_submission};
ghost use Rattle.plan_read.specs.declared.plans.Target.{Target};
ghost use Rattle.plan_warnings.specs.Places.{is_same, target_of};
ghost use Rattle.plan_warnings.specs.Warnings.{is_refused_at};
ghost use Rattle.plan_warnings.specs.own.Marks.{AreMarksOf, is_told_by, place_tree};
ghost use Rattle.plan_warnings.specs.own.Sets.{has_target};

use crate::kinds::WarningKind;
use crate::places::{Place, is_illegal, is_short, target_of};
use crate::targets::Targets;
use plan_read::Op;
use std::alloc::{AllocError, Allocator};

/// What is told of a call by the other calls of its plan.
#[derive(Drop)]
pub struct Marks<A: Allocator> {
    /// The submissions that are refused each time that they are made.
    refused: Targets<A>,
    /// Those that a cancel names.
    cancelled: Targets<A>,
    /// Whether there is a cancel.
    has_cancel: bool,
}

impl<A: Allocator + Copy> Marks<A> {
    /// Those of a plan, by the places of its calls. `Err` is want of memory.
    pub fn of(alloc: A, places: &[Place]) -> Result<Marks<A>, AllocError>
        ensures { IfOk result (AreMarksOf (map place_tree places.now)) }
    {
        let mut refused = Targets::new(alloc);
        let mut cancelled = Targets::new(alloc);
        let mut has_cancel = false;
        for place in places {
            add_refused(&mut refused, place)?;
            add_cancelled(&mut cancelled, place.op)?;
            has_cancel |= target_of(place.op).is_some();
        }
        Ok(Marks {
            refused,
            cancelled,
            has_cancel,
        })
    }
}

impl<A: Allocator> Marks<A> {
    /// Whether this is told of the call at a place.
    pub fn is_told(&self, place: &Place, kind: WarningKind) -> bool
        ensures { result ≡ is_told_by self.now (place_tree place.now) kind }
    {
        match kind {
            WarningKind::Illegal => is_illegal(place.op),
            WarningKind::Rejected => place.is_rejected(),
            WarningKind::RejectedAgain => place.is_rejected_again(),
            WarningKind::NothingToCancel => self.is_fruitless(place.op),
            WarningKind::ShortPeriod => is_short(place.op),
            WarningKind::UnusedName => self.is_unused(place),
        }
    }

    /// Whether an operation cancels a submission that is refused each time.
    fn is_fruitless(&self, op: &Op) -> bool
        ensures { result ≡ option_map_or (has_target self.now.refused) (target_of op.now) false }
    {
        match target_of(op) {
            Some(target) => self.refused.has(target),
            None => false,
        }
    }

    /// Whether a call is a submission that no cancel names, where there is a cancel.
    fn is_unused(&self, place: &Place) -> bool
        ensures { result
            ≡ (is_submission place.now.op.now
            && (self.now.has_cancel
            && not (has_target self.now.cancelled place.now.target))) }
    {
        place.op.is_submission() && self.has_cancel && !self.cancelled.has(place.target)
    }
}

/// Puts a call into a set where it is a submission that is refused each time. `Err` is want of memory.
fn add_refused<A: Allocator + Copy>(
    refused: &mut Targets<A>,
    place: &Place,
) -> Result<(), AllocError>
    ensures { OnOk result
        ((t : Target) → has_target refused.new t
        ≡ (has_target refused.old t
        || (is_refused_at (place_tree place.now) && is_same place.now.target t))) }
{
    if place.is_refused() {
        refused.add(place.target)
    } else {
        Ok(())
    }
}

/// Puts the target of a cancel into a set. `Err` is want of memory.
fn add_cancelled<A: Allocator + Copy>(cancelled: &mut Targets<A>, op: &Op) -> Result<(), AllocError>
    ensures { OnOk result
        ((t : Target) → has_target cancelled.new t
        ≡ (has_target cancelled.old t || option_map_or (λ u. is_same u t) (target_of op.now) false)) }
{
    match target_of(op) {
        Some(target) => cancelled.add(target),
        None => Ok(()),
    }
}

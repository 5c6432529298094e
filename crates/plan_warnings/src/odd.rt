//! The odd calls of a plan.

ghost use Rattle.std.specs.Prelude.{◌≡◌, [], ◌∷◌, ◌++◌, map, filter, IfOk};
ghost use Rattle.plan_warnings.specs.Warnings.{all_kinds, odd_among, odd_call};
ghost use Rattle.plan_warnings.specs.own.Marks.{is_told_by, place_tree};

use crate::kinds::{ALL_KINDS, OddCall, WarningKind};
use crate::marks::Marks;
use crate::places::Place;
use std::alloc::{AllocError, Allocator};

/// What is odd of the calls at some places, which are all those of a plan, in their order. `Err` is want of memory.
pub fn odd_among<A: Allocator + Copy>(
    alloc: A,
    places: &[Place],
) -> Result<Vec<OddCall, A>, AllocError>
    ensures { IfOk result (λ v. v.items ≡ odd_among (map place_tree places.now)) }
{
    let marks = Marks::of(alloc, places)?;
    let mut odd = Vec::new(alloc);
    for place in places {
        add_odd(&mut odd, &marks, place)?;
    }
    Ok(odd)
}

/// Puts what is odd of the call at a place behind others. `Err` is want of memory.
fn add_odd<A: Allocator>(
    odd: &mut Vec<OddCall, A>,
    marks: &Marks<A>,
    place: &Place,
) -> Result<(), AllocError>
    ensures { IfOk result
        (λ _. odd.new.items
        ≡ odd.old.items
        ++ map (odd_call (place_tree place.now))
        (filter (is_told_by marks.now (place_tree place.now)) all_kinds)) }
{
    for kind in ALL_KINDS {
        add_told(odd, marks, place, *kind)?;
    }
    Ok(())
}

/// Puts the call at a place behind others where this is told of it. `Err` is want of memory.
fn add_told<A: Allocator>(
    odd: &mut Vec<OddCall, A>,
    marks: &Marks<A>,
    place: &Place,
    kind: WarningKind,
) -> Result<(), AllocError>
    ensures { IfOk result
        (λ _. odd.new.items
        ≡ odd.old.items
        ++ map (odd_call (place_tree place.now))
        (filter (is_told_by marks.now (place_tree place.now)) (kind ∷ []))) }
{
    if marks.is_told(place, kind) {
        odd.push(OddCall {
            block: place.block,
            call: place.call,
            kind,
        })?;
    }
    Ok(())
}

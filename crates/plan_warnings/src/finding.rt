//! The warnings of a plan.

ghost use Rattle.std.specs.Prelude.{◌≡◌, [], ◌∷◌, ◌++◌, Some, All, IfOk, IfSome, OnOk, filter, map};
ghost use Rattle.toml.specs.Data.{Members};
ghost use Rattle.toml.specs.Parse.{parse_document};
ghost use Rattle.toml.specs.View.{table_view};
ghost use Rattle.plan_lines.specs.Lines.{IsLineOf};
ghost use Rattle.plan_warnings.specs.Units.{stays, warnings_told};

use crate::kinds::OddCall;
use crate::odd::odd_among;
use crate::places::{Place, places_of, shuts_down};
use crate::scribe::Scribe;
use crate::warning::{CallNumber, Warning};
use plan_read::{HeapAllocator, Plan};
use std::alloc::{AllocError, Allocator};

/// What is odd about a plan, in the order of its text: that from which [`read_plan`](plan_read::read_plan) read the plan.
///
/// `Err` is want of memory. It is also the answer to a text that is no TOML document, which is that of no plan.
pub fn warnings_of<A: HeapAllocator, B: Allocator>(
    alloc: A,
    plan: &Plan<B>,
    text: &[u8],
) -> Result<Vec<Warning, A>, AllocError>
    ensures told { IfOk result (λ v. (tree : Members) → parse_document text.now ≡ Some tree
        → map (λ w. w.odd) v.items ≡ warnings_told plan.now tree) }
    ensures lines { IfOk result (λ v. All (λ w. IfSome w.line (IsLineOf text.now)) v.items) }
{
    let Ok(tree) = toml::table_from_slice(alloc.heap(), text) else {
        return Err(AllocError);
    };
    let places = places_of(alloc, plan)?;
    let odd = odd_among(alloc, places.as_slice())?;
    let scribe = Scribe::new(text, &tree, first_shutdown(places.as_slice()));
    told_by(alloc, scribe, odd.as_slice())
}

/// What is told of some odd calls. `Err` is want of memory.
fn told_by<A: Allocator>(
    alloc: A,
    mut scribe: Scribe,
    odd: &[OddCall],
) -> Result<Vec<Warning, A>, AllocError>
    ensures told { IfOk result (λ v. map (λ w. w.odd) v.items
        ≡ filter (stays (table_view scribe.entry.tree.now)) odd.now) }
    ensures lines { IfOk result
        (λ v. All (λ w. IfSome w.line (IsLineOf scribe.entry.text.now)) v.items) }
{
    let mut warnings = Vec::new(alloc);
    for call in odd {
        add_warning(&mut warnings, &mut scribe, *call)?;
    }
    Ok(warnings)
}

/// Puts what is told of an odd call behind others, if something is. `Err` is want of memory.
fn add_warning<A: Allocator>(
    warnings: &mut Vec<Warning, A>,
    scribe: &mut Scribe,
    call: OddCall,
) -> Result<(), AllocError>
    ensures told { OnOk result (map (λ w. w.odd) warnings.new.items
        ≡ map (λ w. w.odd) warnings.old.items
        ++ filter (stays (table_view scribe.old.tree.now)) (call ∷ [])) }
    ensures lines { OnOk result
        (All (λ w. IfSome w.line (IsLineOf scribe.old.text.now)) warnings.old.items
        → All (λ w. IfSome w.line (IsLineOf scribe.old.text.now)) warnings.new.items) }
    ensures text { scribe.new.text.now ≡ scribe.old.text.now }
    ensures tree { scribe.new.tree.now ≡ scribe.old.tree.now }
{
    if scribe.tells(call) {
        warnings.push(scribe.warning(call))?;
    }
    Ok(())
}

/// The first shutdown among the calls of a plan.
fn first_shutdown(places: &[Place]) -> Option<CallNumber> {
    let place = places.iter().find(|place| shuts_down(place.op))?;
    Some(CallNumber {
        block: place.block,
        call: place.call,
    })
}

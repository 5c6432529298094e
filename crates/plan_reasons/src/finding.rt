//! The reason of a text.

ghost use Rattle.std.specs.Prelude.{◌≡◌, ◌⊎◌, None, Some, IfNone, IfOk, IfSome};
ghost use Rattle.toml.specs.Data.{Members};
ghost use Rattle.toml.specs.Parse.{parse_document};
ghost use Rattle.toml.specs.View.{table_view};
ghost use Rattle.plan_lines.specs.Lines.{IsLineOf};
ghost use Rattle.plan_read.specs.Plans.{PlanTree};
ghost use Rattle.plan_read.specs.Reads.{out_of_memory};
ghost use Rattle.plan_read.specs.Texts.{TextFails, TextWrites};
ghost use Rattle.plan_reasons.specs.Standing.{IsAtKey, IsPlacedIn};
ghost use Rattle.plan_reasons.specs.Told.{IsAtKeyOfKind};
ghost use Rattle.plan_reasons.specs.declared.found.Found.TheVariants.{Nothing};
ghost use Rattle.plan_reasons.specs.own.Details.{IsInPlace, SuitsPlace};
ghost use Rattle.plan_reasons.specs.own.Keys.{plan_version};

use crate::reason::Reason;
use crate::scene::{Detail, Scene, integer_at, table_in, tables_at};
use crate::tops::{no_document, too_long, unplaced, want_of_memory};
use crate::versions::Version;
use plan_read::{HeapAllocator, PlanFault, PlanFaultKind, read_plan};
use std::alloc::{AllocError, Global};
use toml::Table;

/// Why a text writes no plan; none where it writes one.
///
/// The fault is that of [`read_plan`]. A reason of the kind [`PlanFaultKind::Memory`] may come in place of any other answer, and
/// says nothing of the text.
pub fn reason_of<A: HeapAllocator>(alloc: A, text: &[u8]) -> Option<Reason>
    ensures fine { IfNone result ((plan : PlanTree) × TextWrites text.now plan) }
    ensures only { (plan : PlanTree) → TextWrites text.now plan
        → IfSome result (λ r. r.fault ≡ out_of_memory) }
    ensures fault { IfSome result (λ r. TextFails text.now r.fault ⊎ (r.fault ≡ out_of_memory)) }
    ensures line { IfSome result (λ r. IfSome r.line (IsLineOf text.now)) }
    ensures column { IfSome result (IsPlacedIn text.now) }
    ensures key { IfSome result
        (λ r. (tree : Members) → parse_document text.now ≡ Some tree → IsAtKey tree r) }
    ensures kind { IfSome result
        (λ r. (tree : Members) → parse_document text.now ≡ Some tree → IsAtKeyOfKind tree r) }
    ensures bare { IfSome result (λ r. r.key ≡ None → r.found ≡ Nothing) }
{
    match read_plan(alloc, text) {
        Ok(_) => None,
        Err(fault) => Some(reason_of_fault(alloc.heap(), text, fault)),
    }
}

/// The reason of a text with this fault.
fn reason_of_fault(heap: Global, text: &[u8], fault: PlanFault) -> Reason
    ensures fault { (result.fault ≡ fault) ⊎ (result.fault ≡ out_of_memory) }
    ensures line { IfSome result.line (IsLineOf text.now) }
    ensures column { IsPlacedIn text.now result }
    ensures key { (tree : Members) → parse_document text.now ≡ Some tree → IsAtKey tree result }
    ensures kind { (tree : Members) → parse_document text.now ≡ Some tree
        → IsAtKeyOfKind tree result }
    ensures bare { result.key ≡ None → result.found ≡ Nothing }
{
    match try_reason(heap, text, fault) {
        Ok(reason) => reason,
        Err(_) => want_of_memory(),
    }
}

/// The reason of a text with this fault. `Err` is want of memory.
fn try_reason(heap: Global, text: &[u8], fault: PlanFault) -> Result<Reason, AllocError>
    ensures fault { IfOk result (λ r. r.fault ≡ fault) }
    ensures line { IfOk result (λ r. IfSome r.line (IsLineOf text.now)) }
    ensures column { IfOk result (IsPlacedIn text.now) }
    ensures key { IfOk result
        (λ r. (tree : Members) → parse_document text.now ≡ Some tree → IsAtKey tree r) }
    ensures kind { IfOk result
        (λ r. (tree : Members) → parse_document text.now ≡ Some tree → IsAtKeyOfKind tree r) }
    ensures bare { IfOk result (λ r. r.key ≡ None → r.found ≡ Nothing) }
{
    match fault.kind {
        PlanFaultKind::Memory => Ok(unplaced(fault)),
        PlanFaultKind::TooLong => Ok(too_long(fault)),
        PlanFaultKind::Toml => no_document(heap, text, fault),
        // The text is a document here: no tree is made of it only for want of memory.
        _ => match toml::table_from_slice(heap, text) {
            Ok(tree) => reason_in_tree(heap, text, &tree, fault),
            Err(_) => Err(AllocError),
        },
    }
}

/// The reason of a text with this tree and this fault. `Err` is want of memory.
fn reason_in_tree(
    heap: Global,
    text: &[u8],
    tree: &Table,
    fault: PlanFault,
) -> Result<Reason, AllocError>
    ensures fault { IfOk result (λ r. r.fault ≡ fault) }
    ensures line { IfOk result (λ r. IfSome r.line (IsLineOf text.now)) }
    ensures column { IfOk result (IsPlacedIn text.now) }
    ensures key { IfOk result (IsAtKey (table_view tree.now)) }
    ensures kind { IfOk result (IsAtKeyOfKind (table_view tree.now)) }
    ensures bare { IfOk result (λ r. r.key ≡ None → r.found ≡ Nothing) }
{
    let scene = Scene {
        heap,
        text,
        tree,
        version: Version::of_number(integer_at(tree, "version")),
        fault,
    };
    scene.reason(detail(&scene)?)
}

/// What is told of a fault. `Err` is want of memory.
fn detail<'t>(scene: &Scene<'t>) -> Result<Detail<'t>, AllocError>
    ensures at { IfOk result
        (IsInPlace (table_view scene.now.tree.now) scene.now.fault.block scene.now.fault.call) }
    ensures suits { IfOk result
        (SuitsPlace scene.now.fault.kind (plan_version scene.now.version)
        (table_view scene.now.tree.now) scene.now.fault.block scene.now.fault.call) }
{
    let PlanFault { block, call, .. } = scene.fault;
    if block == 0 {
        return scene.top_detail();
    }
    let Some(header) = scene.block(block) else {
        return Ok(scene.at_place());
    };
    if call == 0 {
        return scene.header_detail(header);
    }
    match table_in(tables_at(header, "call"), call) {
        Some(call) => scene.call_detail(header, call),
        None => Ok(scene.at_place()),
    }
}

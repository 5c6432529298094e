//! The plan of calls that were made.

ghost use Rattle.std.specs.Prelude.{◌≡◌, ◌≤◌, ℕ, List, Some, false, IfOk, IfErr, length, string_bytes};
ghost use Rattle.toml.specs.Text.{IsDocumentText};
ghost use Rattle.toml.specs.View.{table_view};
ghost use Rattle.plan_read.specs.Plans.{most_calls};
ghost use Rattle.plan_read.specs.Texts.{longest_text, tree_of};
ghost use Rattle.call_journal.specs.MadeCalls.{MayBePlanned, WritesPlanOf};
ghost use Rattle.call_journal.specs.Plans.{TextFault, no_blocks, tree_of_calls};

use crate::blocks::block_values;
use crate::entries::put;
use crate::journal::MadeCall;
use crate::limits::MOST_CALLS;
use plan_read::{HeapAllocator, LONGEST_TEXT, PlanFault, PlanFaultKind};
use std::alloc::{AllocError, Global};
use toml::{Table, Value};

/// The text of a plan, of version 2, that makes these calls: each at its moment, in this order, where the moments do not fall.
/// Tasks are named `t0`, `t1` and so on, in the order of all submissions, and a cancel of task K names `tK`. Moments and spans are
/// in nanoseconds. It is printed as `toml` prints a tree. The calls of the plan that it writes are exactly these, where a plan may
/// make them: see [`trees_make_the_calls`](crate::trees_make_the_calls).
///
/// # Errors
///
/// A fault of block 0 and call 0: `TooMany` exactly where there are more than 65,536 calls; else `TooLong` where the text would
/// be longer than 1,048,576 bytes, and `Memory` where the heap refuses the memory.
pub fn plan_text(alloc: impl HeapAllocator, calls: &[MadeCall]) -> Result<String, PlanFault>
    ensures text { IfOk result
        (λ s. IsDocumentText false (tree_of_calls calls.now) (string_bytes s)) }
    ensures only { IfOk result
        (λ s. (printed : List ℕ) → IsDocumentText false (tree_of_calls calls.now) printed
        → printed ≡ string_bytes s) }
    ensures reads { IfOk result (λ s. tree_of (string_bytes s) ≡ Some (tree_of_calls calls.now)) }
    ensures plan { IfOk result
        (λ s. MayBePlanned calls.now → WritesPlanOf (string_bytes s) calls.now) }
    ensures short { IfOk result (λ s. length (string_bytes s) ≤ longest_text) }
    ensures few { IfOk result (λ s. length calls.now ≤ most_calls) }
    ensures fault { IfErr result (TextFault calls.now) }
{
    if calls.len() > MOST_CALLS {
        return Err(fault(PlanFaultKind::TooMany));
    }
    let heap = alloc.heap();
    let Ok(tree) = tree_of_calls(heap, calls) else {
        return Err(fault(PlanFaultKind::Memory));
    };
    let Ok(text) = toml::table_to_string(heap, &tree) else {
        return Err(fault(PlanFaultKind::Memory));
    };
    if text.len() > LONGEST_TEXT {
        return Err(fault(PlanFaultKind::TooLong));
    }
    Ok(text)
}

/// A fault of the text as a whole.
fn fault(kind: PlanFaultKind) -> PlanFault
    ensures { result ≡ record { kind = kind; block = 0; call = 0 } }
{
    PlanFault {
        kind,
        block: 0,
        call: 0,
    }
}

/// The tree of the plan. `Err` is want of memory.
fn tree_of_calls(heap: Global, calls: &[MadeCall]) -> Result<Table, AllocError>
    requires { length calls.now ≤ most_calls }
    ensures { IfOk result (λ t. table_view t ≡ tree_of_calls calls.now) }
{
    let mut tree = no_blocks(heap)?;
    if !calls.is_empty() {
        let values = block_values(heap, calls)?;
        put(heap, &mut tree, "block", Value::Array(values))?;
    }
    Ok(tree)
}

/// The tree of a plan without a block. `Err` is want of memory.
fn no_blocks(heap: Global) -> Result<Table, AllocError>
    ensures { IfOk result (λ t. table_view t ≡ no_blocks) }
{
    let mut tree = Table::new(heap);
    put(heap, &mut tree, "version", Value::Integer(2))?;
    Ok(tree)
}

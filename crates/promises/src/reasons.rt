//! What those promise that tell why something is refused.
ghost use Rattle.std.specs.Prelude.{◌≡◌, ◌⊎◌, None, Some, IfNone, IfSome, ◌≤◌, ◌≢◌, ◌↔◌, All, AllPairs, IfOk, IsErrOf, length, map, option_map};
ghost use Rattle.toml.specs.Data.{Members};
ghost use Rattle.toml.specs.Parse.{parse_document};
ghost use Rattle.plan_lines.specs.Lines.{IsLineOf};
ghost use Rattle.plan_read.specs.Plans.{PlanTree};
ghost use Rattle.plan_read.specs.Reads.{out_of_memory};
ghost use Rattle.plan_read.specs.Texts.{TextFails, TextWrites};
ghost use Rattle.plan_reasons.specs.Standing.{IsAtKey, IsPlacedIn};
ghost use Rattle.plan_reasons.specs.Told.{IsAtKeyOfKind};
ghost use Rattle.plan_reasons.specs.declared.found.Found.TheVariants.{Nothing};
ghost use Rattle.line_reasons.specs.Events.{AreEvents, IsFirstOther};
ghost use Rattle.line_reasons.specs.LiveLines.{AreLiveLines, IsFirstNotLive};
ghost use Rattle.plan_warnings.specs.Units.{warnings_told};
ghost use Rattle.plan_compile.specs.PlanCalls.{calls_of_plan};
ghost use Rattle.executor_model.specs.Counts.{IsWorkerCount};
ghost use Rattle.trace_check.specs.Findings.{Breaks, Conforms};
ghost use Rattle.trace_check.specs.Standing.{most_bytes};
ghost use Rattle.trace_reasons.specs.Standing.{CouldStand, AreConforming, IsFaultAt, line_at};

use line_reasons::EventsReason;
use plan_read::{HeapAllocator, Plan};
use plan_reasons::Reason;
use plan_warnings::Warning;
use std::alloc::{AllocError, Allocator};
use trace_check::CheckError;
use trace_reasons::TraceReason;

/// [`plan_reasons::reason_of`].
pub fn reason_of<A: HeapAllocator>(alloc: A, text: &[u8]) -> Option<Reason>
    ensures fine { IfNone result ((plan : PlanTree) × TextWrites text.now plan) }
    ensures only { (plan : PlanTree) → TextWrites text.now plan
        → IfSome result (λ r. r.fault ≡ out_of_memory) }
    ensures fault { IfSome result (λ r. TextFails text.now r.fault ⊎ (r.fault ≡ out_of_memory)) }
    ensures line { IfSome result (λ r. IfSome r.line (IsLineOf text.now)) }
    ensures column { IfSome result (IsPlacedIn text.now) }
    ensures key { IfSome result
        (λ r. (tree : Members) → parse_document text.now ≡ Some tree → IsAtKey tree r) }
    ensures kind { IfSome result
        (λ r. (tree : Members) → parse_document text.now ≡ Some tree → IsAtKeyOfKind tree r) }
    ensures bare { IfSome result (λ r. r.key ≡ None → r.found ≡ Nothing) }
{
    plan_reasons::reason_of(alloc, text)
}

/// [`line_reasons::reason_of_events`].
pub fn reason_of_events<A: Allocator + Copy>(alloc: A, text: &[u8]) -> Option<EventsReason<'_>>
    ensures fine { IfNone result (AreEvents text.now) }
    ensures only { AreEvents text.now → result ≡ None }
    ensures first { IfSome result (λ r. IsFirstOther text.now r.number r.line.now) }
{
    line_reasons::reason_of_events(alloc, text)
}

/// [`line_reasons::reason_of_live_lines`].
pub fn reason_of_live_lines<A: Allocator + Copy>(alloc: A, text: &[u8]) -> Option<EventsReason<'_>>
    ensures fine { IfNone result (AreLiveLines text.now) }
    ensures only { AreLiveLines text.now → result ≡ None }
    ensures first { IfSome result (λ r. IsFirstNotLive text.now r.number r.line.now) }
{
    line_reasons::reason_of_live_lines(alloc, text)
}

/// [`plan_warnings::warnings_of`].
pub fn warnings_of<A: HeapAllocator, B: Allocator>(
    alloc: A,
    plan: &Plan<B>,
    text: &[u8],
) -> Result<Vec<Warning, A>, AllocError>
    ensures told { IfOk result (λ v. (tree : Members) → parse_document text.now ≡ Some tree
        → map (λ w. w.odd) v.items ≡ warnings_told plan.now tree) }
    ensures lines { IfOk result (λ v. All (λ w. IfSome w.line (IsLineOf text.now)) v.items) }
{
    plan_warnings::warnings_of(alloc, plan, text)
}

/// [`trace_reasons::reason_of_trace`].
pub fn reason_of_trace<'t, A: Allocator + Copy, B: Allocator>(
    alloc: A,
    plan: &Plan<B>,
    workers: u8,
    text: &'t [u8],
) -> Result<Option<TraceReason<'t, A>>, CheckError>
    requires { length text.now ≤ most_bytes }
    ensures workers { IsErrOf result CheckError.Workers ↔ ¬ IsWorkerCount workers }
    ensures conforms { IfOk result
        (λ o. IfNone o (Conforms (calls_of_plan plan.now) workers text.now)) }
    ensures breaks { IfOk result
        (λ o. IfSome o (λ r. Breaks (calls_of_plan plan.now) workers text.now r.line)) }
    ensures found { IfOk result
        (λ o. IfSome o (λ r. option_map (λ found. found.now) r.found ≡ line_at r.line text.now)) }
    ensures fault { IfOk result
        (λ o. IfSome o (λ r. IsFaultAt r.fault (option_map (λ found. found.now) r.found))) }
    ensures lines { IfOk result
        (λ o. IfSome o
        (λ r. All (CouldStand (calls_of_plan plan.now) workers text.now r.line) r.lines.items)) }
    ensures few { IfOk result (λ o. IfSome o (λ r. length r.lines.items ≤ 3)) }
    ensures differ { IfOk result
        (λ o. IfSome o (λ r. AllPairs (λ line other. line ≢ other) r.lines.items)) }
    ensures others { IfOk result
        (λ o. IfSome o (λ r. AreConforming (calls_of_plan plan.now) text.now r.workers.items)) }
{
    trace_reasons::reason_of_trace(alloc, plan, workers, text)
}

//! The reason of a text.

ghost use Rattle.std.specs.Prelude.{◌≡◌, ◌≤◌, ◌≢◌, ◌↔◌, All, AllPairs, IfNone, IfOk, IfSome, IsErrOf, length, option_map};
ghost use Rattle.plan_compile.specs.PlanCalls.{calls_of_plan};
ghost use Rattle.executor_model.specs.Counts.{IsWorkerCount};
ghost use Rattle.trace_check.specs.Findings.{Breaks, Conforms};
ghost use Rattle.trace_check.specs.Standing.{most_bytes};
ghost use Rattle.trace_reasons.specs.Standing.{CouldStand, AreConforming, IsFaultAt, IsFaultOf, line_at};

use crate::places::line_at;
use crate::reason::TraceReason;
use crate::scene::Scene;
use line_reasons::{LineFault, line_fault};
use plan_read::Plan;
use std::alloc::{AllocError, Allocator};
use trace_check::{CheckError, Finding, check_and_read};
use trace_text::read_line;

/// Why a text is no whole trace of a plan with this many workers, 1 to 64; none where it is one.
///
/// The text has at most [`MOST_BYTES`](trace_check::MOST_BYTES) bytes. The line is that of [`check`](trace_check::check). The errors are
/// [`CheckError::Workers`] exactly where the number of workers is not 1 to 64, and else [`CheckError::Memory`].
pub fn reason_of_trace<'t, A: Allocator + Copy, B: Allocator>(
    alloc: A,
    plan: &Plan<B>,
    workers: u8,
    text: &'t [u8],
) -> Result<Option<TraceReason<'t, A>>, CheckError>
    requires { length text.now ≤ most_bytes }
    ensures workers { IsErrOf result CheckError.Workers ↔ ¬ IsWorkerCount workers }
    ensures conforms { IfOk result
        (λ o. IfNone o (Conforms (calls_of_plan plan.now) workers text.now)) }
    ensures breaks { IfOk result
        (λ o. IfSome o (λ r. Breaks (calls_of_plan plan.now) workers text.now r.line)) }
    ensures found { IfOk result
        (λ o. IfSome o (λ r. option_map (λ found. found.now) r.found ≡ line_at r.line text.now)) }
    ensures fault { IfOk result
        (λ o. IfSome o (λ r. IsFaultAt r.fault (option_map (λ found. found.now) r.found))) }
    ensures lines { IfOk result
        (λ o. IfSome o
        (λ r. All (CouldStand (calls_of_plan plan.now) workers text.now r.line) r.lines.items)) }
    ensures few { IfOk result (λ o. IfSome o (λ r. length r.lines.items ≤ 3)) }
    ensures differ { IfOk result
        (λ o. IfSome o (λ r. AllPairs (λ line other. line ≢ other) r.lines.items)) }
    ensures others { IfOk result
        (λ o. IfSome o (λ r. AreConforming (calls_of_plan plan.now) text.now r.workers.items)) }
{
    let (finding, before) = check_and_read(alloc, plan, workers, text)?;
    match finding {
        Finding::Conforms => Ok(None),
        Finding::Breaks(line) => {
            let scene = Scene {
                alloc,
                plan,
                workers,
                text,
                before: &before,
                line,
            };
            match scene.reason() {
                Ok(reason) => Ok(Some(reason)),
                Err(AllocError) => Err(CheckError::Memory),
            }
        }
    }
}

impl<'t, A: Allocator + Copy, B: Allocator> Scene<'_, 't, A, B> {
    /// The reason. `Err` is a refused growth.
    fn reason(&self) -> Result<TraceReason<'t, A>, AllocError>
        requires size { length self.now.text.now ≤ most_bytes }
        requires breaks { Breaks (calls_of_plan self.now.plan.now) self.now.workers
            self.now.text.now self.now.line }
        ensures line { IfOk result (λ r. r.line ≡ self.now.line) }
        ensures found { IfOk result
            (λ r. option_map (λ found. found.now) r.found
            ≡ line_at self.now.line self.now.text.now) }
        ensures fault { IfOk result
            (λ r. IsFaultAt r.fault (option_map (λ found. found.now) r.found)) }
        ensures lines { IfOk result
            (λ r. All
            (CouldStand (calls_of_plan self.now.plan.now) self.now.workers self.now.text.now
            self.now.line) r.lines.items) }
        ensures few { IfOk result (λ r. length r.lines.items ≤ 3) }
        ensures differ { IfOk result (λ r. AllPairs (λ line other. line ≢ other) r.lines.items) }
        ensures others { IfOk result
            (λ r. AreConforming (calls_of_plan self.now.plan.now) self.now.text.now
            r.workers.items) }
    {
        let found = line_at(self.text, self.line);
        let candidates = self.candidates(found)?;
        Ok(TraceReason {
            line: self.line,
            found,
            fault: found.and_then(fault_of),
            lines: self.standing(&candidates)?,
            workers: self.conforming()?,
        })
    }
}

/// Why a line cannot be read, given with its newline where it has one; none where it can.
fn fault_of(line: &[u8]) -> Option<LineFault<'_>>
    ensures { IsFaultOf result line.now }
{
    match read_line(line) {
        Some(_) => None,
        None => Some(line_fault(line)),
    }
}

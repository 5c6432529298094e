//! The drawing of a trace.

ghost use Rattle.std.specs.Prelude.{ℕ, ◌≤◌, ◌↔◌, List, length, string_bytes, IfErr, IfOk, IsErrOf};
ghost use Rattle.executor_model.specs.Counts.{IsWorkerCount};
ghost use Rattle.trace_check.specs.Standing.{most_bytes};
ghost use Rattle.trace_svg.specs.Drawing.{CountsDrawing, Draws, IsPictureOf, IsTrace, RefusesPicture};

use crate::picture::picture_text;
use crate::report::{DrawError, Drawn};
use crate::view::View;
use byte_ends::{Sink, write_text};
use executor_model::Line;
use plan_compile::names_of_tasks;
use plan_read::Plan;
use std::alloc::Allocator;
use trace_check::{Finding, check_and_read};
use trace_draw::picture;

/// Draws a trace of a plan with this many workers, 1 to 64, as the view asks, and writes the picture.
///
/// The text has at most [`MOST_BYTES`](trace_check::MOST_BYTES) bytes. Where it is no trace of the plan, the answer is the line at
/// which it breaks, as [`check`](trace_check::check) finds it, and nothing is written. The errors come in this order: [`DrawError::Workers`] exactly
/// where the number of workers is not 1 to 64; for a trace of the plan [`DrawError::Window`] where the view ends before it begins, and
/// [`DrawError::Crowded`] where it would show more marks, or else more bars, than it may. [`DrawError::Memory`] may come in place of
/// any answer but the first. At each of them, and at that, nothing is written; at [`DrawError::Write`] a front of the picture. A
/// write is tried again as by [`write_text`]. Nothing is flushed.
pub fn draw<A: Allocator + Copy, B: Allocator, W: Sink>(
    alloc: A,
    plan: &Plan<B>,
    workers: u8,
    trace: &[u8],
    view: View,
    writer: &mut W,
) -> Result<Drawn, DrawError>
    requires { length trace.now ≤ most_bytes }
    ensures draws { Draws result plan.now workers trace.now view (W.contents writer.old)
        (W.contents writer.new) }
    ensures write { CountsDrawing result (W.failed writer.old) (W.fruitless writer.old)
        (W.failed writer.new) (W.fruitless writer.new) }
    ensures workers { IsErrOf result DrawError.Workers ↔ ¬ IsWorkerCount workers }
{
    let (finding, lines) = check_and_read(alloc, plan, workers, trace)?;
    if let Finding::Breaks(line) = finding {
        return Ok(Drawn::Breaks(line));
    }
    let text = picture_of_trace(alloc, plan, workers, &lines, view)?;
    if !write_text(writer, text.as_bytes()) {
        return Err(DrawError::Write);
    }
    Ok(Drawn::Drawn)
}

/// The picture of a trace with these lines.
fn picture_of_trace<A: Allocator + Copy, B: Allocator>(
    alloc: A,
    plan: &Plan<B>,
    workers: u8,
    lines: &[Line],
    view: View,
) -> Result<String<A>, DrawError>
    ensures picture { IfOk result (λ text. (trace : List ℕ)
        → IsTrace plan.now workers trace lines.now
        → IsPictureOf plan.now workers trace view (string_bytes text)) }
    ensures refuses { IfErr result (λ e. (trace : List ℕ)
        → IsTrace plan.now workers trace lines.now
        → RefusesPicture e plan.now workers trace view) }
    ensures workers { IsErrOf result DrawError.Workers → ⊥ }
{
    let Some(window) = view.window(lines) else {
        return Err(DrawError::Window);
    };
    let shown = picture(alloc, lines, workers, window, view.marks)?;
    let names = names_of_tasks(alloc, plan)?;
    Ok(picture_text(alloc, &shown, &names)?)
}

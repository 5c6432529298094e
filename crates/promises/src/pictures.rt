//! What a picture of a trace promises.
ghost use Rattle.std.specs.Prelude.{◌≡◌, ◌≤◌, ◌↔◌, None, length, IfOk, IfErr, IsErrOf};
ghost use Rattle.executor_model.specs.Counts.{IsWorkerCount};
ghost use Rattle.trace_check.specs.Standing.{most_bytes};
ghost use Rattle.trace_draw.specs.Pictures.{picture_of, bars_within, marks_within, crowd, crowd_told};
ghost use Rattle.trace_draw.specs.Scale.{place_of};
ghost use Rattle.trace_svg.specs.Drawing.{CountsDrawing, Draws};

use byte_ends::Sink;
use executor_model::Line;
use plan_read::Plan;
use std::alloc::Allocator;
use trace_draw::{Picture, PictureError, Window};
use trace_svg::{DrawError, Drawn, View};

/// [`trace_draw::picture`].
pub fn picture<A: Allocator + Copy>(
    alloc: A,
    lines: &[Line],
    workers: u8,
    window: Window,
    most: u64,
) -> Result<Picture<A>, PictureError>
    ensures picture { IfOk result (λ p. p ≡ picture_of lines.now workers window) }
    ensures fits { IfOk result (λ p. crowd most p.marks p.bars ≡ None) }
    ensures error { IfErr result
        (λ e. crowd_told e
        ≡ crowd most (marks_within window lines.now) (bars_within window lines.now)) }
{
    trace_draw::picture(alloc, lines, workers, window, most)
}

/// [`trace_draw::place`].
pub fn place(window: Window, width: u32, moment: u64) -> u32
    ensures { result ≡ place_of window width moment }
{
    trace_draw::place(window, width, moment)
}

/// [`trace_svg::draw`].
pub fn draw<A: Allocator + Copy, B: Allocator, W: Sink>(
    alloc: A,
    plan: &Plan<B>,
    workers: u8,
    trace: &[u8],
    view: View,
    writer: &mut W,
) -> Result<Drawn, DrawError>
    requires { length trace.now ≤ most_bytes }
    ensures draws { Draws result plan.now workers trace.now view (W.contents writer.old)
        (W.contents writer.new) }
    ensures write { CountsDrawing result (W.failed writer.old) (W.fruitless writer.old)
        (W.failed writer.new) (W.fruitless writer.new) }
    ensures workers { IsErrOf result DrawError.Workers ↔ ¬ IsWorkerCount workers }
{
    trace_svg::draw(alloc, plan, workers, trace, view, writer)
}

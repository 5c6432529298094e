//! The text of a picture.

ghost use Rattle.std.specs.Prelude.{◌≡◌, IfOk, map, string_bytes};
ghost use Rattle.trace_svg.specs.Shown.{svg_text};

use crate::axis::put_axis;
use crate::elements::{Closing, Opening};
use crate::keys::{put_lanes, put_legend, put_rows};
use crate::piles::put_bars;
use crate::places::{WIDTH, axis_top};
use crate::stacks::put_marks;
use plan_read::Name;
use std::alloc::{AllocError, Allocator};
use std::fmt::Write;
use trace_draw::Picture;

/// The text of a picture as SVG, where `names` has the name of each task at its number.
///
/// A task without a name is shown as `?`. The only error is want of memory.
pub fn picture_text<A: Allocator + Copy, B: Allocator>(
    alloc: A,
    picture: &Picture<B>,
    names: &[&Name],
) -> Result<String<A>, AllocError>
    ensures { IfOk result
        (λ text. string_bytes text ≡ svg_text picture.now (map (λ n. n.now) names.now)) }
{
    let window = picture.window();
    let workers = picture.workers();
    let opening = Opening {
        width: WIDTH,
        height: axis_top(workers) + 30,
    };
    let mut text = format!(in alloc; "{opening}")?;
    put_legend(&mut text)?;
    put_rows(&mut text)?;
    put_lanes(alloc, &mut text, workers)?;
    put_axis(alloc, &mut text, window, workers, picture.ticks())?;
    put_bars(alloc, &mut text, window, names, picture.bars())?;
    put_marks(alloc, &mut text, window, picture.marks())?;
    let closing = Closing;
    write!(text, "{closing}")?;
    Ok(text)
}

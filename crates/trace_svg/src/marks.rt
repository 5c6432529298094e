//! The marks of lines.

ghost use Rattle.std.specs.Prelude.{◌≡◌, ◌++◌, OnOk, string_bytes};
ghost use Rattle.trace_svg.specs.Runs.{line_mark, telling_mark};

use crate::elements::Mark;
use crate::places::{across, glyph_of, height_of};
use executor_model::Line;
use std::alloc::{AllocError, Allocator};
use std::fmt::Write;
use trace_draw::Window;
use trace_text::LineText;

/// Appends the mark of a line, which tells the line.
pub fn put_mark<A: Allocator + Copy>(
    alloc: A,
    text: &mut String<A>,
    window: Window,
    line: Line,
) -> Result<(), AllocError>
    ensures { OnOk result (string_bytes text.new ≡ string_bytes text.old ++ line_mark window line) }
{
    let shown = LineText(line);
    let tip = format!(in alloc; "{shown}")?;
    put_telling_mark(text, window, line, &tip)
}

/// Appends the mark of a line, which tells this.
pub fn put_telling_mark<A: Allocator>(
    text: &mut String<A>,
    window: Window,
    line: Line,
    tip: &str,
) -> Result<(), AllocError>
    ensures { OnOk result
        (string_bytes text.new ≡ string_bytes text.old ++ telling_mark window tip.now line) }
{
    let glyph = glyph_of(line.message());
    let mark = Mark {
        glyph,
        x: across(window, line.moment()),
        y: height_of(glyph),
        tip,
    };
    write!(text, "{mark}")
}

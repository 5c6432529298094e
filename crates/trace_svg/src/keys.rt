//! What a picture says beside its runs and marks: a legend, and the names of rows and lanes.

ghost use Rattle.std.specs.Prelude.{◌≡◌, ◌++◌, OnOk, flat_map, string_bytes};
ghost use Rattle.trace_svg.specs.Keys.{fill_key, glyph_key, legend_text, row_name, row_text, rows_text, lane_text, lanes_text};

use crate::elements::{Face, Fill, Glyph, Label, Mark, Rectangle, Segment, Stroke};
use crate::places::{TIME_BEGINS, TIME_ENDS, height_of, lane_top};
use std::alloc::{AllocError, Allocator};
use std::fmt::Write;

/// The colours of runs, and where each stands in the legend.
const FILLS: [(Fill, u16); 6] = [
    (Fill::Done, 110),
    (Fill::Failed, 190),
    (Fill::Again, 270),
    (Fill::Dropped, 350),
    (Fill::Ended, 430),
    (Fill::Open, 510),
];

/// The shapes of marks, and where each stands in the legend.
const GLYPHS: [(Glyph, u16); 11] = [
    (Glyph::Submit, 115),
    (Glyph::Refuse, 195),
    (Glyph::Cancel, 275),
    (Glyph::Outside, 355),
    (Glyph::End, 445),
    (Glyph::Policy, 525),
    (Glyph::Shutdown, 605),
    (Glyph::Ask, 695),
    (Glyph::Clock, 775),
    (Glyph::Idle, 855),
    (Glyph::Error, 935),
];

/// The kinds of marks that name the rows.
pub const ROWS: [Glyph; 6] = [
    Glyph::Submit,
    Glyph::Cancel,
    Glyph::End,
    Glyph::Shutdown,
    Glyph::Clock,
    Glyph::Idle,
];

/// Appends the legend.
pub fn put_legend<A: Allocator>(text: &mut String<A>) -> Result<(), AllocError>
    ensures { OnOk result (string_bytes text.new ≡ string_bytes text.old ++ legend_text) }
{
    put_fills(text, &FILLS)?;
    put_glyphs(text, &GLYPHS)
}

/// Appends a legend of colours.
fn put_fills<A: Allocator>(text: &mut String<A>, keys: &[(Fill, u16)]) -> Result<(), AllocError>
    ensures { OnOk result
        (string_bytes text.new ≡ string_bytes text.old ++ flat_map fill_key keys.now) }
{
    for key in keys {
        put_fill(text, *key)?;
    }
    Ok(())
}

/// Appends a colour with its word.
fn put_fill<A: Allocator>(text: &mut String<A>, key: (Fill, u16)) -> Result<(), AllocError>
    ensures { OnOk result (string_bytes text.new ≡ string_bytes text.old ++ fill_key key) }
{
    let fill = key.0;
    let x = u32::from(key.1);
    let swatch = Rectangle {
        fill,
        left: x,
        top: 8,
        width: 14,
        height: 14,
        tip: fill.word(),
    };
    let label = Label {
        face: Face::Key,
        x: x + 20,
        y: 19,
        text: fill.word(),
    };
    write!(text, "{swatch}{label}")
}

/// Appends a legend of shapes.
fn put_glyphs<A: Allocator>(text: &mut String<A>, keys: &[(Glyph, u16)]) -> Result<(), AllocError>
    ensures { OnOk result
        (string_bytes text.new ≡ string_bytes text.old ++ flat_map glyph_key keys.now) }
{
    for key in keys {
        put_glyph(text, *key)?;
    }
    Ok(())
}

/// Appends a shape with its word.
fn put_glyph<A: Allocator>(text: &mut String<A>, key: (Glyph, u16)) -> Result<(), AllocError>
    ensures { OnOk result (string_bytes text.new ≡ string_bytes text.old ++ glyph_key key) }
{
    let glyph = key.0;
    let x = u32::from(key.1);
    let mark = Mark {
        glyph,
        x,
        y: 37,
        tip: glyph.word(),
    };
    let label = Label {
        face: Face::Key,
        x: x + 12,
        y: 41,
        text: glyph.word(),
    };
    write!(text, "{mark}{label}")
}

/// Appends the rows of marks.
pub fn put_rows<A: Allocator>(text: &mut String<A>) -> Result<(), AllocError>
    ensures { OnOk result (string_bytes text.new ≡ string_bytes text.old ++ rows_text) }
{
    put_each_row(text, &ROWS)
}

/// Appends rows of marks.
fn put_each_row<A: Allocator>(text: &mut String<A>, glyphs: &[Glyph]) -> Result<(), AllocError>
    ensures { OnOk result
        (string_bytes text.new ≡ string_bytes text.old ++ flat_map row_text glyphs.now) }
{
    for glyph in glyphs {
        put_row(text, *glyph)?;
    }
    Ok(())
}

/// Appends a row: its name, and a line.
fn put_row<A: Allocator>(text: &mut String<A>, glyph: Glyph) -> Result<(), AllocError>
    ensures { OnOk result (string_bytes text.new ≡ string_bytes text.old ++ row_text glyph) }
{
    let height = height_of(glyph);
    let label = Label {
        face: Face::Row,
        x: 100,
        y: height + 4,
        text: row_name(glyph),
    };
    let line = Segment {
        stroke: Stroke::Lane,
        from: (TIME_BEGINS, height),
        to: (TIME_ENDS, height),
    };
    write!(text, "{label}{line}")
}

/// The name of the row of a kind of marks.
fn row_name(glyph: Glyph) -> &'static str
    ensures { result.now ≡ row_name glyph }
{
    match glyph {
        Glyph::Submit | Glyph::Refuse => "submissions",
        Glyph::Cancel | Glyph::Outside => "cancels",
        Glyph::End => "ends",
        Glyph::Policy | Glyph::Shutdown | Glyph::Ask => "executor",
        Glyph::Clock => "clock",
        Glyph::Idle | Glyph::Error => "idle, errors",
    }
}

/// Appends the lanes of this number of workers.
pub fn put_lanes<A: Allocator + Copy>(
    alloc: A,
    text: &mut String<A>,
    workers: u8,
) -> Result<(), AllocError>
    ensures { OnOk result (string_bytes text.new ≡ string_bytes text.old ++ lanes_text workers) }
{
    for worker in 0..workers {
        put_lane(alloc, text, worker)?;
    }
    Ok(())
}

/// Appends a lane: the number of its worker, and its foot.
fn put_lane<A: Allocator + Copy>(
    alloc: A,
    text: &mut String<A>,
    worker: u8,
) -> Result<(), AllocError>
    ensures { OnOk result (string_bytes text.new ≡ string_bytes text.old ++ lane_text worker) }
{
    let top = lane_top(worker);
    let name = format!(in alloc; "worker {worker}")?;
    let label = Label {
        face: Face::Row,
        x: 100,
        y: top + 15,
        text: &name,
    };
    let foot = Segment {
        stroke: Stroke::Lane,
        from: (TIME_BEGINS, top + 25),
        to: (TIME_ENDS, top + 25),
    };
    write!(text, "{label}{foot}")
}

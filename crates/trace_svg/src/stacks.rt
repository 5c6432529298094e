//! The marks of rows, as stacks: those that stand at one place have their number.

ghost use Rattle.std.specs.Prelude.{◌≡◌, ◌≤◌, ◌<◌, ◌∷◌, ◌++◌, length, take, drop, IfOk, OnOk, flat_map, string_bytes};
ghost use Rattle.trace_text.specs.Spelling.{line_text};
ghost use Rattle.trace_svg.specs.Groups.{groups_of};
ghost use Rattle.trace_svg.specs.Runs.{line_mark, telling_mark};
ghost use Rattle.trace_svg.specs.Stacks.{mark_height, marks_in, stack_across, stack_height, stack_label, stack_text, stacks_in, stacks_of, stands_on};

use crate::elements::{Face, Glyph, Label};
use crate::keys::ROWS;
use crate::marks::{put_mark, put_telling_mark};
use crate::places::{across, glyph_of, height_of};
use executor_model::Line;
use std::alloc::{AllocError, Allocator};
use std::fmt::Write;
use trace_draw::Window;
use trace_text::LineText;

/// Appends the marks of lines, row by row.
pub fn put_marks<A: Allocator + Copy>(
    alloc: A,
    text: &mut String<A>,
    window: Window,
    lines: &[Line],
) -> Result<(), AllocError>
    ensures { OnOk result
        (string_bytes text.new
        ≡ string_bytes text.old ++ flat_map (stack_text window) (stacks_of window lines.now)) }
{
    put_rows(alloc, text, window, lines, &ROWS)
}

/// Appends the marks of these rows.
fn put_rows<A: Allocator + Copy>(
    alloc: A,
    text: &mut String<A>,
    window: Window,
    lines: &[Line],
    rows: &[Glyph],
) -> Result<(), AllocError>
    ensures { OnOk result
        (string_bytes text.new
        ≡ string_bytes text.old
        ++ flat_map (λ row. flat_map (stack_text window) (stacks_in window row lines.now))
        rows.now) }
{
    for row in rows {
        put_row(alloc, text, window, lines, *row)?;
    }
    Ok(())
}

/// Appends the marks of a row.
fn put_row<A: Allocator + Copy>(
    alloc: A,
    text: &mut String<A>,
    window: Window,
    lines: &[Line],
    row: Glyph,
) -> Result<(), AllocError>
    ensures { OnOk result
        (string_bytes text.new
        ≡ string_bytes text.old ++ flat_map (stack_text window) (stacks_in window row lines.now)) }
{
    let marks = row_of(alloc, lines, row)?;
    put_stacks(alloc, text, window, &marks)
}

/// The lines whose marks stand in a row, in their order.
fn row_of<A: Allocator>(alloc: A, lines: &[Line], row: Glyph) -> Result<Vec<Line, A>, AllocError>
    ensures { IfOk result (λ marks. marks.items ≡ marks_in row lines.now) }
{
    let height = height_of(row);
    let mut marks = Vec::new(alloc);
    for line in lines {
        if mark_height(line) == height {
            marks.push(*line)?;
        }
    }
    Ok(marks)
}

/// How high the mark of a line stands.
fn mark_height(line: &Line) -> u32
    ensures { result ≡ mark_height line.now }
{
    height_of(glyph_of(line.message()))
}

/// Appends the stacks that the marks of a row are.
fn put_stacks<A: Allocator + Copy>(
    alloc: A,
    text: &mut String<A>,
    window: Window,
    marks: &[Line],
) -> Result<(), AllocError>
    ensures { OnOk result
        (string_bytes text.new
        ≡ string_bytes text.old
        ++ flat_map (stack_text window) (groups_of (stands_on window) marks.now)) }
{
    let mut rest = marks;
    while !rest.is_empty() {
        let (stack, behind) = rest.split_at(stack_len(window, rest));
        put_stack(alloc, text, window, stack)?;
        rest = behind;
    }
    Ok(())
}

/// How many marks the first stack of a row has, where the row has a mark.
fn stack_len(window: Window, marks: &[Line]) -> usize
    requires { 0 < length marks.now }
    ensures some { 0 < result }
    ensures within { result ≤ length marks.now }
    ensures stack { groups_of (stands_on window) marks.now
        ≡ take result marks.now ∷ groups_of (stands_on window) (drop result marks.now) }
{
    let place = across(window, marks[0].moment());
    for index in 1..marks.len() {
        if across(window, marks[index].moment()) != place {
            return index;
        }
    }
    marks.len()
}

/// Appends a stack.
fn put_stack<A: Allocator + Copy>(
    alloc: A,
    text: &mut String<A>,
    window: Window,
    stack: &[Line],
) -> Result<(), AllocError>
    ensures { OnOk result
        (string_bytes text.new ≡ string_bytes text.old ++ stack_text window stack.now) }
{
    match stack {
        [] => Ok(()),
        [line] => put_mark(alloc, text, window, *line),
        [below @ .., top] => {
            put_each_mark(alloc, text, window, below)?;
            put_top(alloc, text, window, stack, *top)
        }
    }
}

/// Appends marks, each of which tells its line.
fn put_each_mark<A: Allocator + Copy>(
    alloc: A,
    text: &mut String<A>,
    window: Window,
    lines: &[Line],
) -> Result<(), AllocError>
    ensures { OnOk result
        (string_bytes text.new ≡ string_bytes text.old ++ flat_map (line_mark window) lines.now) }
{
    for line in lines {
        put_mark(alloc, text, window, *line)?;
    }
    Ok(())
}

/// Appends the top mark of a stack, which tells all lines of the stack, and how many marks there are.
fn put_top<A: Allocator + Copy>(
    alloc: A,
    text: &mut String<A>,
    window: Window,
    stack: &[Line],
    top: Line,
) -> Result<(), AllocError>
    ensures { OnOk result
        (string_bytes text.new
        ≡ string_bytes text.old
        ++ (telling_mark window (flat_map line_text stack.now) top
        ++ stack_label window stack.now)) }
{
    let tip = stack_tip(alloc, stack)?;
    put_telling_mark(text, window, top, &tip)?;
    put_number(alloc, text, window, stack)
}

/// The tooltip of the top of a stack: all its lines.
fn stack_tip<A: Allocator + Copy>(alloc: A, stack: &[Line]) -> Result<String<A>, AllocError>
    ensures { IfOk result (λ text. string_bytes text ≡ flat_map line_text stack.now) }
{
    let mut tip = String::new(alloc);
    for line in stack {
        let line = LineText(*line);
        write!(tip, "{line}")?;
    }
    Ok(tip)
}

/// Appends how many marks a stack has, at its upper right.
fn put_number<A: Allocator + Copy>(
    alloc: A,
    text: &mut String<A>,
    window: Window,
    stack: &[Line],
) -> Result<(), AllocError>
    ensures { OnOk result
        (string_bytes text.new ≡ string_bytes text.old ++ stack_label window stack.now) }
{
    let count = stack.len();
    let number = format!(in alloc; "{count}")?;
    let label = Label {
        face: Face::Count,
        x: stack_across(window, stack) + 6,
        y: stack_height(stack).saturating_sub(3),
        text: &number,
    };
    write!(text, "{label}")
}

/// Where a stack stands, from the left.
fn stack_across(window: Window, stack: &[Line]) -> u32
    ensures place { result ≡ stack_across window stack.now }
    ensures within { result ≤ 1170 }
{
    match stack.first() {
        Some(line) => across(window, line.moment()),
        None => 0,
    }
}

/// Where a stack stands, from the top.
fn stack_height(stack: &[Line]) -> u32
    ensures { result ≡ stack_height stack.now }
{
    match stack.first() {
        Some(line) => mark_height(line),
        None => 0,
    }
}

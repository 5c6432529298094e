//! The picture of the lines of a trace.
ghost use Rattle.std.specs.Prelude.{◌≡◌, None, length, IfOk, IfErr};
ghost use Rattle.trace_draw.specs.Bars.{shows_bar, bars_of};
ghost use Rattle.trace_draw.specs.Pictures.{picture_of, bars_within, marks_within, crowd, crowd_told};

use crate::axis::ticks;
use crate::bars::Bar;
use crate::ends::Ends;
use crate::error::PictureError;
use crate::marks::{is_mark, shows};
use crate::shown::Picture;
use crate::window::Window;
use executor_model::Line;
use std::alloc::{AllocError, Allocator};

/// The picture of the lines of a trace, which stand in its order.
///
/// It shows each run of which the window shows a part as one bar, each other line but a purge that the window shows as one mark,
/// and ticks.
/// The error is [`PictureError::Crowded`] exactly where more than `most` marks, or else more than `most` bars, would be shown; else
/// [`PictureError::Memory`] may come.
pub fn picture<A: Allocator + Copy>(
    alloc: A,
    lines: &[Line],
    workers: u8,
    window: Window,
    most: u64,
) -> Result<Picture<A>, PictureError>
    ensures picture { IfOk result (λ p. p ≡ picture_of lines.now workers window) }
    ensures fits { IfOk result (λ p. crowd most p.marks p.bars ≡ None) }
    ensures error { IfErr result
        (λ e. crowd_told e
        ≡ crowd most (marks_within window lines.now) (bars_within window lines.now)) }
{
    let marks = count_marks(lines, window);
    if marks > most {
        return Err(PictureError::Crowded { marks });
    }
    let bars = count_bars(lines, window);
    if bars > most {
        return Err(PictureError::Crowded { marks: bars });
    }
    let bars = bars_in(alloc, lines, window)?;
    let marks = marks_in(alloc, lines, window)?;
    let ticks = ticks(alloc, window)?;
    Ok(Picture::new(window, workers, bars, marks, ticks))
}

/// Whether a window shows a part of a run.
fn shows_bar(window: Window, bar: &Bar) -> bool
    ensures { result ≡ shows_bar window bar.now }
{
    bar.first <= window.to()
        && match bar.finish {
            None => true,
            Some(finish) => window.from() <= finish.moment,
        }
}

/// How many of the lines are marks that a window shows.
fn count_marks(lines: &[Line], window: Window) -> u64
    ensures { result ≡ length (marks_within window lines.now) }
{
    lines
        .iter()
        .filter(|line| is_mark(line))
        .filter(|line| shows(window, line.moment()))
        .count() as u64
}

/// The lines that are marks, where a window shows them.
fn marks_in<A: Allocator>(
    alloc: A,
    lines: &[Line],
    window: Window,
) -> Result<Vec<Line, A>, AllocError>
    ensures { IfOk result (λ marks. marks.items ≡ marks_within window lines.now) }
{
    let mut marks = Vec::new(alloc);
    for line in lines {
        if is_mark(line) && shows(window, line.moment()) {
            marks.push(*line)?;
        }
    }
    Ok(marks)
}

/// Of how many of the bars of some lines a window shows a part.
fn count_bars(lines: &[Line], window: Window) -> u64
    ensures { result ≡ length (bars_within window lines.now) }
{
    let mut ends = Ends::new();
    let mut count = 0;
    let size = lines.len();
    for index in (0..size).rev() {
        if let Some(bar) = ends.read(&lines[index]) {
            if shows_bar(window, &bar) {
                count += 1;
            }
        }
    }
    count
}

/// The bars of some lines of which a window shows a part.
fn bars_in<A: Allocator>(
    alloc: A,
    lines: &[Line],
    window: Window,
) -> Result<Vec<Bar, A>, AllocError>
    ensures { IfOk result (λ bars. bars.items ≡ bars_within window lines.now) }
{
    let mut ends = Ends::new();
    let mut bars = Vec::new(alloc);
    for index in (0..lines.len()).rev() {
        if let Some(bar) = ends.read(&lines[index]) {
            if shows_bar(window, &bar) {
                bars.push(bar)?;
            }
        }
    }
    bars.reverse();
    Ok(bars)
}

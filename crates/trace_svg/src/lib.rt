//! Pictures of traces, as SVG.
//!
//! # Usage
//!
//! ```rust
//! let plan = read_plan(alloc, b"version = 2\n")?; // of no calls
//! let view = View {
//!     from: None,
//!     to: None,
//!     marks: 2_000,
//! };
//! let mut writer = Writing::new(Vec::new(alloc));
//! let drawn = draw(alloc, &plan, 1, b"5 clock\n", view, &mut writer)?;
//! assert!(rt; matches!(drawn, Drawn::Drawn));
//! let drawn = draw(alloc, &plan, 1, b"5 clock", view, &mut writer)?; // nothing is written
//! assert!(rt; matches!(drawn, Drawn::Breaks(1)));
//! assert!(rt; writer.into_inner().starts_with(b"<svg "));
//! ```
//!
//! # Behaviour
//!
//! A text is drawn exactly where it is a trace of the plan, as [`check`](trace_check::check) finds it. A [`View`] says which part of
//! time is shown: what it leaves out is that of the trace. What is shown of the trace is a [`Picture`](trace_draw::Picture).
//!
//! | What | Where, in pixels |
//! |---|---|
//! | a moment | from 110 to 1,170 from the left, by [`place`](trace_draw::place) |
//! | the legend | the first two rows: the colours of runs, and the shapes of marks |
//! | a mark | a row for each of submissions and refusals; cancels; ends of tasks; policies, shutdowns and questions; clocks; idle workers and errors |
//! | a bar | the lane of its worker, from its start to its finish, or to the end of the picture where it has none; 3 wide at least |
//! | a label | in its bar, where that has 7 for each letter, and 8 more: the name of the task and the number of the run |
//! | the number of runs | in the bar of a pile, as its label; where that does not fit, at its upper right, above its lane |
//! | the number of marks | at the upper right of the marks of a row that stand at one place, where there are several |
//! | the axis | below the lanes: a line through them for each tick, and its moment |
//!
//! A purge is not drawn. The tooltip of a mark is its line of the trace; that of a bar the name of its task and its one or two lines. A bar's colour tells
//! what the run led to: done, failed, again, dropped, ended, or open where it has no finish.
//!
//! No run hides another. The bars of a lane, in their order, are *piles*: a bar that begins left of where the pile before it ends
//! goes to that pile, and else it begins the next. A pile of one is the bar that it is. One of several is drawn as one bar, from
//! where its first bar begins to where it reaches furthest to the right. Its label is their number, `2 runs`; where that does not
//! fit, the number alone stands at its upper right, above its lane, where no bar hides it. Its tooltip is the label, and then the
//! tooltips of its runs. It has the colour of failed runs where one of its runs failed, and else that of its last run.
//!
//! Nor does a mark hide the line of another. The marks of a row that stand at one place, one behind the other, are a *stack*. A
//! stack of one is the mark that it is. Of several each is drawn above the one before it; the top tells all their lines; and
//! their number stands at its upper right. Marks of a row that stand a few pixels apart lie over one another in part, and so do
//! numbers.
//!
//! # Order and ties
//!
//! Bars stand above lines, and marks above bars. Bars are drawn lane by lane, and marks row by row: in a lane and in a row as they
//! come in the trace.
//!
//! # Errors
//!
//! [`DrawError`], in this order: `Workers`, `Window`, `Crowded`. At these and at `Memory` nothing is written, and at `Write` a front of
//! the picture.
//!
//! # What is proved
//!
//! The text of a picture, byte by byte, and what was written of it. Of piles and stacks, over their definitions: the piles of a
//! lane are its bars and the stacks of a row its marks, each once and in order ([`piles_hold_bars`], [`stacks_hold_marks`]), and
//! together they have as many as the picture ([`bars_are_counted`], [`marks_are_counted`]); each bar of a pile but the first
//! begins left of where those before it end ([`bars_lie_on_piles`]), while the piles of a lane do not overlap
//! ([`piles_do_not_overlap`]); and all marks of a stack stand at its place ([`stacks_hold_marks`]). In the picture of a trace a
//! pile reaches over each of its bars ([`piles_reach_over_bars`]), each of them but the first lies over one before it
//! ([`bars_of_piles_overlap`]), and no two stacks of a row stand at one place ([`stacks_stand_apart`]).
//!
//! That a picture is drawn where there is memory enough, and that all of it is given back, is only tested.
//!
//! # Memory and cost
//!
//! A check takes what [`check`](trace_check::check) takes, and the lines of the trace; then come the picture and its text, some 200 bytes
//! for each bar or mark. Bars are gone over once for each of the 256 workers that a line can name, and marks once for each row; those
//! of one lane or row are copied meanwhile.
//!
//! The tests stand in `picture_tests`.
#![tactic(auto)]

mod axis;
mod drawing;
pub mod elements;
mod keys;
mod laws;
mod marks;
mod picture;
mod piles;
mod places;
mod report;
mod runs;
mod stacks;
mod view;

pub use drawing::draw;
pub use laws::{
    bars_are_counted, bars_lie_on_piles, bars_of_piles_overlap, marks_are_counted,
    piles_do_not_overlap, piles_hold_bars, piles_reach_over_bars, stacks_hold_marks,
    stacks_stand_apart,
};
pub use picture::picture_text;
pub use report::{DrawError, Drawn};
pub use view::View;

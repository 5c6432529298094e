//! What a picture of a trace shows: bars for the runs, marks for other lines, and an axis of time.
//!
//! # Usage
//!
//! [`check_and_read`](trace_check::check_and_read) reads the lines of a trace, [`whole_window`] tells the part of time that they
//! take, and [`picture`] makes the picture. [`place`] says where a moment stands in it. No picture is drawn here: a layer above
//! turns the value into text.
//!
//! ```rust
//! let plan =
//!     b"version = 2\n[[block]]\ncall = [ { op = \"schedule\", name = \"a\", delay = 5 } ]\n";
//! let plan = read_plan(alloc, plan)?;
//! let text = "0 submit 0 schedule due 5\n5 clock\n5 start 0 task 0 run 0 due 5\n\
//!     9 clock\n9 finish 0 task 0 run 0 done 7\n";
//! let (_, lines) = check_and_read(alloc, &plan, 1, text.as_bytes())?;
//! let window = whole_window(&lines); // from 0 to 9
//! let shown = picture(alloc, &lines, 1, window, 2_000)?;
//! assert_eq!(rt; shown.bars().len(), 1); // from the start at 5 to the finish at 9
//! assert_eq!(rt; shown.marks().len(), 3); // the submission, and two clocks
//! assert_eq!(rt; shown.ticks().len(), 5); // 0 ns, 2 ns, and so on to 8 ns
//! assert_eq!(rt; place(window, 900, 5), 500);
//! ```
//!
//! # Behaviour
//!
//! A [`Bar`] stands for each line that starts a run: from its moment to the first finish by the same worker behind it, or open,
//! where there is none. Each other line is a mark, unless it finishes a run or is a purge: a submission, a refusal, a cancel, the
//! end of a task, a policy, a shutdown, an `ask`, a clock, a worker that is idle, an error. A picture shows the bars of which its
//! [`Window`] has a part, also where they reach over an end of it ([`starts_have_bars`]), and no others
//! ([`bars_meet_the_window`]); and a mark for each such line within it
//! ([`lines_have_marks`]), and no others ([`marks_are_lines`]). Both ends of a window are shown.
//!
//! The lines may be any. Of those of a trace that conforms more is so: their moments do not fall ([`moments_do_not_fall`]), the
//! finish of a bar is that of its own task and run ([`finishes_are_their_own`]), bars in one lane do not overlap
//! ([`bars_do_not_overlap`]), no run has two bars ([`no_run_has_two_bars`]), and each worker has as many finishes as bars that
//! have one ([`finishes_are_counted`]). So each of their lines but a purge is shown once: [`lines_are_counted`].
//!
//! [`Tick`]s stand at each multiple of a step that the window shows: the first step of 1, 2, 5, 10, 20, 50, 100, 200, 500 ns, the
//! same of us and ms, 1, 2, 5, 10, 15, 30 s and min, 1, 2, 3, 6, 12 h, and 1, 2, 5 d and so on to 50,000 d, of which seven reach over
//! it. So there are eight at most ([`ticks_are_few`]), and each says its moment exactly ([`ticks_stand`]).
//!
//! [`place`] rounds down, never lets a later moment stand before an earlier one ([`places_rise`]), and puts the ends of a window at
//! 0 and at the width ([`places_reach_the_ends`]).
//!
//! # Order and ties
//!
//! Lines stand in the order of the trace, the oldest first. Bars stand in the order of their starts, marks in that of their lines,
//! ticks ascend.
//!
//! # Errors
//!
//! [`PictureError::Crowded`] tells how many marks the window shows, where they are more than asked for, and else how many bars. It
//! is found before any memory is taken, and comes exactly then. [`PictureError::Memory`] comes where a growth was refused. Nothing
//! is kept after an error.
//!
//! # Memory and cost
//!
//! A picture takes memory for what it shows alone. Lines are gone over twice for marks and twice for bars, from the last one to the
//! first, with a table of 256 workers: time grows with the number of lines, whatever they are.
//!
//! # Tests
//!
//! They stand in `picture_tests`.
#![tactic(auto)]

mod axis;
mod axis_laws;
mod bars;
mod drawing;
mod ends;
mod equality;
mod error;
mod laws;
mod marks;
mod scale;
mod shown;
mod steps;
mod ticks;
mod whole;
mod window;

pub use axis_laws::{
    multiples_have_ticks, places_are_exact, places_are_within, places_reach_the_ends, places_rise,
    steps_reach, ticks_are_few, ticks_ascend, ticks_stand, whole_is_first_to_last, whole_shows_all,
};
pub use bars::{Bar, Finish};
pub use drawing::picture;
pub use equality::{
    bar_equality_tells, finish_equality_tells, picture_error_equality_tells, tick_equality_tells,
    window_equality_tells,
};
pub use error::PictureError;
pub use laws::{
    bars_are_in_lanes, bars_do_not_overlap, bars_meet_the_window, bars_start,
    conforming_texts_are_traces, finishes_are_counted, finishes_are_their_own, lines_are_counted,
    lines_have_marks, marks_are_lines, moments_do_not_fall, no_run_has_two_bars, starts_have_bars,
};
pub use scale::place;
pub use shown::Picture;
pub use ticks::Tick;
pub use whole::whole_window;
pub use window::Window;

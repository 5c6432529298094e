//! Pictures of small traces, by hand.
mod axes;
mod heaps;
mod scales;
mod shown;
mod usage;
mod windows;

use crate::traces::lines_of;
use executor_model::Line;
use std::alloc::Global;
use std::process::Abort;
use std::test::Fail;
use trace_draw::{Picture, PictureError, Window, picture};

/// A worker that runs two tasks, one of them twice, beside another that is still at work at the end.
const TRACE: &str = "\
0 submit 0 rate due 10
0 submit 1 schedule due 10
10 clock
10 start 0 task 0 run 0 due 10
12 start 1 task 1 run 0 due 10
15 finish 0 task 0 run 0 again due 20
15 start 0 idle
20 clock
20 start 0 task 0 run 1 due 20
24 outside 1 yes
30 finish 0 task 0 run 1 failed 3
30 shutdown now
";

/// What came of the picture of a text's lines in a window, with at most so many marks and bars.
fn answered(
    alloc: Global,
    text: &str,
    from: u64,
    to: u64,
    most: u64,
) -> Result<Result<Picture<Global>, PictureError>, Fail> {
    let lines = lines_of(alloc, text)?;
    let Some(window) = Window::new(from, to) else {
        return Err(Fail::from("no window"));
    };
    Ok(picture(alloc, &lines, 2, window, most))
}

/// The picture of a text's lines in a window, with at most so many marks and bars.
fn drawn(
    alloc: Global,
    text: &str,
    from: u64,
    to: u64,
    most: u64,
) -> Result<Picture<Global>, Fail> {
    Ok(answered(alloc, text, from, to, most)??)
}

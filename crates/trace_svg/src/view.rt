//! What of a trace is shown.

ghost use Rattle.std.specs.Prelude.{◌<◌, MatchOption};
ghost use Rattle.trace_svg.specs.Drawing.{IsViewOf, view_begins, view_ends};

use executor_model::Line;
use trace_draw::{Window, whole_window};

/// What of a trace is shown.
#[derive(Clone, Copy, Debug)]
pub struct View {
    /// The first moment, in nanoseconds. `None` is that of the trace.
    pub from: Option<u64>,
    /// The last moment, in nanoseconds. `None` is that of the trace.
    pub to: Option<u64>,
    /// How many marks, and how many bars, there may be.
    pub marks: u64,
}

impl View {
    /// The part of time that it shows of lines: `None` exactly where it ends before it begins.
    pub(crate) fn window(self, lines: &[Line]) -> Option<Window>
        ensures { MatchOption result (view_ends self lines.now < view_begins self lines.now)
            (IsViewOf self lines.now) }
    {
        let whole = whole_window(lines);
        let from = self.from.unwrap_or(whole.from());
        let to = self.to.unwrap_or(whole.to());
        Window::new(from, to)
    }
}

//! The lines that are marks.
ghost use Rattle.std.specs.Prelude.{◌≡◌, ◌&&◌};
ghost use Rattle.trace_draw.specs.Marks.{is_mark, shows};

use crate::window::Window;
use executor_model::{Answer, Line, Message};

/// Whether a line is a mark: it starts no run, finishes none, and is no purge.
pub fn is_mark(line: &Line) -> bool
    ensures { result ≡ is_mark line.now.message }
{
    !matches!(
        line.message(),
        Message::Answer(Answer::Start { .. } | Answer::Finish { .. } | Answer::Purge)
    )
}

/// Whether a window shows a moment.
pub fn shows(window: Window, moment: u64) -> bool
    ensures { result ≡ shows window moment }
{
    window.from() <= moment && moment <= window.to()
}
